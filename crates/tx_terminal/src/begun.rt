// What the bytes that a terminal was given have begun.
ghost use Rattle.std.specs.Prelude.{◌≡◌, ◌-◌, ◌≤◌, ◌≢◌, ◌++◌, [], ◌∷◌, false};
ghost use Rattle.tx_terminal.specs.Characters.{character_length, is_second};
ghost use Rattle.tx_terminal.specs.Terminals.{continues};
ghost use Rattle.tx_terminal.specs.Numbers.{may_ask};

use crate::cells::Glyphs;
use crate::numbers::Number;
use std::alloc::Global;
use std::marker::Model;

// A control sequence: whether `?` follows `CSI`, the numbers that are ended, and the one that goes on.
#[derive(Drop)]
pub(crate) struct Sequence {
    pub(crate) asked: bool,
    pub(crate) done: Vec<Number>,
    pub(crate) last: Number,
}

impl Sequence {
    // After `CSI` alone.
    pub(crate) fn new(alloc: Global) -> Sequence
        ensures asked { result.asked ≡ false }
        ensures done { result.done.items ≡ [] }
        ensures last { result.last ≡ 0 }
    {
        Sequence {
            asked: false,
            done: Vec::new(alloc),
            last: Number::new(alloc),
        }
    }

    // Whether `?` may follow: nothing has yet, and no number is begun but 0.
    pub(crate) fn may_ask(&self) -> bool
        ensures { result ≡ may_ask self.now.asked self.now.done.items self.now.last }
    {
        !self.asked && (self.done.is_empty() && self.last.is(0))
    }
}

// How many bytes the character has that a byte begins; 0 for a control, and where none begins with it.
pub(crate) fn length_after(byte: u8) -> u8
    ensures { result ≡ character_length byte }
{
    match byte {
        0x20..=0x7e => 1,
        0xc2..=0xdf => 2,
        0xe0..=0xef => 3,
        0xf0..=0xf4 => 4,
        _ => 0,
    }
}

// Whether a byte may be the second one after a first one.
fn is_second_after(first: u8, byte: u8) -> bool
    ensures { result ≡ is_second first byte }
{
    let least = match first {
        0xc2 | 0xe0 => 0xa0,
        0xf0 => 0x90,
        _ => 0x80,
    };
    let most = match first {
        0xed => 0x9f,
        0xf4 => 0x8f,
        _ => 0xbf,
    };
    least <= byte && byte <= most
}

// A character: how many of its bytes are to come, and those that came.
#[derive(Drop)]
pub(crate) struct Partial {
    left: u8,
    glyphs: Glyphs,
}

impl Model for Partial {
    ghost use Rattle.std.specs.Prelude.{◌+◌, ◌≤◌, ℕ, List, length};

    ghost Value = { ℕ × List ℕ };

    ghost view = { λ p. (p.left, p.glyphs) };

    ghost invariant = { λ p. (1 ≤ p.left) × (p.left + length p.glyphs ≤ 4) };
}

impl Partial {
    // After the first byte.
    pub(crate) fn new(left: u8, first: u8) -> Partial
        requires some { 1 ≤ left }
        requires few { left ≤ 3 }
        ensures { result ≡ (left, first ∷ []) }
    {
        Partial {
            left,
            glyphs: Glyphs::one(first),
        }
    }

    // How many bytes are to come.
    pub(crate) fn left(&self) -> u8
        ensures { result ≡ self.now.0 }
    {
        self.left
    }

    // Whether a byte goes on with it.
    pub(crate) fn goes_on(&self, byte: u8) -> bool
        ensures { result ≡ continues self.now.1 byte }
    {
        match self.glyphs.bytes() {
            [] => false,
            [first] => is_second_after(*first, byte),
            _ => 0x80 <= byte && byte <= 0xbf,
        }
    }

    // All its bytes, with the last one.
    pub(crate) fn ended(self, byte: u8) -> Glyphs
        ensures { result ≡ self.1 ++ byte ∷ [] }
    {
        let mut glyphs = self.glyphs;
        glyphs.push(byte);
        glyphs
    }

    // With one byte more, which isn't its last one.
    pub(crate) fn longer(self, byte: u8) -> Partial
        requires { self.0 ≢ 1 }
        ensures { result ≡ (self.0 - 1, self.1 ++ byte ∷ []) }
    {
        let left = self.left - 1;
        let mut glyphs = self.glyphs;
        glyphs.push(byte);
        Partial { left, glyphs }
    }
}

// What has begun.
#[derive(Drop)]
pub(crate) enum Begun {
    Nothing,
    Escape,
    Control(Sequence),
    Character(Partial),
    // Nothing is known of the terminal.
    Lost,
}
