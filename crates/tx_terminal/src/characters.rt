// Characters of a row.
ghost use Rattle.std.specs.Prelude.{◌≡◌, ◌≤◌, ◌&&◌, ◌∷◌, [], true, false, length, nat_le, take, Some, None, IfSome};
ghost use Rattle.std.specs.Prelude.{◌↔◌, IsTrue};
ghost use Rattle.std.specs.List.{list_all};
ghost use Rattle.tx_terminal.specs.Characters.{Shown, IsShown, character_length, least_second, most_second};
ghost use Rattle.tx_terminal.specs.Characters.{is_second, is_later, is_character};

use crate::inks::Ink;
use std::marker::Model;

/// A character of a row: its bytes in UTF-8, the cells that a terminal shows it in, and how it is shown.
#[derive(Drop)]
pub struct Character {
    held: [u8; 4],
    len: u8,
    cells: u8,
    ink: Ink,
}

impl Model for Character {
    ghost use Rattle.tx_terminal.specs.Characters.{Shown, IsShown};
    ghost use Rattle.std.specs.Prelude.{◌≤◌, take};

    ghost Value = { Shown };

    ghost view = { λ c. record { glyphs = take c.len c.held; cells = c.cells; ink = c.ink } };

    ghost invariant = { λ c. (c.len ≤ 4)
        × IsShown (record { glyphs = take c.len c.held; cells = c.cells; ink = c.ink }) };
}

// How many bytes the character has that a byte begins; 0 for a control, and where none begins with it.
fn character_length(byte: u8) -> usize
    ensures { result ≡ character_length byte }
{
    match byte {
        32..=126 => 1,
        194..=223 => 2,
        224..=239 => 3,
        240..=244 => 4,
        _ => 0,
    }
}

// The least second byte after a first one.
fn least_second(first: u8) -> u8
    ensures { result ≡ least_second first }
{
    match first {
        194 | 224 => 160,
        240 => 144,
        _ => 128,
    }
}

// The last second byte after a first one.
fn most_second(first: u8) -> u8
    ensures { result ≡ most_second first }
{
    match first {
        237 => 159,
        244 => 143,
        _ => 191,
    }
}

// Whether a byte may be the second one after a first one.
fn is_second(first: u8, byte: u8) -> bool
    ensures { result ≡ is_second first byte }
{
    least_second(first) <= byte && byte <= most_second(first)
}

// Whether all bytes may be third or fourth ones.
fn are_later(bytes: &[u8]) -> bool
    ensures { result ≡ list_all is_later bytes.now }
{
    bytes.iter().all(|byte| 128 <= *byte && *byte <= 191)
}

// Whether these bytes are one character, and no control.
fn is_character(bytes: &[u8]) -> bool
    ensures { result ≡ is_character bytes.now }
{
    match bytes {
        [] => false,
        [only] => character_length(*only) == 1,
        [first, second, later @ ..] => {
            character_length(*first) == bytes.len()
                && is_second(*first, *second)
                && are_later(later)
        }
    }
}

impl Character {
    /// The character that these bytes are in UTF-8, in so many cells. None where they are not one character, where it
    /// is a control (U+0000 to U+001F and U+007F to U+009F), and where there are no cells.
    pub fn new(bytes: &[u8], cells: u8, ink: Ink) -> Option<Character>
        ensures given { IfSome result (λ c. c ≡ record { glyphs = bytes.now; cells = cells; ink = ink }) }
        ensures valid { IfSome result IsShown }
        ensures none { result ≡ None → (is_character bytes.now && nat_le 1 cells) ≡ false }
    {
        if cells == 0 || !is_character(bytes) {
            return None;
        }
        let mut held = [0; 4];
        let len = bytes.len();
        held[..len].copy_from_slice(bytes);
        Some(Character {
            held,
            len: len as u8,
            cells,
            ink,
        })
    }

    /// Its bytes in UTF-8, one to four.
    pub fn bytes(&self) -> &[u8]
        ensures bytes { result.now ≡ self.now.glyphs }
        ensures valid { IsShown self.now }
    {
        &self.held[..usize::from(self.len)]
    }

    /// In how many cells it is shown.
    pub fn cells(&self) -> u8
        ensures { result ≡ self.now.cells }
    {
        self.cells
    }

    /// How it is shown.
    pub fn ink(&self) -> Ink
        ensures { result ≡ self.now.ink }
    {
        self.ink
    }
}

/// The characters of a row, in order.
#[derive(Drop)]
pub struct Row {
    all: Vec<Character>,
}

impl Model for Row {
    ghost use Rattle.std.specs.Prelude.{List};
    ghost use Rattle.tx_terminal.specs.Characters.{Shown};

    ghost Value = { List Shown };

    ghost view = { λ r. r.all.items };
}

impl Row {
    /// The row of these characters.
    pub fn new(characters: Vec<Character>) -> Row
        ensures { result ≡ characters.items }
    {
        Row { all: characters }
    }

    /// Its characters, where the row is no longer needed.
    pub fn into_vec(self) -> Vec<Character>
        ensures { result.items ≡ self }
    {
        self.all
    }

    /// Its characters.
    pub fn characters(&self) -> &[Character]
        ensures { result.now ≡ self.now }
    {
        &self.all
    }
}

// Whether two characters are the same, in the same cells and rendition.
fn is_same(one: &Character, other: &Character) -> bool
    ensures { IsTrue result ↔ (one.now ≡ other.now) }
{
    one.bytes() == other.bytes() && one.cells == other.cells && one.ink == other.ink
}

// Whether as many characters are the same, in order.
fn are_same(some: &[Character], others: &[Character]) -> bool
    requires { length some.now ≡ length others.now }
    ensures { IsTrue result ↔ (some.now ≡ others.now) }
{
    for (one, other) in some.iter().zip(others) {
        if !is_same(one, other) {
            return false;
        }
    }
    true
}

impl Row {
    /// Whether this row has the same characters as another, in the same cells and rendition.
    pub fn is(&self, other: &Row) -> bool
        ensures { IsTrue result ↔ (self.now ≡ other.now) }
    {
        self.all.len() == other.all.len() && are_same(&self.all, &other.all)
    }
}

#[cfg(test)]
mod tests {
    use super::Character;
    use crate::inks::{Color, Ink};

    // No controls, one character, no longer form than needed, no surrogate, nothing past U+10FFFF.
    const OTHERS: [&[u8]; 13] = [
        b"",
        b"\x1f",
        b"\x7f",
        b"ab",
        b"\x80",
        b"\xc2\x9f",
        b"\xc1\xbf",
        b"\xc3",
        b"\xc3\xa9\xa9",
        b"\xe0\x9f\xbf",
        b"\xed\xa0\x80",
        b"\xf0\x8f\xbf\xbf",
        b"\xf4\x90\x80\x80",
    ];

    const CHARACTERS: [&[u8]; 8] = [
        b" ",
        b"~",
        b"\xc2\xa0",
        b"\xdf\xbf",
        b"\xe0\xa0\x80",
        b"\xed\x9f\xbf",
        b"\xf0\x90\x80\x80",
        b"\xf4\x8f\xbf\xbf",
    ];

    #[test]
    fn characters(rt: HostRuntime) {
        let red = Ink {
            color: Some(Color::Red),
            ..Ink::PLAIN
        };
        for bytes in &OTHERS {
            assert!(rt; Character::new(*bytes, 1, Ink::PLAIN).is_none());
        }
        for bytes in &CHARACTERS {
            let character = Character::new(*bytes, 1, red).unwrap();
            assert!(rt; character.bytes() == *bytes);
            assert!(rt; character.ink() == red);
            assert!(rt; Character::new(*bytes, 0, red).is_none());
        }
    }
}
