// A text that grows byte by byte.
ghost use Rattle.std.specs.Prelude.{◌≡◌, ℕ, ◌+◌, ◌<◌, ◌≤◌, ◌++◌, ◌∷◌, [], ◌↔◌, List, true, false, length, take, get_or};
ghost use Rattle.std.specs.Prelude.{if◌then◌else◌, IfOk, OnErr, Some, None};
ghost use Rattle.std.specs.Option.{SomeIff};
ghost use Rattle.tx_tree.specs.Texts.{IsText};
ghost use Rattle.tx_tree.specs.TextScan.{text_run, is_text, begins_text, takes_byte, takes_all};
ghost use Rattle.tx_tree.specs.declared.TheConstants.{MOST_TEXT};
ghost use Rattle.tx_tree.specs.declared.texts.TextPlace.TheVariants.{Between};

use crate::MOST_TEXT;
use crate::texts::{Text, TextPlace};
use std::alloc::Global;
use std::marker::Model;
use std::rc::Rc;
use tx_base::Memory;

/// The beginning of a text within the limit, to which a reader adds byte by byte. Contracts see its bytes.
#[derive(Drop)]
pub struct TextBuilder {
    bytes: Vec<u8>,
    place: TextPlace,
}

impl Model for TextBuilder {
    ghost use Rattle.std.specs.Prelude.{List, ℕ};

    ghost Value = { List ℕ };

    ghost use Rattle.tx_tree.specs.Building.{IsRead};

    ghost view = { λ b. b.bytes.items };

    ghost invariant = { IsRead };
}

impl TextBuilder {
    /// No bytes yet.
    pub fn new(alloc: Global) -> TextBuilder
        ensures { result ≡ [] }
    {
        TextBuilder {
            bytes: Vec::new(alloc),
            place: TextPlace::Between,
        }
    }

    /// Adds the byte, and returns true, where the bytes then still begin a text within the limit. Else it returns
    /// false, and the bytes are unchanged.
    pub fn push(&mut self, byte: u8) -> Result<bool, Memory>
        ensures taken { IfOk result (λ taken. taken ≡ takes_byte self.old byte) }
        ensures after { IfOk result (λ taken. self.new ≡ (if taken then self.old ++ byte ∷ [] else self.old)) }
        ensures err { OnErr result (self.new ≡ self.old) }
    {
        if self.bytes.len() >= MOST_TEXT {
            return Ok(false);
        }
        match self.place.step(byte) {
            None => Ok(false),
            Some(next) => {
                self.bytes.push(byte)?;
                self.place = next;
                Ok(true)
            }
        }
    }

    // How many of these bytes continue the text within the limit, and the place after them.
    fn reach(&self, bytes: &[u8]) -> (usize, TextPlace)
        ensures within { result.0 ≤ length bytes.now }
        ensures short { length self.now + result.0 ≤ MOST_TEXT }
        ensures place { text_run (Some Between) (self.now ++ take result.0 bytes.now) ≡ Some result.1 }
        ensures taken { takes_all self.now (take result.0 bytes.now) ≡ true }
        ensures stops { result.0 < length bytes.now
            → takes_byte (self.now ++ take result.0 bytes.now) (get_or bytes.now result.0 0) ≡ false }
    {
        let most = (MOST_TEXT - self.bytes.len()).min(bytes.len());
        let mut place = self.place;
        for i in 0..most {
            match place.step(bytes[i]) {
                None => return (i, place),
                Some(next) => place = next,
            }
        }
        (most, place)
    }

    /// Adds bytes in order, as many as continue the beginning of a text within the limit, and returns how many. Memory
    /// is taken once for all of them. When out of memory none is added.
    pub fn extend(&mut self, bytes: &[u8]) -> Result<usize, Memory>
        ensures within { IfOk result (λ n. n ≤ length bytes.now) }
        ensures after { IfOk result (λ n. self.new ≡ self.old ++ take n bytes.now) }
        ensures taken { IfOk result (λ n. takes_all self.old (take n bytes.now) ≡ true) }
        ensures stops { IfOk result (λ n. n < length bytes.now
            → takes_byte self.new (get_or bytes.now n 0) ≡ false) }
        ensures err { OnErr result (self.new ≡ self.old) }
    {
        let (count, place) = self.reach(bytes);
        self.bytes.extend_from_slice(&bytes[..count])?;
        self.place = place;
        Ok(count)
    }

    /// The text of all bytes, or None where they end within a symbol.
    pub fn finish(self, alloc: Global) -> Result<Option<Text>, Memory>
        ensures { IfOk result (λ found. SomeIff found (IsText self) self) }
    {
        match self.place {
            TextPlace::InSymbol(_) => Ok(None),
            TextPlace::Between => Ok(Some(Text::of_scanned(alloc, self.bytes)?)),
        }
    }
}

/// What the tests mean by which texts are read: whole bytes are a text, or begin one.
pub fn text_laws()
    ensures whole { (bytes : List ℕ) → (is_text bytes ≡ true) ↔ IsText bytes }
    ensures front { (bytes : List ℕ) → (begins_text bytes ≡ true) ↔ ((more : List ℕ) × IsText (bytes ++ more)) }
{}
