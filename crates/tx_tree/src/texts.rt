// Texts, and the reading of a text byte by byte.
ghost use Rattle.std.specs.Prelude.{◌≡◌, ◌≢◌, ℕ, ◌≤◌, ◌↔◌, ◌++◌, ◌∷◌, [], Bool, true, false, IsTrue, length, IfOk};
ghost use Rattle.std.specs.Prelude.{IfErr, OnOk, IfSome, MatchOption, ◌&&◌, nat_lt, nat_eq};
ghost use Rattle.tx_tree.specs.Texts.{IsText, IsCut, IsTextFault, is_item_byte, is_name_byte};
ghost use Rattle.tx_tree.specs.declared.texts.TextFault.TheVariants.{Memory as NoMemory};
ghost use Rattle.tx_tree.specs.TextScan.{text_step, text_run, fault_at};
ghost use Rattle.tx_tree.specs.Cuts.{is_cut};
ghost use Rattle.std.specs.Prelude.{List};
ghost use Rattle.std.specs.Cmp.{partial_equiv_from_equiv};
ghost use Rattle.std.specs.Cmp.Lexicographic.{pointwise, nat_list_eq_equiv};
ghost use Rattle.std.specs.Cmp.Rules.{hashing};
ghost use Rattle.std.proofs.Common.{rules};
ghost use Rattle.tx_tree.specs.declared.texts.TextPlace.TheVariants.{Between};
ghost use Rattle.std.specs.Bool.{OnTrue, OnFalse};

use crate::{MOST_NAME, MOST_TEXT};
use std::alloc::{AllocError, AllocFailed, Global};
use std::hash::{Hash, Hasher};
use std::marker::Model;
use std::rc::Rc;
use thiserror::Error;
use tx_base::Memory;

/// Why bytes are no text.
#[derive(Clone, Copy, Debug, PartialEq, Eq, Error)]
pub enum TextFault {
    /// So many bytes, of which 1,048,575 are allowed.
    #[error("{0} bytes")]
    TooLong(u64),
    /// At this place is a byte that is no item.
    #[error("no item at {0}")]
    BadByte(usize),
    /// At this place a symbol can't go on so, or the bytes end within one.
    #[error("no symbol at {0}")]
    BadSymbol(usize),
    /// Memory ran out.
    #[error("out of memory")]
    Memory,
}

impl From<AllocError> for TextFault {
    ghost from_gives = { λ _ fault. fault ≡ NoMemory };

    fn from(_cause: AllocError) -> TextFault {
        TextFault::Memory
    }
}

impl<T: Drop> From<AllocFailed<T>> for TextFault {
    ghost from_gives = { λ _ fault. fault ≡ NoMemory };

    fn from(_cause: AllocFailed<T>) -> TextFault {
        TextFault::Memory
    }
}

/// How far the reading of a text is.
#[derive(Clone, Copy, Debug, PartialEq, Eq)]
pub enum TextPlace {
    /// Between two items, or at an edge.
    Between,
    /// In a symbol, after so many bytes of its name.
    InSymbol(usize),
}

fn is_item_byte(byte: u8) -> bool
    ensures { result ≡ is_item_byte byte }
{
    !matches!(byte, b'\t' | b'\n' | b'\r' | b'<' | b'>')
}

/// Whether the name of a symbol has the byte: all visible ones but `<` and `>`.
pub fn is_name_byte(byte: u8) -> bool
    ensures { result ≡ is_name_byte byte }
{
    matches!(byte, b'!'..=b'~') && byte != b'<' && byte != b'>'
}

impl TextPlace {
    /// The place after one byte more, or None where no text goes on with it.
    #[tactic(auto, unfolding(crate::specs::TextScan::text_step))]
    pub fn step(self, byte: u8) -> Option<TextPlace>
        ensures { result ≡ text_step self byte }
    {
        match self {
            TextPlace::Between => {
                if byte == b'<' {
                    Some(TextPlace::InSymbol(0))
                } else if is_item_byte(byte) {
                    Some(TextPlace::Between)
                } else {
                    None
                }
            }
            TextPlace::InSymbol(len) => {
                if byte == b'>' {
                    if len == 0 {
                        None
                    } else {
                        Some(TextPlace::Between)
                    }
                } else if is_name_byte(byte) && len < MOST_NAME {
                    Some(TextPlace::InSymbol(len + 1))
                } else {
                    None
                }
            }
        }
    }

    // The fault at i, where no text goes on from here.
    fn fault(self, i: usize) -> TextFault
        ensures { result ≡ fault_at self i }
    {
        match self {
            TextPlace::Between => TextFault::BadByte(i),
            TextPlace::InSymbol(_) => TextFault::BadSymbol(i),
        }
    }
}

/// A text: at most 1,048,575 bytes that are items one after the other. An item is a byte other than tab,
/// newline, return, `<` and `>`, or a symbol `<name>`.
///
/// Copies share the bytes. Contracts see a text as the list of its bytes.
#[derive(Drop)]
pub struct Text {
    bytes: Rc<Vec<u8>>,
}

impl Model for Text {
    ghost use Rattle.std.specs.Prelude.{List, ℕ, ◌≤◌, length};
    ghost use Rattle.tx_tree.specs.Texts.{IsText};
    ghost use Rattle.tx_tree.specs.declared.TheConstants.{MOST_TEXT};

    ghost Value = { List ℕ };

    ghost view = { λ t. t.bytes.value.items };

    ghost invariant = { λ t. IsText t.bytes.value.items × (length t.bytes.value.items ≤ MOST_TEXT) };
}

// Whether the bytes are a text, whatever their number.
fn scan(bytes: &[u8]) -> Result<(), TextFault>
    requires { length bytes.now ≤ MOST_TEXT }
    ensures text { OnOk result (IsText bytes.now) }
    ensures refused { IfErr result (IsTextFault bytes.now) }
{
    let mut place = TextPlace::Between;
    for (i, byte) in bytes.iter().enumerate() {
        match place.step(*byte) {
            Some(next) => place = next,
            None => return Err(place.fault(i)),
        }
    }
    match place {
        TextPlace::Between => Ok(()),
        TextPlace::InSymbol(_) => Err(TextFault::BadSymbol(bytes.len())),
    }
}

// How far the reading of the bytes of a text is after them, or None where they begin no text.
fn read_front(bytes: &[u8]) -> Option<TextPlace>
    ensures { result ≡ text_run (Some Between) bytes.now }
{
    let mut place = TextPlace::Between;
    for byte in bytes {
        match place.step(*byte) {
            Some(next) => place = next,
            None => return None,
        }
    }
    Some(place)
}

impl Text {
    /// The text of these bytes.
    pub fn new(alloc: Global, bytes: &[u8]) -> Result<Text, TextFault>
        ensures ok { IfOk result (λ t. t ≡ bytes.now) }
        ensures text { OnOk result (IsText bytes.now) }
        ensures short { OnOk result (length bytes.now ≤ MOST_TEXT) }
        ensures refused { IfErr result (λ fault. fault ≢ TextFault.Memory → IsTextFault bytes.now fault) }
    {
        if bytes.len() > MOST_TEXT {
            return Err(TextFault::TooLong(bytes.len() as u64));
        }
        scan(bytes)?;
        let owned = Vec::from_slice(alloc, bytes)?;
        Ok(Text {
            bytes: Rc::new(alloc, owned)?,
        })
    }

    // The text of bytes that were read to their end.
    pub(crate) fn of_scanned(alloc: Global, bytes: Vec<u8>) -> Result<Text, Memory>
        requires text { IsText bytes.items }
        requires short { length bytes.items ≤ MOST_TEXT }
        ensures { IfOk result (λ t. t ≡ bytes.items) }
    {
        Ok(Text {
            bytes: Rc::new(alloc, bytes)?,
        })
    }

    /// The text's bytes.
    pub fn bytes(&self) -> &[u8]
        ensures bytes { result.now ≡ self.now }
        ensures text { IsText self.now }
        ensures short { length self.now ≤ MOST_TEXT }
    {
        &self.bytes
    }

    #[tactic(auto, using(crate::proofs::Cutting::cutting, std::proofs::lemmas::Grind::common_steps))]
    /// Whether `at` is within the text and no cut, so that to cut there would go through a symbol.
    pub fn cuts(&self, at: usize) -> bool
        ensures symbol { OnTrue result ((at ≤ length self.now) × (IsCut self.now at → ⊥)) }
        ensures cut { OnFalse result (at ≤ length self.now → IsCut self.now at) }
    {
        let bytes = self.bytes();
        if at > bytes.len() {
            return false;
        }
        match read_front(&bytes[..at]) {
            Some(TextPlace::Between) => false,
            Some(TextPlace::InSymbol(_)) => true,
            None => true,
        }
    }

    /// A copy of the text, which shares its bytes.
    pub fn copy(&self) -> Result<Text, Memory>
        ensures { IfOk result (λ t. t ≡ self.now) }
    {
        Ok(Text {
            bytes: self.bytes.clone()?,
        })
    }
}

/// The text of these bytes, where the caller knows that they are one within the limit. Else it returns `Memory` too.
pub fn text_of(alloc: Global, bytes: &[u8]) -> Result<Text, Memory>
    ensures { IfOk result (λ t. t ≡ bytes.now) }
{
    match Text::new(alloc, bytes) {
        Ok(text) => Ok(text),
        Err(_) => Err(Memory),
    }
}

// Texts are equal where their bytes are.
impl PartialEq for Text {
    ghost eq = { pointwise nat_eq };

    ghost laws = { partial_equiv_from_equiv nat_list_eq_equiv };

    fn eq(&self, other: &Text) -> bool {
        self.bytes() == other.bytes()
    }
}

impl Eq for Text {
    ghost laws = { nat_list_eq_equiv };
}

// All the bytes are hashed in one piece.
impl Hash for Text {
    ghost hash_input = { λ t. t ∷ [] };

    ghost respects_eq = { Prim.search (hashing, rules) };

    fn hash<H: Hasher>(&self, state: &mut H) {
        state.write(self.bytes());
    }
}

/// What the test for cuts means.
pub fn cut_laws()
    ensures { (bytes : List ℕ) (n : ℕ) → IsText bytes → (is_cut bytes n ≡ true) ↔ IsCut bytes n }
{}
