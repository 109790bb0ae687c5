// What is open round a byte.

use crate::places::TagPlace;
use tx_tree::Label;

/// An open tag.
#[derive(Drop)]
pub struct TagMark {
    /// The place of its `<`: so many bytes are before it.
    pub at: usize,
    /// Its label.
    pub label: Label,
    /// The argument of it that is open, or None where a block is.
    pub inner: Option<TagPlace>,
}

/// In what of the innermost content a byte is.
#[derive(Clone, Copy, Debug, PartialEq, Eq)]
pub enum Inside {
    /// Between its parts.
    Parts,
    /// In a symbol, after so many bytes of its name.
    Symbol(usize),
    /// In the digits of raw data.
    Digits,
}
