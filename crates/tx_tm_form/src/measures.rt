// What is counted of trees in place of the trees.

use crate::bytes::White;
use crate::places::{Stage, TagPlace};

/// The measures of some trees.
#[derive(Clone, Copy, Debug, PartialEq, Eq)]
pub struct Sums {
    /// How many they are.
    pub count: u64,
    /// The greatest length of a text in them.
    pub text: u64,
    /// The greatest arity in them.
    pub arity: u64,
    /// The greatest depth of one.
    pub depth: u64,
    /// Their sizes together.
    pub size: u64,
}

/// The measures of an argument or a paragraph that grows.
#[derive(Clone, Copy, Debug, PartialEq, Eq)]
pub struct LineSums {
    /// Of the trees so far.
    pub done: Sums,
    /// The bytes of the text after them.
    pub length: u64,
    /// Whether a run ends that text.
    pub in_run: bool,
}

/// The measures of a block that grows.
#[derive(Clone, Copy, Debug, PartialEq, Eq)]
pub struct BlockSums {
    /// Of the paragraphs that have ended.
    pub full: Sums,
    /// Of the one that is open.
    pub now: LineSums,
    /// The run after it.
    pub run: Option<White>,
    /// What the block holds so far.
    pub stage: Stage,
}

/// The measures of content that grows.
#[derive(Clone, Copy, Debug, PartialEq, Eq)]
pub enum ContentSums {
    /// Of an argument.
    Argument(TagPlace, LineSums),
    /// Of a block.
    Block(BlockSums),
    /// Of the tags of what may be a collection tag, and of the same as an ordinary block.
    Tags(Sums, BlockSums),
}

/// The measures of a part of content.
#[derive(Clone, Copy, Debug, PartialEq, Eq)]
pub enum PartSums {
    /// White.
    Gap(White),
    /// So many bytes of a text.
    Text(u64),
    /// A tag, and whether it is a collection tag.
    Tag(bool, Sums),
}

/// The measures of an open tag.
#[derive(Clone, Copy, Debug, PartialEq, Eq)]
pub struct OpenSums {
    /// Of the content before it.
    pub before: ContentSums,
    /// Whether its label is that of collections.
    pub collects: bool,
    /// Of its children so far.
    pub children: Sums,
}

/// In what of the innermost content measuring is.
#[derive(Clone, Copy, Debug, PartialEq, Eq)]
pub enum Within {
    /// Between its parts.
    Parts,
    /// In a symbol, after so many bytes of its name.
    Symbol(u64),
    /// In raw data, after so many digits.
    Digits(u64),
}
