// What makes no tree.
ghost use Rattle.std.specs.Prelude.{◌≡◌};
ghost use Rattle.tx_tree.specs.declared.faults.PathFault.TheVariants.{Memory as PathMemory};
ghost use Rattle.tx_tree.specs.declared.faults.ReadFault.TheVariants.{Memory as ReadMemory};
ghost use Rattle.tx_tree.specs.declared.faults.TreeFault.TheVariants.{Memory as TreeMemory};

use std::alloc::{AllocError, AllocFailed};
use thiserror::Error;
use tx_base::Memory;

/// Why a label and children make no node within the limits.
#[derive(Clone, Copy, Debug, PartialEq, Eq, Error)]
pub enum TreeFault {
    /// So many children, of which 65,535 are allowed.
    #[error("{0} children")]
    TooWide(u64),
    /// So deep, of which 400 is allowed.
    #[error("a depth of {0}")]
    TooDeep(u64),
    /// So big, of which 8,000,000 is allowed.
    #[error("a size of {0}")]
    TooBig(u64),
    /// Memory ran out.
    #[error("out of memory")]
    Memory,
}

/// A limit of trees.
#[derive(Clone, Copy, Debug, PartialEq, Eq)]
pub enum Which {
    /// The most bytes of a text.
    Text,
    /// The most children of a node.
    Arity,
    /// The greatest depth.
    Depth,
    /// The greatest size.
    Size,
}

/// Why a reader found no tree. A place is the number of bytes before it: so many bytes can be continued to bytes that
/// spell a tree, and no more. Which fault comes where is `IsFault` of `specs/ReadFaults.antt`, with a table for each
/// syntax.
#[derive(Clone, Copy, Debug, PartialEq, Eq, Error)]
pub enum ReadFault {
    /// All the bytes, so many, can be continued, and they spell no tree.
    #[error("unfinished at {0}")]
    Unclosed(usize),
    /// At this place is a byte that none of the other faults is for.
    #[error("a stray byte at {0}")]
    Stray(usize),
    /// At this place is a byte that no escape has.
    #[error("no escape at {0}")]
    BadEscape(usize),
    /// At this place is a byte with which no label goes on.
    #[error("no label at {0}")]
    BadLabel(usize),
    /// At this place is a byte with which no text goes on.
    #[error("no text at {0}")]
    BadText(usize),
    /// The tag that is open begins at the first place, and at the second one is a byte that differs from its label.
    #[error("another label at {1} than that of the tag at {0}")]
    Mismatch(usize, usize),
    /// At this place, after the tree, is a byte that is no white.
    #[error("more than a tree at {0}")]
    After(usize),
    /// The bytes spell a tree that passes this limit first, in the order text, arity, depth, size. The number is the
    /// greatest text length, the greatest arity, the depth or the size.
    #[error("a tree past the limit {0:?}, with {1}")]
    Limit(Which, u64),
    /// Memory ran out.
    #[error("out of memory")]
    Memory,
}

impl From<AllocError> for TreeFault {
    ghost from_gives = { λ _ fault. fault ≡ TreeMemory };

    fn from(_cause: AllocError) -> TreeFault {
        TreeFault::Memory
    }
}

impl<T: Drop> From<AllocFailed<T>> for TreeFault {
    ghost from_gives = { λ _ fault. fault ≡ TreeMemory };

    fn from(_cause: AllocFailed<T>) -> TreeFault {
        TreeFault::Memory
    }
}

impl From<AllocError> for ReadFault {
    ghost from_gives = { λ _ fault. fault ≡ ReadMemory };

    fn from(_cause: AllocError) -> ReadFault {
        ReadFault::Memory
    }
}

impl<T: Drop> From<AllocFailed<T>> for ReadFault {
    ghost from_gives = { λ _ fault. fault ≡ ReadMemory };

    fn from(_cause: AllocFailed<T>) -> ReadFault {
        ReadFault::Memory
    }
}

impl From<Memory> for ReadFault {
    ghost from_gives = { λ _ fault. fault ≡ ReadMemory };

    fn from(_cause: Memory) -> ReadFault {
        ReadFault::Memory
    }
}

/// Why a path and an offset are no place of a tree: the first cause that holds, in this order.
#[derive(Clone, Copy, Debug, PartialEq, Eq, Error)]
pub enum PlaceFault {
    /// So many numbers of the path lead, and the next one doesn't.
    #[error("no path beyond {0} steps")]
    NoPath(u32),
    /// The offset is past the end: the length of the leaf's text, or 1 at a node.
    #[error("no place beyond {0}")]
    BadPlace(u64),
    /// The offset, which is inside a symbol.
    #[error("{0} is inside a symbol")]
    CutsSymbol(u64),
}

/// Why bytes spell no path.
#[derive(Clone, Copy, Debug, PartialEq, Eq, Error)]
pub enum PathFault {
    /// So many bytes and no more begin a path.
    #[error("no path at {0}")]
    BadPath(usize),
    /// Memory ran out.
    #[error("out of memory")]
    Memory,
}

impl From<AllocError> for PathFault {
    ghost from_gives = { λ _ fault. fault ≡ PathMemory };

    fn from(_cause: AllocError) -> PathFault {
        PathFault::Memory
    }
}

impl From<Memory> for PathFault {
    ghost from_gives = { λ _ fault. fault ≡ PathMemory };

    fn from(_cause: Memory) -> PathFault {
        PathFault::Memory
    }
}
