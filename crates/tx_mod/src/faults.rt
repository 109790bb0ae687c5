// Why a modification makes nothing of a tree.
ghost use Rattle.std.specs.Prelude.{◌≡◌};
ghost use Rattle.tx_mod.specs.declared.faults.ApplyFault.TheVariants.{Refused as ApplyRefused, Memory as ApplyMemory};

use std::alloc::{AllocError, AllocFailed};
use thiserror::Error;
use tx_base::Memory;

/// Why a modification makes nothing of a tree: the first cause that holds, in this order. A limit is looked at in
/// the changed tree.
#[derive(Clone, Copy, Debug, PartialEq, Eq, Error)]
pub enum ModFault {
    /// So many numbers of the path lead, and the next one doesn't.
    #[error("no path beyond {0} steps")]
    NoPath(u32),
    /// A node is to be put into a text.
    #[error("a text is wanted")]
    NotString,
    /// A text is where a node is wanted, or another node than a `tuple` is to be put among children.
    #[error("a node is wanted")]
    NotNode,
    /// The place is past the end: the bytes of the leaf, or the children of the node.
    #[error("no place beyond {0}")]
    BadPlace(u64),
    /// Two children that are to be joined are neither both texts nor nodes of one label.
    #[error("the two differ")]
    Differ,
    /// The place, which is inside a symbol.
    #[error("{0} is inside a symbol")]
    CutsSymbol(u64),
    /// The bytes of the longest text, of which 1,048,575 are allowed.
    #[error("{0} bytes")]
    TooLong(u64),
    /// The most children of a node, of which 65,535 are allowed.
    #[error("{0} children")]
    TooWide(u64),
    /// The depth, of which 400 is allowed.
    #[error("a depth of {0}")]
    TooDeep(u64),
    /// The size, of which 8,000,000 is allowed.
    #[error("a size of {0}")]
    TooBig(u64),
}

/// Why a call gives no changed tree or no modification.
#[derive(Clone, Copy, Debug, PartialEq, Eq, Error)]
pub enum ApplyFault {
    /// The modification makes nothing of the tree.
    #[error("{0}")]
    Refused(ModFault),
    /// Memory ran out.
    #[error("out of memory")]
    Memory,
}

impl From<Memory> for ApplyFault {
    ghost from_gives = { λ _ fault. fault ≡ ApplyMemory };

    fn from(_cause: Memory) -> ApplyFault {
        ApplyFault::Memory
    }
}

impl From<AllocError> for ApplyFault {
    ghost from_gives = { λ _ fault. fault ≡ ApplyMemory };

    fn from(_cause: AllocError) -> ApplyFault {
        ApplyFault::Memory
    }
}

impl<T: Drop> From<AllocFailed<T>> for ApplyFault {
    ghost from_gives = { λ _ fault. fault ≡ ApplyMemory };

    fn from(_cause: AllocFailed<T>) -> ApplyFault {
        ApplyFault::Memory
    }
}

impl From<ModFault> for ApplyFault {
    ghost from_gives = { λ cause fault. fault ≡ ApplyRefused cause };

    fn from(cause: ModFault) -> ApplyFault {
        ApplyFault::Refused(cause)
    }
}
