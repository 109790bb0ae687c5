// Why a key makes nothing.
ghost use Rattle.std.specs.Prelude.{◌≡◌};
ghost use Rattle.tx_edit.specs.declared.faults.EditFault.TheVariants.{Memory as NoMemory};

use std::alloc::{AllocError, AllocFailed};
use thiserror::Error;
use tx_base::Memory;

/// Why a key makes nothing at the cursor.
#[derive(Clone, Copy, Debug, PartialEq, Eq, Error)]
pub enum EditFault {
    /// The cursor is not in a text.
    #[error("no text at the cursor")]
    NoText,
    /// There is nothing before the cursor that could be taken out, joined or gone to.
    #[error("nothing before the cursor")]
    AtStart,
    /// There is nothing after the cursor that could be gone to.
    #[error("nothing behind the cursor")]
    AtEnd,
    /// The text is neither a paragraph nor a part of one, so no paragraph can be split there.
    #[error("no paragraph at the cursor")]
    NotInParagraph,
    /// Memory ran out.
    #[error("out of memory")]
    Memory,
}

impl From<Memory> for EditFault {
    ghost from_gives = { λ _ fault. fault ≡ NoMemory };

    fn from(_cause: Memory) -> EditFault {
        EditFault::Memory
    }
}

impl From<AllocError> for EditFault {
    ghost from_gives = { λ _ fault. fault ≡ NoMemory };

    fn from(_cause: AllocError) -> EditFault {
        EditFault::Memory
    }
}

impl<T: Drop> From<AllocFailed<T>> for EditFault {
    ghost from_gives = { λ _ fault. fault ≡ NoMemory };

    fn from(_cause: AllocFailed<T>) -> EditFault {
        EditFault::Memory
    }
}
