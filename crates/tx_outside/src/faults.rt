// The errors that the calls of the outside return.
use std::alloc::{AllocError, AllocFailed};
use thiserror::Error;

/// The device under a source or a sink has failed, and counted it.
#[derive(Clone, Copy, Debug, PartialEq, Eq, Error)]
#[error("the device failed")]
pub struct Failed;

/// Why a file wasn't loaded.
#[derive(Clone, Copy, Debug, PartialEq, Eq, Error)]
pub enum LoadFault {
    /// There is no file of that name.
    #[error("no such file")]
    Missing,
    /// The store has failed.
    #[error("the store failed")]
    Failed,
    /// The file has more than `MOST_FILE` bytes.
    #[error("the file is too long")]
    TooLong,
    /// There was no memory for the file's bytes.
    #[error("out of memory")]
    Memory,
}

/// Why a file wasn't saved.
#[derive(Clone, Copy, Debug, PartialEq, Eq, Error)]
pub enum SaveFault {
    /// The store has failed. What the file holds now is open.
    #[error("the store failed")]
    Failed,
    /// There was no memory, and nothing was changed.
    #[error("out of memory")]
    Memory,
}

/// Why a piece wasn't written whole.
#[derive(Clone, Copy, Debug, PartialEq, Eq, Error)]
pub enum WriteFault {
    /// The sink has failed. The first bytes of the piece may be written.
    #[error("the sink failed")]
    Failed,
}

impl From<AllocError> for LoadFault {
    ghost use Rattle.std.specs.Prelude.{◌≡◌};
    ghost use Rattle.tx_outside.specs.declared.faults.LoadFault.TheVariants.{Memory as want_of_memory};

    ghost from_gives = { λ _ fault. fault ≡ want_of_memory };

    fn from(_cause: AllocError) -> LoadFault {
        LoadFault::Memory
    }
}

impl From<AllocError> for SaveFault {
    ghost use Rattle.std.specs.Prelude.{◌≡◌};
    ghost use Rattle.tx_outside.specs.declared.faults.SaveFault.TheVariants.{Memory as want_of_memory};

    ghost from_gives = { λ _ fault. fault ≡ want_of_memory };

    fn from(_cause: AllocError) -> SaveFault {
        SaveFault::Memory
    }
}

impl<T: Drop> From<AllocFailed<T>> for SaveFault {
    ghost use Rattle.std.specs.Prelude.{◌≡◌};
    ghost use Rattle.tx_outside.specs.declared.faults.SaveFault.TheVariants.{Memory as want_of_memory};

    ghost from_gives = { λ _ fault. fault ≡ want_of_memory };

    fn from(_cause: AllocFailed<T>) -> SaveFault {
        SaveFault::Memory
    }
}

impl From<Failed> for WriteFault {
    fn from(_cause: Failed) -> WriteFault {
        WriteFault::Failed
    }
}
