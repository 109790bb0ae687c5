// Why a state isn't changed.
ghost use Rattle.std.specs.Prelude.{◌≡◌};
ghost use Rattle.tx_state.specs.declared.faults.GoFault.TheVariants.{Memory as GoMemory};
ghost use Rattle.tx_state.specs.declared.faults.UndoFault.TheVariants.{Memory as UndoMemory};
ghost use Rattle.tx_state.specs.declared.faults.LeaveFault.TheVariants.{Memory as LeaveMemory};

use thiserror::Error;
use tx_base::Memory;
use tx_mod::ModFault;
use tx_tree::PlaceFault;

/// Why no edit was undone or redone.
#[derive(Clone, Copy, Debug, PartialEq, Eq, Error)]
pub enum UndoFault {
    /// There is no edit to take back, or to make again.
    #[error("nothing to undo or to redo")]
    Nothing,
    /// Memory ran out.
    #[error("out of memory")]
    Memory,
}

impl From<Memory> for UndoFault {
    ghost from_gives = { λ _ fault. fault ≡ UndoMemory };

    fn from(_cause: Memory) -> UndoFault {
        UndoFault::Memory
    }
}

/// Why an earlier edit can't be taken back alone.
#[derive(Clone, Copy, Debug, PartialEq, Eq, Error)]
pub enum LeaveFault {
    /// There is no such edit.
    #[error("nothing to undo")]
    Nothing,
    /// The first later edit that depends on it, or on which it depends, by its number, the last edit being 1.
    #[error("entangled with edit {0}")]
    Entangled(u32),
    /// A later edit passes a limit without it.
    #[error("{0}")]
    Refused(ModFault),
    /// Memory ran out.
    #[error("out of memory")]
    Memory,
}

impl From<Memory> for LeaveFault {
    ghost from_gives = { λ _ fault. fault ≡ LeaveMemory };

    fn from(_cause: Memory) -> LeaveFault {
        LeaveFault::Memory
    }
}

/// Why the cursor isn't moved.
#[derive(Clone, Copy, Debug, PartialEq, Eq, Error)]
pub enum GoFault {
    /// There is no such place.
    #[error("{0}")]
    Astray(PlaceFault),
    /// Memory ran out.
    #[error("out of memory")]
    Memory,
}

impl From<Memory> for GoFault {
    ghost from_gives = { λ _ fault. fault ≡ GoMemory };

    fn from(_cause: Memory) -> GoFault {
        GoFault::Memory
    }
}

/// No buffer has the name.
#[derive(Clone, Copy, Debug, PartialEq, Eq, Error)]
#[error("no buffer of this name")]
pub struct NoBuffer;
