// Why a walk stops.
use std::alloc::{AllocError, AllocFailed};
use tx_base::Memory;

/// Why a walk stops.
#[derive(Clone, Copy, Debug, PartialEq, Eq)]
pub(crate) enum Stop {
    /// Memory ran out.
    Memory,
    /// The steps or the levels ran out.
    Over,
}

ghost use Rattle.std.specs.Prelude.{◌≡◌};
ghost use Rattle.tx_replay.specs.declared.stop.Stop.TheVariants.{Memory as NoMemory};

impl From<Memory> for Stop {
    ghost from_gives = { λ _ stop. stop ≡ NoMemory };

    fn from(_cause: Memory) -> Stop {
        Stop::Memory
    }
}

impl From<AllocError> for Stop {
    ghost from_gives = { λ _ stop. stop ≡ NoMemory };

    fn from(_cause: AllocError) -> Stop {
        Stop::Memory
    }
}

impl<T: Drop> From<AllocFailed<T>> for Stop {
    ghost from_gives = { λ _ stop. stop ≡ NoMemory };

    fn from(_cause: AllocFailed<T>) -> Stop {
        Stop::Memory
    }
}
