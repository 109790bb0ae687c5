// Why a file wasn't read.
ghost use Rattle.std.specs.Prelude.{◌≡◌};
ghost use Rattle.tx_open.specs.declared.failure.Failure.TheVariants.{NoMemory};

use std::alloc::{AllocError, AllocFailed};
use tx_tree::ReadFault;

/// Why a file wasn't read, with its word.
#[derive(Clone, Copy, Debug)]
pub(crate) enum Failure<'a> {
    Missing(&'a [u8]),
    TooLong(&'a [u8]),
    NoTree(&'a [u8], ReadFault),
    StoreFault(&'a [u8]),
    NoMemory,
}

impl From<AllocError> for Failure<'_> {
    ghost from_gives = { λ _ failure. failure ≡ NoMemory };

    fn from(_cause: AllocError) -> Self {
        Failure::NoMemory
    }
}

impl<T: Drop> From<AllocFailed<T>> for Failure<'_> {
    ghost from_gives = { λ _ failure. failure ≡ NoMemory };

    fn from(_cause: AllocFailed<T>) -> Self {
        Failure::NoMemory
    }
}
