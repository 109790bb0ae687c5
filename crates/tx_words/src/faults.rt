// Why words ask for nothing.
ghost use Rattle.std.specs.Prelude.{◌≡◌};
ghost use Rattle.tx_words.specs.declared.faults.WordsFault.TheVariants.{Memory as NoMemory};

use std::alloc::{AllocError, AllocFailed};
use thiserror::Error;
use tx_base::Memory;

/// Why the words of a command line ask for nothing.
#[derive(Clone, Copy, Debug, PartialEq, Eq, Error)]
pub enum WordsFault {
    /// The command doesn't take them, or a size, a name or the number of files isn't right.
    #[error("the words are faulty")]
    Faulty,
    /// Memory ran out.
    #[error("out of memory")]
    Memory,
}

impl From<Memory> for WordsFault {
    ghost from_gives = { λ _ fault. fault ≡ NoMemory };

    fn from(_cause: Memory) -> WordsFault {
        WordsFault::Memory
    }
}
