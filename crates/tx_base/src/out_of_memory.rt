// Out of memory, as an error of its own.
use std::alloc::{AllocError, AllocFailed};
use thiserror::Error;

/// There was not enough memory. It is an error of its own, merged with no other, and no contract says when it comes.
#[derive(Clone, Copy, Debug, PartialEq, Eq, Error)]
#[error("out of memory")]
pub struct Memory;

impl From<AllocError> for Memory {
    fn from(_cause: AllocError) -> Memory {
        Memory
    }
}

impl<T: Drop> From<AllocFailed<T>> for Memory {
    fn from(_cause: AllocFailed<T>) -> Memory {
        Memory
    }
}
