//! Refused memory.

ghost use Rattle.std.specs.Prelude.{⊤};

use std::alloc::{AllocError, AllocFailed};
use thiserror::Error;

/// Memory was refused, and nothing was changed.
#[derive(Clone, Copy, Debug, PartialEq, Eq, Error)]
#[error("out of memory")]
pub struct NoMemory;

impl From<AllocError> for NoMemory {
    ghost from_gives = { λ _ _. ⊤ };

    fn from(_error: AllocError) -> NoMemory {
        NoMemory
    }
}

impl<T: Drop> From<AllocFailed<T>> for NoMemory {
    ghost from_gives = { λ _ _. ⊤ };

    fn from(_error: AllocFailed<T>) -> NoMemory {
        NoMemory
    }
}
