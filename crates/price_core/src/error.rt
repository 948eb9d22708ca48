//! What a call may fail with: want of memory, and a number out of its range.

ghost use Rattle.std.specs.Prelude.{◌≡◌};

use std::alloc::{AllocError, AllocFailed};
use thiserror::Error;

/// Memory ran out. Where a call answers it, the value that was called is as before the call.
#[derive(Clone, Copy, Debug, PartialEq, Eq, Error)]
#[error("out of memory")]
pub struct NoMemory;

/// A number is outside the range of its type.
#[derive(Clone, Copy, Debug, PartialEq, Eq, Error)]
#[error("the number is outside the range of its type")]
pub struct OutOfRange;

impl From<AllocError> for NoMemory {
    fn from(_: AllocError) -> NoMemory {
        NoMemory
    }
}

impl<T: Drop> From<AllocFailed<T>> for NoMemory {
    fn from(_: AllocFailed<T>) -> NoMemory {
        NoMemory
    }
}
