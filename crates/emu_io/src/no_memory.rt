//! The error of a call that found no memory.

use std::alloc::{AllocError, AllocFailed};

/// No memory was left. What the refused call was to change is as before.
#[derive(Clone, Copy, Debug, PartialEq, Eq)]
pub struct NoMemory;

impl From<AllocError> for NoMemory {
    fn from(_: AllocError) -> NoMemory {
        NoMemory
    }
}

/// A push that fails hands its item back; the item is let go here.
impl<T: Drop> From<AllocFailed<T>> for NoMemory {
    fn from(_: AllocFailed<T>) -> NoMemory {
        NoMemory
    }
}
