//! Why the table was not run to its end.

use emu_io::{FetchFault, NoMemory, StoreFault};
use std::alloc::{AllocError, AllocFailed};

/// Why the table was not run to its end; the numbers are exit statuses.
#[derive(Clone, Copy, Debug, Drop)]
pub(crate) enum Fault {
    /// A text could not be read.
    NotRead = 1,
    /// The output could not be written.
    NotWritten = 2,
    /// No memory was left.
    NoMemory = 3,
    /// A line is no form of those that are read, or a text that it needs is none.
    NoForm = 4,
}

impl From<FetchFault> for Fault {
    fn from(_: FetchFault) -> Fault {
        Fault::NotRead
    }
}

impl From<StoreFault> for Fault {
    fn from(_: StoreFault) -> Fault {
        Fault::NotWritten
    }
}

impl From<NoMemory> for Fault {
    fn from(_: NoMemory) -> Fault {
        Fault::NoMemory
    }
}

impl From<AllocError> for Fault {
    fn from(_: AllocError) -> Fault {
        Fault::NoMemory
    }
}

impl<T: Drop> From<AllocFailed<T>> for Fault {
    fn from(_: AllocFailed<T>) -> Fault {
        Fault::NoMemory
    }
}
