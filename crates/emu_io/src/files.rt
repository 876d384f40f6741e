//! Texts by name: what the program reads from and stores to.

ghost use Rattle.std.specs.Prelude.{◌≡◌, ◌≤◌, IfOk, length};
ghost use Rattle.emu_io.specs.Files.{Blames, FetchMeans, StoreMeans};

use crate::{NoMemory, Word};
use std::alloc::{AllocError, AllocFailed, Global};

/// Why a fetch gave no bytes.
#[derive(Clone, Copy, Debug, PartialEq, Eq)]
pub enum FetchFault {
    /// The text could not be read.
    Failed,
    /// No text has this name.
    Missing,
    /// The text is longer than the limit.
    TooLarge,
    /// No memory was left.
    NoMemory,
}

/// Why a store or a put did not take all bytes.
#[derive(Clone, Copy, Debug, PartialEq, Eq)]
pub enum StoreFault {
    /// The bytes could not be written, or not all of them.
    Failed,
    /// No memory was left, and nothing was written.
    NoMemory,
}

/// Texts that have names. An object may tell what it holds; then its answers are tied to that. Its
/// counts of failures never fall and stand still at 2^64 - 1.
pub trait Files {
    ghost use Rattle.std.specs.Prelude.{ℕ, List, Option};
    ghost use Rattle.emu_io.specs.Files.{Held};

    // What is held, where the object tells it.
    ghost held: { Self → Option Held };

    // How many fetches failed.
    ghost read_faults: { Self → ℕ };

    // How many stores failed.
    ghost store_faults: { Self → ℕ };

    // The name of the last fetch that failed, where the object tells it.
    ghost blamed: { Self → Option (List ℕ) };

    /// The bytes of the text with this name, where they are at most `limit`.
    fn fetch(&mut self, alloc: Global, name: &Word, limit: u64) -> Result<Vec<u8>, FetchFault>
        ensures bounded { IfOk result (λ bytes. length bytes.items ≤ limit) }
        ensures means { FetchMeans (λ bytes. bytes.items) (held self.old)
            (read_faults self.old) (read_faults self.new) name.now limit result }
        ensures blames { Blames (read_faults self.old) (read_faults self.new) name.now
            (blamed self.old) (blamed self.new) }

        ensures held_same { held self.new ≡ held self.old }
        ensures stores_same { store_faults self.new ≡ store_faults self.old };

    /// Puts the bytes under the name, in place of what it had.
    fn store(&mut self, name: &Word, bytes: &[u8]) -> Result<(), StoreFault>
        ensures means { StoreMeans (held self.old) (held self.new)
            (store_faults self.old) (store_faults self.new) name.now bytes.now result }
        ensures later { store_faults self.old ≤ store_faults self.new }

        ensures reads_same { read_faults self.new ≡ read_faults self.old }
        ensures blamed_same { blamed self.new ≡ blamed self.old };
}

impl From<NoMemory> for FetchFault {
    ghost use Rattle.emu_io.specs.declared.files.FetchFault.{FetchFault};

    ghost from_gives = { λ _ fault. fault ≡ FetchFault.NoMemory };

    fn from(_: NoMemory) -> FetchFault {
        FetchFault::NoMemory
    }
}

impl From<AllocError> for FetchFault {
    ghost use Rattle.emu_io.specs.declared.files.FetchFault.{FetchFault};

    ghost from_gives = { λ _ fault. fault ≡ FetchFault.NoMemory };

    fn from(_: AllocError) -> FetchFault {
        FetchFault::NoMemory
    }
}

impl<T: Drop> From<AllocFailed<T>> for FetchFault {
    ghost use Rattle.emu_io.specs.declared.files.FetchFault.{FetchFault};

    ghost from_gives = { λ _ fault. fault ≡ FetchFault.NoMemory };

    fn from(_: AllocFailed<T>) -> FetchFault {
        FetchFault::NoMemory
    }
}

impl From<NoMemory> for StoreFault {
    ghost use Rattle.emu_io.specs.declared.files.StoreFault.{StoreFault};

    ghost from_gives = { λ _ fault. fault ≡ StoreFault.NoMemory };

    fn from(_: NoMemory) -> StoreFault {
        StoreFault::NoMemory
    }
}

impl From<AllocError> for StoreFault {
    ghost use Rattle.emu_io.specs.declared.files.StoreFault.{StoreFault};

    ghost from_gives = { λ _ fault. fault ≡ StoreFault.NoMemory };

    fn from(_: AllocError) -> StoreFault {
        StoreFault::NoMemory
    }
}

impl<T: Drop> From<AllocFailed<T>> for StoreFault {
    ghost use Rattle.emu_io.specs.declared.files.StoreFault.{StoreFault};

    ghost from_gives = { λ _ fault. fault ≡ StoreFault.NoMemory };

    fn from(_: AllocFailed<T>) -> StoreFault {
        StoreFault::NoMemory
    }
}
