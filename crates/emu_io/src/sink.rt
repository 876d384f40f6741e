//! Where printed bytes go.

ghost use Rattle.std.specs.Prelude.{◌≤◌};
ghost use Rattle.emu_io.specs.Sink.{PutMeans};

use crate::StoreFault;

/// A place that bytes are appended to. An object may tell what was written so far. Its count of
/// failures never falls and stands still at 2^64 - 1. To take nothing of a piece that is not empty
/// is a failure.
pub trait Sink {
    ghost use Rattle.std.specs.Prelude.{ℕ, List, Option};

    // The bytes so far, where the object tells them.
    ghost written: { Self → Option (List ℕ) };

    // How many puts failed.
    ghost faults: { Self → ℕ };

    /// Appends all bytes.
    fn put(&mut self, bytes: &[u8]) -> Result<(), StoreFault>
        ensures means { PutMeans (written self.old) (written self.new)
            (faults self.old) (faults self.new) bytes.now result }
        ensures later { faults self.old ≤ faults self.new };
}
