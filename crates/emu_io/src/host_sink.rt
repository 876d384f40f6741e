//! Standard output: the trusted edge on the side of printed bytes.

ghost use Rattle.std.specs.Prelude.{◌≡◌};

use crate::{Sink, StoreFault};
use std::io;
use std::io::Write;

/// The standard output of the running process. It does not tell what was written. Its count is
/// raised at each error, and where no byte of a piece is taken.
#[derive(Drop)]
pub struct HostSink<R: Print + Drop> {
    rt: R,
    faults: u64,
}

impl<R: Print + Drop> HostSink<R> {
    /// The standard output that the runtime reaches. Nothing failed yet.
    pub fn new(rt: R) -> HostSink<R>
        ensures { ⟦<HostSink<R> as Sink>⟧.faults result ≡ 0 }
    {
        HostSink { rt, faults: 0 }
    }
}

impl<R: Print + Drop> Sink for HostSink<R> {
    ghost use Rattle.std.specs.Prelude.{None};

    ghost written = { λ s. None };

    ghost faults = { λ s. s.faults };

    fn put(&mut self, bytes: &[u8]) -> Result<(), StoreFault> {
        if io::writer(&self.rt).write_all(bytes).is_ok() {
            return Ok(());
        }
        self.faults = self.faults.saturating_add(1);
        Err(StoreFault::Failed)
    }
}

#[cfg(test)]
mod tests {
    use super::*;
    use std::test::Fail;

    #[test]
    fn standard_output_takes_bytes(rt: HostRuntime) -> Result<(), Fail> {
        let mut sink = HostSink::new(rt);
        sink.put(b"printed\n")?;
        sink.put(b"")?;
        assert_eq!(rt; sink.faults, 0);
        Ok(())
    }
}
