//! A sink in memory, for tests: it tells all that was written, and the puts that fail are chosen.

ghost use Rattle.std.specs.Prelude.{◌≡◌, ◌≤◌, IfOk, OnErr, OnOk, Some};
ghost use Rattle.emu_io.specs.Faults.{is_due};
ghost use Rattle.emu_io.specs.MemSink.{PutIs, appended, blank, counted, put_failed};
ghost use Rattle.emu_io.specs.Sink.{PutMeans};

use crate::calls::Calls;
use crate::{NoMemory, Sink, StoreFault};
use std::alloc::Global;
use std::marker::Model;

/// A sink in memory. Puts are counted from 0, and exactly those with the chosen numbers fail; a
/// failing put appends the first half of its bytes. A put that finds no memory changes nothing and
/// is not counted.
#[derive(Drop)]
pub struct MemSink {
    bytes: Vec<u8>,
    calls: Calls,
    faults: u64,
}

impl Model for MemSink {
    ghost use Rattle.emu_io.specs.MemSink.{SinkState};

    ghost Value = { SinkState };

    ghost view = { λ s. record {
      written = s.bytes.items;
      failing = s.calls.failing;
      next = s.calls.next;
      faults = s.faults;
    } };
}

impl MemSink {
    /// Nothing is written yet. `failing` are the numbers of the puts that fail, in any order.
    pub fn new(alloc: Global, failing: &[u64]) -> Result<MemSink, NoMemory>
        ensures { IfOk result (λ sink. sink ≡ blank failing.now) }
    {
        Ok(MemSink {
            bytes: Vec::new(alloc),
            calls: Calls::new(alloc, failing)?,
            faults: 0,
        })
    }

    /// All bytes so far.
    pub fn written(&self) -> &[u8]
        ensures { result.now ≡ self.now.written }
    {
        self.bytes.as_slice()
    }

    fn append(&mut self, bytes: &[u8]) -> Result<(), NoMemory>
        ensures ok { OnOk result (self.new ≡ appended self.old bytes.now) }
        ensures err { OnErr result (self.new ≡ self.old) }
    {
        self.bytes.extend_from_slice(bytes)?;
        Ok(())
    }

    fn is_failing(&self) -> bool
        ensures { result ≡ is_due self.now.failing self.now.next }
    {
        self.calls.is_failing()
    }

    fn count_call(&mut self)
        ensures { self.new ≡ counted self.old }
    {
        self.calls.advance();
    }

    // One put more failed.
    fn fail_put(&mut self)
        ensures exact { self.new ≡ put_failed self.old }
        ensures later { self.old.faults ≤ self.new.faults }
    {
        self.calls.advance();
        self.faults = self.faults.saturating_add(1);
    }
}

impl Sink for MemSink {
    ghost written = { λ s. Some s.written };

    ghost faults = { λ s. s.faults };

    // A failing put appends exactly the first half.
    fn put(&mut self, bytes: &[u8]) -> Result<(), StoreFault>
        ensures exact { PutIs self.old bytes.now self.new result }

        ensures means { PutMeans (Some self.old.written) (Some self.new.written)
            self.old.faults self.new.faults bytes.now result }
        ensures later { self.old.faults ≤ self.new.faults }
    {
        if self.is_failing() {
            self.append(&bytes[..bytes.len() / 2])?;
            self.fail_put();
            return Err(StoreFault::Failed);
        }
        self.append(bytes)?;
        self.count_call();
        Ok(())
    }
}

#[cfg(test)]
mod tests {
    use super::*;
    use std::test::Fail;

    #[test]
    fn a_chosen_put_appends_the_first_half(rt: HostRuntime) -> Result<(), Fail> {
        let mut sink = MemSink::new(rt.alloc(), &[1])?;
        sink.put(b"one ")?;
        assert_eq!(rt; sink.put(b"three"), Err(StoreFault::Failed));
        assert_eq!(rt; sink.written(), b"one th".as_slice());
        sink.put(b"!")?;
        assert_eq!(rt; sink.written(), b"one th!".as_slice());
        assert_eq!(rt; sink.faults, 1);
        Ok(())
    }
}
