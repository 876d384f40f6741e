//! Texts in memory, for tests: they tell all that they hold, and the calls that fail are chosen.

ghost use Rattle.std.specs.Prelude.{◌≡◌, ◌≤◌, IfOk, OnErr, OnOk, Some, length};
ghost use Rattle.std.specs.Option.{option_copied};
ghost use Rattle.emu_io.specs.Files.{Blames, FetchMeans, StoreMeans};
ghost use Rattle.emu_io.specs.MemFiles.{CopyIs, FetchIs, StoreIs, Stored, counted, fetch_failed};
ghost use Rattle.emu_io.specs.MemFiles.{fresh, held_in, is_failing, store_failed, within};

use crate::calls::Calls;
use crate::{FetchFault, Files, NoMemory, StoreFault, Text, Word};
use std::alloc::Global;
use std::collections::BTreeMap;
use std::marker::Model;

/// Texts in memory. Fetches and stores are counted together from 0, and exactly the calls with the
/// chosen numbers fail; a failing store leaves the first half of its bytes under the name. A call
/// that finds no memory changes nothing and is not counted.
#[derive(Drop)]
pub struct MemFiles {
    alloc: Global,
    entries: BTreeMap<Text, Text>,
    calls: Calls,
    read_faults: u64,
    store_faults: u64,
    blamed: Option<Text>,
}

impl Model for MemFiles {
    ghost use Rattle.emu_io.specs.MemFiles.{MemoryState};

    ghost Value = { MemoryState };

    ghost view = { λ m. record {
      entries = m.entries.entries;
      failing = m.calls.failing;
      next = m.calls.next;
      read_faults = m.read_faults;
      store_faults = m.store_faults;
      blamed = m.blamed;
    } };
}

impl MemFiles {
    /// Holds nothing yet. `failing` are the numbers of the calls that fail, in any order.
    pub fn new(alloc: Global, failing: &[u64]) -> Result<MemFiles, NoMemory>
        ensures { IfOk result (λ files. files ≡ fresh failing.now) }
    {
        Ok(MemFiles {
            alloc,
            entries: BTreeMap::new(alloc),
            calls: Calls::new(alloc, failing)?,
            read_faults: 0,
            store_faults: 0,
            blamed: None,
        })
    }

    /// Puts the bytes under the name, in place of what it had. This is not counted as a call.
    pub fn hold(&mut self, name: &Word, bytes: &[u8]) -> Result<(), NoMemory>
        ensures ok { OnOk result (Stored self.old name.now bytes.now self.new) }
        ensures err { OnErr result (self.new ≡ self.old) }
    {
        let name = Text::from_bytes(self.alloc, name.bytes())?;
        let bytes = Text::from_bytes(self.alloc, bytes)?;
        self.entries.insert(name, bytes)?;
        Ok(())
    }

    /// The bytes under the name; None exactly where the name is not held.
    pub fn held(&self, name: &Word) -> Option<&[u8]>
        ensures { option_copied result ≡ held_in self.now.entries name.now }
    {
        match self.entries.get(name) {
            Some(bytes) => Some(bytes.bytes()),
            None => None,
        }
    }

    fn is_failing(&self) -> bool
        ensures { result ≡ is_failing self.now }
    {
        self.calls.is_failing()
    }

    fn count_call(&mut self)
        ensures { self.new ≡ counted self.old }
    {
        self.calls.advance();
    }

    // One fetch more failed.
    fn fail_fetch(&mut self, name: Text)
        ensures exact { self.new ≡ fetch_failed self.old name }
        ensures blames { Blames self.old.read_faults self.new.read_faults name self.old.blamed self.new.blamed }
    {
        self.calls.advance();
        if self.read_faults < u64::MAX {
            self.read_faults += 1;
            self.blamed = Some(name);
        }
    }

    // One store more failed.
    fn fail_store(&mut self)
        ensures exact { self.new ≡ store_failed self.old }
        ensures later { self.old.store_faults ≤ self.new.store_faults }
    {
        self.calls.advance();
        self.store_faults = self.store_faults.saturating_add(1);
    }

    // A copy of the bytes under the name, where they are at most `limit`.
    fn copy_held(&self, alloc: Global, name: &Word, limit: u64) -> Result<Vec<u8>, FetchFault>
        ensures { CopyIs (λ bytes. bytes.items) (within limit (held_in self.now.entries name.now)) result }
    {
        match self.held(name) {
            None => Err(FetchFault::Missing),
            Some(bytes) if bytes.len() as u64 > limit => Err(FetchFault::TooLarge),
            Some(bytes) => {
                let mut copy = Vec::new(alloc);
                copy.extend_from_slice(bytes)?;
                Ok(copy)
            }
        }
    }
}

impl Files for MemFiles {
    ghost held = { λ m. Some (held_in m.entries) };

    ghost read_faults = { λ m. m.read_faults };

    ghost store_faults = { λ m. m.store_faults };

    ghost blamed = { λ m. m.blamed };

    // The answer is the one due to the state, to the byte.
    fn fetch(&mut self, alloc: Global, name: &Word, limit: u64) -> Result<Vec<u8>, FetchFault>
        ensures exact { FetchIs (λ bytes. bytes.items) self.old name.now limit self.new result }

        ensures bounded { IfOk result (λ bytes. length bytes.items ≤ limit) }
        ensures means { FetchMeans (λ bytes. bytes.items) (Some (held_in self.old.entries))
            self.old.read_faults self.new.read_faults name.now limit result }
        ensures blames { Blames self.old.read_faults self.new.read_faults name.now
            self.old.blamed self.new.blamed }

        ensures held_same { Some (held_in self.new.entries) ≡ Some (held_in self.old.entries) }
        ensures stores_same { self.new.store_faults ≡ self.old.store_faults }
    {
        if self.is_failing() {
            let name = Text::from_bytes(self.alloc, name.bytes())?;
            self.fail_fetch(name);
            return Err(FetchFault::Failed);
        }
        match self.copy_held(alloc, name, limit) {
            Err(FetchFault::NoMemory) => Err(FetchFault::NoMemory),
            answer => {
                self.count_call();
                answer
            }
        }
    }

    // A failing call leaves exactly the first half.
    fn store(&mut self, name: &Word, bytes: &[u8]) -> Result<(), StoreFault>
        ensures exact { StoreIs self.old name.now bytes.now self.new result }

        ensures means { StoreMeans (Some (held_in self.old.entries)) (Some (held_in self.new.entries))
            self.old.store_faults self.new.store_faults name.now bytes.now result }
        ensures later { self.old.store_faults ≤ self.new.store_faults }

        ensures reads_same { self.new.read_faults ≡ self.old.read_faults }
        ensures blamed_same { self.new.blamed ≡ self.old.blamed }
    {
        if self.is_failing() {
            self.hold(name, &bytes[..bytes.len() / 2])?;
            self.fail_store();
            return Err(StoreFault::Failed);
        }
        self.hold(name, bytes)?;
        self.count_call();
        Ok(())
    }
}

#[cfg(test)]
mod tests {
    use super::*;
    use std::test::Fail;

    #[test]
    fn a_failing_store_leaves_the_first_half(rt: HostRuntime) -> Result<(), Fail> {
        let mut files = MemFiles::new(rt.alloc(), &[1])?;
        let name = Text::from_bytes(rt.alloc(), b"d.v")?;
        files.store(&name, b"old")?;
        assert_eq!(rt; files.store(&name, b"abcde"), Err(StoreFault::Failed));
        assert_eq!(rt; files.held(&name), Some(b"ab".as_slice()));
        assert_eq!(rt; (files.read_faults, files.store_faults), (0, 1));
        Ok(())
    }

    #[test]
    fn a_failing_fetch_raises_one_count(rt: HostRuntime) -> Result<(), Fail> {
        let mut files = MemFiles::new(rt.alloc(), &[0])?;
        let name = Text::from_bytes(rt.alloc(), b"d.v")?;
        files.hold(&name, b"text")?;
        assert!(rt; matches!(files.fetch(rt.alloc(), &name, 9), Err(FetchFault::Failed)));
        assert_eq!(rt; (files.read_faults, files.store_faults), (1, 0));
        assert!(rt; files.blamed == Some(name));
        Ok(())
    }

    #[test]
    fn names_and_limits_are_kept(rt: HostRuntime) -> Result<(), Fail> {
        let mut files = MemFiles::new(rt.alloc(), &[])?;
        let name = Text::from_bytes(rt.alloc(), b"d.v")?;
        let absent = Text::from_bytes(rt.alloc(), b"d")?;
        files.hold(&name, b"text")?;
        assert!(rt;
            matches!(
                files.fetch(rt.alloc(), &absent, 9),
                Err(FetchFault::Missing)
            )
        );
        assert!(rt; matches!(files.fetch(rt.alloc(), &name, 3), Err(FetchFault::TooLarge)));
        assert_eq!(rt;
            files.fetch(rt.alloc(), &name, 4)?.as_slice(),
            b"text".as_slice()
        );
        assert_eq!(rt; files.read_faults, 0);
        Ok(())
    }
}
