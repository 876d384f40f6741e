//! Real files: the trusted edge on the side of texts by name.

ghost use Rattle.std.specs.Prelude.{◌≡◌, ◌≤◌, IfOk, length};

use crate::{FetchFault, Files, StoreFault, Word};
use std::alloc::Global;
use std::io::Read;
use std::rt::Files as RuntimeFiles;
use std::{fs, io, str};

// How many bytes one read asks for.
const PIECE: usize = 16384;

/// The files of the running process; a name is a path. They tell no content and no blamed name.
/// Each count is raised at each error of its kind, a missing or oversized file and a name that is
/// no path included.
#[derive(Drop)]
pub struct HostFiles<R: RuntimeFiles + Drop> {
    rt: R,
    read_faults: u64,
    store_faults: u64,
}

impl<R: RuntimeFiles + Drop> HostFiles<R> {
    /// The files that the runtime reaches. Nothing failed yet.
    pub fn new(rt: R) -> HostFiles<R>
        ensures reads { ⟦<HostFiles<R> as Files>⟧.read_faults result ≡ 0 }
        ensures stores { ⟦<HostFiles<R> as Files>⟧.store_faults result ≡ 0 }
    {
        HostFiles {
            rt,
            read_faults: 0,
            store_faults: 0,
        }
    }
}

impl<R: RuntimeFiles + Drop> Files for HostFiles<R> {
    ghost use Rattle.std.specs.Prelude.{None};

    ghost held = { λ f. None };

    ghost read_faults = { λ f. f.read_faults };

    ghost store_faults = { λ f. f.store_faults };

    ghost blamed = { λ f. None };

    fn fetch(&mut self, alloc: Global, name: &Word, limit: u64) -> Result<Vec<u8>, FetchFault> {
        match read_file(alloc, &self.rt, name, limit) {
            Ok(bytes) => Ok(bytes),
            Err(FetchFault::NoMemory) => Err(FetchFault::NoMemory),
            Err(fault) => {
                self.read_faults = self.read_faults.saturating_add(1);
                Err(fault)
            }
        }
    }

    fn store(&mut self, name: &Word, bytes: &[u8]) -> Result<(), StoreFault> {
        if write_file(&self.rt, name, bytes) {
            return Ok(());
        }
        self.store_faults = self.store_faults.saturating_add(1);
        Err(StoreFault::Failed)
    }
}

// The bytes of a whole file, where they are at most `limit`.
fn read_file<R: RuntimeFiles>(
    alloc: Global,
    rt: &R,
    name: &Word,
    limit: u64,
) -> Result<Vec<u8>, FetchFault>
    ensures { IfOk result (λ bytes. length bytes.items ≤ limit) }
{
    let Ok(path) = str::from_utf8(name.bytes()) else {
        return Err(FetchFault::Failed);
    };
    match fs::open(rt, path) {
        Ok(mut file) => read_within(alloc, &mut file, limit),
        Err(e) if e.kind() == io::ErrorKind::NotFound => Err(FetchFault::Missing),
        Err(_) => Err(FetchFault::Failed),
    }
}

// All bytes up to the end, where they are at most `limit`. Each turn takes at least one byte, so
// the turns end at the limit.
fn read_within<S: Read>(alloc: Global, source: &mut S, limit: u64) -> Result<Vec<u8>, FetchFault>
    ensures { IfOk result (λ bytes. length bytes.items ≤ limit) }
{
    let mut bytes = Vec::new(alloc);
    let mut piece = [0u8; PIECE];
    'more: loop {
        match source.read(&mut piece) {
            Err(_) => return Err(FetchFault::Failed),
            Ok(0) => return Ok(bytes),
            Ok(count) => {
                if count as u64 > limit - bytes.len() as u64 {
                    return Err(FetchFault::TooLarge);
                }
                bytes.extend_from_slice(&piece[..count])?;
            }
        }
    }
}

// Whether all bytes were written to the file.
fn write_file<R: RuntimeFiles>(rt: &R, name: &Word, bytes: &[u8]) -> bool {
    match str::from_utf8(name.bytes()) {
        Ok(path) => fs::write(rt, path, bytes).is_ok(),
        Err(_) => false,
    }
}

#[cfg(test)]
mod tests {
    use super::*;
    use crate::Text;
    use std::test::Fail;

    #[test]
    fn a_stored_file_comes_back(rt: HostRuntime) -> Result<(), Fail> {
        let mut files = HostFiles::new(rt);
        let name = Text::from_bytes(rt.alloc(), b"emu_io_test_file")?;
        files.store(&name, b"first text")?;
        files.store(&name, b"text")?;
        assert_eq!(rt;
            files.fetch(rt.alloc(), &name, 4)?.as_slice(),
            b"text".as_slice()
        );
        assert!(rt; matches!(files.fetch(rt.alloc(), &name, 3), Err(FetchFault::TooLarge)));
        fs::remove_file(&rt, "emu_io_test_file")?;
        assert!(rt; matches!(files.fetch(rt.alloc(), &name, 4), Err(FetchFault::Missing)));
        assert_eq!(rt; (files.read_faults, files.store_faults), (2, 0));
        Ok(())
    }

    #[test]
    fn a_folder_is_no_file(rt: HostRuntime) -> Result<(), Fail> {
        let mut files = HostFiles::new(rt);
        let folder = Text::from_bytes(rt.alloc(), b".")?;
        assert!(rt; matches!(files.fetch(rt.alloc(), &folder, 4), Err(FetchFault::Failed)));
        assert_eq!(rt; files.store(&folder, b"text"), Err(StoreFault::Failed));
        assert_eq!(rt; (files.read_faults, files.store_faults), (1, 1));
        Ok(())
    }
}
