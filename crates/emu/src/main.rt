//! The program `emu`: the command line over the host's files and standard output.
//!
//! All that it does is done by `emu_app::run`; this is the trusted edge, which has no contract.
#![tactic(auto)]

use emu_app::{Status, run};
use emu_io::{HostFiles, HostSink, List, NoMemory, Text, Word};
use std::alloc::Global;
use std::process::ExitCode;
use std::rt::Env;

/// More bytes than a word of a command line can have on the systems that this is built for.
const LONGEST_WORD: usize = 131_072;

/// The most words that are read; no command has as many.
const MOST_WORDS: usize = 64;

fn main(rt: HostRuntime) -> ExitCode {
    let status = match words(&rt, rt.alloc()) {
        Ok(words) => run(
            rt.alloc(),
            words.as_slice(),
            &mut HostFiles::new(rt),
            &mut HostSink::new(rt),
        ),
        Err(NoMemory) => Status::NoMemory,
    };
    ExitCode::from(status.code())
}

/// The words after the program's name, whatever bytes they have.
fn words<R: Env>(rt: &R, alloc: Global) -> Result<List<Word>, NoMemory> {
    let mut words = List::new(alloc);
    let mut bytes = vec![in alloc; 0u8; LONGEST_WORD]?;
    for place in 1..MOST_WORDS {
        let Ok(count) = rt.arg(place, bytes.as_mut_slice()) else {
            break;
        };
        words.push(Text::from_bytes(alloc, &bytes[..count])?)?;
    }
    Ok(words)
}
