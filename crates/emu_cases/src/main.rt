//! Recorded commands: runs each line of a table as a command of `emu`, and prints what comes of it.
//!
//! The table is the file that the program's argument names. A line that begins with `#` says why the
//! commands below it are there, and is passed over, as an empty line is. Each other line is printed after
//! `> `, then what the command prints, then its status. The stored output has for each command all that
//! it should print, to the last byte, and how it should end. It is a test, and has no contract.
//!
//! Before a command may stand what is not as usual, and a colon. `fetch K fails` and `put K fails` count
//! from 0; `spaces N NAME` makes a text of so many spaces; `cut NAME` runs the command with each proper
//! prefix of a text, prints the digits of the statuses in a line, and then runs it with the whole text.
//! Such commands run over texts that are held in memory.
#![tactic(auto)]

mod fault;
mod twist;

use crate::fault::Fault;
use crate::twist::{run_twisted, twist_of};
use emu_app::run;
use emu_io::{Files, HostFiles, HostSink, List, NoMemory, Sink, Text, Word};
use std::alloc::Global;
use std::process::ExitCode;
use std::rt::Env;

/// More bytes than the table's name has.
const LONGEST_NAME: usize = 4_096;

/// More bytes than the table has.
const LONGEST_TABLE: u64 = 1_048_576;

fn main(rt: HostRuntime) -> ExitCode {
    match run_table(rt, rt.alloc()) {
        Ok(()) => ExitCode::SUCCESS,
        Err(fault) => ExitCode::from(fault as u8),
    }
}

/// Runs the table that the first argument names, line by line.
fn run_table(rt: HostRuntime, alloc: Global) -> Result<(), Fault> {
    let mut name = vec![in alloc; 0u8; LONGEST_NAME]?;
    let Ok(count) = rt.arg(1, name.as_mut_slice()) else {
        return Err(Fault::NotRead);
    };
    let name = Text::from_bytes(alloc, &name[..count])?;
    let mut files = HostFiles::new(rt);
    let mut out = HostSink::new(rt);
    let table = files.fetch(alloc, &name, LONGEST_TABLE)?;
    for line in table.split(|byte| *byte == b'\n') {
        if !line.is_empty() && !line.starts_with(b"#") {
            run_line(alloc, line, &mut files, &mut out)?;
        }
    }
    Ok(())
}

/// Prints the line, runs it as a command, and prints its status.
fn run_line<F: Files, O: Sink>(
    alloc: Global,
    line: &[u8],
    files: &mut F,
    out: &mut O,
) -> Result<(), Fault> {
    out.put(b"> ")?;
    out.put(line)?;
    out.put(b"\n")?;
    let (before, command) = parted(line);
    let words = words(alloc, command)?;
    let status = match before {
        None => run(alloc, words.as_slice(), files, out),
        Some(before) => {
            let said = self::words(alloc, before)?;
            let Some(twist) = twist_of(alloc, said.as_slice())? else {
                return Err(Fault::NoForm);
            };
            run_twisted(alloc, &twist, &words, files, out)?
        }
    };
    let told = format!(in alloc; "status {}\n", status.code())?;
    out.put(told.as_bytes())?;
    Ok(())
}

/// What stands before the first colon, if there is one, and the command.
fn parted(line: &[u8]) -> (Option<&[u8]>, &[u8]) {
    match line.iter().position(|byte| *byte == b':') {
        None => (None, line),
        Some(at) => (
            Some(&line[..at]),
            line[at..].strip_prefix(b": ").unwrap_or(b""),
        ),
    }
}

/// The words of a line, which has a space between each two.
fn words(alloc: Global, line: &[u8]) -> Result<List<Word>, NoMemory> {
    let mut words = List::new(alloc);
    for word in line.split(|byte| *byte == b' ') {
        words.push(Text::from_bytes(alloc, word)?)?;
    }
    Ok(words)
}
