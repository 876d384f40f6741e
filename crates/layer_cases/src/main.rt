//! Recorded calls: what layers answer that no command of `emu` calls so far.
//!
//! The table is the file that the program's argument names: in each line a call and the names of its texts.
//! Empty lines, and those that begin with `#`, are passed over. Each other line is printed after `> `, then
//! what the call answers. `influence TOP DESIGN CELLS GROUPS` prints for each frame the nets and write nodes
//! that its group reaches, `tree BOARD` the parent and the distance of each chip from each root, `seed TOP
//! DESIGN CELLS BOARD` the chip of each element. `results NETLIST SCHEDULE MAP` prints the three texts of the
//! results that were read from these, or their first fault, and `prefixes NETLIST SCHEDULE MAP` to how many
//! bytes each of the three can be cut while they stand for results. It is a test, and has no contract.
#![tactic(auto)]

mod designs;
mod fault;
mod plans;
mod results;

use crate::designs::put_influence;
use crate::fault::Fault;
use crate::plans::{put_seed, put_trees};
use crate::results::{put_prefixes, put_results};
use emu_io::{Files, HostFiles, HostSink, List, NoMemory, Sink, Text, Word};
use std::alloc::Global;
use std::process::ExitCode;
use std::rt::Env;

/// More bytes than the table's name has.
const LONGEST_NAME: usize = 4_096;

/// More bytes than a text has.
const LONGEST_TEXT: u64 = 67_108_864;

fn main(rt: HostRuntime) -> ExitCode {
    match run_table(rt, rt.alloc()) {
        Ok(()) => ExitCode::SUCCESS,
        Err(fault) => ExitCode::from(fault as u8),
    }
}

/// Runs the table that the first argument names, line by line.
fn run_table(rt: HostRuntime, alloc: Global) -> Result<(), Fault> {
    let mut name = vec![in alloc; 0u8; LONGEST_NAME]?;
    let Ok(count) = rt.arg(1, name.as_mut_slice()) else {
        return Err(Fault::NotRead);
    };
    let name = Text::from_bytes(alloc, &name[..count])?;
    let mut files = HostFiles::new(rt);
    let mut out = HostSink::new(rt);
    let table = files.fetch(alloc, &name, LONGEST_TEXT)?;
    for line in table.split(|byte| *byte == b'\n') {
        if !line.is_empty() && !line.starts_with(b"#") {
            run_line(alloc, line, &mut files, &mut out)?;
        }
    }
    Ok(())
}

/// The words of a line, which has a space between each two.
fn words(alloc: Global, line: &[u8]) -> Result<List<Word>, NoMemory> {
    let mut words = List::new(alloc);
    for word in line.split(|byte| *byte == b' ') {
        words.push(Text::from_bytes(alloc, word)?)?;
    }
    Ok(words)
}

/// The text of a name; of a word that names none, its own bytes.
fn text_of<F: Files>(alloc: Global, word: &Word, files: &mut F) -> Result<Vec<u8>, Fault> {
    if word.bytes().contains(&b'.') {
        Ok(files.fetch(alloc, word, LONGEST_TEXT)?)
    } else {
        let mut bytes = Vec::new(alloc);
        bytes.extend_from_slice(word.bytes())?;
        Ok(bytes)
    }
}

/// A call of a layer.
#[derive(Clone, Copy, Debug, Drop)]
enum Call {
    Influence,
    Tree,
    Seed,
    Results,
    Prefixes,
}

/// The calls by their words.
static CALLS: [(&[u8], Call); 5] = [
    (b"influence", Call::Influence),
    (b"tree", Call::Tree),
    (b"seed", Call::Seed),
    (b"results", Call::Results),
    (b"prefixes", Call::Prefixes),
];

/// The call that a word names.
fn call_of(word: &[u8]) -> Option<Call> {
    for (name, call) in &CALLS {
        if word == *name {
            return Some(*call);
        }
    }
    None
}

/// Adds what a call answers.
fn put_answer(
    alloc: Global,
    out: &mut Vec<u8>,
    call: Call,
    texts: &[Vec<u8>],
) -> Result<(), Fault> {
    match call {
        Call::Influence => put_influence(alloc, out, texts),
        Call::Tree => put_trees(alloc, out, texts),
        Call::Seed => put_seed(alloc, out, texts),
        Call::Results => put_results(alloc, out, texts),
        Call::Prefixes => put_prefixes(alloc, out, texts),
    }
}

/// The texts of the words after the first.
fn texts_of<F: Files>(alloc: Global, words: &[Word], files: &mut F) -> Result<Vec<Vec<u8>>, Fault> {
    let mut texts = Vec::new(alloc);
    for word in words.iter().skip(1) {
        texts.push(text_of(alloc, word, files)?)?;
    }
    Ok(texts)
}

/// Prints the line, and what the call answers.
fn run_line<F: Files, O: Sink>(
    alloc: Global,
    line: &[u8],
    files: &mut F,
    out: &mut O,
) -> Result<(), Fault> {
    out.put(b"> ")?;
    out.put(line)?;
    out.put(b"\n")?;
    let words = words(alloc, line)?;
    if words.is_empty() {
        return Err(Fault::NoForm);
    }
    let Some(call) = call_of(words.get(0).bytes()) else {
        return Err(Fault::NoForm);
    };
    let texts = texts_of(alloc, words.as_slice(), files)?;
    let mut said = Vec::new(alloc);
    put_answer(alloc, &mut said, call, texts.as_slice())?;
    out.put(said.as_slice())?;
    Ok(())
}
