//! Commands over texts in memory of which one is not as the table's folder has it, or over a fetch or a put that fails.

use crate::fault::Fault;
use emu_app::{Status, run};
use emu_io::{Files, List, MemFiles, MemSink, Sink, Text, Word};
use std::alloc::Global;

/// More bytes than a text of the table's folder has.
const LONGEST_TEXT: u64 = 1_048_576;

/// What is not as usual in a line of the table.
#[derive(Drop)]
pub(crate) enum Twist {
    /// The fetch of this number fails.
    FetchFails(u64),
    /// The put of this number fails.
    PutFails(u64),
    /// The text of this name is, in turn, each of its proper prefixes.
    Cut(Text),
    /// The text of this name is so many spaces.
    Spaces(usize, Text),
}

/// The number that decimal digits write; none where there is another byte, no digit, or too many of them.
fn number(digits: &[u8]) -> Option<u64> {
    if digits.is_empty() || digits.len() > 9 {
        return None;
    }
    let mut number: u64 = 0;
    for digit in digits {
        if !digit.is_ascii_digit() {
            return None;
        }
        number = number
            .wrapping_mul(10)
            .wrapping_add(u64::from(*digit - b'0'));
    }
    Some(number)
}

/// What the words before a colon say; none where they are no form of these.
pub(crate) fn twist_of(alloc: Global, words: &[Word]) -> Result<Option<Twist>, Fault> {
    let [kind, what, rest @ ..] = words else {
        return Ok(None);
    };
    let twist = match (kind.bytes(), number(what.bytes()), rest) {
        (b"fetch", Some(number), [_]) => Twist::FetchFails(number),
        (b"put", Some(number), [_]) => Twist::PutFails(number),
        (b"cut", _, []) => Twist::Cut(Text::from_bytes(alloc, what.bytes())?),
        (b"spaces", Some(count), [name]) => {
            Twist::Spaces(count as usize, Text::from_bytes(alloc, name.bytes())?)
        }
        _ => return Ok(None),
    };
    Ok(Some(twist))
}

/// Holds the texts that the words after the top name, those that are there.
fn hold_texts<F: Files>(
    alloc: Global,
    words: &[Word],
    from: &mut F,
    files: &mut MemFiles,
) -> Result<(), Fault> {
    for name in words.iter().skip(2) {
        let bytes = from.fetch(alloc, name, LONGEST_TEXT)?;
        files.hold(name, bytes.as_slice())?;
    }
    Ok(())
}

/// Puts what a command wrote, on lines of its own, and returns how it ended.
fn put_end<O: Sink>(
    alloc: Global,
    words: &[Word],
    files: &mut MemFiles,
    failing: &[u64],
    out: &mut O,
) -> Result<Status, Fault> {
    let mut sink = MemSink::new(alloc, failing)?;
    let status = run(alloc, words, files, &mut sink);
    let written = sink.written();
    out.put(written)?;
    if !written.is_empty() && !written.ends_with(b"\n") {
        out.put(b"\n")?;
    }
    Ok(status)
}

/// Puts the digit of the status of the command with each proper prefix of a text.
fn put_cuts<O: Sink>(
    alloc: Global,
    words: &[Word],
    files: &mut MemFiles,
    name: &Text,
    out: &mut O,
) -> Result<Status, Fault> {
    let whole = match files.held(name) {
        Some(bytes) => Text::from_bytes(alloc, bytes)?,
        None => return Err(Fault::NotRead),
    };
    let mut digits = Vec::new(alloc);
    for end in 0..whole.bytes().len() {
        files.hold(name, &whole.bytes()[..end])?;
        let status = run(alloc, words, files, &mut MemSink::new(alloc, &[])?);
        digits.push(b'0' + status.code())?;
    }
    digits.push(b'\n')?;
    out.put(digits.as_slice())?;
    files.hold(name, whole.bytes())?;
    put_end(alloc, words, files, &[], out)
}

/// Runs a command with a twist over texts in memory, and returns how it ended.
pub(crate) fn run_twisted<F: Files, O: Sink>(
    alloc: Global,
    twist: &Twist,
    words: &List<Word>,
    from: &mut F,
    out: &mut O,
) -> Result<Status, Fault> {
    let words = words.as_slice();
    let mut files = match twist {
        Twist::FetchFails(number) => MemFiles::new(alloc, &[*number])?,
        _ => MemFiles::new(alloc, &[])?,
    };
    hold_texts(alloc, words, from, &mut files)?;
    match twist {
        Twist::FetchFails(_) => put_end(alloc, words, &mut files, &[], out),
        Twist::PutFails(number) => put_end(alloc, words, &mut files, &[*number], out),
        Twist::Cut(name) => put_cuts(alloc, words, &mut files, name, out),
        Twist::Spaces(count, name) => {
            let mut spaces = Vec::new(alloc);
            spaces.resize(*count, b' ')?;
            files.hold(name, spaces.as_slice())?;
            put_end(alloc, words, &mut files, &[], out)
        }
    }
}
