//! Results that are read from three texts and printed again.

ghost use Rattle.std.specs.Prelude.{◌<◌, ◌^◌, IfOk, length};
ghost use Rattle.result_files.specs.Printed.{AreNamed};

use crate::fault::Fault;
use emu_machine::Results;
use id_arena::Key;
use netlist_writer::print_netlist;
use result_files::{ResultFault, print_map, print_schedule, read_results};
use std::alloc::Global;
use verilog_lex::{LexFault, tokens};

/// More bytes than a netlist has.
const LONGEST_NETLIST: usize = 1_000_000_000;

/// The texts of results.
#[derive(Clone, Copy, Debug)]
struct ResultTexts<'a> {
    netlist: &'a [u8],
    schedule: &'a [u8],
    map: &'a [u8],
}

/// Which text of results.
#[derive(Clone, Copy, Debug)]
enum Which {
    Netlist,
    Schedule,
    Map,
}

impl<'a> ResultTexts<'a> {
    /// The three texts of a call.
    fn of(texts: &'a [Vec<u8>]) -> Result<ResultTexts<'a>, Fault> {
        let [netlist, schedule, map] = texts else {
            return Err(Fault::NoForm);
        };
        Ok(ResultTexts {
            netlist,
            schedule,
            map,
        })
    }

    /// One of them.
    fn one(self, which: Which) -> &'a [u8] {
        match which {
            Which::Netlist => self.netlist,
            Which::Schedule => self.schedule,
            Which::Map => self.map,
        }
    }

    /// The same texts with another for one of them.
    fn with(self, which: Which, text: &'a [u8]) -> ResultTexts<'a> {
        match which {
            Which::Netlist => ResultTexts {
                netlist: text,
                ..self
            },
            Which::Schedule => ResultTexts {
                schedule: text,
                ..self
            },
            Which::Map => ResultTexts { map: text, ..self },
        }
    }

    /// The results that they stand for, or their first fault.
    fn read(self, alloc: Global) -> Result<Result<Results, ResultFault>, Fault>
        ensures { IfOk result (λ answer. IfOk answer (λ results. AreNamed results.schedule)) }
    {
        if self.netlist.len() > LONGEST_NETLIST {
            return Err(Fault::NotRead);
        }
        match read_results(alloc, self.netlist, self.schedule, self.map) {
            Err(ResultFault::NoMemory) => Err(Fault::NoMemory),
            answer => Ok(answer),
        }
    }
}

/// Adds the texts of results.
fn put_texts(alloc: Global, out: &mut Vec<u8>, results: &Results) -> Result<(), Fault>
    requires { AreNamed results.now.schedule }
{
    out.extend_from_slice(print_netlist(alloc, results.net())?.as_slice())?;
    out.extend_from_slice(print_schedule(alloc, results.schedule())?.as_slice())?;
    out.extend_from_slice(print_map(alloc, results.map())?.as_slice())?;
    Ok(())
}

/// The byte at which a token begins; past the last token the length of the text.
fn byte_of(alloc: Global, text: &[u8], token: u32) -> Result<u64, Fault> {
    if text.len() > LONGEST_NETLIST {
        return Err(Fault::NotRead);
    }
    let Ok(tokens) = tokens(alloc, text) else {
        return Err(Fault::NoForm);
    };
    if token < tokens.len() {
        Ok(u64::from(tokens.token(token).start))
    } else {
        Ok(text.len() as u64)
    }
}

/// Adds the fault of a netlist that has no tokens.
fn put_lex(alloc: Global, out: &mut Vec<u8>, fault: LexFault) -> Result<(), Fault> {
    let told = match fault {
        LexFault::BadByte { at } => format!(in alloc; "BadByte {at}")?,
        LexFault::OpenComment { at } => format!(in alloc; "OpenComment {at}")?,
        LexFault::OpenAttribute { at } => format!(in alloc; "OpenAttribute {at}")?,
        LexFault::BadNumber { at } => format!(in alloc; "BadNumber {at}")?,
        LexFault::UnknownDigit { at } => format!(in alloc; "UnknownDigit {at}")?,
        LexFault::Directive { at } => format!(in alloc; "Directive {at}")?,
        LexFault::NoMemory => return Err(Fault::NoMemory),
    };
    out.extend_from_slice(b"refused netlist ")?;
    out.extend_from_slice(told.as_bytes())?;
    Ok(out.push(b'\n')?)
}

/// Adds the fault of three texts, as a command prints it.
fn put_fault(
    alloc: Global,
    out: &mut Vec<u8>,
    netlist: &[u8],
    fault: &ResultFault,
) -> Result<(), Fault> {
    let told = match fault {
        ResultFault::NetlistLex(fault) => return put_lex(alloc, out, *fault),
        ResultFault::NetlistForm { token } => {
            let byte = byte_of(alloc, netlist, *token)?;
            format!(in alloc; "netlist NetlistForm {byte}")?
        }
        ResultFault::NetlistShape { chip, net } => {
            format!(in alloc; "netlist NetlistShape {} {}", chip.place(), net.place())?
        }
        ResultFault::ScheduleNotJson => format!(in alloc; "schedule NotJson")?,
        ResultFault::ScheduleVersion => format!(in alloc; "schedule Version")?,
        ResultFault::ScheduleForm {
            frame,
            slot,
            action,
        } => format!(in alloc; "schedule ScheduleForm {frame} {slot} {action}")?,
        ResultFault::MapNotJson => format!(in alloc; "map NotJson")?,
        ResultFault::MapVersion => format!(in alloc; "map Version")?,
        ResultFault::MapForm { entry } => format!(in alloc; "map MapForm {entry}")?,
        ResultFault::NoMemory => return Err(Fault::NoMemory),
    };
    out.extend_from_slice(b"refused ")?;
    out.extend_from_slice(told.as_bytes())?;
    Ok(out.push(b'\n')?)
}

/// Adds the texts of the results that three texts stand for, or their first fault.
pub(crate) fn put_results(
    alloc: Global,
    out: &mut Vec<u8>,
    texts: &[Vec<u8>],
) -> Result<(), Fault> {
    let texts = ResultTexts::of(texts)?;
    match texts.read(alloc)? {
        Ok(results) => put_texts(alloc, out, &results),
        Err(fault) => put_fault(alloc, out, texts.netlist, &fault),
    }
}

/// Adds the lengths to which one of three texts can be cut while they stand for results.
fn put_cuts(
    alloc: Global,
    out: &mut Vec<u8>,
    texts: ResultTexts<'_>,
    which: Which,
) -> Result<(), Fault> {
    let whole = texts.one(which);
    for length in 0..whole.len() {
        if texts.with(which, &whole[..length]).read(alloc)?.is_ok() {
            let told = format!(in alloc; " {length}")?;
            out.extend_from_slice(told.as_bytes())?;
        }
    }
    Ok(out.push(b'\n')?)
}

/// The three texts by their names.
static PARTS: [(&[u8], Which); 3] = [
    (b"netlist", Which::Netlist),
    (b"schedule", Which::Schedule),
    (b"map", Which::Map),
];

/// Adds for each of three texts how many bytes it has, and to how many it can be cut while the three stand
/// for results, the other two whole.
pub(crate) fn put_prefixes(
    alloc: Global,
    out: &mut Vec<u8>,
    texts: &[Vec<u8>],
) -> Result<(), Fault> {
    let texts = ResultTexts::of(texts)?;
    for (name, which) in &PARTS {
        let bytes = texts.one(*which).len();
        let told = format!(in alloc; ": {bytes} bytes, read when cut to")?;
        out.extend_from_slice(name)?;
        out.extend_from_slice(told.as_bytes())?;
        put_cuts(alloc, out, texts, *which)?;
    }
    Ok(())
}
