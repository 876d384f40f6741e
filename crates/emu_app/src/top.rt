//! The top call.

ghost use Rattle.std.specs.Prelude.{◌≡◌, true, IfOk, length};
ghost use Rattle.emu_app.specs.Answers.{Comes, CommandMeans, Ends, FoundMeans, IsTraced, TraceMeans, TraceOf, WorkMeans};
ghost use Rattle.emu_app.specs.Endings.{IsNotFetched, Printed, StopReads};
ghost use Rattle.emu_app.specs.Command.{IsNoCommand, Reads, name_of, text_count, words_of};
ghost use Rattle.emu_app.specs.Complete.{Completes};
ghost use Rattle.emu_app.specs.Fetching.{AreWithin, texts_of};
ghost use Rattle.emu_app.specs.Outcomes.{IsOk, IsRejected};

use crate::answer::Answer;
use crate::check::judge_texts;
use crate::command::{Command, CommandNames, command_names};
use crate::ending::Ending;
use crate::fetch::{Stop, fetch_texts};
use crate::laws::refused_texts_stand_for_nothing;
use crate::replay::replay_texts;
use crate::settle::settle_texts;
use crate::status::Status;
use case_texts::What;
use emu_io::{Files, List, NoMemory, Sink, StoreFault, Text, Word};
use std::alloc::Global;

/// What the command makes of its texts.
fn work<O: Sink>(
    alloc: Global,
    names: &CommandNames<'_>,
    texts: &List<Text>,
    out: &mut O,
) -> Result<Ending, StoreFault>
    requires count { length texts.now ≡ text_count names.now.command }
    requires within { AreWithin (texts_of names.now.command texts.now) }
    ensures { Comes (WorkMeans names.now.command names.now.top.now (texts_of names.now.command texts.now)) (TraceMeans names.now.command names.now.top.now (texts_of names.now.command texts.now)) (O.written out.old) (O.written out.new) (O.faults out.old) (O.faults out.new) result }
{
    let top = names.top.bytes();
    match names.command {
        Command::Check => match judge_texts(alloc, top, texts) {
            Ok(found) => Ok(Ending::Answered(found)),
            Err(NoMemory) => Err(StoreFault::NoMemory),
        },
        Command::Settle => settle_texts(alloc, top, texts, out),
        Command::Replay => replay_texts(alloc, top, texts, out),
    }
}

/// Fetches the texts of a command and does its work.
fn fetch_and_work<F: Files, O: Sink>(
    alloc: Global,
    files: &mut F,
    names: &CommandNames<'_>,
    out: &mut O,
) -> Result<Ending, StoreFault>
    requires named { length names.now.names.now ≡ text_count names.now.command }
    ensures means { Comes (FoundMeans (F.held files.old) (F.read_faults files.old) (F.read_faults files.new) (F.blamed files.new) (words_of names.now)) (TraceOf (F.held files.old) (words_of names.now)) (O.written out.old) (O.written out.new) (O.faults out.old) (O.faults out.new) result }
    ensures held_same { F.held files.new ≡ F.held files.old }
    ensures stores_same { F.store_faults files.new ≡ F.store_faults files.old }
{
    match fetch_texts(alloc, files, names) {
        Ok(texts) => work(alloc, names, &texts, out),
        Err(stop) => not_fetched(alloc, names, stop),
    }
}

/// The answer where a text was not fetched.
fn not_fetched(alloc: Global, names: &CommandNames<'_>, stop: Stop) -> Result<Ending, StoreFault>
    requires named { length names.now.names.now ≡ text_count names.now.command }
    requires reads { StopReads names.now.command stop }
    ensures { IsNotFetched (words_of names.now) stop result }
{
    match stop {
        Stop::NotThere(what) => match read_fault(alloc, names, what) {
            Ok(found) => Ok(Ending::Answered(found)),
            Err(NoMemory) => Err(StoreFault::NoMemory),
        },
        Stop::TooLarge(what) => Ok(Ending::Answered(Answer::TooLarge(what))),
        Stop::NoMemory => Err(StoreFault::NoMemory),
    }
}

/// The answer that a text could not be fetched.
fn read_fault(alloc: Global, names: &CommandNames<'_>, what: What) -> Result<Answer, NoMemory>
    requires named { length names.now.names.now ≡ text_count names.now.command }
    requires reads { Reads names.now.command what }
    ensures { IfOk result (λ found. found ≡ Answer.ReadFault (name_of (words_of names.now) what)) }
{
    let name = Text::from_bytes(alloc, names.name(what).bytes())?;
    Ok(Answer::ReadFault { name })
}

/// What the words ask for, and what came of it.
fn answer<F: Files, O: Sink>(
    alloc: Global,
    words: &[Word],
    files: &mut F,
    out: &mut O,
) -> Result<Ending, StoreFault>
    ensures means { Comes (CommandMeans (F.held files.old) (F.read_faults files.old) (F.read_faults files.new) (F.blamed files.new) words.now) (IsTraced (F.held files.old) words.now) (O.written out.old) (O.written out.new) (O.faults out.old) (O.faults out.new) result }
    ensures held_same { F.held files.new ≡ F.held files.old }
    ensures stores_same { F.store_faults files.new ≡ F.store_faults files.old }
{
    match command_names(words) {
        Some(names) => fetch_and_work(alloc, files, &names, out),
        None => Ok(Ending::Answered(Answer::Usage)),
    }
}

/// Prints an answer.
fn print<O: Sink>(alloc: Global, found: &Answer, out: &mut O) -> Status
    ensures { Printed found.now (O.written out.old) (O.written out.new) (O.faults out.old) (O.faults out.new) result }
{
    let Ok(text) = found.text(alloc) else {
        return Status::NoMemory;
    };
    match out.put(text.as_slice()) {
        Ok(()) => found.status(),
        Err(StoreFault::Failed) => Status::WriteFault,
        Err(StoreFault::NoMemory) => Status::NoMemory,
    }
}

/// Does what the words ask for, and prints what came of it.
fn run_command<F: Files, O: Sink>(
    alloc: Global,
    words: &[Word],
    files: &mut F,
    out: &mut O,
) -> Status
    ensures ends { Ends (CommandMeans (F.held files.old) (F.read_faults files.old) (F.read_faults files.new) (F.blamed files.new) words.now) (IsTraced (F.held files.old) words.now) (O.written out.old) (O.written out.new) (O.faults out.old) (O.faults out.new) result }
    ensures held_same { F.held files.new ≡ F.held files.old }
    ensures stores_same { F.store_faults files.new ≡ F.store_faults files.old }
{
    match answer(alloc, words, files, out) {
        Ok(Ending::Answered(found)) => print(alloc, &found, out),
        Ok(Ending::Traced) => Status::Ok,
        Err(StoreFault::Failed) => Status::WriteFault,
        Err(StoreFault::NoMemory) => Status::NoMemory,
    }
}

/// Does what the words ask for, and prints what came of it.
///
/// The words are those of one of these commands; `compile` and `make` are not built yet.
///
/// - `check TOP DESIGN CELLS GROUPS BOARD NETLIST SCHEDULE MAP` judges results.
/// - `settle TOP DESIGN CELLS GROUPS OPENING EVENTS` prints the original's trace.
/// - `replay TOP DESIGN CELLS GROUPS BOARD NETLIST SCHEDULE MAP OPENING EVENTS` prints the machine's trace.
///
/// Texts are fetched first, in the order of the words; the first failure decides. A trace is put line by
/// line, any other text at once.
pub fn run<F: Files, O: Sink>(alloc: Global, words: &[Word], files: &mut F, out: &mut O) -> Status
    // Status Ok. Of `check`: the machine of the texts that are held agrees with their design, come what may.
    // Of `settle`: the trace of the one history is written. Of `replay`: the trace of the machine is written,
    // which is that of the history where the twelve rules hold.
    ensures accepted { result ≡ Status.Ok → IsOk (F.held files.old) words.now (O.written out.old) (O.written out.new) }
    // Status Rejected: a rule of acceptance fails for the texts that are held, for `replay` one of A1 to A9;
    // the first that fails is printed, with its least place.
    ensures rejected { result ≡ Status.Rejected → IsRejected (F.held files.old) words.now (O.written out.old) (O.written out.new) }
    // Status Usage: the words are those of no command.
    ensures usage { result ≡ Status.Usage → IsNoCommand words.now }

    // Where all is in order and nothing failed, the command does its work, or there was no memory.
    ensures completes { Completes (F.held files.old) words.now (F.read_faults files.old) (F.read_faults files.new) (O.faults out.old) (O.faults out.new) result }

    // By the status, what was found and what is written; each other status has its cause here too, so
    // that each comes exactly where its cause does, want of memory and failed puts aside.
    ensures ends { Ends (CommandMeans (F.held files.old) (F.read_faults files.old) (F.read_faults files.new) (F.blamed files.new) words.now) (IsTraced (F.held files.old) words.now) (O.written out.old) (O.written out.new) (O.faults out.old) (O.faults out.new) result }

    // Nothing that is held changes.
    ensures held_same { F.held files.new ≡ F.held files.old }
    ensures stores_same { F.store_faults files.new ≡ F.store_faults files.old }
{
    refused_texts_stand_for_nothing();
    run_command(alloc, words, files, out)
}
