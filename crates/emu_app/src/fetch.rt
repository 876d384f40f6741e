//! Fetching the texts of a command.

ghost use Rattle.std.specs.Prelude.{◌≡◌, ◌≤◌, IfOk, length};
ghost use Rattle.case_texts.specs.What.{limit};
ghost use Rattle.emu_app.specs.Command.{text_count, words_of};
ghost use Rattle.emu_app.specs.Fetching.{AreWithin, TextMeans, TextsMean, texts_of};

use crate::command::CommandNames;
use case_texts::What;
use emu_io::{FetchFault, Files, List, NoMemory, Text, Word};
use std::alloc::Global;

/// Why not all texts of a command are there.
#[derive(Clone, Copy, Debug, Drop, PartialEq, Eq)]
pub enum Stop {
    /// This text could not be fetched.
    NotThere(What),
    /// This text is longer than its limit.
    TooLarge(What),
    /// No memory was left.
    NoMemory,
}

impl From<NoMemory> for Stop {
    ghost use Rattle.std.specs.Prelude.{◌≡◌};
    ghost use Rattle.emu_app.specs.declared.fetch.Stop.TheVariants as stop;

    ghost from_gives = { λ _ e. e ≡ stop.NoMemory };

    fn from(_: NoMemory) -> Stop {
        Stop::NoMemory
    }
}

/// One text of a command.
pub fn fetch_text<F: Files>(
    alloc: Global,
    files: &mut F,
    name: &Word,
    what: What,
) -> Result<Vec<u8>, Stop>
    ensures bounded { IfOk result (λ bytes. length bytes.items ≤ limit what) }
    ensures means { TextMeans (λ bytes. bytes.items) (F.held files.old) (F.read_faults files.old) (F.read_faults files.new) (F.blamed files.new) name.now what result }
    ensures later { F.read_faults files.old ≤ F.read_faults files.new }
    ensures held_same { F.held files.new ≡ F.held files.old }
    ensures stores_same { F.store_faults files.new ≡ F.store_faults files.old }
{
    match files.fetch(alloc, name, what.limit()) {
        Ok(bytes) => Ok(bytes),
        Err(FetchFault::Failed | FetchFault::Missing) => Err(Stop::NotThere(what)),
        Err(FetchFault::TooLarge) => Err(Stop::TooLarge(what)),
        Err(FetchFault::NoMemory) => Err(Stop::NoMemory),
    }
}

/// All texts of a command, in the order of its words.
pub fn fetch_texts<F: Files>(
    alloc: Global,
    files: &mut F,
    names: &CommandNames<'_>,
) -> Result<List<Text>, Stop>
    requires named { length names.now.names.now ≡ text_count names.now.command }
    ensures count { IfOk result (λ texts. length texts ≡ text_count names.now.command) }
    ensures within { IfOk result (λ texts. AreWithin (texts_of names.now.command texts)) }
    ensures means { TextsMean (texts_of names.now.command) (F.held files.old) (F.read_faults files.old) (F.read_faults files.new) (F.blamed files.new) (words_of names.now) result }
    ensures held_same { F.held files.new ≡ F.held files.old }
    ensures stores_same { F.store_faults files.new ≡ F.store_faults files.old }
{
    let mut texts = List::new(alloc);
    'texts: for place in 0..names.command.text_count() {
        let what = names.command.text_at(place);
        let bytes = fetch_text(alloc, files, names.name(what), what)?;
        texts.push(Text::from_vec(bytes))?;
    }
    Ok(texts)
}
