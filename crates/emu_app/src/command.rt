//! The words of a command.

ghost use Rattle.std.specs.Prelude.{◌<◌, ◌≡◌, List, ℕ, MatchOption, length};
ghost use Rattle.emu_app.specs.Command.{IsCommand, IsNamed, IsNoCommand, Reads, name_of, place_of, settle_place, settle_what_at, text_at, text_count, words_of};
ghost use Rattle.emu_app.specs.declared.command.Command.{Command};

use case_texts::What;
use emu_io::Word;

/// A command over texts.
#[derive(Clone, Copy, Debug, Drop, PartialEq, Eq)]
pub enum Command {
    /// Judges results.
    Check,
    /// Runs events on the original.
    Settle,
    /// Runs events on the results.
    Replay,
}

impl Command {
    /// The command of a word; None exactly where the word is that of no command.
    pub fn named(word: &[u8]) -> Option<Command>
        ensures { MatchOption result ((command : Command) → IsNamed command word.now → ⊥) (λ command. IsNamed command word.now) }
    {
        if word == b"check".as_slice() {
            Some(Command::Check)
        } else if word == b"settle".as_slice() {
            Some(Command::Settle)
        } else if word == b"replay".as_slice() {
            Some(Command::Replay)
        } else {
            None
        }
    }

    /// The number of texts that the command reads.
    pub fn text_count(self) -> u32
        ensures { result ≡ text_count self }
    {
        match self {
            Command::Check => 7,
            Command::Settle => 5,
            Command::Replay => 9,
        }
    }

    /// The place of a text among those that the command reads; beyond them for one that it does not read.
    pub fn place_of(self, what: What) -> u64
        ensures { result ≡ place_of self what }
    {
        match self {
            Command::Settle => settle_place(what),
            Command::Check | Command::Replay => what.order(),
        }
    }

    /// The text at a place of the words.
    pub fn text_at(self, place: u32) -> What
        ensures { result ≡ text_at self place }
    {
        match self {
            Command::Settle => settle_what_at(place),
            Command::Check | Command::Replay => What::at(place),
        }
    }
}

/// The text at a place of those that `settle` reads.
fn settle_what_at(place: u32) -> What
    ensures { result ≡ settle_what_at place }
{
    match place {
        0 => What::Design,
        1 => What::Cells,
        2 => What::Groups,
        3 => What::Opening,
        _ => What::Events,
    }
}

/// The place of a text among those that `settle` reads; beyond them for one that it does not read.
fn settle_place(what: What) -> u64
    ensures { result ≡ settle_place what }
{
    match what {
        What::Design => 0,
        What::Cells => 1,
        What::Groups => 2,
        What::Opening => 3,
        What::Events => 4,
        What::Board | What::Netlist | What::Schedule | What::Map => 5,
    }
}

/// The words of a command: the name of the top module, and the names of the texts in their order.
#[derive(Clone, Copy, Debug, Drop)]
pub struct CommandNames<'w> {
    pub command: Command,
    pub top: &'w Word,
    pub names: &'w [Word],
}

/// The command and the names that words give; None exactly where they are the words of no command.
pub fn command_names(words: &[Word]) -> Option<CommandNames<'_>>
    ensures { MatchOption result (IsNoCommand words.now) (λ names. IsCommand words.now (words_of names)) }
{
    let [word, top, names @ ..] = words else {
        return None;
    };
    let command = Command::named(word.bytes())?;
    if names.len() == command.text_count() as usize {
        Some(CommandNames {
            command,
            top,
            names,
        })
    } else {
        None
    }
}

impl<'w> CommandNames<'w> {
    /// The name of one of the texts that the command reads.
    pub fn name(&self, what: What) -> &'w Word
        requires reads { Reads self.now.command what }
        requires count { length self.now.names.now ≡ text_count self.now.command }
        ensures { result.now ≡ name_of (words_of self.now) what }
    {
        &self.names[self.command.place_of(what) as usize]
    }
}
