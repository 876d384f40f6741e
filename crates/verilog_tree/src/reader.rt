//! Reading one terminal after another.

ghost use Rattle.std.specs.Prelude.{◌≡◌, ◌<◌, ◌≤◌, ◌+◌, ◌^◌, [], ◌∷◌, IsTrue, OnSome, Some, ◌↔◌, length, slice_get, map, take};
ghost use Rattle.std.specs.Bool.{OnTrue};
ghost use Rattle.verilog_tree.specs.Grammar.{IsNumber, IsWire};
ghost use Rattle.verilog_tree.specs.Predict.{Answers, Continues, Meets, Passed, number, starts, wire};
ghost use Rattle.verilog_tree.specs.Terminal.{is_plain, terminal_at};

use crate::terminal::{Terminal, terminal_for};
use emu_io::NoMemory;
use std::alloc::AllocError;
use std::marker::Model;
use verilog_lex::Tokens;

/// Why reading stopped.
#[derive(Clone, Copy, Debug, PartialEq, Eq, Drop)]
pub(crate) enum Stop {
    /// No text has the tokens up to this one.
    Stuck(u32),
    /// No memory was left.
    NoMemory,
}

impl From<NoMemory> for Stop {
    ghost use Rattle.verilog_tree.specs.declared.reader.Stop.{Stop};

    ghost from_gives = { λ _ stop. stop ≡ Stop.NoMemory };

    fn from(_: NoMemory) -> Stop {
        Stop::NoMemory
    }
}

impl From<AllocError> for Stop {
    ghost use Rattle.verilog_tree.specs.declared.reader.Stop.{Stop};

    ghost from_gives = { λ _ stop. stop ≡ Stop.NoMemory };

    fn from(_: AllocError) -> Stop {
        Stop::NoMemory
    }
}

/// A part of the tree, and the place after its last token.
#[derive(Debug, Drop)]
pub(crate) struct Read<T> {
    pub(crate) node: T,
    pub(crate) next: u32,
}

#[derive(Drop)]
/// The tokens before `end`; contracts see their terminals.
pub(crate) struct Reader<'a> {
    tokens: &'a Tokens,
    end: u32,
}

impl<'a> Model for Reader<'a> {
    ghost use Rattle.std.specs.Prelude.{List, ◌≤◌, length, map, take};
    ghost use Rattle.verilog_tree.specs.declared.terminal.Terminal.{Terminal};
    ghost use Rattle.verilog_tree.specs.Terminal.{terminal_at};

    ghost Value = { List Terminal };

    ghost view = { λ r. take r.end (map terminal_at r.tokens.now) };

    ghost invariant = { λ r. r.end ≤ length r.tokens.now };
}

#[tactic(auto, using(crate::proofs::Terminals::terminals))]
impl<'a> Reader<'a> {
    /// A reader of the tokens before `end`.
    pub(crate) fn new(tokens: &'a Tokens, end: u32) -> Reader<'a>
        requires { end ≤ length tokens.now }
        ensures { result ≡ take end (map terminal_at tokens.now) }
    {
        Reader { tokens, end }
    }

    /// The terminal at a place, if the tokens do not end before.
    pub(crate) fn at(&self, place: u32) -> Option<Terminal>
        ensures value { result ≡ slice_get self.now place }
        ensures within { OnSome result (place < length self.now) }
        ensures room { length self.now < 2 ^ 32 }
    {
        if place < self.end {
            Some(terminal_for(self.tokens.token(place).kind))
        } else {
            None
        }
    }

    /// Whether this terminal stands at a place.
    pub(crate) fn is_at(&self, place: u32, terminal: Terminal) -> bool
        requires { IsTrue (is_plain terminal) }
        ensures found { IsTrue result ↔ (slice_get self.now place ≡ Some terminal) }
        ensures within { OnTrue result (place < length self.now) }
        ensures room { length self.now < 2 ^ 32 }
    {
        match self.at(place) {
            Some(found) => found.is(terminal),
            None => false,
        }
    }

    /// Whether an expression begins at a place.
    pub(crate) fn starts_expr(&self, place: u32) -> bool
        ensures { result ≡ starts (slice_get self.now place) }
    {
        matches!(
            self.at(place),
            Some(Terminal::Name | Terminal::Constant | Terminal::OpenBrace)
        )
    }

    /// The place after the word `wire`, if it stands at a place, and else that place.
    pub(crate) fn skip_wire(&self, from: u32) -> u32
        requires { from ≤ length self.now }
        ensures { Passed self.now wire (IsWire self.now) from result }
    {
        match self.at(from) {
            Some(Terminal::Wire) => from + 1,
            _ => from,
        }
    }

    /// Passes a terminal that is due.
    pub(crate) fn expect(&self, from: u32, due: Terminal) -> Result<u32, Stop>
        requires within { from ≤ length self.now }
        requires plain { IsTrue (is_plain due) }
        ensures { Meets self.now due from result }
    {
        match self.at(from) {
            Some(found) if found.is(due) => Ok(from + 1),
            _ => Err(Stop::Stuck(from)),
        }
    }

    /// Passes a number that is due.
    pub(crate) fn number(&self, from: u32) -> Result<Read<u32>, Stop>
        requires { from ≤ length self.now }
        ensures { Answers self.now (number ∷ []) (IsNumber self.now) from result }
    {
        match self.at(from) {
            Some(Terminal::Number(value)) => Ok(Read {
                node: value,
                next: from + 1,
            }),
            _ => Err(Stop::Stuck(from)),
        }
    }

    /// Whether a comma follows an item of a list; if not, the end of the list does.
    pub(crate) fn continues(&self, at: u32, end: Terminal) -> Result<bool, Stop>
        requires within { at ≤ length self.now }
        requires plain { IsTrue (is_plain end) }
        ensures ended { Continues self.now end at result }
        ensures room { length self.now < 2 ^ 32 }
    {
        match self.at(at) {
            Some(Terminal::Comma) => Ok(true),
            Some(found) if found.is(end) => Ok(false),
            _ => Err(Stop::Stuck(at)),
        }
    }
}
