//! The tree of a list of tokens, or the place where no text has them.

ghost use Rattle.std.specs.Prelude.{◌≡◌, ◌<◌, length, map};
ghost use Rattle.verilog_tree.specs.Laws.{HasOneTree, TextsAreRead};
ghost use Rattle.verilog_tree.specs.Parsing.{FaultIs, readable};
ghost use Rattle.verilog_tree.specs.Source.{Explains, IsFirstDeep};
ghost use Rattle.verilog_tree.specs.Terminal.{terminal_at};

use crate::module::read_source;
use crate::reader::{Reader, Stop};
use crate::source::Source;
use crate::terminal::Terminal;
use std::alloc::Global;
use verilog_lex::Tokens;

/// Why tokens have no tree.
#[derive(Clone, Copy, Debug, PartialEq, Eq, Drop)]
pub enum ParseFault {
    /// The tokens before this one begin a text, and those up to it begin none. Where the tokens end
    /// too early, it is their number.
    Expected { token: u32 },
    /// The same, where that token is a reserved word that the grammar does not use.
    Unsupported { token: u32 },
    /// This token is a brace that could stand here, but would be the 65th that is open.
    TooDeep { token: u32 },
    /// No memory was left.
    NoMemory,
}

/// How many braces may be open at once.
const NESTING: u64 = 64;

/// The tree of a text's tokens.
pub fn parse(alloc: Global, tokens: &Tokens) -> Result<Source, ParseFault>
    ensures { Explains (map terminal_at tokens.now) result }
{
    let deep = first_deep(tokens);
    let reader = reader_up_to(tokens, deep);
    match read_source(alloc, &reader) {
        Ok(source) => match deep {
            None => Ok(source),
            Some(token) => Err(ParseFault::TooDeep { token }),
        },
        Err(Stop::NoMemory) => Err(ParseFault::NoMemory),
        Err(Stop::Stuck(token)) => Err(fault_at(&reader, token, deep)),
    }
}

/// The first brace that opens where as many as are allowed are open, if there is one.
fn first_deep(tokens: &Tokens) -> Option<u32>
    ensures { IsFirstDeep (map terminal_at tokens.now) result }
{
    let reader = Reader::new(tokens, tokens.len());
    let mut room = NESTING;
    'places: for place in 0..tokens.len() {
        match reader.at(place) {
            Some(Terminal::OpenBrace) => {
                if room == 0 {
                    return Some(place);
                }
                room -= 1;
            }
            Some(Terminal::CloseBrace) => room += 1,
            _ => {}
        }
    }
    None
}

/// A reader of all tokens, or of those up to a brace that is too deep: no text has them, and so
/// reading stops there.
fn reader_up_to(tokens: &Tokens, deep: Option<u32>) -> Reader
    requires { IsFirstDeep (map terminal_at tokens.now) deep }
    ensures { result ≡ readable (map terminal_at tokens.now) deep }
{
    let end = tokens.len();
    match deep {
        Some(place) => Reader::new(tokens, place + 1),
        None => Reader::new(tokens, end),
    }
}

/// The fault of a text where reading stopped at a token.
fn fault_at(reader: &Reader, token: u32, deep: Option<u32>) -> ParseFault
    ensures { FaultIs reader.now token deep result }
{
    if let Some(brace) = deep {
        if token > brace {
            return ParseFault::TooDeep { token: brace };
        }
    }
    if reader.is_at(token, Terminal::Reserved) {
        ParseFault::Unsupported { token }
    } else {
        ParseFault::Expected { token }
    }
}

/// A law: the tokens of a text of the grammar, with at most 64 braces open at once, have no fault.
pub fn texts_are_read()
    ensures { TextsAreRead }
{}

/// A law: a list of tokens has at most one tree.
pub fn has_one_tree()
    ensures { HasOneTree }
{}
