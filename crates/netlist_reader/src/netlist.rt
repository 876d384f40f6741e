//! The whole netlist.
ghost use Rattle.std.specs.Prelude.{◌<◌, ◌^◌, IfOk, length};
ghost use Rattle.token_words.specs.Words.{words_of};
ghost use Rattle.emu_machine.specs.Building.{AreChips};
ghost use Rattle.netlist_reader.specs.Faults.{Reading};
ghost use Rattle.netlist_reader.specs.Stops.{IsEarlier, ReadsNetlist};
ghost use Rattle.netlist_reader.specs.Netlist.{NetlistsAreToldApart};

use crate::fault::{NetlistFault, Stop};
use crate::lacking::lacking_net;
use crate::lines::read_lines;
use crate::rest::Rest;
use emu_io::List;
use emu_machine::Chip;
use std::alloc::Global;
use verilog_lex::Tokens;

/// The chips whose netlist a text is, or its first token that cannot stand after those before it.
/// `tokens` are those of `source`. Takes one pass over the tokens; a text of none has no chips.
pub fn read_netlist(
    alloc: Global,
    source: &[u8],
    tokens: &Tokens,
) -> Result<List<Chip>, NetlistFault>
    ensures reading { Reading (words_of source.now tokens.now) result }
    ensures chips { IfOk result AreChips }
{
    let lacking = lacking_net(source, tokens);
    let mut rest = Rest::new(source, tokens);
    match read_chips(alloc, &mut rest) {
        Ok(chips) => match lacking {
            None => Ok(chips),
            Some(token) => Err(NetlistFault::Form { token }),
        },
        Err(Stop::Stuck) => {
            let token = tokens.len() - rest.left();
            Err(NetlistFault::Form {
                token: earlier(lacking, token),
            })
        }
        Err(Stop::NoMemory) => Err(NetlistFault::NoMemory),
    }
}

/// The earlier of two tokens, where there is a first one.
fn earlier(first: Option<u32>, second: u32) -> u32
    ensures { IsEarlier first second result }
{
    match first {
        Some(token) if token < second => token,
        _ => second,
    }
}

/// Passes over the modules of all chips, which are due to be all words.
fn read_chips(alloc: Global, rest: &mut Rest) -> Result<List<Chip>, Stop>
    requires { length rest.old < 2 ^ 32 }
    ensures { ReadsNetlist rest.old rest.new result }
{
    let chips: List<Chip> = read_lines(alloc, rest, 0)?;
    if rest.left() > 0 {
        return Err(Stop::Stuck);
    }
    Ok(chips)
}

/// The law that a text stands for at most one list of chips.
pub fn netlists_are_told_apart()
    ensures { NetlistsAreToldApart }
{}
