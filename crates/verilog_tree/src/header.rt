//! Reading the header of a module.

ghost use Rattle.std.specs.Prelude.{◌≡◌, ◌<◌, ◌≤◌, ◌+◌, ◌^◌, [], ◌∷◌, Some, length, slice_get};
ghost use Rattle.verilog_tree.specs.Grammar.{IsHead, IsHeader, IsOne};
ghost use Rattle.verilog_tree.specs.Predict.{Answers, Closed, IsLater, header, more, one, port, ports};

use crate::expression::read_range;
use crate::part::{Part, read_list};
use crate::reader::{Read, Reader, Stop};
use crate::source::{Dir, PortName};
use crate::terminal::Terminal;
use emu_io::List;
use std::alloc::Global;

/// A port of a header of names.
impl Part for PortName {
    ghost use Rattle.verilog_tree.specs.declared.terminal.Terminal.TheVariants.{Name};
    ghost use Rattle.verilog_tree.specs.Grammar.{IsPlainPort};
    ghost use Rattle.verilog_tree.specs.Predict.{due};

    ghost symbol = { due Name };

    ghost stands = { IsPlainPort };

    fn read(_: Global, reader: &Reader, from: u32) -> Result<Read<PortName>, Stop> {
        let next = reader.expect(from, Terminal::Name)?;
        Ok(Read {
            node: PortName {
                name: from,
                dir: None,
                range: None,
            },
            next,
        })
    }
}

/// Reads the header of a module in its parentheses, if one stands there.
pub(crate) fn read_head(
    alloc: Global,
    reader: &Reader,
    from: u32,
) -> Result<Read<List<PortName>>, Stop>
    requires { from ≤ length reader.now }
    ensures { Answers reader.now (ports ∷ []) (IsHead reader.now) from result }
{
    let Some(Terminal::OpenParen) = reader.at(from) else {
        return Ok(Read {
            node: List::new(alloc),
            next: from,
        });
    };
    read_header(alloc, reader, from + 1)
}

/// Reads a header and the parenthesis after it.
fn read_header(alloc: Global, reader: &Reader, from: u32) -> Result<Read<List<PortName>>, Stop>
    requires { from ≤ length reader.now }
    ensures { Answers reader.now (header ∷ []) (Closed reader.now (IsHeader reader.now) Terminal.CloseParen) from result }
{
    match reader.at(from) {
        Some(Terminal::CloseParen) => Ok(Read {
            node: List::new(alloc),
            next: from + 1,
        }),
        Some(Terminal::Direction(_)) => read_directions(alloc, reader, from),
        _ => read_list(alloc, reader, from, Terminal::CloseParen),
    }
}

/// Reads a header of directions and the parenthesis after it.
fn read_directions(alloc: Global, reader: &Reader, from: u32) -> Result<Read<List<PortName>>, Stop>
    requires { from ≤ length reader.now }
    ensures { Answers reader.now (one ∷ more port Terminal.CloseParen ∷ []) (Closed reader.now (IsHeader reader.now) Terminal.CloseParen) from result }
{
    let first = read_one(reader, from)?;
    let mut last = first.node;
    let mut ports = List::new(alloc);
    ports.push(last)?;
    let mut at = first.next;
    'ports: while reader.continues(at, Terminal::CloseParen)? {
        let port = read_port(reader, at + 1, last)?;
        last = port.node;
        ports.push(last)?;
        at = port.next;
    }
    Ok(Read {
        node: ports,
        next: at + 1,
    })
}

/// Reads a later port of a header of directions; a bare name is as the port before it.
fn read_port(reader: &Reader, from: u32, before: PortName) -> Result<Read<PortName>, Stop>
    requires { from ≤ length reader.now }
    ensures { Answers reader.now (port ∷ []) (IsLater reader.now before) from result }
{
    match reader.at(from) {
        Some(Terminal::Name) => Ok(Read {
            node: PortName {
                name: from,
                dir: before.dir,
                range: before.range,
            },
            next: from + 1,
        }),
        _ => read_one(reader, from),
    }
}

/// Reads a port with a direction.
fn read_one(reader: &Reader, from: u32) -> Result<Read<PortName>, Stop>
    requires { from ≤ length reader.now }
    ensures { Answers reader.now (one ∷ []) (IsOne reader.now) from result }
{
    let Some(Terminal::Direction(dir)) = reader.at(from) else {
        return Err(Stop::Stuck(from));
    };
    let after = reader.skip_wire(from + 1);
    let range = read_range(reader, after)?;
    let next = reader.expect(range.next, Terminal::Name)?;
    Ok(Read {
        node: PortName {
            name: range.next,
            dir: Some(dir),
            range: range.node,
        },
        next,
    })
}
