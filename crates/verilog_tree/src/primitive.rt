//! Reading primitives.

ghost use Rattle.std.specs.Prelude.{◌≡◌, ◌≤◌, [], ◌∷◌, length};
ghost use Rattle.verilog_tree.specs.Grammar.{IsExpr, IsName, IsPrim, IsTerminals, Optional};
ghost use Rattle.verilog_tree.specs.Predict.{Answers, Closed, Reads, due, expr, label, more};

use crate::expression::read_expr;
use crate::part::{Part, list_with_room, read_rest};
use crate::reader::{Read, Reader, Stop};
use crate::source::{Expr, GatePart};
use crate::terminal::Terminal;
use emu_io::List;
use std::alloc::Global;

/// A terminal of a primitive.
impl Part for Expr {
    ghost use Rattle.verilog_tree.specs.Grammar.{IsExpr};
    ghost use Rattle.verilog_tree.specs.Predict.{expr};

    ghost symbol = { expr };

    ghost stands = { IsExpr };

    fn read(alloc: Global, reader: &Reader, from: u32) -> Result<Read<Expr>, Stop> {
        read_expr(alloc, reader, from)
    }
}

/// One primitive of an item.
impl Part for GatePart {
    ghost use Rattle.verilog_tree.specs.Grammar.{IsPrim};
    ghost use Rattle.verilog_tree.specs.Predict.{prim};

    ghost symbol = { prim };

    ghost stands = { IsPrim };

    fn read(alloc: Global, reader: &Reader, from: u32) -> Result<Read<GatePart>, Stop> {
        let label = read_label(reader, from);
        let open = reader.expect(label.next, Terminal::OpenParen)?;
        let terminals = read_terminals(alloc, reader, open)?;
        Ok(Read {
            node: GatePart {
                name: label.node,
                terminals: terminals.node,
            },
            next: terminals.next,
        })
    }
}

/// Reads the name of a primitive, if it has one.
fn read_label(reader: &Reader, from: u32) -> Read<Option<u32>>
    requires { from ≤ length reader.now }
    ensures { Reads reader.now (label ∷ []) (Optional (IsName reader.now)) from result.next result.node }
{
    match reader.at(from) {
        Some(Terminal::Name) => Read {
            node: Some(from),
            next: from + 1,
        },
        _ => Read {
            node: None,
            next: from,
        },
    }
}

/// Reads two or more terminals, and the parenthesis after them.
fn read_terminals(alloc: Global, reader: &Reader, from: u32) -> Result<Read<List<Expr>>, Stop>
    requires { from ≤ length reader.now }
    ensures { Answers reader.now (expr ∷ due Terminal.Comma ∷ expr ∷ more expr Terminal.CloseParen ∷ []) (Closed reader.now (IsTerminals reader.now) Terminal.CloseParen) from result }
{
    let first = read_expr(alloc, reader, from)?;
    let comma = reader.expect(first.next, Terminal::Comma)?;
    let second = read_expr(alloc, reader, comma)?;
    let mut terminals = list_with_room(alloc, 2)?;
    terminals.push(first.node)?;
    terminals.push(second.node)?;
    read_rest(alloc, reader, terminals, second.next, Terminal::CloseParen)
}
