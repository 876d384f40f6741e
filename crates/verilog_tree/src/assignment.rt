//! Reading names, wires and assignments.

ghost use Rattle.std.specs.Prelude.{◌≡◌, ◌≤◌, [], ◌∷◌, length};
ghost use Rattle.verilog_tree.specs.Grammar.{IsExpr, IsName, IsNet, IsPair, IsValue, Optional};
ghost use Rattle.verilog_tree.specs.Predict.{Answers, value};

use crate::expression::{read_expr, read_left};
use crate::part::Part;
use crate::reader::{Read, Reader, Stop};
use crate::source::{AssignPair, Expr, NetPart};
use crate::terminal::Terminal;
use std::alloc::Global;

/// A name, by the number of its token.
impl Part for u32 {
    ghost use Rattle.verilog_tree.specs.declared.terminal.Terminal.TheVariants.{Name};
    ghost use Rattle.verilog_tree.specs.Grammar.{IsName};
    ghost use Rattle.verilog_tree.specs.Predict.{due};

    ghost symbol = { due Name };

    ghost stands = { IsName };

    fn read(_: Global, reader: &Reader, from: u32) -> Result<Read<u32>, Stop> {
        let next = reader.expect(from, Terminal::Name)?;
        Ok(Read { node: from, next })
    }
}

/// A wire, with or without a value.
impl Part for NetPart {
    ghost use Rattle.verilog_tree.specs.Grammar.{IsNet};
    ghost use Rattle.verilog_tree.specs.Predict.{net};

    ghost symbol = { net };

    ghost stands = { IsNet };

    fn read(alloc: Global, reader: &Reader, from: u32) -> Result<Read<NetPart>, Stop> {
        let after = reader.expect(from, Terminal::Name)?;
        let value = read_value(alloc, reader, after)?;
        Ok(Read {
            node: NetPart {
                name: from,
                value: value.node,
            },
            next: value.next,
        })
    }
}

/// Reads the value of a wire, if one stands there.
fn read_value(alloc: Global, reader: &Reader, from: u32) -> Result<Read<Option<Expr>>, Stop>
    requires { from ≤ length reader.now }
    ensures { Answers reader.now (value ∷ []) (Optional (IsValue reader.now)) from result }
{
    let Some(Terminal::Equals) = reader.at(from) else {
        return Ok(Read {
            node: None,
            next: from,
        });
    };
    let value = read_expr(alloc, reader, from + 1)?;
    Ok(Read {
        node: Some(value.node),
        next: value.next,
    })
}

/// One assignment.
impl Part for AssignPair {
    ghost use Rattle.verilog_tree.specs.Grammar.{IsPair};
    ghost use Rattle.verilog_tree.specs.Predict.{pair};

    ghost symbol = { pair };

    ghost stands = { IsPair };

    fn read(alloc: Global, reader: &Reader, from: u32) -> Result<Read<AssignPair>, Stop> {
        let left = read_left(alloc, reader, from)?;
        let equals = reader.expect(left.next, Terminal::Equals)?;
        let right = read_expr(alloc, reader, equals)?;
        Ok(Read {
            node: AssignPair {
                left: left.node,
                right: right.node,
            },
            next: right.next,
        })
    }
}
