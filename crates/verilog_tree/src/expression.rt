//! Reading ranges, left sides and expressions.

ghost use Rattle.std.specs.Prelude.{◌≡◌, ◌<◌, ◌≤◌, ◌+◌, ◌^◌, [], ◌∷◌, Some, length, slice_get};
ghost use Rattle.verilog_tree.specs.Grammar.{IsExpr, IsLeft, IsLefts, IsNamed, IsParts, IsRange, Optional};
ghost use Rattle.verilog_tree.specs.Predict.{Answers, Closed, brace, expr, left, more, range, select};

use crate::reader::{Read, Reader, Stop};
use crate::source::{Expr, IndexRange};
use crate::terminal::Terminal;
use sqlite_items::Items;
use std::alloc::Global;

/// Reads a range, if one stands there.
#[tactic(auto, using(crate::proofs::Ranges::ranges))]
pub(crate) fn read_range(reader: &Reader, from: u32) -> Result<Read<Option<IndexRange>>, Stop>
    requires { from ≤ length reader.now }
    ensures { Answers reader.now (range ∷ []) (Optional (IsRange reader.now)) from result }
{
    let Some(Terminal::OpenBracket) = reader.at(from) else {
        return Ok(Read {
            node: None,
            next: from,
        });
    };
    let left = reader.number(from + 1)?;
    let colon = reader.expect(left.next, Terminal::Colon)?;
    let right = reader.number(colon)?;
    let next = reader.expect(right.next, Terminal::CloseBracket)?;
    Ok(Read {
        node: Some(IndexRange {
            left: left.node,
            right: right.node,
        }),
        next,
    })
}

/// Reads what may follow a name in an expression.
#[tactic(auto, using(crate::proofs::Selects::selects))]
fn read_select(reader: &Reader, name: u32) -> Result<Read<Expr>, Stop>
    requires small { length reader.now < 2 ^ 32 }
    requires named { slice_get reader.now name ≡ Some Terminal.Name }
    ensures { Answers reader.now (select ∷ []) (λ _ n e. IsNamed reader.now name n e) (name + 1) result }
{
    let open = name + 1;
    let Some(Terminal::OpenBracket) = reader.at(open) else {
        return Ok(Read {
            node: Expr::Whole(name),
            next: open,
        });
    };
    let left = reader.number(open + 1)?;
    match reader.at(left.next) {
        Some(Terminal::CloseBracket) => Ok(Read {
            node: Expr::Bit(name, left.node),
            next: left.next + 1,
        }),
        Some(Terminal::Colon) => {
            let right = reader.number(left.next + 1)?;
            let next = reader.expect(right.next, Terminal::CloseBracket)?;
            Ok(Read {
                node: Expr::Part(name, left.node, right.node),
                next,
            })
        }
        _ => Err(Stop::Stuck(left.next)),
    }
}

/// Reads an expression.
#[tactic(auto, using(crate::proofs::Expressions::expressions))]
#[cycle(expressions)]
pub(crate) fn read_expr(alloc: Global, reader: &Reader, from: u32) -> Result<Read<Expr>, Stop>
    requires { from ≤ length reader.now }
    ensures { Answers reader.now (expr ∷ []) (IsExpr reader.now) from result }
{
    match reader.at(from) {
        Some(Terminal::Name) => read_select(reader, from),
        Some(Terminal::Constant) => Ok(Read {
            node: Expr::Constant(from),
            next: from + 1,
        }),
        Some(Terminal::OpenBrace) => read_brace(alloc, reader, from),
        _ => Err(Stop::Stuck(from)),
    }
}

/// Reads what follows the brace at `start` that begins an expression.
#[tactic(auto, using(crate::proofs::Expressions::braces))]
#[cycle(expressions)]
fn read_brace(alloc: Global, reader: &Reader, start: u32) -> Result<Read<Expr>, Stop>
    requires small { length reader.now < 2 ^ 32 }
    requires within { start < length reader.now }
    requires opened { slice_get reader.now start ≡ Some Terminal.OpenBrace }
    ensures { Answers reader.now (brace ∷ []) (λ _ n e. IsExpr reader.now start n e) (start + 1) result }
{
    let first = start + 1;
    let Some(Terminal::Number(count)) = reader.at(first) else {
        let parts = read_parts(alloc, reader, first)?;
        return Ok(Read {
            node: Expr::Join(parts.node),
            next: parts.next,
        });
    };
    let inner = reader.expect(first + 1, Terminal::OpenBrace)?;
    let parts = read_parts(alloc, reader, inner)?;
    let next = reader.expect(parts.next, Terminal::CloseBrace)?;
    Ok(Read {
        node: Expr::Repeat(count, parts.node),
        next,
    })
}

/// Reads expressions with commas between them, and the brace after them.
#[cycle(expressions)]
fn read_parts(alloc: Global, reader: &Reader, from: u32) -> Result<Read<Items<Expr>>, Stop>
    requires { from ≤ length reader.now }
    ensures { Answers reader.now (expr ∷ more expr Terminal.CloseBrace ∷ []) (Closed reader.now (IsParts reader.now) Terminal.CloseBrace) from result }
{
    let first = read_expr(alloc, reader, from)?;
    let mut parts = Items::new(alloc);
    parts.push(first.node)?;
    let mut at = first.next;
    'parts: while reader.continues(at, Terminal::CloseBrace)? {
        let part = read_expr(alloc, reader, at + 1)?;
        parts.push(part.node)?;
        at = part.next;
    }
    Ok(Read {
        node: parts,
        next: at + 1,
    })
}

/// Reads the left side of an assignment.
#[tactic(auto, using(crate::proofs::Lefts::lefts))]
#[cycle(lefts)]
pub(crate) fn read_left(alloc: Global, reader: &Reader, from: u32) -> Result<Read<Expr>, Stop>
    requires { from ≤ length reader.now }
    ensures { Answers reader.now (left ∷ []) (IsLeft reader.now) from result }
{
    match reader.at(from) {
        Some(Terminal::Name) => read_select(reader, from),
        Some(Terminal::OpenBrace) => {
            let parts = read_lefts(alloc, reader, from + 1)?;
            Ok(Read {
                node: Expr::Join(parts.node),
                next: parts.next,
            })
        }
        _ => Err(Stop::Stuck(from)),
    }
}

/// Reads left sides with commas between them, and the brace after them.
#[cycle(lefts)]
fn read_lefts(alloc: Global, reader: &Reader, from: u32) -> Result<Read<Items<Expr>>, Stop>
    requires { from ≤ length reader.now }
    ensures { Answers reader.now (left ∷ more left Terminal.CloseBrace ∷ []) (Closed reader.now (IsLefts reader.now) Terminal.CloseBrace) from result }
{
    let first = read_left(alloc, reader, from)?;
    let mut parts = Items::new(alloc);
    parts.push(first.node)?;
    let mut at = first.next;
    'parts: while reader.continues(at, Terminal::CloseBrace)? {
        let part = read_left(alloc, reader, at + 1)?;
        parts.push(part.node)?;
        at = part.next;
    }
    Ok(Read {
        node: parts,
        next: at + 1,
    })
}
