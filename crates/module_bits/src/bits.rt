//! What a whole expression stands for.

ghost use Rattle.std.specs.Prelude.{◌≡◌, OnOk, get_or, map};
ghost use Rattle.module_bits.specs.Bits.{TellsBits, first_token, meaning, two_indices};
ghost use Rattle.module_bits.specs.Names.{AreNumbered};
ghost use Rattle.module_bits.specs.Readings.{AddsExpr, AddsParts, AddsRepeat, nothing};
ghost use Rattle.module_nets.specs.declared.fault.NetFault.{NetFault};
ghost use Rattle.module_nets.specs.Names.{start_of};

use crate::context::Context;
use crate::reading::Reading;
use emu_io::{List, NoMemory};
use id_arena::NetId;
use module_nets::{Cause, NetFault, start_of};
use std::alloc::Global;
use verilog_tree::{Expr, IndexRange};

/// Reads an expression.
#[cycle(reading)]
fn read_expr(reading: &mut Reading, context: &Context, expr: &Expr) -> Result<(), NoMemory>
    requires { AreNumbered context.now.base context.now.nets }
    ensures { OnOk result (AddsExpr context.now reading.old reading.new expr.now) }
{
    match expr {
        Expr::Whole(name) => reading.add_name(context, *name, None),
        Expr::Bit(name, index) => reading.add_name(context, *name, select(*index, *index)),
        Expr::Part(name, left, right) => reading.add_name(context, *name, select(*left, *right)),
        Expr::Constant(token) => reading.add_constant(context.tokens, *token),
        Expr::Join(parts) => read_parts(reading, context, parts.as_slice()),
        Expr::Repeat(count, parts) => read_repeat(reading, context, *count, parts.as_slice()),
    }
}

/// A select of these two indices.
fn select(left: u32, right: u32) -> Option<IndexRange>
    ensures { result ≡ two_indices left right }
{
    Some(IndexRange { left, right })
}

/// Reads joined expressions, the last one first, since it is lowest.
#[cycle(reading)]
fn read_parts(reading: &mut Reading, context: &Context, parts: &[Expr]) -> Result<(), NoMemory>
    requires { AreNumbered context.now.base context.now.nets }
    ensures { OnOk result (AddsParts context.now reading.old reading.new parts.now) }
{
    let mut left = parts.len();
    'parts: while left > 0 {
        left -= 1;
        read_expr(reading, context, &parts[left])?;
    }
    Ok(())
}

/// Reads joined expressions that are repeated. Those that are repeated no times add faults alone.
#[cycle(reading)]
fn read_repeat(
    reading: &mut Reading,
    context: &Context,
    count: u32,
    parts: &[Expr],
) -> Result<(), NoMemory>
    requires { AreNumbered context.now.base context.now.nets }
    ensures { OnOk result (AddsRepeat context.now reading.old reading.new count parts.now) }
{
    let wide = reading.wide;
    if count == 0 {
        reading.wide = true;
        read_parts(reading, context, parts)?;
        reading.wide = wide;
        return Ok(());
    }
    let start = reading.bits.len();
    read_parts(reading, context, parts)?;
    reading.add_copies(start, u64::from(count - 1))
}

/// The token at which an expression begins.
#[cycle(beginning)]
pub(crate) fn first_token(expr: &Expr) -> u32
    ensures { result ≡ first_token expr.now }
{
    match expr {
        Expr::Whole(name) => *name,
        Expr::Bit(name, _) => *name,
        Expr::Part(name, _, _) => *name,
        Expr::Constant(token) => *token,
        Expr::Join(parts) => first_of(parts.as_slice()).saturating_sub(1),
        Expr::Repeat(_, parts) => first_of(parts.as_slice()).saturating_sub(3),
    }
}

/// The token at which the first of joined expressions begins.
#[cycle(beginning)]
fn first_of(parts: &[Expr]) -> u32
    ensures { result ≡ get_or (map first_token parts.now) 0 0 }
{
    match parts {
        [] => 0,
        [first, ..] => first_token(first),
    }
}

/// The fault of this cause at a token.
fn refusal(context: &Context, cause: Cause, token: u32) -> NetFault
    ensures { result ≡ NetFault.Refused cause (start_of context.now.tokens token) }
{
    NetFault::Refused {
        cause,
        at: start_of(context.tokens, token),
    }
}

/// What a whole expression stands for, by what was read of it.
fn outcome(context: &Context, expr: &Expr, reading: Reading) -> Result<List<NetId>, NetFault>
    requires { AddsExpr context.now nothing reading expr.now }
    ensures { result ≡ meaning context.now expr.now }
{
    if let Some(name) = reading.unknown {
        return Err(refusal(context, Cause::NotDeclared, name));
    }
    if let Some(name) = reading.misplaced {
        return Err(refusal(context, Cause::BadIndex, name));
    }
    if reading.wide {
        return Err(refusal(context, Cause::Width, first_token(expr)));
    }
    Ok(reading.bits)
}

/// The bits of a whole expression of a module, the least significant first, as nets of an instance of
/// it; or the expression's first fault.
///
/// `expr` is of the tree of the context's tokens. Each name of it is looked up once, and each bit is
/// made once, so the time is that of reading the expression and of writing at most 65,536 nets.
pub fn read_bits(alloc: Global, context: &Context, expr: &Expr) -> Result<List<NetId>, NetFault>
    requires { AreNumbered context.now.base context.now.nets }
    ensures { TellsBits (meaning context.now expr.now) result }
{
    let mut reading = Reading::new(alloc);
    read_expr(&mut reading, context, expr)?;
    outcome(context, expr, reading)
}
