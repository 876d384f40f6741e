//! Expressions that must have a width.

ghost use Rattle.std.specs.Prelude.{◌≡◌};
ghost use Rattle.module_nets.specs.Names.{start_of};
ghost use Rattle.module_bits.specs.Bits.{first_token};
ghost use Rattle.module_bits.specs.Names.{AreNumbered};
ghost use Rattle.module_bits.specs.Sized.{TellsSized, sized_meaning, with_width};

use crate::bits::{first_token, read_bits};
use crate::context::Context;
use emu_io::List;
use id_arena::NetId;
use module_nets::{Cause, NetFault, start_of};
use std::alloc::Global;
use verilog_tree::Expr;

/// A fault of a whole expression, with the byte of the text at which it stands.
#[derive(Clone, Copy, Debug, PartialEq, Eq)]
pub enum BitsFault {
    Refused { cause: Cause, at: u32 },
    /// The expression has another width than it must.
    WidthDiffers { at: u32 },
    /// No memory was left.
    NoMemory,
}

impl From<NetFault> for BitsFault {
    ghost use Rattle.std.specs.Prelude.{◌≡◌};
    ghost use Rattle.module_bits.specs.Sized.{fault_from};

    ghost from_gives = { λ fault e. e ≡ fault_from fault };

    fn from(fault: NetFault) -> BitsFault {
        match fault {
            NetFault::Refused { cause, at } => BitsFault::Refused { cause, at },
            NetFault::NoMemory => BitsFault::NoMemory,
        }
    }
}

/// These bits of a whole expression, where they are as many as is asked.
fn asked_of(
    context: &Context,
    expr: &Expr,
    asked: Option<u64>,
    bits: List<NetId>,
) -> Result<List<NetId>, BitsFault>
    ensures { result ≡ with_width asked (start_of context.now.tokens (first_token expr.now)) bits }
{
    match asked {
        Some(width) if bits.len() != width => Err(BitsFault::WidthDiffers {
            at: start_of(context.tokens, first_token(expr)),
        }),
        _ => Ok(bits),
    }
}

/// The bits of a whole expression of a module, as [`read_bits`] gives them, where the expression must
/// have this width; with none it may have any. The expression's own faults come before that of its
/// width, which stands where the expression begins.
pub fn read_sized(
    alloc: Global,
    context: &Context,
    expr: &Expr,
    asked: Option<u64>,
) -> Result<List<NetId>, BitsFault>
    requires { AreNumbered context.now.base context.now.nets }
    ensures { TellsSized (sized_meaning context.now asked expr.now) result }
{
    let bits = read_bits(alloc, context, expr)?;
    asked_of(context, expr, asked, bits)
}
