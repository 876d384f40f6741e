//! Expressions of an instance, with their faults as those of the text.

ghost use Rattle.std.specs.Prelude.{◌≡◌};
ghost use Rattle.module_bits.specs.Names.{AreNumbered};
ghost use Rattle.flattening.specs.Faults.{bits_here, expression_test, fault_of};
ghost use Rattle.elaborator.specs.Outcomes.{Finds, told_as};

use crate::setting::{Instance, Setting};
use design_core::LimitKind;
use emu_io::List;
use flattening::ElabFault;
use id_arena::NetId;
use module_bits::{BitsFault, read_sized};
use module_nets::Cause;
use std::alloc::Global;
use verilog_tree::Expr;

/// The fault of a cause, at this byte.
pub fn fault_of(cause: Cause, at: u32) -> ElabFault
    ensures { result ≡ fault_of cause at }
{
    match cause {
        Cause::NotDeclared => ElabFault::NotDeclared { at },
        Cause::NameTwice => ElabFault::NameTwice { at },
        Cause::BadIndex => ElabFault::BadIndex { at },
        Cause::Width => ElabFault::Limit {
            which: LimitKind::Width,
            at,
        },
    }
}

/// The fault of an expression as one of the text.
fn told(fault: BitsFault) -> ElabFault
    ensures { result ≡ told_as fault }
{
    match fault {
        BitsFault::Refused { cause, at } => fault_of(cause, at),
        BitsFault::WidthDiffers { at } => ElabFault::WidthDiffers { at },
        BitsFault::NoMemory => ElabFault::NoMemory,
    }
}

/// The bits of a whole expression, from bit 0 on, where it has no fault; else its first fault. Where a width is
/// asked, another one is a fault.
pub fn read(
    alloc: Global,
    setting: &Setting,
    instance: &Instance,
    expr: &Expr,
    asked: Option<u64>,
) -> Result<List<NetId>, ElabFault>
    requires { AreNumbered instance.now.base instance.now.nets }
    ensures { Finds (expression_test setting.now instance.now asked expr.now) (bits_here setting.now instance.now expr.now) result }
{
    match read_sized(alloc, &instance.context(setting), expr, asked) {
        Ok(bits) => Ok(bits),
        Err(fault) => Err(told(fault)),
    }
}
