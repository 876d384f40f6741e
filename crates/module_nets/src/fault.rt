//! Why a module's declarations, or an expression, are refused.

use emu_io::NoMemory;
use id_arena::ArenaFault;

/// What is wrong at a name or an expression.
#[derive(Clone, Copy, Debug, PartialEq, Eq)]
pub enum Cause {
    /// A name that is no net, a port without direction, or a direction of a name that is no port.
    NotDeclared,
    /// A name that something else in the module has.
    NameTwice,
    /// A select outside of its net's range, against its direction, or of a net without range.
    BadIndex,
    /// More than 65,536 bits.
    Width,
}

/// A fault, and the byte of the text at which it stands.
#[derive(Clone, Copy, Debug, PartialEq, Eq)]
pub enum NetFault {
    Refused { cause: Cause, at: u32 },
    /// No memory was left.
    NoMemory,
}

impl From<NoMemory> for NetFault {
    ghost use Rattle.std.specs.Prelude.{◌≡◌};
    ghost use Rattle.module_nets.specs.declared.fault.NetFault.{NetFault};
    ghost use Rattle.module_nets.specs.declared.fault.NetFault.TheVariants as fault;

    ghost from_gives = { λ _ e. e ≡ fault.NoMemory };

    fn from(_: NoMemory) -> NetFault {
        NetFault::NoMemory
    }
}

impl From<ArenaFault> for NetFault {
    ghost use Rattle.std.specs.Prelude.{◌≡◌};
    ghost use Rattle.module_nets.specs.declared.fault.NetFault.{NetFault};
    ghost use Rattle.module_nets.specs.declared.fault.NetFault.TheVariants as fault;

    ghost from_gives = { λ _ e. e ≡ fault.NoMemory };

    /// The names of a text are fewer than its tokens, so a full table is want of memory too.
    fn from(_: ArenaFault) -> NetFault {
        NetFault::NoMemory
    }
}
