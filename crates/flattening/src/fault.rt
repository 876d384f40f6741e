//! Why a text is no design.

use design_core::LimitKind;
use emu_io::{NoMemory, Text};
use id_arena::{ArenaFault, NetId};

/// The first fault of a text. `at` is the byte of the text at which it stands.
#[derive(Debug, Drop)]
pub enum ElabFault {
    /// No module has the name of the top.
    NoTop,
    /// A second thing has the name of another.
    NameTwice { at: u32 },
    /// No module and no cell has the name.
    UnknownModule { at: u32 },
    /// An instance of a module stands within an instance of it.
    Recursive { at: u32 },
    /// There are not as many connections as ports or pins.
    PortCount { at: u32 },
    /// No port or pin has the name.
    NoPort { at: u32 },
    /// A port or pin is connected twice.
    PortTwice { at: u32 },
    /// An expression has not as many bits as it must.
    WidthDiffers { at: u32 },
    /// A select is none of its net's.
    BadIndex { at: u32 },
    /// A name is no net, a port has no direction, or a direction is of no port.
    NotDeclared { at: u32 },
    Limit { which: LimitKind, at: u32 },
    /// More than one thing drives a net; the net of least number, with its name.
    TwoDrivers { net: NetId, name: Text },
    /// A net is read, and nothing drives it; the net of least number, with its name.
    Undriven { net: NetId, name: Text },
    /// No memory was left.
    NoMemory,
}

impl From<NoMemory> for ElabFault {
    ghost use Rattle.std.specs.Prelude.{◌≡◌};
    ghost use Rattle.flattening.specs.declared.fault.ElabFault.{ElabFault};
    ghost use Rattle.flattening.specs.declared.fault.ElabFault.TheVariants as fault;

    ghost from_gives = { λ _ e. e ≡ fault.NoMemory };

    fn from(_: NoMemory) -> ElabFault {
        ElabFault::NoMemory
    }
}

impl From<ArenaFault> for ElabFault {
    ghost use Rattle.std.specs.Prelude.{◌≡◌};
    ghost use Rattle.flattening.specs.declared.fault.ElabFault.{ElabFault};
    ghost use Rattle.flattening.specs.declared.fault.ElabFault.TheVariants as fault;

    ghost from_gives = { λ _ e. e ≡ fault.NoMemory };

    /// The names of a text are fewer than its tokens, so a full table is want of memory too.
    fn from(_: ArenaFault) -> ElabFault {
        ElabFault::NoMemory
    }
}
