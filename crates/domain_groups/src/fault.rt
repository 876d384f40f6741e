//! Why a text stands for no groups.
use emu_io::NoMemory;
use json_members::{JsonFault, ShapeFault};

/// The first fault of a text of groups, in this order; of those that name a group, the first group
/// that has one counts, and in it the first of this list.
#[derive(Clone, Copy, Debug, Drop, PartialEq, Eq)]
pub enum GroupFault {
    /// The text is no JSON.
    NotJson,
    /// A member is missing or of another form.
    BadShape,
    /// There are more than 32 groups.
    Limit,
    /// An earlier group has the name of this one.
    NameTaken { group: u32 },
    /// This group has no port.
    EmptyGroup { group: u32 },
    /// A port of this group is no input port of the design.
    NoPort { group: u32 },
    /// A port of this group stands at an earlier place, in this group or an earlier one.
    PortTwice { group: u32 },
    /// No memory was left.
    NoMemory,
}

impl From<NoMemory> for GroupFault {
    ghost use Rattle.std.specs.Prelude.{◌≡◌};
    ghost use Rattle.domain_groups.specs.declared.fault.GroupFault.TheVariants.{NoMemory as no_memory};

    ghost from_gives = { λ _ e. e ≡ no_memory };

    fn from(_: NoMemory) -> GroupFault {
        GroupFault::NoMemory
    }
}

impl From<JsonFault> for GroupFault {
    ghost use Rattle.domain_groups.specs.Faults.{FromJson};

    ghost from_gives = { FromJson };

    fn from(fault: JsonFault) -> GroupFault {
        match fault {
            JsonFault::NotJson => GroupFault::NotJson,
            JsonFault::NoMemory => GroupFault::NoMemory,
        }
    }
}

impl From<ShapeFault> for GroupFault {
    ghost use Rattle.domain_groups.specs.Faults.{FromShape};

    ghost from_gives = { FromShape };

    fn from(fault: ShapeFault) -> GroupFault {
        match fault {
            ShapeFault::BadShape => GroupFault::BadShape,
            ShapeFault::NoMemory => GroupFault::NoMemory,
        }
    }
}
