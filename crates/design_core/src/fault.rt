//! Why parts make no design.

use emu_io::{NoMemory, Text};
use id_arena::{ElemId, NetId};

/// A quantity of a design that has a limit.
#[derive(Clone, Copy, Debug, PartialEq, Eq)]
pub enum LimitKind {
    Nets,
    Elements,
    /// The inputs of one gate.
    Inputs,
    /// The width of a vector or expression.
    Width,
    /// The depth of the hierarchy.
    Depth,
    /// The instances of modules, the top included.
    Instances,
    /// The words of all memories.
    Words,
}

/// The first fault of parts that make no design.
#[derive(Debug, Drop)]
pub enum DesignFault {
    /// An element names something that is not there, or is of a shape that it can't have. With the
    /// number of elements as `elem`, the fault is in the lists around the elements.
    BadNet { elem: ElemId },
    Limit { which: LimitKind },
    /// More than one thing drives a net.
    TwoDrivers { net: NetId, name: Text },
    /// A net is read, and nothing drives it.
    Undriven { net: NetId, name: Text },
    NoMemory,
}

impl From<NoMemory> for DesignFault {
    ghost use Rattle.std.specs.Prelude.{◌≡◌};
    ghost use Rattle.design_core.specs.declared.fault.DesignFault.{DesignFault};

    ghost from_gives = { λ _ fault. fault ≡ DesignFault.NoMemory };

    fn from(_: NoMemory) -> DesignFault {
        DesignFault::NoMemory
    }
}
