//! Values of single input bits, events, and places of elements on chips.

use emu_io::List;
use id_arena::{ChipId, GroupId, NetId};

/// A value for one bit of an input port, named by its net.
#[derive(Clone, Copy, Debug, Drop, PartialEq, Eq)]
pub struct PortBit {
    pub net: NetId,
    pub value: bool,
}

/// Values for some input bits.
pub type PortValues = List<PortBit>;

/// One event of the outside: a group of inputs, and the values that it gives to some of their bits.
/// The group that is one past the last is that of all inputs.
#[derive(Debug, Drop)]
pub struct Event {
    pub group: GroupId,
    pub values: PortValues,
}

/// A chip for each element, in order of the elements.
pub type Placement = List<ChipId>;
