//! Laws on the definitions, for the crates above.

ghost use Rattle.module_bits.specs.Laws.{NetsAreNumbered};

/// That nets which `read_nets` gave may be read with, where their bits have room.
pub fn nets_are_numbered()
    ensures { NetsAreNumbered }
{}
