//! What passes rest on, as a law over definitions alone.
ghost use Rattle.gate_pass.specs.Gates.{ValuesAreUnique};

use crate::NetValue;

/// Where all gates hold, the values of the nets that no gate drives fix all others.
pub fn settled_values_are_unique<T: NetValue>()
    ensures { ValuesAreUnique T.none }
{}
