//! What a pass asks of values, and of what gates give.
ghost use Rattle.std.specs.Prelude.{◌≡◌, ◌+◌, ◌<◌, ◌≤◌, ◌↔◌, ℕ, List, All, IsTrue, false, length, map};
ghost use Rattle.gate_pass.specs.Gates.{value_on};

use crate::Steps;
use std::sync::ledger::Ledger;

/// A value of a net.
pub trait NetValue: Copy {
    /// What a net has that is not there.
    ghost none: { Self };

    /// Whether two values are the same.
    fn is(self, other: Self) -> bool
        ensures { IsTrue result ↔ (self ≡ other) };
}

impl NetValue for bool {
    ghost none = { false };

    fn is(self, other: bool) -> bool {
        self == other
    }
}

/// What each gate gives for the values of its inputs.
pub trait GateRule<T: NetValue> {
    /// What a gate gives for the values of its inputs, in their order.
    ghost gives: { Self → ℕ → List T → T };

    /// Which gates the rule speaks of, and for which inputs.
    ghost Knows: { Self → ℕ → List ℕ → Type 0 };

    /// What a gate gives for the values of its inputs. It may count one step.
    fn value<L: Ledger>(&self, gate: u32, inputs: &[u32], values: &[T], steps: &mut Steps<L>) -> T
        requires known { Knows self.now gate inputs.now }
        requires there { All (λ n. n < length values.now) inputs.now }
        ensures value { result ≡ gives self.now gate (map (value_on T.none values.now) inputs.now) }
        ensures steps { steps.new ≤ steps.old + 1 };
}
