//! What the gates of a chip give for the values of their inputs, as a trait: whoever has such a rule and whoever
//! makes passes by one need not know of each other.
#![tactic(auto)]

ghost use Rattle.std.specs.Prelude.{◌≡◌, ◌+◌, ◌<◌, ◌≤◌, List, All, length, map};
ghost use Rattle.emu_machine.specs.declared.netlist.EmuGate.{EmuGate};
ghost use Rattle.gate_pass.specs.Gates.{value_on};

use emu_machine::EmuGate;
use gate_pass::{NetValue, Steps};
use std::sync::ledger::Ledger;

/// What each gate of a chip gives for the values of its inputs.
pub trait ChipRule<T: NetValue> {
    /// What a gate gives for the values of its inputs, in their order.
    ghost gives: { Self → EmuGate → List T → T };

    /// Which gates the rule speaks of.
    ghost Knows: { Self → EmuGate → Type 0 };

    /// What a gate gives for the values of its inputs. It may count one step.
    fn value<L: Ledger>(&self, gate: &EmuGate, values: &[T], steps: &mut Steps<L>) -> T
        requires known { Knows self.now gate.now }
        requires there { All (λ i. i.place < length values.now) gate.now.inputs }
        ensures value { result ≡ gives self.now gate.now (map (λ i. value_on T.none values.now i.place) gate.now.inputs) }
        ensures steps { steps.new ≤ steps.old + 1 };
}
