//! A pass over the gates of one chip by change.
ghost use Rattle.std.specs.Prelude.{◌≡◌, ◌+◌, ◌<◌, ◌≤◌, ℕ, false, length, replicate, slice_get, Option, Some, None, IfOk, List};
ghost use Rattle.emu_machine.specs.declared.netlist.EmuGate.{EmuGate};
ghost use Rattle.emu_machine.specs.Netlist.{IsOnCycle, gate_of};
ghost use Rattle.gate_cycles.specs.Gates.{IsDriven};
ghost use Rattle.gate_pass.specs.Gates.{NetHasTaken, WereDue, value_on};
ghost use Rattle.chip_pass.specs.Chips.{ChipHasSettled, ChipOthersWait, IsChipPass};

use crate::ChipRule;
use crate::order::order_of;
use crate::ranked::{inputs_of, outputs_of};
use crate::rule_by_place::RuleByPlace;
use emu_io::NoMemory;
use emu_machine::Chip;
use gate_pass::{GatePass, NetValue, Steps};
use graph_rank::Order;
use id_arena::ChipNetId;
use std::alloc::Global;
use std::marker::Model;
use std::sync::ledger::Ledger;

/// A chip, a value for each of its nets, and which of its gates wait.
///
/// A contract sees the chip, the order in which its gates have their turns, and the pass over the gates in that
/// order. Only `new` takes memory.
#[derive(Drop)]
pub struct ChipPass<'a, T: NetValue> {
    chip: &'a Chip,
    order: Order,
    pass: GatePass<T>,
}

impl<'a, T: NetValue> Model for ChipPass<'a, T> {
    ghost use Rattle.chip_pass.specs.Chips.{ChipState, IsChipPass};

    ghost Value = { ChipState T };

    ghost view = { λ pass. record { chip = pass.chip.now; order = pass.order.order; pass = pass.pass } };

    ghost invariant = { λ pass. IsChipPass (record { chip = pass.chip.now; order = pass.order.order; pass = pass.pass }) };
}

impl<'a, T: NetValue> ChipPass<'a, T> {
    /// A chip of which all nets have this value. All gates wait, whatever they give.
    pub fn new(alloc: Global, chip: &'a Chip, value: T) -> Result<ChipPass<'a, T>, NoMemory>
        requires driven { IsDriven chip.now }
        requires no_cycle { (k : ℕ) → IsOnCycle chip.now k → ⊥ }
        ensures chip { IfOk result (λ pass. pass.chip ≡ chip.now) }
        ensures values { IfOk result (λ pass. pass.pass.values ≡ replicate chip.now.nets value) }
        ensures idle { IfOk result (λ pass. pass.pass.idle ≡ replicate (length chip.now.gates) false) }
        ensures stands { IfOk result (λ pass. IsChipPass pass) }
        ensures others { IfOk result (λ pass. (gives : EmuGate → List T → T) → ChipOthersWait gives T.none pass) }
    {
        let order = order_of(alloc, chip)?;
        let inputs = inputs_of(alloc, chip, &order)?;
        let outputs = outputs_of(alloc, chip, &order)?;
        let pass = GatePass::new(alloc, inputs, outputs, chip.nets, value)?;
        Ok(ChipPass { chip, order, pass })
    }

    /// Tells what holds of the chip, the order and the pass. It does nothing.
    pub fn stands(&self)
        ensures { IsChipPass self.now }
    {
        let _ = &self.chip;
    }

    /// The value of a net.
    pub fn value(&self, net: ChipNetId) -> T
        requires { net.place < self.now.chip.nets }
        ensures { result ≡ value_on T.none self.now.pass.values net.place }
    {
        self.pass.value(net.place)
    }

    /// The values of all nets.
    pub fn values(&self) -> &[T]
        ensures values { result.now ≡ self.now.pass.values }
        ensures nets { length result.now ≡ self.now.chip.nets }
    {
        self.pass.values()
    }

    /// Gives a net that no gate drives a value. Where it is another than before, the gates that read it wait.
    pub fn set(&mut self, net: ChipNetId, value: T)
        requires there { net.place < self.old.chip.nets }
        requires free { gate_of self.old.chip net.place ≡ None }
        ensures chip { self.new ≡ record self.old { pass = self.new.pass } }
        ensures taken { NetHasTaken T.none net.place value self.old.pass self.new.pass }
        ensures others { (gives : EmuGate → List T → T) → ChipOthersWait gives T.none self.old → ChipOthersWait gives T.none self.new }
    {
        self.pass.set(net.place, value);
    }

    /// Lets all gates wait, as where what gates give has changed.
    pub fn wake_all(&mut self)
        ensures woken { self.new ≡ record self.old { pass = record self.old.pass { idle = replicate (length self.old.chip.gates) false } } }
        ensures others { (gives : EmuGate → List T → T) → ChipOthersWait gives T.none self.new }
    {
        self.pass.wake_all();
    }

    /// Gives each gate that waits its turn, until none waits. Then each net has what comes to it through gates.
    pub fn settle<R: ChipRule<T>>(&mut self, rule: &R)
        requires others { ChipOthersWait (R.gives rule.now) T.none self.old }
        requires known { (k : ℕ) (gate : EmuGate) → slice_get self.old.chip.gates k ≡ Some gate → R.Knows rule.now gate }
        ensures settled { ChipHasSettled (R.gives rule.now) T.none self.old self.new }
        ensures others { ChipOthersWait (R.gives rule.now) T.none self.new }
    {
        self.pass.settle(&RuleByPlace {
            rule,
            chip: self.chip,
            order: &self.order,
        });
    }

    /// The same, where each gate that has a turn may count one step.
    pub fn settle_counted<R: ChipRule<T>, L: Ledger>(&mut self, rule: &R, steps: &mut Steps<L>)
        requires others { ChipOthersWait (R.gives rule.now) T.none self.old }
        requires known { (k : ℕ) (gate : EmuGate) → slice_get self.old.chip.gates k ≡ Some gate → R.Knows rule.now gate }
        ensures settled { ChipHasSettled (R.gives rule.now) T.none self.old self.new }
        ensures others { ChipOthersWait (R.gives rule.now) T.none self.new }
        ensures counted { (turns : List ℕ) × WereDue T.none self.old.pass self.new.pass turns × (steps.new ≤ steps.old + length turns) }
    {
        self.pass.settle_counted(
            &RuleByPlace {
                rule,
                chip: self.chip,
                order: &self.order,
            },
            steps,
        );
    }
}
