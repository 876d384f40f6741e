//! A pass over gates by change.
ghost use Rattle.std.specs.Prelude.{◌≡◌, ◌+◌, ◌<◌, ◌≤◌, ◌^◌, ℕ, false, true, length, replicate, slice_set, slice_index, Contains, IfOk, List};
ghost use Rattle.link_rows.specs.BitRows.{is_set, IsFirstClear};
ghost use Rattle.graph_rank.specs.Rows.{row};
ghost use Rattle.gate_pass.specs.Gates.{AreRanked, HasSettled, NetHasTaken, NoneDrives, NoneWaits, OthersWait, WereDue, value_on};
ghost use Rattle.gate_pass.specs.Inside.{AreWoken, HasHadTurn};

use crate::readers::readers_of;
use crate::waiting::Waiting;
use crate::{GateRule, NetValue, Steps};
use emu_io::{List, NoMemory};
use graph_rank::Graph;
use std::alloc::Global;
use std::marker::{Brand, Model};
use std::sync::ledger::{Blank, Ledger};

/// Gates in ranked order, a value for each net, and which gates wait.
///
/// A contract sees for each gate the nets that it reads and the net that it drives, the value of each net, and
/// whether each gate is idle. Only `new` takes memory.
#[derive(Drop)]
pub struct GatePass<T: NetValue> {
    inputs: Graph,
    outputs: List<u32>,
    readers: Graph,
    values: List<T>,
    waiting: Waiting,
}

impl<T: NetValue> Model for GatePass<T> {
    ghost use Rattle.gate_pass.specs.Gates.{PassState};
    ghost use Rattle.gate_pass.specs.Inside.{IsPass};

    ghost Value = { PassState T };

    ghost view = { λ pass. record {
      inputs = pass.inputs;
      outputs = pass.outputs;
      values = pass.values;
      idle = pass.waiting;
    } };

    ghost invariant = { λ pass. IsPass pass.inputs pass.outputs pass.readers pass.values pass.waiting };
}

impl<T: NetValue> GatePass<T> {
    /// Gates in ranked order over so many nets, which all have this value. All gates wait.
    pub fn new(
        alloc: Global,
        inputs: Graph,
        outputs: List<u32>,
        nets: u32,
        value: T,
    ) -> Result<GatePass<T>, NoMemory>
        requires { AreRanked nets inputs outputs }
        ensures made { IfOk result (λ pass. pass ≡ record {
          inputs = inputs;
          outputs = outputs;
          values = replicate nets value;
          idle = replicate (length outputs) false;
        }) }
        ensures others { IfOk result (λ pass. (gives : ℕ → List T → T) → OthersWait gives T.none pass) }
    {
        let readers = readers_of(alloc, &inputs, nets)?;
        let waiting = Waiting::new(alloc, inputs.len())?;
        let values = values_of(alloc, nets, value)?;
        Ok(GatePass {
            inputs,
            outputs,
            readers,
            values,
            waiting,
        })
    }

    /// The value of a net.
    pub fn value(&self, net: u32) -> T
        requires { net < length self.now.values }
        ensures { result ≡ value_on T.none self.now.values net }
    {
        *self.values.get(u64::from(net))
    }

    /// The values of all nets.
    pub fn values(&self) -> &[T]
        ensures { result.now ≡ self.now.values }
    {
        self.values.as_slice()
    }

    /// Gives a net that no gate drives a value. Where it is another than before, the gates that read it wait.
    pub fn set(&mut self, net: u32, value: T)
        requires there { net < length self.old.values }
        requires free { NoneDrives self.old.outputs net }
        ensures taken { NetHasTaken T.none net value self.old self.new }
        ensures others { (gives : ℕ → List T → T) → OthersWait gives T.none self.old → OthersWait gives T.none self.new }
    {
        self.put(net, value);
    }

    /// Lets a gate wait.
    pub fn wake(&mut self, gate: u32)
        requires { gate < length self.old.outputs }
        ensures woken { self.new ≡ record self.old { idle = slice_set self.old.idle gate false } }
        ensures others { (gives : ℕ → List T → T) → OthersWait gives T.none self.old → OthersWait gives T.none self.new }
    {
        self.waiting.wake(gate);
    }

    /// Lets all gates wait, as where what gates give has changed.
    pub fn wake_all(&mut self)
        ensures woken { self.new ≡ record self.old { idle = replicate (length self.old.outputs) false } }
        ensures others { (gives : ℕ → List T → T) → OthersWait gives T.none self.new }
    {
        self.waiting.wake_all();
    }

    /// Gives each gate that waits its turn, in ranked order, until none waits.
    pub fn settle<R: GateRule<T>>(&mut self, rule: &R)
        requires others { OthersWait (R.gives rule.now) T.none self.old }
        requires known { (k : ℕ) → k < length self.old.outputs → R.Knows rule.now k (row self.old.inputs k) }
        ensures { HasSettled (R.gives rule.now) T.none self.old self.new }
    {
        self.settle_blank::<R, Brand>(rule, Blank::new(1));
    }

    /// The same, in a ledger of its own.
    fn settle_blank<R: GateRule<T>, L: Ledger>(&mut self, rule: &R, blank: Blank)
        requires name { blank.name ≡ L.name }
        requires parts { blank.parts ≡ L.parts }
        requires some { L.parts ≡ 1 }
        requires others { OthersWait (R.gives rule.now) T.none self.old }
        requires known { (k : ℕ) → k < length self.old.outputs → R.Knows rule.now k (row self.old.inputs k) }
        ensures { HasSettled (R.gives rule.now) T.none self.old self.new }
    {
        let mut steps: Steps<L> = Steps::new(blank);
        self.settle_counted(rule, &mut steps);
    }

    /// The same, where each gate that has a turn may count one step.
    pub fn settle_counted<R: GateRule<T>, L: Ledger>(&mut self, rule: &R, steps: &mut Steps<L>)
        requires others { OthersWait (R.gives rule.now) T.none self.old }
        requires known { (k : ℕ) → k < length self.old.outputs → R.Knows rule.now k (row self.old.inputs k) }
        ensures settled { HasSettled (R.gives rule.now) T.none self.old self.new }
        ensures counted { (turns : List ℕ) × WereDue T.none self.old self.new turns × (steps.new ≤ steps.old + length turns) }
    {
        let mut at = 0;
        'turns: while let Some(gate) = self.next(at) {
            self.take_turn(rule, gate, steps);
            at = gate + 1;
        }
        self.close();
    }

    // The first gate from a place on that waits.
    fn next(&self, at: u32) -> Option<u32>
        requires { at ≤ length self.now.outputs }
        ensures waits { IsFirstClear self.now.idle at result }
        ensures gates { length self.now.idle ≡ length self.now.outputs }
        ensures few { length self.now.outputs < 2 ^ 32 }
        ensures ranked { AreRanked (length self.now.values) self.now.inputs self.now.outputs }
    {
        self.waiting.next(at)
    }

    // Tells that no gate waits.
    fn close(&mut self)
        requires { NoneWaits self.old }
        ensures { self.new ≡ self.old }
    {
        self.waiting.close();
    }

    // Gives a gate its turn.
    fn take_turn<R: GateRule<T>, L: Ledger>(&mut self, rule: &R, gate: u32, steps: &mut Steps<L>)
        requires there { gate < length self.old.outputs }
        requires known { R.Knows rule.now gate (row self.old.inputs gate) }
        ensures turn { HasHadTurn (R.gives rule.now) T.none gate self.old self.new }
        ensures steps { steps.new ≤ steps.old + 1 }
    {
        self.waiting.rest(gate);
        let output = *self.outputs.get(u64::from(gate));
        let value = rule.value(gate, self.inputs.row(gate), self.values.as_slice(), steps);
        self.put(output, value);
    }

    // Gives a net a value. Where it is another than before, the gates that read it wait.
    fn put(&mut self, net: u32, value: T)
        requires { net < length self.old.values }
        ensures { NetHasTaken T.none net value self.old self.new }
    {
        if !value.is(*self.values.get(u64::from(net))) {
            self.values.set(u64::from(net), value);
            wake_readers(self.readers.row(net), &mut self.waiting);
        }
    }
}

// So many nets of one value.
fn values_of<T: NetValue>(alloc: Global, nets: u32, value: T) -> Result<List<T>, NoMemory>
    ensures { IfOk result (λ values. values ≡ replicate nets value) }
{
    let mut values = Vec::with_capacity(alloc, nets as usize)?;
    'nets: for _ in 0..nets {
        values.push(value)?;
    }
    Ok(List::from_vec(values))
}

// Lets gates wait.
fn wake_readers(gates: &[u32], waiting: &mut Waiting)
    requires { (k : ℕ) → Contains gates.now k → k < length waiting.old }
    ensures { AreWoken gates.now waiting.old waiting.new }
{
    'gates: for gate in gates {
        waiting.wake(*gate);
    }
}
