//! The gates that read each net, found by pins that are linked: each knows the pin before it that reads
//! the same net.
ghost use Rattle.std.specs.Prelude.{◌≡◌, ◌<◌, ◌↔◌, ◌∷◌, [], ℕ, List, IfOk, OnOk, Contains, length};
ghost use Rattle.graph_rank.specs.Rows.{row};
ghost use Rattle.gate_pass.specs.Readers.{AreChains, AreLinked, AreReaders, HasMore, PinReads};

use emu_io::NoMemory;
use graph_rank::Graph;
use std::alloc::Global;

/// An input pin of a gate, and the pin before it that reads the same net.
#[derive(Clone, Copy, Debug, Drop, PartialEq, Eq)]
pub(crate) struct Pin {
    gate: u32,
    before: Option<usize>,
}

/// For each net the last pin that reads it, and all pins.
#[derive(Drop)]
struct Chains {
    last: Vec<Option<usize>>,
    pins: Vec<Pin>,
}

/// For each of so many nets the gates that read it.
pub(crate) fn readers_of(alloc: Global, inputs: &Graph, nets: u32) -> Result<Graph, NoMemory>
    requires { (k n : ℕ) → Contains (row inputs.now k) n → n < nets }
    ensures { IfOk result (AreReaders nets inputs.now) }
{
    let chains = chains_of(alloc, inputs, nets)?;
    let mut readers = Graph::new(alloc);
    let mut gates = Vec::new(alloc);
    'nets: for net in 0..nets {
        chains.fill(net, &mut gates)?;
        readers.add_row(gates.as_slice())?;
    }
    Ok(readers)
}

/// The pins of all gates, linked for each net.
#[tactic(auto, using(crate::proofs::Chains::no_chains))]
fn chains_of(alloc: Global, inputs: &Graph, nets: u32) -> Result<Chains, NoMemory>
    requires { (k n : ℕ) → Contains (row inputs.now k) n → n < nets }
    ensures nets { IfOk result (λ chains. length chains.last.items ≡ nets) }
    ensures pins { IfOk result (λ chains. AreChains inputs.now (length inputs.now) chains.last.items chains.pins.items) }
{
    let mut chains = Chains {
        last: vec![in alloc; None; nets as usize]?,
        pins: Vec::new(alloc),
    };
    'gates: for gate in 0..inputs.len() {
        chains.add_gate(gate, inputs.row(gate))?;
    }
    Ok(chains)
}

impl Chains {
    /// Adds the pins of a gate.
    fn add_gate(&mut self, gate: u32, nets: &[u32]) -> Result<(), NoMemory>
        requires { (n : ℕ) → Contains nets.now n → n < length self.old.last.items }
        ensures nets { OnOk result (length self.new.last.items ≡ length self.old.last.items) }
        ensures pins { OnOk result ((all : List ℕ) → AreLinked all self.old.last.items self.old.pins.items
            → HasMore all self.old.pins.items gate nets.now self.new.last.items self.new.pins.items) }
    {
        'nets: for net in nets {
            self.add(gate, *net)?;
        }
        Ok(())
    }

    /// Adds a pin.
    fn add(&mut self, gate: u32, net: u32) -> Result<(), NoMemory>
        requires { net < length self.old.last.items }
        ensures nets { OnOk result (length self.new.last.items ≡ length self.old.last.items) }
        ensures pins { OnOk result ((all : List ℕ) → AreLinked all self.old.last.items self.old.pins.items
            → HasMore all self.old.pins.items gate (net ∷ []) self.new.last.items self.new.pins.items) }
    {
        let before = self.last[net as usize];
        let place = self.pins.len();
        self.pins.push(Pin { gate, before })?;
        self.last[net as usize] = Some(place);
        Ok(())
    }

    /// Makes a list the gates of the pins that read a net.
    fn fill(&self, net: u32, gates: &mut Vec<u32>) -> Result<(), NoMemory>
        requires there { net < length self.now.last.items }
        requires linked { (all : List ℕ) × AreLinked all self.now.last.items self.now.pins.items }
        ensures { OnOk result ((all : List ℕ) → AreLinked all self.now.last.items self.now.pins.items
            → (k : ℕ) → Contains gates.new.items k ↔ PinReads all self.now.pins.items k net) }
    {
        gates.clear();
        let mut at = self.last[net as usize];
        'back: while let Some(place) = at {
            let pin = self.pins[place];
            gates.push(pin.gate)?;
            at = pin.before;
        }
        Ok(())
    }
}
