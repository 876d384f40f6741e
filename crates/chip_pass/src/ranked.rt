//! The gates of a chip in ranked order, as a pass over gates takes them.
ghost use Rattle.std.specs.Prelude.{◌≡◌, ◌<◌, ◌≤◌, ◌++◌, ◌∷◌, [], ℕ, IfOk, OnOk, length, map, slice_index};
ghost use Rattle.chip_pass.specs.Orders.{input_places, ranked_inputs, ranked_outputs};

use emu_io::{List, NoMemory};
use emu_machine::{Chip, EmuGate};
use graph_rank::{Graph, Order};
use std::alloc::Global;

/// For each gate in order the nets that it reads.
pub(crate) fn inputs_of(alloc: Global, chip: &Chip, order: &Order) -> Result<Graph, NoMemory>
    requires few { length order.now.order ≤ 4294967295 }
    requires there { (k : ℕ) → k < length order.now.order → slice_index order.now.order k < length chip.now.gates }
    ensures { IfOk result (λ inputs. inputs ≡ ranked_inputs chip.now order.now.order) }
{
    let mut inputs = Graph::new(alloc);
    let mut nets = Vec::new(alloc);
    'gates: for k in 0..order.len() {
        put_inputs(&mut nets, chip.gates.get(u64::from(order.at(k))))?;
        inputs.add_row(nets.as_slice())?;
    }
    Ok(inputs)
}

/// For each gate in order the net that it drives.
pub(crate) fn outputs_of(alloc: Global, chip: &Chip, order: &Order) -> Result<List<u32>, NoMemory>
    requires there { (k : ℕ) → k < length order.now.order → slice_index order.now.order k < length chip.now.gates }
    ensures { IfOk result (λ outputs. outputs ≡ ranked_outputs chip.now order.now.order) }
{
    let mut outputs = List::new(alloc);
    'gates: for k in 0..order.len() {
        let gate = chip.gates.get(u64::from(order.at(k)));
        outputs.push(gate.output.place)?;
    }
    Ok(outputs)
}

// Puts the inputs of a gate in place of what was there.
fn put_inputs(nets: &mut Vec<u32>, gate: &EmuGate) -> Result<(), NoMemory>
    ensures { OnOk result (nets.new.items ≡ input_places gate.now) }
{
    nets.clear();
    'inputs: for input in gate.inputs.as_slice() {
        nets.push(input.place)?;
    }
    Ok(())
}
