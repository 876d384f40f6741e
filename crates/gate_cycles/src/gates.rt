//! The gates of a chip as a graph.
ghost use Rattle.std.specs.Prelude.{◌≡◌, ◌≤◌, ◌++◌, IfOk, OnOk, length, map, replicate};
ghost use Rattle.gate_cycles.specs.Gates.{AreGateRows, IsDriven, IsLeastOnCycle, IsTableOf, drivers, gate_named, gate_row, listed};

use emu_io::{List, NoMemory};
use emu_machine::{Chip, EmuGate};
use graph_cycle::least_on_cycle;
use graph_rank::Graph;
use id_arena::ChipNetId;
use std::alloc::Global;

/// For a net that no gate drives.
const NO_GATE: u32 = u32::MAX;

/// The least gate of a chip that lies on a cycle of gates, if there is one. Takes a step for each net, gate
/// and input of a gate.
pub fn least_cyclic_gate(alloc: Global, chip: &Chip) -> Result<Option<u32>, NoMemory>
    requires { IsDriven chip.now }
    ensures { IfOk result (λ found. IsLeastOnCycle chip.now found) }
{
    let graph = gate_graph(alloc, chip)?;
    least_on_cycle(alloc, &graph)
}

/// The gates of a chip as a graph: each depends on those that drive its inputs.
pub fn gate_graph(alloc: Global, chip: &Chip) -> Result<Graph, NoMemory>
    requires { IsDriven chip.now }
    ensures { IfOk result (λ rows. AreGateRows chip.now rows) }
{
    let table = net_gates(alloc, chip)?;
    graph_of(alloc, chip.gates.as_slice(), &table)
}

/// The same of some gates, with the gate that drives each net.
fn graph_of(alloc: Global, gates: &[EmuGate], table: &List<u32>) -> Result<Graph, NoMemory>
    requires { length gates.now ≤ 4294967295 }
    ensures { IfOk result (λ rows. rows ≡ map (gate_row table.now) gates.now) }
{
    let mut graph = Graph::new(alloc);
    let mut needs = Vec::new(alloc);
    'each: for gate in gates {
        put_drivers(&mut needs, table, gate.inputs.as_slice())?;
        graph.add_row(needs.as_slice())?;
    }
    Ok(graph)
}

/// Puts the gates that drive some nets in place of those that were there.
fn put_drivers(needs: &mut Vec<u32>, table: &List<u32>, nets: &[ChipNetId]) -> Result<(), NoMemory>
    ensures { OnOk result (needs.new.items ≡ drivers table.now nets.now) }
{
    needs.clear();
    'each: for net in nets {
        put_gate(needs, gate_named(table, *net))?;
    }
    Ok(())
}

/// Puts a gate behind those that are there, if it is one.
fn put_gate(needs: &mut Vec<u32>, gate: u32) -> Result<(), NoMemory>
    ensures { OnOk result (needs.new.items ≡ needs.old.items ++ listed gate) }
{
    if gate != NO_GATE {
        needs.push(gate)?;
    }
    Ok(())
}

/// The gate that the table names for a net.
fn gate_named(table: &List<u32>, net: ChipNetId) -> u32
    ensures { result ≡ gate_named table.now net.place }
{
    let place = u64::from(net.place);
    if place < table.len() {
        *table.get(place)
    } else {
        NO_GATE
    }
}

/// For each net of the chip the gate that drives it, if a gate does.
fn net_gates(alloc: Global, chip: &Chip) -> Result<List<u32>, NoMemory>
    requires { IsDriven chip.now }
    ensures { IfOk result (λ table. IsTableOf chip.now (length chip.now.gates) table) }
{
    let gates = chip.gates.as_slice();
    let mut table = no_gates(alloc, u64::from(chip.nets))?;
    'each: for k in 0..gates.len() {
        table.set(u64::from(gates[k].output.place), k as u32);
    }
    Ok(table)
}

/// The table of nets that no gate drives.
fn no_gates(alloc: Global, count: u64) -> Result<List<u32>, NoMemory>
    ensures { IfOk result (λ table. table ≡ replicate count 4294967295) }
{
    let mut table = List::new(alloc);
    'each: for _ in 0..count {
        table.push(NO_GATE)?;
    }
    Ok(table)
}
