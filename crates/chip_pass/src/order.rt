//! The order in which the gates of a chip have their turns.
ghost use Rattle.std.specs.Prelude.{◌≡◌, ℕ, IfOk};
ghost use Rattle.emu_machine.specs.Netlist.{IsOnCycle};
ghost use Rattle.gate_cycles.specs.Gates.{IsDriven};
ghost use Rattle.chip_pass.specs.Orders.{IsGateOrder};

use emu_io::NoMemory;
use emu_machine::Chip;
use gate_cycles::gate_graph;
use graph_rank::{GraphFault, Order, cycles_come_round, rank_graph, rankings_are_sorted};
use std::alloc::Global;

/// An order of the gates of a chip in which each stands after those that drive its inputs.
pub(crate) fn order_of(alloc: Global, chip: &Chip) -> Result<Order, NoMemory>
    requires driven { IsDriven chip.now }
    requires no_cycle { (k : ℕ) → IsOnCycle chip.now k → ⊥ }
    ensures { IfOk result (λ order. IsGateOrder chip.now order.order) }
{
    let graph = gate_graph(alloc, chip)?;
    rankings_are_sorted();
    cycles_come_round();
    match rank_graph(alloc, &graph) {
        Ok(order) => Ok(order),
        Err(GraphFault::NoMemory) => Err(NoMemory),
        Err(GraphFault::Cycle(_)) => unreachable!(),
    }
}
