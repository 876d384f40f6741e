//! The least node on a cycle.
ghost use Rattle.std.specs.Prelude.{IfOk};
ghost use Rattle.graph_rank.specs.Rows.{InRange};
ghost use Rattle.graph_cycle.specs.Cyclic.{IsLeastOnCycle};
ghost use Rattle.graph_cycle.specs.Search.{AreMarks};

use crate::search::{Mark, mark_all};
use emu_io::NoMemory;
use graph_rank::Graph;
use std::alloc::Global;

/// The least node that depends on itself, in one step or in more, if there is one.
pub fn least_on_cycle(alloc: Global, graph: &Graph) -> Result<Option<u32>, NoMemory>
    requires { InRange graph.now }
    ensures { IfOk result (λ found. IsLeastOnCycle graph.now found) }
{
    let marks = mark_all(alloc, graph)?;
    Ok(first_cyclic(graph, marks.as_slice()))
}

// The least node that is marked as one on a cycle.
fn first_cyclic(graph: &Graph, marks: &[Mark]) -> Option<u32>
    requires { AreMarks graph.now marks.now }
    ensures { IsLeastOnCycle graph.now result }
{
    'marks: for node in 0..graph.len() {
        if marks[node as usize].is_cyclic() {
            return Some(node);
        }
    }
    None
}
