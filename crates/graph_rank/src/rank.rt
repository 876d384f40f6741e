//! The ranking of a graph.
ghost use Rattle.std.specs.Prelude.{◌<◌, ◌^◌, length};
ghost use Rattle.graph_rank.specs.Rows.{InRange};
ghost use Rattle.graph_rank.specs.Places.{IsFirstUnranked};
ghost use Rattle.graph_rank.specs.Answers.{Answers};

use crate::cycle::find_cycle;
use crate::fault::GraphFault;
use crate::graph::Graph;
use crate::order::{Order, in_order};
use crate::search::{Mark, mark_all};
use std::alloc::Global;

/// The ranks of a graph and its nodes in order, or the one cycle where some node has no rank.
pub fn rank_graph(alloc: Global, graph: &Graph) -> Result<Order, GraphFault>
    requires { InRange graph.now }
    ensures { Answers graph.now result }
{
    let marks = mark_all(alloc, graph)?;
    match first_unranked(marks.as_slice()) {
        None => {
            let order = in_order(alloc, marks.as_slice())?;
            Ok(order)
        }
        Some(first) => {
            let cycle = find_cycle(alloc, graph, marks.as_slice(), first)?;
            Err(GraphFault::Cycle(cycle))
        }
    }
}

// The least node that has no rank.
fn first_unranked(marks: &[Mark]) -> Option<u32>
    requires { length marks.now < 2 ^ 32 }
    ensures { IsFirstUnranked marks.now result }
{
    'marks: for (node, mark) in marks.iter().enumerate() {
        if !mark.is_ranked() {
            return Some(node as u32);
        }
    }
    None
}
