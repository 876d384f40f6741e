//! The one cycle that is told of a graph in which some node has no rank.
ghost use Rattle.std.specs.Prelude.{◌≡◌, ◌<◌, ◌≤◌, ◌^◌, ℕ, false, length, MatchOption, IfOk, All, Contains};
ghost use Rattle.graph_rank.specs.Rows.{row};
ghost use Rattle.graph_rank.specs.Cycles.{IsFirst, IsCycle};
ghost use Rattle.graph_rank.specs.Search.{ranked, mark_at, AreMarks};
ghost use Rattle.graph_rank.specs.Walk.{IsLeastUnranked};

use crate::Graph;
use crate::search::Mark;
use emu_io::{List, NoMemory};
use std::alloc::Global;

/// Walks from the least node without rank, on each time to the least dependency without rank, until a
/// node comes again; the cycle is the walk from that node's first place on.
pub(crate) fn find_cycle(
    alloc: Global,
    graph: &Graph,
    marks: &[Mark],
    first: u32,
) -> Result<List<u32>, NoMemory>
    requires marks { AreMarks graph.now marks.now }
    requires first { IsFirst graph.now first }
    ensures { IfOk result (λ cycle. IsCycle graph.now cycle) }
{
    let mut walk = Vec::new(alloc);
    let mut places = vec![in alloc; None; marks.len()]?;
    let mut node = first;
    'walk: loop {
        if let Some(place) = places[node as usize] {
            return Ok(List::from_vec(walk.split_off(place)?));
        }
        places[node as usize] = Some(walk.len());
        walk.push(node)?;
        node = least_unranked(graph.row(node), marks);
    }
}

// The least node of a row that has no rank, where there is one.
fn least_unranked(needs: &[u32], marks: &[Mark]) -> u32
    requires small { length marks.now < 2 ^ 32 }
    requires bounds { All (λ d. d < length marks.now) needs.now }
    requires some { (d : ℕ) × Contains needs.now d × (ranked (mark_at marks.now d) ≡ false) }
    ensures { IsLeastUnranked marks.now needs.now result }
{
    let mut least = u32::MAX;
    'needs: for need in needs {
        if *need < least && !marks[*need as usize].is_ranked() {
            least = *need;
        }
    }
    least
}
