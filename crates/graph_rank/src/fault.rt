//! Why a graph has no ranking.

use emu_io::{List, NoMemory};

/// Why a graph has no ranking.
#[derive(Debug, Drop)]
pub enum GraphFault {
    /// Some node has no rank. The list is the one cycle that is found from the least such node, going
    /// on each time to the least dependency without rank; each node depends on the next, and the last
    /// one on the first.
    Cycle(List<u32>),
    /// No memory was left.
    NoMemory,
}

impl From<NoMemory> for GraphFault {
    ghost use Rattle.std.specs.Prelude.{◌≡◌};
    ghost use Rattle.graph_rank.specs.declared.fault.GraphFault.TheVariants.{NoMemory as no_memory};

    ghost from_gives = { λ _ e. e ≡ no_memory };

    fn from(_: NoMemory) -> GraphFault {
        GraphFault::NoMemory
    }
}
