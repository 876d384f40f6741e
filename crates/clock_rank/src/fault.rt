//! Why a design is not ranked.

use design_core::NodeId;
use emu_io::{List, NoMemory};

/// Why a design is not ranked.
#[derive(Debug, Drop)]
pub enum RankFault {
    /// Some node has no rank. The list is the one cycle that is found from the least such node, going
    /// on each time to the least dependency without rank; each node depends on the next, and the last
    /// one on the first.
    Cycle(List<NodeId>),
    /// No memory was left.
    NoMemory,
}

impl From<NoMemory> for RankFault {
    ghost use Rattle.std.specs.Prelude.{◌≡◌};
    ghost use Rattle.clock_rank.specs.declared.fault.RankFault.TheVariants.{NoMemory as no_memory};

    ghost from_gives = { λ _ e. e ≡ no_memory };

    fn from(_: NoMemory) -> RankFault {
        RankFault::NoMemory
    }
}
