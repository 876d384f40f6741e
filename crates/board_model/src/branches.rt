//! The tree of a chip: from which chip each other chip is reached over the fewest wires.
ghost use Rattle.std.specs.Prelude.{◌≡◌, ◌<◌, Some, length, slice_get};

use emu_io::List;
use id_arena::{ChipId, Key};
use std::marker::Model;

/// The tree of a chip, its root. Contracts see it as the list of what it tells of each chip.
#[derive(Debug, Drop)]
pub struct Tree {
    branches: List<Option<(ChipId, u32)>>,
}

impl Model for Tree {
    ghost use Rattle.std.specs.Prelude.{ℕ, Option, List};
    ghost use Rattle.id_arena.specs.declared.keys.ChipId.{ChipId};

    ghost Value = { List (Option (ChipId × ℕ)) };

    ghost view = { λ t. t.branches };
}

impl Tree {
    /// The tree that tells this of the chips.
    pub(crate) fn from_branches(branches: List<Option<(ChipId, u32)>>) -> Tree
        ensures { result ≡ branches }
    {
        Tree { branches }
    }

    /// The parent of a chip, and over how many wires it is reached from the root: the parent is the
    /// lowest of the chips that are one wire nearer and have a wire to it. None for the root itself and
    /// for a chip to which no path leads.
    pub fn parent(&self, chip: ChipId) -> Option<(ChipId, u32)>
        requires { chip.place < length self.now }
        ensures { slice_get self.now chip.place ≡ Some result }
    {
        *self.branches.get(u64::from(chip.place()))
    }
}
