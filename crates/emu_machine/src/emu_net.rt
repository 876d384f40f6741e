//! A netlist in which each net has one driver.
ghost use Rattle.std.specs.Prelude.{◌≡◌};
ghost use Rattle.emu_machine.specs.Building.{AreChips, Builds, IsBuilt};

use crate::Chip;
use crate::drivers::least_misdriven;
use emu_io::{List, NoMemory};
use id_arena::{ChipId, ChipNetId, Key};
use std::alloc::Global;
use std::marker::Model;

/// The netlists of all chips. A clause sees the list of the chips.
///
/// Each net of each chip is driven by exactly one gate, register or read port, and gates, registers and
/// memories are of the forms that a netlist's text has.
#[derive(Debug, Drop)]
pub struct EmuNet {
    chips: List<Chip>,
}

impl Model for EmuNet {
    ghost use Rattle.std.specs.Prelude.{List};
    ghost use Rattle.emu_machine.specs.declared.netlist.Chip.{Chip};
    ghost use Rattle.emu_machine.specs.Building.{IsBuilt};

    ghost Value = { List Chip };

    ghost view = { λ n. n.chips };

    ghost invariant = { λ n. IsBuilt n.chips };
}

/// Why chips make no netlist.
#[derive(Clone, Copy, Debug, Drop, PartialEq, Eq)]
pub enum BuildFault {
    /// The least net, by chip and then by number, that has no driver or several.
    ShapeFault { chip: ChipId, net: ChipNetId },
    NoMemory,
}

impl From<NoMemory> for BuildFault {
    ghost use Rattle.std.specs.Prelude.{◌≡◌};
    ghost use Rattle.emu_machine.specs.declared.emu_net.BuildFault.{BuildFault};

    ghost from_gives = { λ _ fault. fault ≡ BuildFault.NoMemory };

    fn from(_: NoMemory) -> BuildFault {
        BuildFault::NoMemory
    }
}

impl EmuNet {
    /// The netlist of these chips, which it takes in each case. The time is linear in their parts, and a
    /// byte is taken for each net of one chip at a time.
    pub fn build(alloc: Global, chips: List<Chip>) -> Result<EmuNet, BuildFault>
        requires { AreChips chips }
        ensures { Builds chips result }
    {
        'chips: for place in 0..chips.len() {
            if let Some(net) = least_misdriven(alloc, chips.get(place))? {
                let chip = ChipId::of(place as u32);
                return Err(BuildFault::ShapeFault { chip, net });
            }
        }
        Ok(EmuNet { chips })
    }

    /// The chips, from chip 0.
    pub fn chips(&self) -> &List<Chip>
        ensures { result.now ≡ self.now }
    {
        &self.chips
    }

    /// What holds of every netlist, for its callers.
    pub fn stands(&self)
        ensures { IsBuilt self.now }
    {
        let _ = &self.chips;
    }
}
