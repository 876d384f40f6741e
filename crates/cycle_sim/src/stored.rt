//! What the actions of a slot put in words.

ghost use Rattle.std.specs.Prelude.{◌≡◌, ℕ, All, Some, slice_get};
ghost use Rattle.emu_machine.specs.declared.netlist.Chip.{Chip};
ghost use Rattle.emu_machine.specs.State.{write_port};
ghost use Rattle.cycle_sim.specs.Passes.{rows_of};
ghost use Rattle.cycle_sim.specs.Standing.{CanStore, ChipStands, IsWritePort};
ghost use Rattle.cycle_sim.specs.Tables.{HaveSizes, HaveWords};
ghost use Rattle.cycle_sim.specs.Takes.{HasStored, HasStoredOne};

use crate::gates::value_of;
use crate::parts::chip_of;
use crate::taken::{action_at, table_of};
use crate::words::{ChipWords, address_of, number_of, put_word};
use chip_pass::ChipPass;
use emu_machine::{Action, EmuWrite, Results};
use id_arena::{ChipId, Key, MemId};

/// Does what the write ports of some actions store. All values are read from the nets as they were shown
/// before. The actions are done from the last on, so that of several for one word the first counts.
#[tactic(auto, using(crate::proofs::Storing::nothing_yet))]
pub(crate) fn store_all(
    results: &Results,
    shown: &[ChipPass<'_, bool>],
    actions: &[Action],
    words: &mut [ChipWords],
)
    requires chips { (c : ℕ) (chip : Chip) → slice_get results.now.net c ≡ Some chip → ChipStands chip }
    requires shown { HaveSizes results.now (rows_of shown.now) }
    requires actions { All (CanStore results.now) actions.now }
    requires words { HaveWords results.now words.old }
    ensures sizes { HaveWords results.now words.new }
    ensures stored { HasStored results.now (rows_of shown.now) actions.now words.old words.new }
{
    let mut left = actions.len();
    'actions: while left > 0 {
        left -= 1;
        store(results, shown, action_at(actions, left), words);
    }
}

/// Puts the data of an action's write port at its address, if there is one and its enable is 1.
fn store(results: &Results, shown: &[ChipPass<'_, bool>], action: &Action, words: &mut [ChipWords])
    requires chips { (c : ℕ) (chip : Chip) → slice_get results.now.net c ≡ Some chip → ChipStands chip }
    requires shown { HaveSizes results.now (rows_of shown.now) }
    requires action { CanStore results.now action.now }
    requires words { HaveWords results.now words.old }
    ensures sizes { HaveWords results.now words.new }
    ensures stored { HasStoredOne results.now (rows_of shown.now) action.now words.old words.new }
{
    match *action {
        Action::Write { chip, mem, port } => {
            let port = write_port_of(results, chip, mem, port);
            let table = table_of(shown, chip);
            if value_of(table, port.enable) {
                let address = address_of(port.address.as_slice(), table);
                let word = number_of(port.feed.as_slice(), table);
                put_word(words, chip, mem, address, word);
            }
        }
        Action::Input { .. } | Action::Load { .. } | Action::Send { .. } | Action::Read { .. } => {}
    }
}

/// The write port of these numbers.
fn write_port_of(results: &Results, chip: ChipId, mem: MemId, port: u32) -> &EmuWrite
    requires { IsWritePort results.now chip.place mem.place port }
    ensures { write_port results.now.net chip.place mem.place port ≡ Some result.now }
{
    chip_of(results, chip.place() as u64)
        .memories
        .get(mem.place() as u64)
        .writes
        .get(port as u64)
}
