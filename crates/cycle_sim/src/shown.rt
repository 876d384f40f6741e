//! Nets that actions give something show what is held there, once the actions of a slot are done.

ghost use Rattle.std.specs.Prelude.{◌≡◌, ◌<◌, ℕ, All, Some, [], get_or, length, slice_get, slice_set};
ghost use Rattle.emu_machine.specs.declared.netlist.Chip.{Chip};
ghost use Rattle.cycle_sim.specs.Passes.{ArePasses, BitsCatchUp, CatchesUp, CatchUp, IsFree, rows_of};
ghost use Rattle.cycle_sim.specs.Standing.{CanTake, ChipStands};
ghost use Rattle.cycle_sim.specs.Tables.{HaveSizes};
ghost use Rattle.cycle_sim.specs.Values.{cell};

use crate::passes::show_on;
use crate::taken::{action_at, ends_of, read_port_of, register_of};
use chip_pass::ChipPass;
use emu_io::List;
use emu_machine::{Action, Results};
use id_arena::{ChipId, ChipNetId, Key, Wire};

/// Lets each register and read net to which some actions give a value in their last slot show what is held
/// there.
pub(crate) fn show_taken(
    results: &Results,
    wires: &[Wire],
    held: &[List<bool>],
    actions: &[Action],
    passes: &mut [ChipPass<'_, bool>],
)
    requires chips { (c : ℕ) (chip : Chip) → slice_get results.now.net c ≡ Some chip → ChipStands chip }
    requires actions { (nets : ℕ) × All (CanTake results.now wires.now nets) actions.now }
    requires held { HaveSizes results.now held.now }
    requires passes { ArePasses results.now passes.old }
    ensures passes { ArePasses results.now passes.new }
    ensures shown { CatchUp results.now wires.now held.now actions.now (rows_of passes.old) (rows_of passes.new) }
{
    let mut left = actions.len();
    'actions: while left > 0 {
        left -= 1;
        show_one(results, wires, held, action_at(actions, left), passes);
    }
}

/// The same for one action.
fn show_one(
    results: &Results,
    wires: &[Wire],
    held: &[List<bool>],
    action: &Action,
    passes: &mut [ChipPass<'_, bool>],
)
    requires chips { (c : ℕ) (chip : Chip) → slice_get results.now.net c ≡ Some chip → ChipStands chip }
    requires action { (nets : ℕ) × CanTake results.now wires.now nets action.now }
    requires held { HaveSizes results.now held.now }
    requires passes { ArePasses results.now passes.old }
    ensures passes { ArePasses results.now passes.new }
    ensures shown { CatchesUp results.now wires.now held.now action.now (rows_of passes.old) (rows_of passes.new) }
{
    match *action {
        Action::Input { chip, register, .. } => {
            let q = register_of(results, chip, register).q;
            show(results, held, chip, q, passes);
        }
        Action::Load { chip, register } => {
            let q = register_of(results, chip, register).q;
            show(results, held, chip, q, passes);
        }
        Action::Send { wire, register, .. } => {
            let to = ends_of(wires, wire).to;
            let q = register_of(results, to, register).q;
            show(results, held, to, q, passes);
        }
        Action::Read { chip, mem, port } => {
            let port = read_port_of(results, chip, mem, port);
            show_bits(results, held, chip, port.bits.as_slice(), passes);
        }
        Action::Write { .. } => {}
    }
}

/// Lets nets of a chip show what is held there.
fn show_bits(
    results: &Results,
    held: &[List<bool>],
    chip: ChipId,
    bits: &[ChipNetId],
    passes: &mut [ChipPass<'_, bool>],
)
    requires free { All (λ n. IsFree results.now chip.place n.place) bits.now }
    requires held { HaveSizes results.now held.now }
    requires passes { ArePasses results.now passes.old }
    ensures passes { ArePasses results.now passes.new }
    ensures shown { BitsCatchUp chip.place bits.now held.now (rows_of passes.old) (rows_of passes.new) }
{
    'bits: for bit in bits {
        show(results, held, chip, *bit, passes);
    }
}

/// Lets a net that no gate drives show what is held there.
fn show(
    results: &Results,
    held: &[List<bool>],
    chip: ChipId,
    net: ChipNetId,
    passes: &mut [ChipPass<'_, bool>],
)
    requires free { IsFree results.now chip.place net.place }
    requires held { HaveSizes results.now held.now }
    requires passes { ArePasses results.now passes.old }
    ensures passes { ArePasses results.now passes.new }
    ensures shown { rows_of passes.new ≡ slice_set (rows_of passes.old) chip.place (slice_set (get_or (rows_of passes.old) chip.place []) net.place (cell held.now chip.place net.place)) }
{
    let value = held_at(held, chip, net);
    show_on(net, value, &mut passes[chip.place() as usize]);
}

/// What a register or read port holds at a net of a chip.
pub(crate) fn held_at(held: &[List<bool>], chip: ChipId, net: ChipNetId) -> bool
    requires chip { chip.place < length held.now }
    requires net { net.place < length (get_or held.now chip.place []) }
    ensures { result ≡ cell held.now chip.place net.place }
{
    *held[chip.place() as usize].get(net.place() as u64)
}
