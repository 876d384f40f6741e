//! Passes over the gates of all chips: how they are made, and how nets get their values by them.

ghost use Rattle.std.specs.Prelude.{◌≡◌, ◌<◌, ℕ, Bool, List, false, Some, None, IfOk, length, slice_get, slice_set};
ghost use Rattle.chip_pass.specs.Chips.{ChipOthersWait, ChipState, IsChipPass};
ghost use Rattle.gate_cycles.specs.Gates.{IsDriven};
ghost use Rattle.emu_machine.specs.declared.netlist.Chip.{Chip};
ghost use Rattle.emu_machine.specs.declared.netlist.EmuGate.{EmuGate};
ghost use Rattle.emu_machine.specs.Netlist.{IsOnCycle, chip_at, gate_of};
ghost use Rattle.cycle_sim.specs.Passes.{AllCaughtUp, AreGated, ArePasses, GatedSoFar, HasCaughtUp, IsLevelPass, ShowHeld, rows_of};
ghost use Rattle.cycle_sim.specs.Standing.{ChipStands};
ghost use Rattle.cycle_sim.specs.Tables.{AllShown, HaveSizes};
ghost use Rattle.cycle_sim.specs.Values.{gate_gives};

use crate::parts::chip_of;
use crate::rule::GateBits;
use chip_pass::ChipPass;
use emu_io::{List, NoMemory};
use emu_machine::{Chip, EmuGate, Results};
use id_arena::{ChipNetId, Key};
use std::alloc::Global;

/// For each chip a pass over its gates, in which all nets show what comes to them from what is held.
pub(crate) fn settled_passes<'a>(
    alloc: Global,
    results: &'a Results,
    held: &[List<bool>],
) -> Result<Vec<ChipPass<'a, bool>>, NoMemory>
    requires chips { (c : ℕ) (chip : Chip) → slice_get results.now.net c ≡ Some chip → ChipStands chip }
    requires driven { (c : ℕ) (chip : Chip) → slice_get results.now.net c ≡ Some chip → IsDriven chip }
    requires no_cycle { (c k : ℕ) → IsOnCycle (chip_at results.now.net c) k → ⊥ }
    requires held { HaveSizes results.now held.now }
    ensures passes { IfOk result (λ passes. ArePasses results.now passes.items) }
    ensures level { IfOk result (λ passes. ShowHeld results.now held.now (rows_of passes.items)) }
    ensures shown { IfOk result (λ passes. AllShown results.now held.now (rows_of passes.items)) }
{
    let mut passes = passes_of(alloc, results, held)?;
    settle_all(results, &mut passes);
    Ok(passes)
}

/// For each chip a pass over its gates, in which the nets that no gate drives show what is held there. All
/// gates wait.
fn passes_of<'a>(
    alloc: Global,
    results: &'a Results,
    held: &[List<bool>],
) -> Result<Vec<ChipPass<'a, bool>>, NoMemory>
    requires driven { (c : ℕ) (chip : Chip) → slice_get results.now.net c ≡ Some chip → IsDriven chip }
    requires no_cycle { (c k : ℕ) → IsOnCycle (chip_at results.now.net c) k → ⊥ }
    requires held { HaveSizes results.now held.now }
    ensures passes { IfOk result (λ passes. ArePasses results.now passes.items) }
    ensures level { IfOk result (λ passes. ShowHeld results.now held.now (rows_of passes.items)) }
{
    let mut passes = Vec::new(alloc);
    'chips: for c in 0..held.len() {
        passes.push(pass_of(alloc, chip_of(results, c as u64), held[c].as_slice())?)?;
    }
    Ok(passes)
}

/// The same for one chip.
fn pass_of<'a>(alloc: Global, chip: &'a Chip, held: &[bool]) -> Result<ChipPass<'a, bool>, NoMemory>
    requires driven { IsDriven chip.now }
    requires no_cycle { (k : ℕ) → IsOnCycle chip.now k → ⊥ }
    requires held { length held.now ≡ chip.now.nets }
    ensures { IfOk result (IsLevelPass chip.now held.now) }
{
    let gated = gated_nets(alloc, chip)?;
    let mut pass = ChipPass::new(alloc, chip, false)?;
    show_free(chip.nets, held, gated.as_slice(), &mut pass);
    Ok(pass)
}

/// Lets the nets of a chip that no gate drives show what is held there.
fn show_free(nets: u32, held: &[bool], gated: &[bool], pass: &mut ChipPass<'_, bool>)
    requires nets { nets ≡ pass.old.chip.nets }
    requires held { length held.now ≡ nets }
    requires gated { AreGated pass.old.chip gated.now }
    requires stands { IsChipPass pass.old }
    requires others { ChipOthersWait gate_gives false pass.old }
    ensures { IsLevelPass pass.old.chip held.now pass.new }
{
    'nets: for n in 0..nets {
        if !gated[n as usize] {
            show_on(ChipNetId::of(n), held[n as usize], pass);
        }
    }
}

/// Lets a net that no gate drives show a value.
pub(crate) fn show_on(net: ChipNetId, value: bool, pass: &mut ChipPass<'_, bool>)
    requires there { net.place < pass.old.chip.nets }
    requires free { gate_of pass.old.chip net.place ≡ None }
    requires others { ChipOthersWait gate_gives false pass.old }
    ensures chip { pass.new.chip ≡ pass.old.chip }
    ensures stands { IsChipPass pass.new }
    ensures others { ChipOthersWait gate_gives false pass.new }
    ensures shown { pass.new.pass.values ≡ slice_set pass.old.pass.values net.place value }
{
    pass.set(net, value);
    pass.stands();
}

/// For each net of a chip whether a gate drives it.
fn gated_nets(alloc: Global, chip: &Chip) -> Result<List<bool>, NoMemory>
    requires { IsDriven chip.now }
    ensures { IfOk result (AreGated chip.now) }
{
    let mut gated = List::from_vec(vec![in alloc; false; chip.nets as usize]?);
    mark_outputs(chip.gates.as_slice(), &mut gated);
    Ok(gated)
}

/// Tells of the nets that some gates drive that gates do.
fn mark_outputs(gates: &[EmuGate], gated: &mut List<bool>)
    requires { (k : ℕ) (gate : EmuGate) → slice_get gates.now k ≡ Some gate → gate.output.place < length gated.old }
    ensures { GatedSoFar gates.now gated.old gated.new }
{
    'gates: for gate in gates {
        gated.set(u64::from(gate.output.place()), true);
    }
}

/// Gives each gate that waits its turn, chip by chip. Then all nets show what comes to them from what the nets
/// that no gate drives show.
pub(crate) fn settle_all(results: &Results, passes: &mut [ChipPass<'_, bool>])
    requires chips { (c : ℕ) (chip : Chip) → slice_get results.now.net c ≡ Some chip → ChipStands chip }
    requires passes { ArePasses results.now passes.old }
    ensures passes { ArePasses results.now passes.new }
    ensures level { (held : List (List Bool)) → ShowHeld results.now held (rows_of passes.old) → ShowHeld results.now held (rows_of passes.new) }
    ensures shown { (held : List (List Bool)) → ShowHeld results.now held (rows_of passes.old) → AllShown results.now held (rows_of passes.new) }
{
    let _ = results;
    settle_each(passes);
}

/// Gives each gate that waits its turn, chip by chip.
fn settle_each(passes: &mut [ChipPass<'_, bool>])
    requires { (c : ℕ) (s : ChipState Bool) → slice_get passes.old c ≡ Some s → ChipOthersWait gate_gives false s }
    ensures { AllCaughtUp passes.old passes.new }
{
    'chips: for c in 0..passes.len() {
        settle(&mut passes[c]);
    }
}

/// The same for one chip.
fn settle(pass: &mut ChipPass<'_, bool>)
    requires { ChipOthersWait gate_gives false pass.old }
    ensures { HasCaughtUp pass.old pass.new }
{
    pass.stands();
    pass.settle(&GateBits);
    pass.stands();
}
