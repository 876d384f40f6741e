//! For each chip the nets to which "before" comes.
ghost use Rattle.std.specs.Prelude.{◌≡◌, ◌+◌, ◌<◌, ◌≤◌, ℕ, IfOk, None, Some, false, true, get_or, length, map, slice_get};
ghost use Rattle.emu_machine.specs.Netlist.{IsOnCycle, chip_at, gate_of};
ghost use Rattle.output_marks.specs.Shown.{AreShown, HasKept, HasPut, IsShown, gate_count};

use chip_pass::ChipPass;
use design_core::Design;
use emu_io::{List, NoMemory};
use emu_machine::{Chip, Results};
use gate_pass::Steps;
use id_arena::{ChipId, ChipNetId, Key};
use mark_rule::{NetMarks, PlainRule, kept_nets};
use std::alloc::Global;
use std::sync::ledger::Ledger;

/// For each chip whether each net shows the state from before.
pub(crate) fn tables_of<L: Ledger>(
    alloc: Global,
    design: &Design,
    results: &Results,
    steps: &mut Steps<L>,
) -> Result<List<List<bool>>, NoMemory>
    requires { (c k : ℕ) → IsOnCycle (chip_at results.now.net c) k → ⊥ }
    ensures shown { IfOk result (λ tables. AreShown design.now results.now tables) }
    ensures counted { steps.new ≤ steps.old + gate_count results.now.net }
{
    results.stand();
    let chips = results.net().chips().as_slice();
    let mut tables = List::new(alloc);
    'chips: for c in 0..chips.len() {
        let chip = ChipId::of(c as u32);
        let table = table_of(alloc, design, results, chip, &chips[c], steps)?;
        tables.push(table)?;
    }
    Ok(tables)
}

/// The same of one chip.
fn table_of<L: Ledger>(
    alloc: Global,
    design: &Design,
    results: &Results,
    chip: ChipId,
    netlist: &Chip,
    steps: &mut Steps<L>,
) -> Result<List<bool>, NoMemory>
    requires here { slice_get results.now.net chip.place ≡ Some netlist.now }
    requires no_cycle { (k : ℕ) → IsOnCycle netlist.now k → ⊥ }
    ensures shown { IfOk result (λ table. IsShown design.now results.now chip.place table) }
    ensures counted { steps.new ≤ steps.old + length netlist.now.gates }
{
    results.stand();
    let kept = kept_nets(alloc, results, chip)?;
    let mut pass = ChipPass::new(alloc, netlist, NetMarks::none())?;
    put_kept(&kept, netlist.nets, &mut pass);
    pass.stands();
    pass.settle_counted(&PlainRule::new(design, results, chip), steps);
    let table = befores(alloc, pass.values())?;
    Ok(table)
}

// Gives each net that is kept "before" alone.
fn put_kept(kept: &List<bool>, nets: u32, pass: &mut ChipPass<'_, NetMarks>)
    requires count { length kept.now ≡ nets }
    requires nets { pass.old.chip.nets ≡ nets }
    requires free { (n : ℕ) → n < nets → get_or kept.now n false ≡ true → gate_of pass.old.chip n ≡ None }
    ensures { HasKept kept.now nets pass.old pass.new }
{
    'nets: for n in 0..nets {
        put_if(*kept.get(u64::from(n)), ChipNetId::of(n), pass);
    }
}

// Gives a net "before" alone, if it is kept.
fn put_if(is_kept: bool, net: ChipNetId, pass: &mut ChipPass<'_, NetMarks>)
    requires there { net.place < pass.old.chip.nets }
    requires free { is_kept ≡ true → gate_of pass.old.chip net.place ≡ None }
    ensures { HasPut is_kept net.place pass.old pass.new }
{
    if is_kept {
        pass.stands();
        pass.set(net, NetMarks::only_before());
    }
}

// Which marks have "before".
fn befores(alloc: Global, marks: &[NetMarks]) -> Result<List<bool>, NoMemory>
    ensures { IfOk result (λ table. table ≡ map (λ m. m.before) marks.now) }
{
    let mut table = List::new(alloc);
    'marks: for mark in marks {
        table.push(mark.before)?;
    }
    Ok(table)
}
