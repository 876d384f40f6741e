//! The marks that a frame starts with.

ghost use Rattle.std.specs.Prelude.{◌≡◌, ◌<◌, ◌≤◌, ◌==◌, ◌∷◌, [], ℕ, ◌+◌, if◌then◌else◌, is_some, not, List, None, IfOk, count_by, length};
ghost use Rattle.design_core.specs.Dependency.{write_nodes};
ghost use Rattle.chip_pass.specs.Chips.{ChipOthersWait, IsChipPass};
ghost use Rattle.gate_pass.specs.Gates.{value_on};
ghost use Rattle.emu_machine.specs.declared.netlist.EmuGate.{EmuGate};
ghost use Rattle.emu_machine.specs.Mapped.{is_kept, subject};
ghost use Rattle.emu_machine.specs.Marks.{Mark, no_mark, widened, writes_of};
ghost use Rattle.emu_machine.specs.Netlist.{chip_at, gate_of};
ghost use Rattle.mark_rule.specs.Gates.{gate_gives};
ghost use Rattle.mark_rule.specs.Kept.{AreKept};
ghost use Rattle.frame_marks.specs.Starts.{AllGated, AllKept, AreGated, ChipHasStarted, HaveStarted, MemoriesHaveStarted, NetsHaveStarted, OutputsTold, RowHasStarted, WiresHaveStarted, start_mark};
ghost use Rattle.frame_marks.specs.Tables.{AllOthersWait, AreChipTables, AreMemoryTables};

use crate::memories::{memory_at, original_of};
use crate::parts::chip_of;
use crate::slots::Plan;
use crate::tables::MemoryMarks;
use chip_pass::ChipPass;
use design_core::Memory;
use emu_io::{List, NoMemory};
use emu_machine::{Chip, EmuGate};
use id_arena::{ChipId, ChipNetId, Key, MemId};
use mark_rule::{Inside, NetMarks, subject_of, widen};
use std::alloc::Global;

/// For each net of each chip whether it is kept, and whether a gate drives it.
#[derive(Clone, Copy, Drop)]
pub(crate) struct Nets<'a> {
    pub(crate) kept: &'a [List<bool>],
    pub(crate) gated: &'a [List<bool>],
}

/// For each net of a chip whether a gate drives it.
pub(crate) fn gated_nets(alloc: Global, chip: &Chip) -> Result<List<bool>, NoMemory>
    ensures { IfOk result (AreGated chip.now) }
{
    let mut gated = List::from_vec(vec![in alloc; false; chip.nets as usize]?);
    mark_outputs(chip.gates.as_slice(), &mut gated);
    Ok(gated)
}

/// Tells of the nets that some gates drive that gates do.
fn mark_outputs(gates: &[EmuGate], gated: &mut List<bool>)
    ensures { OutputsTold gates.now gated.old gated.new }
{
    'gates: for gate in gates {
        mark_output(gate, gated);
    }
}

/// Tells of the net that a gate drives that one does.
#[tactic(auto, using(crate::proofs::Starting::told_here, crate::proofs::Starting::told_far))]
fn mark_output(gate: &EmuGate, gated: &mut List<bool>)
    ensures { OutputsTold (gate.now ∷ []) gated.old gated.new }
{
    let net = u64::from(gate.output.place);
    if net < gated.len() {
        gated.set(net, true);
    }
}

/// Gives the nets of all chips that no gate drives the marks that a frame starts with. All gates wait.
pub(crate) fn start_chips<I: Inside>(
    plan: Plan<'_>,
    inside: &I,
    kept: &[List<bool>],
    gated: &[List<bool>],
    chips: &mut [ChipPass<'_, NetMarks>],
)
    requires kept { AllKept plan.results.now kept.now }
    requires gated { AllGated plan.results.now gated.now }
    requires tables { AreChipTables plan.results.now chips.old }
    ensures tables { AreChipTables plan.entry.results.now chips.new }
    ensures others { AllOthersWait plan.entry.design.now plan.entry.results.now (I.inside inside.now) chips.new }
    ensures started { HaveStarted plan.entry.results.now (I.inside inside.now) chips.new }
{
    plan.results.stand();
    'chips: for c in 0..chips.len() {
        start_chip(
            plan,
            inside,
            ChipId::of(c as u32),
            kept[c].as_slice(),
            gated[c].as_slice(),
            &mut chips[c],
        );
    }
}

/// The same for one chip.
fn start_chip<I: Inside>(
    plan: Plan<'_>,
    inside: &I,
    chip: ChipId,
    kept: &[bool],
    gated: &[bool],
    pass: &mut ChipPass<'_, NetMarks>,
)
    requires there { chip.place < length plan.results.now.net }
    requires chip { pass.old.chip ≡ chip_at plan.results.now.net chip.place }
    requires kept { AreKept plan.results.now chip.place kept.now }
    requires gated { AreGated (chip_at plan.results.now.net chip.place) gated.now }
    ensures chip { pass.new.chip ≡ pass.old.chip }
    ensures pass { IsChipPass pass.new }
    ensures others { ChipOthersWait (gate_gives plan.entry.design.now plan.entry.results.now (I.inside inside.now) chip.place) no_mark pass.new }
    ensures started { ChipHasStarted plan.entry.results.now (I.inside inside.now) chip.place pass.new }
{
    pass.wake_all();
    'nets: for n in 0..chip_of(plan.results, u64::from(chip.place)).nets {
        let net = ChipNetId::of(n);
        start_net(
            plan,
            inside,
            chip,
            net,
            kept[n as usize],
            gated[n as usize],
            pass,
        );
    }
    pass.stands();
}

/// Gives a net that is not gated the marks that a frame starts with.
#[tactic(auto, using(crate::proofs::Starting::net_started, crate::proofs::Starting::net_gated, crate::proofs::Starting::free_of))]
fn start_net<I: Inside>(
    plan: Plan<'_>,
    inside: &I,
    chip: ChipId,
    net: ChipNetId,
    kept: bool,
    gated: bool,
    pass: &mut ChipPass<'_, NetMarks>,
)
    requires there { net.place < pass.old.chip.nets }
    requires chip { pass.old.chip ≡ chip_at plan.results.now.net chip.place }
    requires kept { kept ≡ is_kept plan.results.now chip.place net.place }
    requires gated { gated ≡ is_some (gate_of (chip_at plan.results.now.net chip.place) net.place) }
    ensures chip { pass.new.chip ≡ pass.old.chip }
    ensures started { NetsHaveStarted plan.entry.results.now (I.inside inside.now) chip.place net.place pass.old
        → NetsHaveStarted plan.entry.results.now (I.inside inside.now) chip.place (net.place + 1) pass.new }
    ensures others { (gives : EmuGate → List Mark → Mark) → ChipOthersWait gives no_mark pass.old → ChipOthersWait gives no_mark pass.new }
{
    if gated {
        return;
    }
    set_net(plan, inside, chip, net, kept, pass);
}

/// Gives a net that no gate drives the marks that a frame starts with.
fn set_net<I: Inside>(
    plan: Plan<'_>,
    inside: &I,
    chip: ChipId,
    net: ChipNetId,
    kept: bool,
    pass: &mut ChipPass<'_, NetMarks>,
)
    requires there { net.place < pass.old.chip.nets }
    requires free { gate_of pass.old.chip net.place ≡ None }
    ensures chip { pass.new.chip ≡ pass.old.chip }
    ensures taken { (n : ℕ) → value_on no_mark pass.new.pass.values n
        ≡ (if net.place == n then widened (I.inside inside.now) (subject plan.entry.results.now chip.place net.place) (start_mark kept) else value_on no_mark pass.old.pass.values n) }
    ensures others { (gives : EmuGate → List Mark → Mark) → ChipOthersWait gives no_mark pass.old → ChipOthersWait gives no_mark pass.new }
{
    pass.stands();
    let marks = if kept {
        NetMarks::only_before()
    } else {
        NetMarks::none()
    };
    let what = subject_of(plan.results, chip, net);
    pass.set(net, widen(inside, what, marks));
}

/// Lets each memory stand at the writes outside the influence.
pub(crate) fn start_memories<I: Inside>(
    plan: Plan<'_>,
    inside: &I,
    memories: &mut [List<MemoryMarks>],
)
    requires { AreMemoryTables plan.results.now memories.old }
    ensures tables { AreMemoryTables plan.entry.results.now memories.new }
    ensures started { MemoriesHaveStarted plan.entry.design.now plan.entry.results.now (I.inside inside.now) memories.new }
{
    plan.results.stand();
    'chips: for c in 0..memories.len() {
        start_row(plan, inside, ChipId::of(c as u32), &mut memories[c]);
    }
}

/// The same for the memories of one chip.
fn start_row<I: Inside>(plan: Plan<'_>, inside: &I, chip: ChipId, row: &mut List<MemoryMarks>)
    requires { length row.old ≤ 4294967295 }
    ensures size { length row.new ≡ length row.old }
    ensures started { RowHasStarted plan.entry.design.now plan.entry.results.now (I.inside inside.now) chip.place row.new }
{
    'memories: for m in 0..row.len() {
        let standing = first_standing(plan, inside, chip, MemId::of(m as u32));
        row.set(
            m,
            MemoryMarks {
                standing,
                broken: false,
                wrote: false,
            },
        );
    }
}

/// How many writes of a memory are outside the influence.
fn first_standing<I: Inside>(plan: Plan<'_>, inside: &I, chip: ChipId, mem: MemId) -> u64
    ensures { result ≡ count_by (λ a. not (I.inside inside.now a)) (writes_of plan.entry.design.now plan.entry.results.now chip.place mem.place) }
{
    match original_of(plan.results, chip, mem) {
        Some(of) => match memory_at(plan.design, of) {
            Some(memory) => outside_writes(inside, of, memory),
            None => 0,
        },
        None => 0,
    }
}

/// How many write ports of a memory are outside the influence.
fn outside_writes<I: Inside>(inside: &I, of: MemId, memory: &Memory) -> u64
    requires { length memory.now.writes ≤ 4294967295 }
    ensures { result ≡ count_by (λ a. not (I.inside inside.now a)) (write_nodes of memory.now) }
{
    let mut outside = 0;
    'ports: for port in 0..memory.writes.len() {
        if !inside.has_write(of, port as u32) {
            outside += 1;
        }
    }
    outside
}

/// Lets no wire carry anything that is known.
pub(crate) fn start_wires(carried: &mut [NetMarks])
    ensures size { length carried.new ≡ length carried.old }
    ensures started { WiresHaveStarted carried.new }
{
    'wires: for w in 0..carried.len() {
        carried[w] = NetMarks::none();
    }
}
