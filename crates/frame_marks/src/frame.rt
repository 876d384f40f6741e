//! The marks of a frame.

ghost use Rattle.std.specs.Prelude.{◌≡◌, ◌<◌, ℕ, IfOk, OnOk, length};
ghost use Rattle.emu_machine.specs.Marks.{marks_at};
ghost use Rattle.emu_machine.specs.Netlist.{IsOnCycle, chip_at};
ghost use Rattle.emu_machine.specs.State.{frame_slots};
ghost use Rattle.frame_marks.specs.Frames.{FrameStands, Shows, mark_in, memory_in};
ghost use Rattle.frame_marks.specs.Starts.{AllGated, AllKept};
ghost use Rattle.frame_marks.specs.Tables.{AreChipTables, AreMemoryTables};

use crate::parts::{chip_of, slots_of};
use crate::slots::{Plan, Timetable, follow_frame};
use crate::starts::{Nets, gated_nets};
use crate::tables::MemoryMarks;
use chip_pass::ChipPass;
use design_core::Design;
use emu_io::{List, NoMemory};
use emu_machine::Results;
use gate_pass::Steps;
use id_arena::{ChipId, ChipNetId, Key, MemId, Wire};
use mark_rule::{Inside, NetMarks, kept_nets};
use slot_endings::endings_of;
use std::alloc::Global;
use std::marker::{Brand, Model};
use std::sync::ledger::{Blank, Ledger};

/// The marks of nets and wires, and how far the writes of memories stand, as a frame goes on.
///
/// A clause sees the design, the results, the wires and the tables.
#[derive(Drop)]
pub struct FrameMarks<'a> {
    design: &'a Design,
    results: &'a Results,
    wires: &'a [Wire],
    /// By chip and net whether the net is kept.
    kept: Vec<List<bool>>,
    /// By chip and net whether a gate drives it.
    gated: Vec<List<bool>>,
    /// For each chip a pass over its gates, with the marks of its nets.
    chips: Vec<ChipPass<'a, NetMarks>>,
    /// By chip and memory how far its writes stand.
    memories: Vec<List<MemoryMarks>>,
    /// By wire the marks of the value that it carries.
    carried: Vec<NetMarks>,
}

impl<'a> Model for FrameMarks<'a> {
    ghost use Rattle.frame_marks.specs.Frames.{FrameState, frame_state};
    ghost use Rattle.frame_marks.specs.Starts.{IsFrame};

    ghost Value = { FrameState };

    ghost view = { λ f. record {
      design = f.design.now;
      results = f.results.now;
      wires = f.wires.now;
      chips = f.chips.items;
      memories = f.memories.items;
      carried = f.carried.items;
    } };

    ghost invariant = { λ f. IsFrame f.kept.items f.gated.items
        (frame_state f.design.now f.results.now f.wires.now f.chips.items f.memories.items f.carried.items) };
}

impl<'a> FrameMarks<'a> {
    /// Tables for the frames of these results, over these wires. No gate of a chip lies on a cycle.
    pub fn new(
        alloc: Global,
        design: &'a Design,
        results: &'a Results,
        wires: &'a [Wire],
    ) -> Result<FrameMarks<'a>, NoMemory>
        requires { (c k : ℕ) → IsOnCycle (chip_at results.now.net c) k → ⊥ }
        ensures design { IfOk result (λ f. f.design ≡ design.now) }
        ensures results { IfOk result (λ f. f.results ≡ results.now) }
        ensures wires { IfOk result (λ f. f.wires ≡ wires.now) }
    {
        results.stand();
        let kept = all_kept(alloc, results)?;
        let gated = all_gated(alloc, results)?;
        let chips = all_chips(alloc, results)?;
        let memories = all_memories(alloc, results)?;
        let carried = vec![in alloc; NetMarks::none(); wires.len()]?;
        Ok(FrameMarks {
            design,
            results,
            wires,
            kept,
            gated,
            chips,
            memories,
            carried,
        })
    }

    /// Follows a frame from its start to its end, for the influence of its group. Afterwards the nets that no gate
    /// drives, and the memories, have the marks of the frame's end.
    pub fn follow<I: Inside>(
        &mut self,
        alloc: Global,
        inside: &I,
        frame: u32,
    ) -> Result<(), NoMemory>
        requires frame { frame < length self.old.results.schedule.frames }
        requires stands { FrameStands self.old.results self.old.wires (frame_slots self.old.results frame) }
        ensures design { self.new.design ≡ self.old.design }
        ensures results { self.new.results ≡ self.old.results }
        ensures wires { self.new.wires ≡ self.old.wires }
        ensures shows { OnOk result (Shows (I.inside inside.now)
            (marks_at self.old.design self.old.results self.old.wires (I.inside inside.now) (frame_slots self.old.results frame) (length (frame_slots self.old.results frame)))
            self.new) }
    {
        self.follow_blank::<I, Brand>(alloc, inside, frame, Blank::new(1))
    }

    /// The same, in a ledger of its own.
    fn follow_blank<I: Inside, L: Ledger>(
        &mut self,
        alloc: Global,
        inside: &I,
        frame: u32,
        blank: Blank,
    ) -> Result<(), NoMemory>
        requires name { blank.name ≡ L.name }
        requires parts { blank.parts ≡ L.parts }
        requires some { L.parts ≡ 1 }
        requires frame { frame < length self.old.results.schedule.frames }
        requires stands { FrameStands self.old.results self.old.wires (frame_slots self.old.results frame) }
        ensures design { self.new.design ≡ self.old.design }
        ensures results { self.new.results ≡ self.old.results }
        ensures wires { self.new.wires ≡ self.old.wires }
        ensures shows { OnOk result (Shows (I.inside inside.now)
            (marks_at self.old.design self.old.results self.old.wires (I.inside inside.now) (frame_slots self.old.results frame) (length (frame_slots self.old.results frame)))
            self.new) }
    {
        let mut steps: Steps<L> = Steps::new(blank);
        self.follow_counted(alloc, inside, frame, &mut steps)
    }

    /// The same, where each gate that has a turn may count one step.
    pub fn follow_counted<I: Inside, L: Ledger>(
        &mut self,
        alloc: Global,
        inside: &I,
        frame: u32,
        steps: &mut Steps<L>,
    ) -> Result<(), NoMemory>
        requires frame { frame < length self.old.results.schedule.frames }
        requires stands { FrameStands self.old.results self.old.wires (frame_slots self.old.results frame) }
        ensures design { self.new.design ≡ self.old.design }
        ensures results { self.new.results ≡ self.old.results }
        ensures wires { self.new.wires ≡ self.old.wires }
        ensures shows { OnOk result (Shows (I.inside inside.now)
            (marks_at self.old.design self.old.results self.old.wires (I.inside inside.now) (frame_slots self.old.results frame) (length (frame_slots self.old.results frame)))
            self.new) }
    {
        let slots = slots_of(self.results, frame);
        let endings = endings_of(alloc, self.wires, slots)?;
        let plan = Plan {
            design: self.design,
            results: self.results,
            wires: self.wires,
        };
        let timetable = Timetable {
            slots,
            endings: endings.as_slice(),
        };
        let nets = Nets {
            kept: self.kept.as_slice(),
            gated: self.gated.as_slice(),
        };
        follow_frame(
            alloc,
            plan,
            timetable,
            nets,
            inside,
            &mut self.chips,
            &mut self.memories,
            &mut self.carried,
            steps,
        )?;
        Ok(())
    }

    /// The marks of a net.
    pub fn marks(&self, chip: ChipId, net: ChipNetId) -> NetMarks
        requires { net.place < (chip_at self.now.results.net chip.place).nets }
        ensures { result ≡ mark_in self.now.chips chip.place net.place }
    {
        self.chips[chip.place as usize].value(net)
    }

    /// How far the writes of a memory stand.
    pub fn memory(&self, chip: ChipId, mem: MemId) -> MemoryMarks
        requires { mem.place < length (chip_at self.now.results.net chip.place).memories }
        ensures { result ≡ memory_in self.now.memories chip.place mem.place }
    {
        *self.memories[chip.place as usize].get(u64::from(mem.place))
    }
}

/// For each chip its kept nets.
fn all_kept(alloc: Global, results: &Results) -> Result<Vec<List<bool>>, NoMemory>
    ensures { IfOk result (λ kept. AllKept results.now kept.items) }
{
    results.stand();
    let mut kept = Vec::new(alloc);
    'chips: for c in 0..results.net().chips().len() {
        kept.push(kept_nets(alloc, results, ChipId::of(c as u32))?)?;
    }
    Ok(kept)
}

/// For each chip the nets that gates drive.
fn all_gated(alloc: Global, results: &Results) -> Result<Vec<List<bool>>, NoMemory>
    ensures { IfOk result (λ gated. AllGated results.now gated.items) }
{
    let mut gated = Vec::new(alloc);
    'chips: for c in 0..results.net().chips().len() {
        gated.push(gated_nets(alloc, chip_of(results, c))?)?;
    }
    Ok(gated)
}

/// For each chip a pass over its gates.
fn all_chips<'a>(
    alloc: Global,
    results: &'a Results,
) -> Result<Vec<ChipPass<'a, NetMarks>>, NoMemory>
    requires { (c k : ℕ) → IsOnCycle (chip_at results.now.net c) k → ⊥ }
    ensures { IfOk result (λ chips. AreChipTables results.now chips.items) }
{
    results.stand();
    let mut chips = Vec::new(alloc);
    'chips: for c in 0..results.net().chips().len() {
        chips.push(ChipPass::new(alloc, chip_of(results, c), NetMarks::none())?)?;
    }
    Ok(chips)
}

/// For each chip an entry for each memory.
fn all_memories(alloc: Global, results: &Results) -> Result<Vec<List<MemoryMarks>>, NoMemory>
    ensures { IfOk result (λ memories. AreMemoryTables results.now memories.items) }
{
    let mut memories = Vec::new(alloc);
    'chips: for c in 0..results.net().chips().len() {
        let count = chip_of(results, c).memories.len();
        memories.push(unwritten(alloc, count)?)?;
    }
    Ok(memories)
}

/// So many memories of which nothing is written.
fn unwritten(alloc: Global, count: u64) -> Result<List<MemoryMarks>, NoMemory>
    ensures { IfOk result (λ memories. length memories ≡ count) }
{
    let first = MemoryMarks {
        standing: 0,
        broken: false,
        wrote: false,
    };
    Ok(List::from_vec(vec![in alloc; first; count as usize]?))
}
