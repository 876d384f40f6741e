//! The machine, slot by slot and event by event.

ghost use Rattle.std.specs.Prelude.{◌≡◌, ◌<◌, false, Some, All, [], IfOk, get_or, length, replicate, slice_get};
ghost use Rattle.emu_machine.specs.declared.netlist.EmuRegister.{EmuRegister};
ghost use Rattle.emu_machine.specs.Netlist.{chip_at};
ghost use Rattle.emu_machine.specs.State.{after_frame, frame_slots, net_value, present, slot_step};
ghost use Rattle.cycle_sim.specs.Standing.{CanRun, HasAddress, IsRegister};
ghost use Rattle.cycle_sim.specs.Tables.{HasPut, HaveSizes, HaveWords, state, state_of};

use crate::gates::value_of;
use crate::loaded::Loaded;
use crate::passes::settled_passes;
use crate::shown::held_at;
use crate::slots::{Plan, Timetable, do_frame, do_slot_alone};
use crate::taken::{register_of, table_of};
use crate::words::{ChipWords, word_of};
use chip_pass::ChipPass;
use design_core::{PortBit, PortValues};
use emu_io::{List, NoMemory};
use emu_machine::{Action, Results};
use id_arena::{ChipId, ChipNetId, GroupId, Key, MemId, RegId, Wire};
use slot_endings::all_endings;
use std::alloc::Global;
use std::marker::Model;

/// The emulator's machine, opened on results and on the wires of a board.
///
/// A clause sees the results, the wires and the tables of the state.
#[derive(Drop)]
pub struct Machine<'a> {
    results: &'a Results,
    wires: &'a [Wire],
    /// By chip and net what a register or read port holds there.
    held: Vec<List<bool>>,
    /// For each chip the words of its memories.
    words: Vec<ChipWords>,
    /// By wire the value that it carries.
    carried: Vec<bool>,
    /// For each chip a pass over its gates, which has what each net shows.
    passes: Vec<ChipPass<'a, bool>>,
    /// For each frame and slot the actions whose last slot it is.
    endings: Vec<List<List<Action>>>,
    /// By net of the design the outside value of an input.
    outside: Vec<bool>,
}

impl<'a> Model for Machine<'a> {
    ghost use Rattle.cycle_sim.specs.Tables.{IsMachine, Running, tables};

    ghost Value = { Running };

    ghost view = { λ m. record {
      results = m.results.now;
      wires = m.wires.now;
      tables = tables m.held.items m.words.items m.outside.items m.carried.items;
    } };

    ghost invariant = { λ m. IsMachine m.results.now m.wires.now (tables m.held.items m.words.items m.outside.items m.carried.items) m.passes.items m.endings.items };
}

impl<'a> Machine<'a> {
    /// The machine that runs these results over these wires, in the state that it is loaded with. Each
    /// wire carries 0.
    ///
    /// By rules A2 and A5 no gate lies on a cycle and all actions fit, where each input that has an outside
    /// value counts as one of the frame's group. Where several actions of a slot have one target, which rule A6
    /// forbids, the first counts.
    #[tactic(auto, using(crate::proofs::Built::runnable))]
    pub fn open(
        alloc: Global,
        results: &'a Results,
        wires: &'a [Wire],
        loaded: Loaded,
    ) -> Result<Machine<'a>, NoMemory>
        requires runs { CanRun results.now wires.now (length loaded.outside) }
        requires loaded { HaveSizes results.now loaded.held }
        requires words { HaveWords results.now loaded.words }
        ensures results { IfOk result (λ m. m.results ≡ results.now) }
        ensures wires { IfOk result (λ m. m.wires ≡ wires.now) }
        ensures inputs { IfOk result (λ m. length m.tables.outside ≡ length loaded.outside) }
        ensures state { IfOk result (λ m. state m ≡ state_of loaded) }
    {
        results.stand();
        let endings = all_endings(alloc, results, wires)?;
        let carried = idle_wires(alloc, wires.len())?;
        let (held, words, outside) = loaded.into_tables();
        let passes = settled_passes(alloc, results, held.as_slice())?;
        Ok(Machine {
            results,
            wires,
            held,
            words,
            passes,
            carried,
            endings,
            outside,
        })
    }

    /// Puts these values outside. Where an input is given two values, the later one counts.
    #[tactic(auto, using(crate::proofs::SlotSteps::presented))]
    pub fn present(&mut self, values: &PortValues)
        requires { All (λ b. b.net.place < length self.old.tables.outside) values.now }
        ensures results { self.new.results ≡ self.old.results }
        ensures wires { self.new.wires ≡ self.old.wires }
        ensures inputs { length self.new.tables.outside ≡ length self.old.tables.outside }
        ensures state { state self.new ≡ present values.now (state self.old) }
    {
        put_values(values.as_slice(), &mut self.outside);
    }

    /// Does one slot of a group's frame. What was sent in an earlier slot of the frame, and is to arrive in
    /// this one, is taken from its wire.
    pub fn slot(&mut self, group: GroupId, t: u32)
        requires group { group.place < length self.old.results.schedule.frames }
        requires slot { t < length (frame_slots self.old.results group.place) }
        ensures results { self.new.results ≡ self.old.results }
        ensures wires { self.new.wires ≡ self.old.wires }
        ensures inputs { length self.new.tables.outside ≡ length self.old.tables.outside }
        ensures state { state self.new ≡ slot_step self.old.results.net self.old.wires (frame_slots self.old.results group.place) t (state self.old) }
    {
        let plan = Plan {
            results: self.results,
            wires: self.wires,
        };
        let frame = timetable_of(self.results, self.endings.as_slice(), group);
        do_slot_alone(
            plan,
            frame,
            t as usize,
            self.outside.as_slice(),
            &mut self.held,
            &mut self.words,
            &mut self.carried,
            &mut self.passes,
        );
    }

    /// Does the frame of an event: its values are put outside, and all slots of its group's frame follow.
    pub fn frame(&mut self, group: GroupId, values: &PortValues)
        requires group { group.place < length self.old.results.schedule.frames }
        requires values { All (λ b. b.net.place < length self.old.tables.outside) values.now }
        ensures results { self.new.results ≡ self.old.results }
        ensures wires { self.new.wires ≡ self.old.wires }
        ensures inputs { length self.new.tables.outside ≡ length self.old.tables.outside }
        ensures state { state self.new ≡ after_frame self.old.results self.old.wires (record { group = group; values = values.now }) (state self.old) }
    {
        self.present(values);
        let plan = Plan {
            results: self.results,
            wires: self.wires,
        };
        let frame = timetable_of(self.results, self.endings.as_slice(), group);
        do_frame(
            plan,
            frame,
            self.outside.as_slice(),
            &mut self.held,
            &mut self.words,
            &mut self.carried,
            &mut self.passes,
        );
    }

    /// The value of a net.
    pub fn net(&self, chip: ChipId, net: ChipNetId) -> bool
        requires chip { chip.place < length self.now.results.net }
        requires net { net.place < (chip_at self.now.results.net chip.place).nets }
        ensures { result ≡ net_value self.now.results.net (state self.now) chip.place net.place }
    {
        value_of(table_of(self.passes.as_slice(), chip), net)
    }

    /// What a register holds.
    pub fn register(&self, chip: ChipId, register: RegId) -> bool
        requires { IsRegister self.now.results chip.place register.place }
        ensures { (r : EmuRegister) → slice_get (chip_at self.now.results.net chip.place).registers register.place ≡ Some r
            → result ≡ (state self.now).held chip.place r.q.place }
    {
        let q = register_of(self.results, chip, register).q;
        held_at(self.held.as_slice(), chip, q)
    }

    /// The word of a memory at an address.
    pub fn word(&self, chip: ChipId, mem: MemId, address: u32) -> u128
        requires { HasAddress self.now.results chip.place mem.place address }
        ensures { result ≡ (state self.now).word chip.place mem.place address }
    {
        word_of(self.words.as_slice(), chip, mem, address as u64)
    }

    /// What holds of every machine, for its callers: it can run its results over its wires.
    pub fn stands(&self)
        ensures { CanRun self.now.results self.now.wires (length self.now.tables.outside) }
    {
        let _ = &self.results;
    }
}

/// The slots of a group's frame, and what ends in each.
fn timetable_of<'a>(
    results: &'a Results,
    endings: &'a [List<List<Action>>],
    group: GroupId,
) -> Timetable<'a>
    requires there { group.place < length results.now.schedule.frames }
    requires count { length endings.now ≡ length results.now.schedule.frames }
    ensures slots { result.slots.now ≡ frame_slots results.now group.place }
    ensures endings { result.endings.now ≡ get_or endings.now group.place [] }
{
    let slots = results
        .schedule()
        .frames
        .get(group.place() as u64)
        .slots
        .as_slice();
    let endings = endings[group.place() as usize].as_slice();
    Timetable { slots, endings }
}

/// So many wires that carry 0.
fn idle_wires(alloc: Global, count: usize) -> Result<Vec<bool>, NoMemory>
    ensures { IfOk result (λ carried. carried.items ≡ replicate count false) }
{
    let carried = vec![in alloc; false; count]?;
    Ok(carried)
}

/// Puts values in the place of those that stand there, one after the other.
#[tactic(auto, using(crate::proofs::SlotSteps::one_put))]
fn put_values(values: &[PortBit], table: &mut [bool])
    requires { All (λ b. b.net.place < length table.old) values.now }
    ensures size { length table.new ≡ length table.old }
    ensures put { HasPut values.now table.old table.new }
{
    'values: for bit in values {
        table[bit.net.place() as usize] = bit.value;
    }
}
