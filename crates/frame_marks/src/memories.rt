//! How far the writes of memories stand.

ghost use Rattle.std.specs.Prelude.{◌≡◌, ◌<◌, ◌≤◌, ◌&&◌, ◌++◌, ◌∷◌, [], true, All, OnOk, ℕ, IfSome, is_some, option_copied, option_map, length, get_or, slice_get};
ghost use Rattle.emu_machine.specs.declared.schedule.Action.TheVariants as does;
ghost use Rattle.emu_machine.specs.Mapped.{chip_map};
ghost use Rattle.emu_machine.specs.Marks.{all_before, clock_of_read, writes_of};
ghost use Rattle.emu_machine.specs.Netlist.{chip_at};
ghost use Rattle.frame_marks.specs.Frames.{mark_in, memory_in};
ghost use Rattle.frame_marks.specs.Standing.{IsNamed, IsWritePort};
ghost use Rattle.frame_marks.specs.Tables.{AreChipTables, AreNets, AreTables, marks_in};
ghost use Rattle.frame_marks.specs.Takes.{AreMemories, HaveWritten, IsAfterWrite, IsCounted, WritesAll, WritesOne};

use crate::parts::write_port_of;
use crate::tables::{Given, MemoryMarks, Start, all_before, mark_of, memory_of};
use design_core::{Design, Memory};
use emu_io::{List, NoMemory};
use emu_machine::{Action, EmuWrite, Results};
use id_arena::{ChipId, MemId};

/// Collects how far the writes of memories stand after those that the actions of a slot do, in their order.
pub(crate) fn collect_written(
    start: &Start<'_>,
    actions: &[Action],
    written: &mut Vec<Given<MemoryMarks>>,
) -> Result<(), NoMemory>
    requires tables { AreTables start.now }
    requires actions { All (IsNamed start.now.results start.now.wires) actions.now }
    ensures there { OnOk result (AreMemories start.now.results written.new.items) }
    ensures written { OnOk result (WritesAll start.now actions.now written.new.items) }
{
    written.clear();
    'actions: for action in actions {
        write(start, *action, written)?;
    }
    Ok(())
}

/// Adds how far the writes of a memory stand after the one that an action does, if it does one.
fn write(
    start: &Start<'_>,
    action: Action,
    written: &mut Vec<Given<MemoryMarks>>,
) -> Result<(), NoMemory>
    requires tables { AreTables start.now }
    requires action { IsNamed start.now.results start.now.wires action }
    requires there { AreMemories start.now.results written.old.items }
    ensures there { OnOk result (AreMemories start.now.results written.new.items) }
    ensures written { OnOk result (WritesOne start.now action written.old.items written.new.items) }
{
    match action {
        Action::Write { chip, mem, port } => {
            let what = after_write(start, chip, mem, port);
            add_written(chip, mem, what, written)?;
            Ok(())
        }
        Action::Input { .. } | Action::Load { .. } | Action::Send { .. } | Action::Read { .. } => {
            Ok(())
        }
    }
}

/// Adds how far the writes of a memory stand.
fn add_written(
    chip: ChipId,
    mem: MemId,
    what: MemoryMarks,
    written: &mut Vec<Given<MemoryMarks>>,
) -> Result<(), NoMemory>
    ensures { OnOk result (written.new.items ≡ written.old.items ++ record { chip = chip; place = mem.place; what = what } ∷ []) }
{
    written.push(Given {
        chip,
        place: mem.place,
        what,
    })?;
    Ok(())
}

/// How far the writes of a memory stand after one of its ports was used.
fn after_write(start: &Start<'_>, chip: ChipId, mem: MemId, port: u32) -> MemoryMarks
    requires tables { AreTables start.now }
    requires port { IsWritePort start.now.results chip.place mem.place port }
    ensures { IsAfterWrite start.now chip.place mem.place port result }
{
    let memory = memory_of(start, chip, mem);
    let counts = write_counts(start, memory.standing, chip, mem, port);
    MemoryMarks {
        standing: if counts {
            u64::from(port) + 1
        } else {
            memory.standing
        },
        broken: memory.broken || !counts,
        wrote: true,
    }
}

/// Whether the use of a write port counts: it is the one that is due, its enable has "after", and its address
/// and data have "before".
fn write_counts(start: &Start<'_>, standing: u64, chip: ChipId, mem: MemId, port: u32) -> bool
    requires tables { AreTables start.now }
    requires port { IsWritePort start.now.results chip.place mem.place port }
    requires standing { standing ≡ (memory_in start.now.memories chip.place mem.place).standing }
    ensures counted { IsCounted start.now chip.place mem.place port result }
    ensures due { result ≡ true → port ≡ standing }
{
    start.results.stand();
    if u64::from(port) != standing {
        return false;
    }
    is_ready(start, chip, write_port_of(start.results, chip, mem, port))
}

/// Whether the enable of a write port has "after", and its address and data have "before".
fn is_ready(start: &Start<'_>, chip: ChipId, write: &EmuWrite) -> bool
    requires chips { AreChipTables start.now.results start.now.chips }
    requires enable { write.now.enable.place < (chip_at start.now.results.net chip.place).nets }
    requires address { AreNets start.now.results chip.place write.now.address }
    requires feed { AreNets start.now.results chip.place write.now.feed }
    ensures { result ≡ ((mark_in start.now.chips chip.place write.now.enable.place).after
        && all_before (marks_in start.now.chips chip.place write.now.address)
        && all_before (marks_in start.now.chips chip.place write.now.feed)) }
{
    mark_of(start, chip, write.enable).after
        && all_before(start, chip, write.address.as_slice())
        && all_before(start, chip, write.feed.as_slice())
}

/// Lets memories take how far their writes stand. The first of several for one memory counts, so they are put from
/// the last on.
pub(crate) fn put_written(written: &[Given<MemoryMarks>], memories: &mut [List<MemoryMarks>])
    requires { All (λ g. g.place < length (get_or memories.old g.chip.place [])) written.now }
    ensures count { length memories.new ≡ length memories.old }
    ensures sizes { (c : ℕ) → length (get_or memories.new c []) ≡ length (get_or memories.old c []) }
    ensures written { HaveWritten written.now memories.old memories.new }
{
    let mut left = written.len();
    'written: while left > 0 {
        left -= 1;
        put(written[left], memories);
    }
}

/// Lets a memory take how far its writes stand.
fn put(one: Given<MemoryMarks>, memories: &mut [List<MemoryMarks>])
    requires { one.place < length (get_or memories.old one.chip.place []) }
    ensures count { length memories.new ≡ length memories.old }
    ensures sizes { (c : ℕ) → length (get_or memories.new c []) ≡ length (get_or memories.old c []) }
    ensures written { HaveWritten (one ∷ []) memories.old memories.new }
{
    memories[one.chip.place as usize].set(u64::from(one.place), one.what);
}

/// The memory of the design that a memory of a chip stands for, if the map has one.
pub(crate) fn original_of(results: &Results, chip: ChipId, mem: MemId) -> Option<MemId>
    ensures { result ≡ option_map (λ entry. entry.of) (slice_get (chip_map results.now chip.place).memories mem.place) }
{
    match results.map().chips.as_slice().get(chip.place as usize) {
        Some(entry) => match entry.memories.as_slice().get(mem.place as usize) {
            Some(memory) => Some(memory.of),
            None => None,
        },
        None => None,
    }
}

/// A memory of the design, if it is there.
pub(crate) fn memory_at(design: &Design, mem: MemId) -> Option<&Memory>
    ensures at { option_copied result ≡ slice_get design.now.memories mem.place }
    ensures few { IfSome result (λ memory. length memory.now.writes ≤ 4294967295) }
{
    if mem.place < design.mems() {
        Some(design.mem(mem))
    } else {
        None
    }
}

/// How many write ports the original of a memory has.
pub(crate) fn write_count(start: &Start<'_>, chip: ChipId, mem: MemId) -> u64
    ensures { result ≡ length (writes_of start.now.design start.now.results chip.place mem.place) }
{
    match original_of(start.results, chip, mem) {
        Some(of) => match memory_at(start.design, of) {
            Some(memory) => memory.writes.len(),
            None => 0,
        },
        None => 0,
    }
}

/// Whether the original of a read port has a clock.
pub(crate) fn has_clock(start: &Start<'_>, chip: ChipId, mem: MemId, port: u32) -> bool
    ensures { result ≡ is_some (clock_of_read start.now.design start.now.results chip.place mem.place port) }
{
    match original_of(start.results, chip, mem) {
        Some(of) => match memory_at(start.design, of) {
            Some(memory) => match memory.reads.as_slice().get(port as usize) {
                Some(read) => read.clock.is_some(),
                None => false,
            },
            None => false,
        },
        None => false,
    }
}
