//! The tables of a frame's marks, as they stand at the start of a slot.

ghost use Rattle.std.specs.Prelude.{◌≡◌, ◌<◌, length};
ghost use Rattle.emu_machine.specs.Marks.{all_after, all_before};
ghost use Rattle.emu_machine.specs.Netlist.{chip_at};
ghost use Rattle.frame_marks.specs.Frames.{mark_in, memory_in};
ghost use Rattle.frame_marks.specs.Tables.{AreChipTables, AreMemoryTables, AreNets, marks_in, nets_in};

use chip_pass::ChipPass;
use design_core::Design;
use emu_io::List;
use emu_machine::Results;
use id_arena::{ChipId, ChipNetId, MemId, Wire};
use mark_rule::NetMarks;
use std::marker::Model;

/// How far the writes of a memory stand in a frame.
#[derive(Clone, Copy, Debug, Drop, PartialEq, Eq)]
pub struct MemoryMarks {
    /// How many of its write ports are done, in their order.
    pub standing: u64,
    /// Whether a write port was used out of turn, or without the marks that it asks for.
    pub broken: bool,
    /// Whether any write port was used.
    pub wrote: bool,
}

/// Something that a place of a chip is given at the end of a slot: marks for a net, or how far the writes of a
/// memory then stand.
#[derive(Clone, Copy, Debug, Drop)]
pub(crate) struct Given<T> {
    pub(crate) chip: ChipId,
    pub(crate) place: u32,
    pub(crate) what: T,
}

/// What the actions of a slot read: the design, the results and the wires, and the tables as they stand when the
/// slot starts.
#[derive(Drop)]
pub(crate) struct Start<'a> {
    pub(crate) design: &'a Design,
    pub(crate) results: &'a Results,
    pub(crate) wires: &'a [Wire],
    pub(crate) chips: &'a [ChipPass<'a, NetMarks>],
    pub(crate) memories: &'a [List<MemoryMarks>],
    pub(crate) carried: &'a [NetMarks],
}

impl<'a> Model for Start<'a> {
    ghost use Rattle.frame_marks.specs.Frames.{FrameState};

    ghost Value = { FrameState };

    ghost view = { λ s. record {
      design = s.design.now;
      results = s.results.now;
      wires = s.wires.now;
      chips = s.chips.now;
      memories = s.memories.now;
      carried = s.carried.now;
    } };
}

/// The marks of a net of a chip of these tables.
pub(crate) fn mark_on(chips: &[ChipPass<'_, NetMarks>], chip: ChipId, net: ChipNetId) -> NetMarks
    requires chip { chip.place < length chips.now }
    requires net { net.place < nets_in chips.now chip.place }
    ensures { result ≡ mark_in chips.now chip.place net.place }
{
    chips[chip.place as usize].value(net)
}

/// The marks of a net of a chip.
pub(crate) fn mark_of(start: &Start<'_>, chip: ChipId, net: ChipNetId) -> NetMarks
    requires chips { AreChipTables start.now.results start.now.chips }
    requires net { net.place < (chip_at start.now.results.net chip.place).nets }
    ensures { result ≡ mark_in start.now.chips chip.place net.place }
{
    start.chips[chip.place as usize].value(net)
}

/// How far the writes of a memory of a chip stand.
pub(crate) fn memory_of(start: &Start<'_>, chip: ChipId, mem: MemId) -> MemoryMarks
    requires memories { AreMemoryTables start.now.results start.now.memories }
    requires mem { mem.place < length (chip_at start.now.results.net chip.place).memories }
    ensures { result ≡ memory_in start.now.memories chip.place mem.place }
{
    *start.memories[chip.place as usize].get(u64::from(mem.place))
}

/// Whether all of some nets of a chip have "before".
pub(crate) fn all_before(start: &Start<'_>, chip: ChipId, nets: &[ChipNetId]) -> bool
    requires chips { AreChipTables start.now.results start.now.chips }
    requires nets { AreNets start.now.results chip.place nets.now }
    ensures { result ≡ all_before (marks_in start.now.chips chip.place nets.now) }
{
    'nets: for net in nets {
        if !mark_of(start, chip, *net).before {
            return false;
        }
    }
    true
}

/// Whether all of some nets of a chip have "after".
pub(crate) fn all_after(start: &Start<'_>, chip: ChipId, nets: &[ChipNetId]) -> bool
    requires chips { AreChipTables start.now.results start.now.chips }
    requires nets { AreNets start.now.results chip.place nets.now }
    ensures { result ≡ all_after (marks_in start.now.chips chip.place nets.now) }
{
    'nets: for net in nets {
        if !mark_of(start, chip, *net).after {
            return false;
        }
    }
    true
}
