//! The end of one frame, as it is judged.

ghost use Rattle.std.specs.Prelude.{◌≡◌, ◌<◌, ℕ, List, Some, is_some, length, option_copied, slice_get, true};
ghost use Rattle.std.specs.List.{list_all};
ghost use Rattle.emu_machine.specs.Acceptance.{ends_after, has_frame, is_kept_read, is_kept_register, memory_ends, read_ends, register_at, register_ends};
ghost use Rattle.emu_machine.specs.Mapped.{chip_map};
ghost use Rattle.emu_machine.specs.Marks.{writes_of};
ghost use Rattle.emu_machine.specs.Netlist.{chip_at};
ghost use Rattle.emu_machine.specs.State.{read_port};
ghost use Rattle.id_arena.specs.declared.keys.ChipNetId.{ChipNetId};
ghost use Rattle.shape_check.specs.Ends.{AreEndMarks, IsEndNet};
ghost use Rattle.shape_check.specs.Influences.{inside_of};

use crate::ShapeCase;
use crate::influences::Influences;
use emu_machine::{EmuRead, MemMap};
use frame_marks::FrameMarks;
use id_arena::{ChipId, ChipNetId, MemId, RegId};
use std::marker::Model;

/// A case with the influences of its groups, and the marks at the end of one of its frames.
#[derive(Drop)]
pub(crate) struct FrameEnd<'a, 'm> {
    case: &'a ShapeCase<'a>,
    influences: &'a Influences<'a>,
    marks: &'m FrameMarks<'a>,
    frame: u32,
}

impl<'a, 'm> Model for FrameEnd<'a, 'm> {
    ghost use Rattle.shape_check.specs.Ends as ends;

    ghost Value = { ends.FrameEnd };

    ghost view = { λ e. record { judged = e.case.now; spread = e.influences.now; frame = e.frame } };

    ghost invariant = { λ e. ends.AreEndMarks (record { judged = e.case.now; spread = e.influences.now; frame = e.frame }) e.marks.now };
}

impl<'a, 'm> FrameEnd<'a, 'm> {
    /// The end of a frame whose marks have been followed.
    pub(crate) fn new(
        case: &'a ShapeCase<'a>,
        influences: &'a Influences<'a>,
        marks: &'m FrameMarks<'a>,
        frame: u32,
    ) -> FrameEnd<'a, 'm>
        requires { AreEndMarks (record { judged = case.now; spread = influences.now; frame = frame }) marks.now }
        ensures { result ≡ record { judged = case.now; spread = influences.now; frame = frame } }
    {
        FrameEnd {
            case,
            influences,
            marks,
            frame,
        }
    }

    /// The case.
    pub(crate) fn case(&self) -> &ShapeCase<'a>
        ensures { result.now ≡ self.now.judged }
    {
        self.case
    }

    /// The number of the frame.
    pub(crate) fn frame(&self) -> u32
        ensures is { result ≡ self.now.frame }
        ensures there { has_frame self.now.judged self.now.frame ≡ true }
    {
        self.frame
    }

    /// Whether a register, if it is there and kept, has "after".
    pub(crate) fn register_ends(&self, chip: ChipId, register: RegId) -> bool
        ensures { result ≡ register_ends self.now.judged (inside_of self.now.spread) self.now.frame chip.place register.place (register_at self.now.judged chip.place register.place) }
    {
        self.case.stands();
        match self.case.register(chip, register) {
            Some(found) => !self.is_kept(chip, register) || self.has_after(chip, found.q),
            None => true,
        }
    }

    /// Whether a memory that is there is unbroken, with all its writes done.
    pub(crate) fn memory_ends(&self, chip: ChipId, mem: MemId) -> bool
        requires { mem.place < length (chip_at self.now.judged.results.net chip.place).memories }
        ensures { result ≡ memory_ends self.now.judged (inside_of self.now.spread) self.now.frame chip.place mem.place }
    {
        let marks = self.marks.memory(chip, mem);
        !marks.broken && marks.standing == self.writes(chip, mem)
    }

    /// Whether all bits of a read port, if it is there and kept, have "after".
    pub(crate) fn read_ends(&self, chip: ChipId, mem: MemId, port: u32) -> bool
        ensures { result ≡ read_ends self.now.judged (inside_of self.now.spread) self.now.frame chip.place mem.place port (read_port self.now.judged.results.net chip.place mem.place port) }
    {
        self.case.stands();
        match self.read_port(chip, mem, port) {
            Some(found) => {
                !self.is_kept_read(chip, mem, port)
                    || self.all_have_after(chip, found.bits.as_slice())
            }
            None => true,
        }
    }

    /// Whether a net that no gate drives has "after".
    fn has_after(&self, chip: ChipId, net: ChipNetId) -> bool
        requires { IsEndNet self.now chip.place net }
        ensures { result ≡ ends_after self.now.judged (inside_of self.now.spread) self.now.frame chip.place net }
    {
        self.marks.marks(chip, net).after
    }

    /// Whether some such nets all have it.
    fn all_have_after(&self, chip: ChipId, nets: &[ChipNetId]) -> bool
        requires { (k : ℕ) (net : ChipNetId) → slice_get nets.now k ≡ Some net → IsEndNet self.now chip.place net }
        ensures { result ≡ list_all (ends_after self.now.judged (inside_of self.now.spread) self.now.frame chip.place) nets.now }
    {
        'nets: for net in nets {
            if !self.has_after(chip, *net) {
                return false;
            }
        }
        true
    }

    /// A read port of a memory of a chip, if it is there.
    fn read_port(&self, chip: ChipId, mem: MemId, port: u32) -> Option<&EmuRead>
        ensures { option_copied result ≡ read_port self.now.judged.results.net chip.place mem.place port }
    {
        match self.case.chip(chip) {
            Some(chip) => match chip.memories.as_slice().get(mem.place as usize) {
                Some(memory) => memory.reads.as_slice().get(port as usize),
                None => None,
            },
            None => None,
        }
    }

    /// Whether a register is kept.
    fn is_kept(&self, chip: ChipId, register: RegId) -> bool
        ensures { result ≡ is_kept_register self.now.judged.results chip.place register.place }
    {
        match self.case.entry(chip) {
            Some(entry) => match entry.kept.as_slice().get(register.place as usize) {
                Some(kept) => *kept,
                None => false,
            },
            None => false,
        }
    }

    /// The entry of the map for a memory of a chip, if there is one.
    fn memory_entry(&self, chip: ChipId, mem: MemId) -> Option<&MemMap>
        ensures { option_copied result ≡ slice_get (chip_map self.now.judged.results chip.place).memories mem.place }
    {
        match self.case.entry(chip) {
            Some(entry) => entry.memories.as_slice().get(mem.place as usize),
            None => None,
        }
    }

    /// Whether a read port is kept.
    fn is_kept_read(&self, chip: ChipId, mem: MemId, port: u32) -> bool
        ensures { result ≡ is_kept_read self.now.judged.results chip.place mem.place port }
    {
        match self.memory_entry(chip, mem) {
            Some(entry) => match entry.kept.as_slice().get(port as usize) {
                Some(kept) => *kept,
                None => false,
            },
            None => false,
        }
    }

    /// How many write ports the memory of the design has for which a memory of a chip stands.
    fn writes(&self, chip: ChipId, mem: MemId) -> u64
        ensures { result ≡ length (writes_of self.now.judged.design self.now.judged.results chip.place mem.place) }
    {
        match self.memory_entry(chip, mem) {
            Some(entry) => match self.case.memory(entry.of) {
                Some(memory) => memory.writes.len(),
                None => 0,
            },
            None => 0,
        }
    }
}
