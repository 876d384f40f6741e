//! A design, its groups, a board and results, as they are judged together.

ghost use Rattle.std.specs.Prelude.{◌≡◌, ◌<◌, ◌≤◌, Some, is_some, length, option_copied, option_map, slice_get};
ghost use Rattle.design_core.specs.Design.{driver, includes, port_bits};
ghost use Rattle.design_core.specs.Influence.{all_groups};
ghost use Rattle.domain_groups.specs.Groups.{AreOf};
ghost use Rattle.emu_machine.specs.Acceptance.{is_hold, is_in_group, is_loaded, register_at, register_subject};
ghost use Rattle.emu_machine.specs.Mapped.{design_read, design_write, flop_at, subject};
ghost use Rattle.emu_machine.specs.Origins.{has_subject, is_design_net};
ghost use Rattle.emu_machine.specs.Netlist.{chip_at};
ghost use Rattle.emu_machine.specs.State.{frame_slots, read_port, write_port};
ghost use Rattle.shape_check.specs.ShapeCase.{shape_case, Stands};

use board_model::Board;
use design_core::{Design, Driver, Element, Flop, Memory, ReadPort, WritePort};
use domain_groups::Groups;
use emu_machine::{Chip, ChipMap, EmuRegister, Frame, Results, Spot, Subject};
use id_arena::{ChipId, ChipNetId, ElemId, GroupId, Key, MemId, NetId, RegId, Wire, WireId};
use std::marker::Model;

/// What is judged: a design, the groups of its inputs, a board, and results for them, none of which is
/// trusted to fit the others.
#[derive(Drop)]
pub struct ShapeCase<'a> {
    design: &'a Design,
    groups: &'a Groups,
    board: &'a Board,
    results: &'a Results,
}

impl<'a> Model for ShapeCase<'a> {
    ghost use Rattle.domain_groups.specs.Groups.{AreOf};
    ghost use Rattle.emu_machine.specs.Acceptance.{Case};
    ghost use Rattle.shape_check.specs.ShapeCase.{shape_case, Stands};

    ghost Value = { Case };

    ghost view = { λ c. shape_case c.design.now c.groups.now c.board.now c.results.now };

    ghost invariant = { λ c. Stands (shape_case c.design.now c.groups.now c.board.now c.results.now)
        × AreOf c.design.now c.groups.now };
}

impl<'a> ShapeCase<'a> {
    /// The case of a design, its groups, a board, and results.
    pub fn new(
        design: &'a Design,
        groups: &'a Groups,
        board: &'a Board,
        results: &'a Results,
    ) -> ShapeCase<'a>
        requires { AreOf design.now groups.now }
        ensures { result ≡ shape_case design.now groups.now board.now results.now }
    {
        design.stands();
        groups.stands();
        board.chips();
        results.stand();
        ShapeCase {
            design,
            groups,
            board,
            results,
        }
    }

    /// What holds of every case, for its callers.
    pub(crate) fn stands(&self)
        ensures { Stands self.now }
    {
        let _ = &self.results;
    }

    /// The board.
    pub(crate) fn board(&self) -> &Board
        ensures { result.now ≡ self.now.board }
    {
        self.board
    }

    /// The results.
    pub(crate) fn results(&self) -> &Results
        ensures { result.now ≡ self.now.results }
    {
        self.results
    }

    /// The design.
    pub(crate) fn design(&self) -> &Design
        ensures { result.now ≡ self.now.design }
    {
        self.design
    }

    /// How many modules the netlist has.
    pub(crate) fn modules(&self) -> u32
        ensures { result ≡ length self.now.results.net }
    {
        self.stands();
        self.results.net().chips().len() as u32
    }

    /// The number of chips on the board.
    pub(crate) fn chips(&self) -> u32
        ensures is { result ≡ length self.now.board.rooms }
        ensures few { result ≤ 16 }
    {
        self.board.chips()
    }

    /// The number of groups that have a frame.
    pub(crate) fn groups(&self) -> u32
        ensures is { result ≡ length (all_groups self.now.design self.now.groups) }
        ensures few { result ≤ 33 }
    {
        self.groups.len() + 1
    }

    /// The name of a group.
    pub(crate) fn group_name(&self, group: u32) -> &[u8]
        requires { group < length (all_groups self.now.design self.now.groups) }
        ensures { option_map (λ g. g.name) (slice_get (all_groups self.now.design self.now.groups) group) ≡ Some result.now }
    {
        self.groups.name(GroupId::of(group))
    }

    /// Whether a net is an input of a frame's group. Takes constant time.
    pub(crate) fn is_input(&self, frame: u32, net: NetId) -> bool
        ensures { result ≡ is_in_group self.now frame net.place }
    {
        frame <= self.groups.len() && self.groups.has(GroupId::of(frame), net)
    }

    /// The most slots that a frame may have.
    pub(crate) fn slots(&self) -> u32
        ensures { result ≡ self.now.board.slots }
    {
        self.board.slots()
    }

    /// A wire of the board, if it is there.
    pub(crate) fn wire(&self, wire: WireId) -> Option<Wire>
        ensures { result ≡ slice_get self.now.board.wires wire.place }
    {
        if wire.place >= self.board.wires() {
            return None;
        }
        let (from, to) = self.board.ends(wire);
        Some(Wire {
            from,
            to,
            latency: self.board.latency(wire),
        })
    }

    /// The frames.
    pub(crate) fn frames(&self) -> &[Frame]
        ensures { result.now ≡ self.now.results.schedule.frames }
    {
        self.results.schedule().frames.as_slice()
    }

    /// The number of slots of a frame, and 0 where it is not there.
    pub(crate) fn frame_len(&self, frame: u32) -> u64
        ensures { result ≡ length (frame_slots self.now.results frame) }
    {
        let frames = self.frames();
        if (frame as usize) < frames.len() {
            frames[frame as usize].slots.len()
        } else {
            0
        }
    }

    /// A chip's netlist, if it is there.
    pub(crate) fn chip(&self, chip: ChipId) -> Option<&Chip>
        ensures { option_copied result ≡ slice_get self.now.results.net chip.place }
    {
        self.results
            .net()
            .chips()
            .as_slice()
            .get(chip.place as usize)
    }

    /// A chip's entry in the map, if it is there.
    pub(crate) fn entry(&self, chip: ChipId) -> Option<&ChipMap>
        ensures { option_copied result ≡ slice_get self.now.results.map.chips chip.place }
    {
        self.results.map().chips.as_slice().get(chip.place as usize)
    }

    /// All entries of the map.
    pub(crate) fn entries(&self) -> &[ChipMap]
        ensures { result.now ≡ self.now.results.map.chips }
    {
        self.results.map().chips.as_slice()
    }

    /// The number of nets of a chip, and 0 where it is not there.
    pub(crate) fn chip_nets(&self, chip: ChipId) -> u32
        ensures { result ≡ (chip_at self.now.results.net chip.place).nets }
    {
        match self.chip(chip) {
            Some(chip) => chip.nets,
            None => 0,
        }
    }

    /// A register of a chip, if it is there.
    pub(crate) fn register(&self, chip: ChipId, register: RegId) -> Option<EmuRegister>
        ensures { result ≡ register_at self.now chip.place register.place }
    {
        match self.chip(chip) {
            Some(chip) => chip
                .registers
                .as_slice()
                .get(register.place as usize)
                .copied(),
            None => None,
        }
    }

    /// Whether a register is there that holds what it is given.
    pub(crate) fn is_hold(&self, chip: ChipId, register: RegId) -> bool
        ensures { result ≡ is_hold (register_at self.now chip.place register.place) }
    {
        match self.register(chip, register) {
            Some(register) => register.d.is_none() && register.enable.is_none(),
            None => false,
        }
    }

    /// Whether a register is there that is loaded.
    pub(crate) fn is_loaded(&self, chip: ChipId, register: RegId) -> bool
        ensures { result ≡ is_loaded (register_at self.now chip.place register.place) }
    {
        match self.register(chip, register) {
            Some(register) => register.d.is_some(),
            None => false,
        }
    }

    /// Whether a write port of a memory of a chip is there.
    pub(crate) fn has_write(&self, chip: ChipId, mem: MemId, port: u32) -> bool
        ensures { result ≡ is_some (write_port self.now.results.net chip.place mem.place port) }
    {
        match self.chip(chip) {
            Some(chip) => match chip.memories.as_slice().get(mem.place as usize) {
                Some(memory) => u64::from(port) < memory.writes.len(),
                None => false,
            },
            None => false,
        }
    }

    /// Whether a read port of a memory of a chip is there.
    pub(crate) fn has_read(&self, chip: ChipId, mem: MemId, port: u32) -> bool
        ensures { result ≡ is_some (read_port self.now.results.net chip.place mem.place port) }
    {
        match self.chip(chip) {
            Some(chip) => match chip.memories.as_slice().get(mem.place as usize) {
                Some(memory) => u64::from(port) < memory.reads.len(),
                None => false,
            },
            None => false,
        }
    }

    /// What a net of a chip stands for, if it is there.
    pub(crate) fn subject(&self, chip: ChipId, net: ChipNetId) -> Option<Subject>
        ensures { result ≡ subject self.now.results chip.place net.place }
    {
        match self.entry(chip) {
            Some(entry) => entry.nets.as_slice().get(net.place as usize).copied(),
            None => None,
        }
    }

    /// What drives a net of the design, also one that is not there.
    pub(crate) fn driver(&self, net: NetId) -> Driver
        ensures { result ≡ driver self.now.design net.place }
    {
        self.stands();
        let design = self.design();
        if net.place < design.nets() {
            design.driver(net)
        } else {
            Driver::Constant(false)
        }
    }

    /// An element of the design, if it is there.
    pub(crate) fn element(&self, element: ElemId) -> Option<&Element>
        ensures { option_copied result ≡ slice_get self.now.design.elements element.place }
    {
        if element.place < self.design.elems() {
            Some(self.design.elem(element))
        } else {
            None
        }
    }

    /// Whether a net is one of the design.
    pub(crate) fn has_net(&self, net: NetId) -> bool
        ensures { result ≡ is_design_net self.now.design net }
    {
        net.place < self.design.nets()
    }

    /// A flip-flop of the design, if the element is there and is one.
    pub(crate) fn flop(&self, element: ElemId) -> Option<Flop>
        ensures { result ≡ flop_at self.now.design element.place }
    {
        match self.element(element) {
            Some(Element::Flop(flop)) => Some(*flop),
            _ => None,
        }
    }

    /// A memory of the design, if it is there.
    pub(crate) fn memory(&self, mem: MemId) -> Option<&Memory>
        ensures { option_copied result ≡ slice_get self.now.design.memories mem.place }
    {
        if mem.place < self.design.mems() {
            Some(self.design.mem(mem))
        } else {
            None
        }
    }

    /// A write port of a memory of the design, if it is there.
    pub(crate) fn write(&self, mem: MemId, port: u32) -> Option<&WritePort>
        ensures { option_copied result ≡ design_write self.now.design mem.place port }
    {
        match self.memory(mem) {
            Some(memory) => memory.writes.as_slice().get(port as usize),
            None => None,
        }
    }

    /// A read port of a memory of the design, if it is there.
    pub(crate) fn read(&self, mem: MemId, port: u32) -> Option<&ReadPort>
        ensures { option_copied result ≡ design_read self.now.design mem.place port }
    {
        match self.memory(mem) {
            Some(memory) => memory.reads.as_slice().get(port as usize),
            None => None,
        }
    }

    /// Whether a net of a chip has a subject.
    pub(crate) fn has_subject(&self, chip: ChipId, net: ChipNetId, what: Subject) -> bool
        ensures { result ≡ has_subject self.now.results chip.place net what }
    {
        match self.subject(chip, net) {
            Some(subject) => subject == what,
            None => false,
        }
    }

    /// Whether a net is a bit of an input port.
    pub(crate) fn is_bit(&self, net: NetId) -> bool
        ensures { result ≡ includes (port_bits self.now.design.inputs) net.place }
    {
        self.stands();
        match self.driver(net) {
            Driver::Input => true,
            _ => false,
        }
    }

    /// The nets of the map that show the output bits.
    pub(crate) fn outputs(&self) -> &[Spot]
        ensures { result.now ≡ self.now.results.map.outputs }
    {
        self.results.map().outputs.as_slice()
    }

    /// The room of a chip of the board.
    pub(crate) fn room(&self, chip: ChipId) -> u64
        requires { chip.place < length self.now.board.rooms }
        ensures { slice_get self.now.board.rooms chip.place ≡ Some result }
    {
        self.board.room(chip)
    }

    /// What the Q of a register stands for, if it is there.
    pub(crate) fn register_subject(&self, chip: ChipId, register: RegId) -> Option<Subject>
        ensures { result ≡ register_subject self.now chip.place register.place }
    {
        match self.register(chip, register) {
            Some(register) => self.subject(chip, register.q),
            None => None,
        }
    }
}
