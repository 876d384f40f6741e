//! Results on a board, with a number for each register and memory.

ghost use Rattle.std.specs.Prelude.{◌≡◌, ◌≤◌, ◌<◌, ◌*◌, IfOk, length};
ghost use Rattle.emu_machine.specs.Building.{IsBuilt};
ghost use Rattle.emu_machine.specs.Netlist.{chip_at};
ghost use Rattle.emu_machine.specs.State.{slots_taken};
ghost use Rattle.use_check.specs.Uses.{AreStarts, cell_of, IsJudged, IsPart, part_number, part_of, start_of, wire_of};

use board_model::Board;
use emu_io::{List, NoMemory};
use emu_machine::{Action, Chip, Results, Thing};
use id_arena::{ChipId, WireId};
use std::alloc::Global;

/// By latency, how many slots on an action may end that has begun.
const LATENCIES: u64 = 8;

/// Results on a board. The registers and memories are numbered by chip, on each chip the registers first.
#[derive(Drop)]
pub(crate) struct Judged<'a> {
    pub(crate) board: &'a Board,
    pub(crate) results: &'a Results,
    /// For each chip the number of its first register or memory, and then the number of all.
    pub(crate) starts: List<u64>,
}

impl<'a> Judged<'a> {
    /// The chips.
    pub(crate) fn chips(&self) -> &[Chip]
        ensures { result.now ≡ self.now.results.now.net }
    {
        self.results.net().chips().as_slice()
    }

    /// How many slots an action lasts.
    pub(crate) fn taken(&self, action: Action) -> u32
        ensures is { result ≡ slots_taken self.now.board.now.wires action }
        ensures some { 0 < result }
        ensures few { result ≤ 8 }
    {
        match action {
            Action::Send { wire, .. } => {
                if wire.place < self.board.wires() {
                    self.board.latency(wire)
                } else {
                    1
                }
            }
            _ => 1,
        }
    }

    /// The register or memory that an action uses in its last slot.
    pub(crate) fn part(&self, action: Action) -> Option<Thing>
        ensures { result ≡ part_of self.now.board.now.wires action }
    {
        match action {
            Action::Input { chip, register, .. } => Some(Thing::Register(chip, register)),
            Action::Load { chip, register } => Some(Thing::Register(chip, register)),
            Action::Send { wire, register, .. } => {
                if wire.place < self.board.wires() {
                    let (_, to) = self.board.ends(wire);
                    Some(Thing::Register(to, register))
                } else {
                    None
                }
            }
            Action::Write { chip, mem, .. } => Some(Thing::Memory(chip, mem)),
            Action::Read { chip, mem, .. } => Some(Thing::Memory(chip, mem)),
        }
    }

    /// The number of cells of all registers and memories.
    pub(crate) fn cells(&self) -> u64
        requires { IsJudged self.now.board.now self.now.results.now self.now.starts }
        ensures { result ≡ 8 * start_of self.now.results.now.net (length self.now.results.now.net) }
    {
        LATENCIES * *self.starts.get(self.chips().len() as u64)
    }

    /// The cell of a register or memory that tells of a slot.
    pub(crate) fn cell(&self, part: Thing, slot: u32) -> u64
        requires judged { IsJudged self.now.board.now self.now.results.now self.now.starts }
        requires part { IsPart self.now.results.now.net part }
        ensures { result ≡ cell_of self.now.results.now.net part slot }
    {
        LATENCIES * self.part_number(part) + u64::from(slot % 8)
    }

    /// The number of a register or memory.
    fn part_number(&self, part: Thing) -> u64
        requires judged { IsJudged self.now.board.now self.now.results.now self.now.starts }
        requires part { IsPart self.now.results.now.net part }
        ensures { result ≡ part_number self.now.results.now.net part }
    {
        match part {
            Thing::Wire(_) => 0,
            Thing::Register(chip, register) => self.start(chip) + u64::from(register.place),
            Thing::Memory(chip, mem) => {
                self.start(chip) + self.registers(chip) + u64::from(mem.place)
            }
        }
    }

    /// The number of the first register of a chip.
    fn start(&self, chip: ChipId) -> u64
        requires judged { IsJudged self.now.board.now self.now.results.now self.now.starts }
        requires chip { chip.place < length self.now.results.now.net }
        ensures { result ≡ start_of self.now.results.now.net chip.place }
    {
        *self.starts.get(u64::from(chip.place))
    }

    /// The number of registers of a chip.
    fn registers(&self, chip: ChipId) -> u64
        requires judged { IsJudged self.now.board.now self.now.results.now self.now.starts }
        requires chip { chip.place < length self.now.results.now.net }
        ensures { result ≡ length (chip_at self.now.results.now.net chip.place).registers }
    {
        self.chips()[chip.place as usize].registers.len()
    }
}

/// The wire that an action uses while it is under way.
pub(crate) fn wire_of(action: Action) -> Option<WireId>
    ensures { result ≡ wire_of action }
{
    match action {
        Action::Send { wire, .. } => Some(wire),
        _ => None,
    }
}

/// For each chip the number of its first register or memory, and then the number of all.
pub(crate) fn number_parts(alloc: Global, chips: &[Chip]) -> Result<List<u64>, NoMemory>
    requires few { length chips.now ≤ 16 }
    requires built { IsBuilt chips.now }
    ensures { IfOk result (λ starts. AreStarts chips.now starts) }
{
    let mut starts = List::new(alloc);
    let mut total = 0;
    'each: for chip in chips {
        starts.push(total)?;
        total += chip.registers.len() + chip.memories.len();
    }
    starts.push(total)?;
    Ok(starts)
}
