//! What the actions of a frame so far use, told by tables with places for each wire, register and memory.

ghost use Rattle.std.specs.Prelude.{◌≡◌, ◌<◌, ◌*◌, [], IfOk, IfSome, length, replicate};
ghost use Rattle.use_check.specs.Uses.{start_of, again, AreTables, free_after, IsJudged, IsPart, last_of, NamesParts, part_again, part_of, stamps_after, stamps_noted, Tell, wire_again, wire_of};

use crate::judged::{Judged, wire_of};
use emu_io::{List, NoMemory};
use emu_machine::{Action, Thing};
use id_arena::WireId;
use std::alloc::Global;

/// What the actions so far use in the slots from the present one on.
#[derive(Drop)]
pub(crate) struct Tables {
    /// By wire the first slot in which it is free again.
    pub(crate) free: List<u32>,
    /// By register and memory, and by slot modulo 8, one more than the last slot in which it is used.
    pub(crate) stamps: List<u32>,
}

impl Tables {
    /// The tables before the first action of a frame.
    pub(crate) fn new(alloc: Global, judged: &Judged) -> Result<Tables, NoMemory>
        requires { IsJudged judged.now.board.now judged.now.results.now judged.now.starts }
        ensures { IfOk result (λ tables. Tell judged.now.board.now.wires judged.now.results.now.net [] 0 tables.free tables.stamps) }
    {
        let free = zeros(alloc, u64::from(judged.board.wires()))?;
        let stamps = zeros(alloc, judged.cells())?;
        Ok(Tables { free, stamps })
    }

    /// What an action of a slot uses in a slot in which an action so far uses it too, the wire first.
    pub(crate) fn again(&self, judged: &Judged, slot: u32, action: Action) -> Option<Thing>
        requires judged { IsJudged judged.now.board.now judged.now.results.now judged.now.starts }
        requires tables { AreTables judged.now.board.now.wires judged.now.results.now.net self.now.free self.now.stamps }
        requires slot { slot < 65535 }
        requires there { NamesParts judged.now.board.now.wires judged.now.results.now.net action }
        ensures { result ≡ again judged.now.board.now.wires judged.now.results.now.net self.now.free self.now.stamps slot action }
    {
        let wire = wire_again(&self.free, slot, wire_of(action));
        if wire.is_some() {
            return wire;
        }
        let last = slot + judged.taken(action) - 1;
        part_again(judged, &self.stamps, last, judged.part(action))
    }

    /// Notes what an action of a slot uses.
    pub(crate) fn note(&mut self, judged: &Judged, slot: u32, action: Action)
        requires judged { IsJudged judged.now.board.now judged.now.results.now judged.now.starts }
        requires tables { AreTables judged.now.board.now.wires judged.now.results.now.net self.old.free self.old.stamps }
        requires slot { slot < 65535 }
        requires there { NamesParts judged.now.board.now.wires judged.now.results.now.net action }
        ensures free { self.new.free ≡ free_after self.old.free (last_of judged.now.board.now.wires slot action) (wire_of action) }
        ensures stamps { self.new.stamps ≡ stamps_noted judged.now.board.now.wires judged.now.results.now.net self.old.stamps slot action }
    {
        let last = slot + judged.taken(action) - 1;
        note_wire(&mut self.free, last, wire_of(action));
        note_part(judged, &mut self.stamps, last, judged.part(action));
    }
}

/// The wire, if it is there and not free in a slot.
fn wire_again(free: &List<u32>, slot: u32, wire: Option<WireId>) -> Option<Thing>
    requires { IfSome wire (λ w. w.place < length free.now) }
    ensures { result ≡ wire_again free.now slot wire }
{
    match wire {
        Some(wire) if slot < *free.get(u64::from(wire.place)) => Some(Thing::Wire(wire)),
        _ => None,
    }
}

/// The register or memory, if it is there and used in a slot.
fn part_again(judged: &Judged, stamps: &List<u32>, slot: u32, part: Option<Thing>) -> Option<Thing>
    requires judged { IsJudged judged.now.board.now judged.now.results.now judged.now.starts }
    requires cells { length stamps.now ≡ 8 * start_of judged.now.results.now.net (length judged.now.results.now.net) }
    requires slot { slot < 65542 }
    requires there { IfSome part (IsPart judged.now.results.now.net) }
    ensures { result ≡ part_again judged.now.results.now.net stamps.now slot part }
{
    let part = part?;
    if *stamps.get(judged.cell(part, slot)) == slot + 1 {
        Some(part)
    } else {
        None
    }
}

/// Notes that a wire is used up to a slot, if it is there.
fn note_wire(free: &mut List<u32>, last: u32, wire: Option<WireId>)
    requires last { last < 65542 }
    requires there { IfSome wire (λ w. w.place < length free.old) }
    ensures { free.new ≡ free_after free.old last wire }
{
    if let Some(wire) = wire {
        free.set(u64::from(wire.place), last + 1);
    }
}

/// Notes that a register or memory is used in a slot, if it is there.
fn note_part(judged: &Judged, stamps: &mut List<u32>, last: u32, part: Option<Thing>)
    requires judged { IsJudged judged.now.board.now judged.now.results.now judged.now.starts }
    requires cells { length stamps.old ≡ 8 * start_of judged.now.results.now.net (length judged.now.results.now.net) }
    requires last { last < 65542 }
    requires there { IfSome part (IsPart judged.now.results.now.net) }
    ensures { stamps.new ≡ stamps_after judged.now.results.now.net stamps.old last part }
{
    if let Some(part) = part {
        stamps.set(judged.cell(part, last), last + 1);
    }
}

/// So many zeros.
fn zeros(alloc: Global, count: u64) -> Result<List<u32>, NoMemory>
    ensures { IfOk result (λ numbers. numbers ≡ replicate count 0) }
{
    let mut numbers = List::new(alloc);
    'each: for _ in 0..count {
        numbers.push(0)?;
    }
    Ok(numbers)
}
