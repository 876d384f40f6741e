//! A9: input bits, elements and output bits are mapped.

ghost use Rattle.std.specs.Prelude.{◌≡◌, ◌<◌, ◌∷◌, [], ◌==◌, IfOk, false, if◌then◌else◌, length, zip};
ghost use Rattle.std.specs.List.{list_any};
ghost use Rattle.emu_machine.specs.Acceptance.{chip_keeps, is_register_kept, times_named};
ghost use Rattle.shape_check.specs.Mapped.{AreCountedAlso, AreKept, AreMarkedAlso, AreNamed, keeps, names, net};

use crate::ShapeCase;
use emu_io::{List, NoMemory};
use emu_machine::{EmuRegister, MemMap, Subject};
use id_arena::{ChipId, Key, MemId};
use std::alloc::Global;

/// For each net of the design, whether a kept register stands for it.
pub(crate) fn kept_nets(alloc: Global, case: &ShapeCase) -> Result<List<bool>, NoMemory>
    ensures { IfOk result (λ table. AreKept case.now table) }
{
    let mut table = List::new(alloc);
    'blank: for _ in 0..case.design().nets() {
        table.push(false)?;
    }
    mark_chips(case, &mut table);
    Ok(table)
}

/// Marks the nets for which a kept register of some chip stands.
fn mark_chips(case: &ShapeCase, table: &mut List<bool>)
    ensures { AreMarkedAlso (λ n. is_register_kept case.now.results (net n)) table.old table.new }
{
    'each: for k in 0..case.modules() {
        mark_chip(case, ChipId::of(k), table);
    }
}

/// Marks the nets for which a kept register of a chip stands.
fn mark_chip(case: &ShapeCase, chip: ChipId, table: &mut List<bool>)
    requires { chip.place < length case.now.results.net }
    ensures { AreMarkedAlso (λ n. chip_keeps case.now.results (net n) chip.place) table.old table.new }
{
    case.stands();
    let (Some(found), Some(entry)) = (case.chip(chip), case.entry(chip)) else {
        return;
    };
    mark_registers(
        case,
        chip,
        found.registers.as_slice(),
        entry.kept.as_slice(),
        table,
    );
}

/// The same of some registers, with whether each is kept.
fn mark_registers(
    case: &ShapeCase,
    chip: ChipId,
    registers: &[EmuRegister],
    kept: &[bool],
    table: &mut List<bool>,
)
    requires { length kept.now ≡ length registers.now }
    ensures { AreMarkedAlso (λ n. list_any (keeps case.now.results chip.place n) (zip registers.now kept.now)) table.old table.new }
{
    'each: for i in 0..registers.len() {
        mark_register(case, chip, registers[i], kept[i], table);
    }
}

/// Marks the net for which a register stands, if it is kept.
fn mark_register(
    case: &ShapeCase,
    chip: ChipId,
    register: EmuRegister,
    kept: bool,
    table: &mut List<bool>,
)
    ensures { AreMarkedAlso (λ n. keeps case.now.results chip.place n (register, kept)) table.old table.new }
{
    if !kept {
        return;
    }
    if let Some(Subject::Net(net)) = case.subject(chip, register.q) {
        if u64::from(net.place) < table.len() {
            table.set(u64::from(net.place), true);
        }
    }
}

/// For each memory of the design, how often the map names it, up to 2.
pub(crate) fn named_memories(alloc: Global, case: &ShapeCase) -> Result<List<u8>, NoMemory>
    ensures { IfOk result (λ table. AreNamed case.now table) }
{
    let mut table = List::new(alloc);
    'blank: for _ in 0..case.design().mems() {
        table.push(0)?;
    }
    count_chips(case, &mut table);
    Ok(table)
}

/// Counts how often the map names each memory.
fn count_chips(case: &ShapeCase, table: &mut List<u8>)
    ensures { AreCountedAlso (times_named case.now.results) table.old table.new }
{
    'each: for entry in case.entries() {
        count_entries(entry.memories.as_slice(), table);
    }
}

/// Counts how often some entries name each memory.
fn count_entries(entries: &[MemMap], table: &mut List<u8>)
    ensures { AreCountedAlso (λ m. names m entries.now) table.old table.new }
{
    'each: for entry in entries {
        count_one(entry.of, table);
    }
}

/// Counts a memory once more.
fn count_one(mem: MemId, table: &mut List<u8>)
    ensures { AreCountedAlso (λ m. if mem.place == m then 1 else 0) table.old table.new }
{
    let place = u64::from(mem.place);
    if place < table.len() && *table.get(place) < 2 {
        let count = *table.get(place);
        table.set(place, count + 1);
    }
}
