//! What a machine is loaded with.

ghost use Rattle.std.specs.Prelude.{◌≡◌, ◌<◌, ◌≤◌, ◌^◌, ◌&&◌, ℕ, IfOk, Some, length, slice_get};
ghost use Rattle.std.specs.List.{list_any};
ghost use Rattle.design_core.specs.Design.{net_count};
ghost use Rattle.design_core.specs.Valuation.{IsAddress};
ghost use Rattle.emu_machine.specs.Building.{AreNetsOf, IsBuilt, IsChip, IsMemoryOf};
ghost use Rattle.emu_machine.specs.Mapped.{IsLoaded, kept_by_read, kept_by_register};
ghost use Rattle.emu_machine.specs.Netlist.{is_chip_net};
ghost use Rattle.emu_machine.specs.Results.{ChipEntryFits, MapFits, MemoryEntryFits};
ghost use Rattle.settled_model.specs.Held.{valuation};
ghost use Rattle.cycle_sim.specs.Loading.{AreCopied, AreHeld, CanLoad, FirstCopied, FreeAreZero, Gains, IsCopy, IsHeld, MemoriesLoad, kept_as_q, kept_by_memory, kept_by_port, told};
ghost use Rattle.emu_machine.specs.declared.netlist.Chip.{Chip};
ghost use Rattle.emu_machine.specs.declared.map.ChipMap.{ChipMap};
ghost use Rattle.cycle_sim.specs.Tables.{HaveSizes, HaveWords, state_of};

use crate::parts::{chip_count, chip_of};
use crate::words::ChipWords;
use design_core::Design;
use emu_io::{List, NoMemory};
use emu_machine::{Chip, ChipMap, EmuMemory, EmuRead, EmuRegister, MemMap, Results, Subject};
use id_arena::{ChipNetId, Key, MemId};
use settled_model::Settled;
use std::alloc::Global;
use std::marker::Model;

/// What the registers, read ports and memories of a machine hold and which values stand outside when it is
/// opened.
///
/// A clause sees three tables: by chip and net what a register or read port holds there, by chip, memory and
/// address each word, and by net of the design the outside value of an input. The wires carry 0.
#[derive(Drop)]
pub struct Loaded {
    held: Vec<List<bool>>,
    words: Vec<ChipWords>,
    outside: Vec<bool>,
}

impl Model for Loaded {
    ghost use Rattle.std.specs.Prelude.{[]};
    ghost use Rattle.cycle_sim.specs.Tables.{Tables};

    ghost Value = { Tables };

    ghost view = { λ l. record { held = l.held.items; words = l.words.items; outside = l.outside.items; carried = [] } };
}

impl Loaded {
    /// What is loaded from the valuation that the original has reached: a kept register or read net holds the
    /// value of the net that it stands for, a free one holds 0, each memory holds the words of its original,
    /// and each input stands outside with its value.
    ///
    /// The valuation is one of this design, and registers and memories are what the map says, as rule A7 asks.
    pub fn from_settled(
        alloc: Global,
        settled: &Settled<'_>,
        design: &Design,
        results: &Results,
    ) -> Result<Loaded, NoMemory>
        requires same { settled.now.parts ≡ design.now }
        requires mapped { CanLoad design.now results.now }
        ensures sizes { IfOk result (λ t. HaveSizes results.now t.held) }
        ensures words { IfOk result (λ t. HaveWords results.now t.words) }
        ensures outside { IfOk result (λ t. t.outside ≡ settled.now.nets) }
        ensures inputs { IfOk result (λ t. length t.outside ≡ net_count design.now) }
        ensures loaded { IfOk result (λ t. IsLoaded design.now results.now (valuation settled.now) (state_of t)) }
        ensures free { IfOk result (λ t. FreeAreZero results.now (state_of t)) }
    {
        let _design = design;
        results.stand();
        let values = settled.values();
        let held = held_of(alloc, results, values)?;
        let words = words_of(alloc, results, settled)?;
        let outside = copy_of(alloc, values)?;
        Ok(Loaded {
            held,
            words,
            outside,
        })
    }

    /// The three tables.
    pub(crate) fn into_tables(self) -> (Vec<List<bool>>, Vec<ChipWords>, Vec<bool>)
        ensures held { result.0.items ≡ self.held }
        ensures words { result.1.items ≡ self.words }
        ensures outside { result.2.items ≡ self.outside }
    {
        (self.held, self.words, self.outside)
    }
}

/// The same values in a table of their own.
fn copy_of(alloc: Global, values: &[bool]) -> Result<Vec<bool>, NoMemory>
    ensures { IfOk result (λ table. table.items ≡ values.now) }
{
    let table = values.iter().copied().collect(alloc)?;
    Ok(table)
}

/// By chip and net what a register or read port holds there.
#[tactic(auto, using(crate::proofs::Loads::next_chip))]
fn held_of(alloc: Global, results: &Results, values: &[bool]) -> Result<Vec<List<bool>>, NoMemory>
    requires built { IsBuilt results.now.net }
    requires mapped { MapFits results.now }
    ensures { IfOk result (λ held. AreHeld results.now values.now (length results.now.net) held.items) }
{
    let mut held = Vec::new(alloc);
    'chips: for c in 0..chip_count(results) {
        held.push(chip_held(
            alloc,
            chip_of(results, c),
            results.map().chips.get(c),
            values,
        )?)?;
    }
    Ok(held)
}

/// By net of a chip what a register or read port holds there.
#[tactic(auto, using(crate::proofs::Loads::chip_is_held))]
fn chip_held(
    alloc: Global,
    chip: &Chip,
    entry: &ChipMap,
    values: &[bool],
) -> Result<List<bool>, NoMemory>
    requires chip { IsChip chip.now }
    requires entry { ChipEntryFits chip.now entry.now }
    ensures { IfOk result (λ held. IsHeld chip.now entry.now values.now held) }
{
    let mut held = List::from_vec(vec![in alloc; false; chip.nets as usize]?);
    hold_registers(chip, entry, values, &mut held);
    hold_memories(chip, entry, values, &mut held);
    Ok(held)
}

/// Gives the Q of each kept register the value of what it stands for.
fn hold_registers(chip: &Chip, entry: &ChipMap, values: &[bool], held: &mut List<bool>)
    requires chip { IsChip chip.now }
    requires entry { ChipEntryFits chip.now entry.now }
    requires held { length held.old ≡ chip.now.nets }
    ensures { Gains (kept_by_register chip.now entry.now) entry.now values.now held.old held.new }
{
    'registers: for k in 0..chip.registers.len() {
        hold_register(
            *chip.registers.get(k),
            *entry.kept.get(k),
            entry,
            values,
            held,
        );
    }
}

/// The same for one register.
#[tactic(auto, using(crate::proofs::Loads::nobody_gains))]
fn hold_register(
    register: EmuRegister,
    kept: bool,
    entry: &ChipMap,
    values: &[bool],
    held: &mut List<bool>,
)
    requires there { register.q.place < length held.old }
    requires entry { length entry.now.nets ≡ length held.old }
    ensures { Gains (λ n. kept_as_q n (register, kept)) entry.now values.now held.old held.new }
{
    if kept {
        hold(register.q, entry, values, held);
    }
}

/// Gives the nets of each kept read port the values of what they stand for.
fn hold_memories(chip: &Chip, entry: &ChipMap, values: &[bool], held: &mut List<bool>)
    requires chip { IsChip chip.now }
    requires entry { ChipEntryFits chip.now entry.now }
    requires held { length held.old ≡ chip.now.nets }
    ensures { Gains (kept_by_read chip.now entry.now) entry.now values.now held.old held.new }
{
    'memories: for m in 0..chip.memories.len() {
        hold_ports(
            chip.memories.get(m),
            entry.memories.get(m),
            entry,
            values,
            held,
        );
    }
}

/// The same for the read ports of one memory.
fn hold_ports(
    memory: &EmuMemory,
    of: &MemMap,
    entry: &ChipMap,
    values: &[bool],
    held: &mut List<bool>,
)
    requires memory { IsMemoryOf (length held.old) memory.now }
    requires of { MemoryEntryFits memory.now of.now }
    requires entry { length entry.now.nets ≡ length held.old }
    ensures { Gains (λ n. kept_by_memory n (memory.now, of.now)) entry.now values.now held.old held.new }
{
    'ports: for k in 0..memory.reads.len() {
        hold_port(memory.reads.get(k), *of.kept.get(k), entry, values, held);
    }
}

/// The same for one read port.
#[tactic(auto, using(crate::proofs::Loads::nobody_gains))]
fn hold_port(port: &EmuRead, kept: bool, entry: &ChipMap, values: &[bool], held: &mut List<bool>)
    requires bits { AreNetsOf (length held.old) port.now.bits }
    requires entry { length entry.now.nets ≡ length held.old }
    ensures { Gains (λ n. kept_by_port n (port.now, kept)) entry.now values.now held.old held.new }
{
    if kept {
        hold_nets(port.bits.as_slice(), entry, values, held);
    }
}

/// Gives nets the values of what they stand for.
fn hold_nets(bits: &[ChipNetId], entry: &ChipMap, values: &[bool], held: &mut List<bool>)
    requires bits { AreNetsOf (length held.old) bits.now }
    requires entry { length entry.now.nets ≡ length held.old }
    ensures { Gains (λ n. list_any (is_chip_net n) bits.now) entry.now values.now held.old held.new }
{
    'bits: for k in 0..bits.len() {
        hold(bits[k], entry, values, held);
    }
}

/// Gives a net the value of what it stands for.
#[tactic(auto, using(crate::proofs::Loads::is_held))]
fn hold(net: ChipNetId, entry: &ChipMap, values: &[bool], held: &mut List<bool>)
    requires there { net.place < length held.old }
    requires subject { net.place < length entry.now.nets }
    ensures { Gains (λ n. is_chip_net n net) entry.now values.now held.old held.new }
{
    let subject = entry.nets.get(net.place() as u64);
    held.set(net.place() as u64, told(*subject, values));
}

/// The value of what a net stands for, if it is a net of the design.
fn told(subject: Subject, values: &[bool]) -> bool
    ensures { result ≡ told values.now (Some subject) }
{
    match subject {
        Subject::Net(net) => match values.get(net.place() as usize) {
            Some(value) => *value,
            None => false,
        },
        _ => false,
    }
}

/// For each chip the words of its memories.
fn words_of(
    alloc: Global,
    results: &Results,
    settled: &Settled<'_>,
) -> Result<Vec<ChipWords>, NoMemory>
    requires mapped { MapFits results.now }
    requires memories { (c : ℕ) (chip : Chip) (entry : ChipMap)
        → slice_get results.now.net c ≡ Some chip → slice_get results.now.map.chips c ≡ Some entry
        → MemoriesLoad settled.now.parts chip entry }
    ensures { IfOk result (λ words. AreCopied (valuation settled.now) results.now (length results.now.net) words.items) }
{
    let mut words = Vec::new(alloc);
    'chips: for c in 0..chip_count(results) {
        words.push(chip_words(
            alloc,
            chip_of(results, c),
            results.map().chips.get(c),
            settled,
        )?)?;
    }
    Ok(words)
}

/// The words of the memories of a chip.
fn chip_words(
    alloc: Global,
    chip: &Chip,
    entry: &ChipMap,
    settled: &Settled<'_>,
) -> Result<ChipWords, NoMemory>
    requires entry { ChipEntryFits chip.now entry.now }
    requires memories { MemoriesLoad settled.now.parts chip.now entry.now }
    ensures { IfOk result (λ words. FirstCopied (valuation settled.now) chip.now entry.now (length chip.now.memories) words) }
{
    let mut words = Vec::new(alloc);
    'memories: for m in 0..chip.memories.len() {
        words.push(memory_words(
            alloc,
            chip.memories.get(m).address_bits,
            entry.memories.get(m).of,
            settled,
        )?)?;
    }
    Ok(ChipWords::from_vec(words))
}

/// The words of a memory of the design, at all addresses of so many bits.
fn memory_words(
    alloc: Global,
    address_bits: u32,
    of: MemId,
    settled: &Settled<'_>,
) -> Result<List<u128>, NoMemory>
    requires few { address_bits ≤ 16 }
    requires addresses { (a : ℕ) → a < 2 ^ address_bits → IsAddress settled.now.parts of.place a }
    ensures { IfOk result (λ words. IsCopy (valuation settled.now) of.place (2 ^ address_bits) words) }
{
    let mut words = List::new(alloc);
    let count: u32 = 1 << address_bits;
    'addresses: for address in 0..count {
        words.push(settled.word(of, address))?;
    }
    Ok(words)
}
