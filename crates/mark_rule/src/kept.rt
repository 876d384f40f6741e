//! Which nets of a chip are kept: the marks that a frame begins with stand on them.
ghost use Rattle.std.specs.Prelude.{◌≡◌, IfOk, false, length, replicate, zip};
ghost use Rattle.std.specs.List.{list_any};
ghost use Rattle.emu_machine.specs.Netlist.{is_chip_net};
ghost use Rattle.emu_machine.specs.Results.{ChipEntryFits};
ghost use Rattle.mark_rule.specs.Kept.{AreKept, EntriesFit, TellsAlso, keeps_bits, keeps_net, keeps_ports, keeps_q};

use crate::subjects::{chip_of, entry_of};
use emu_io::{List, NoMemory};
use emu_machine::{Chip, ChipMap, EmuMemory, EmuRead, EmuRegister, MemMap, Results};
use id_arena::{ChipId, ChipNetId};
use std::alloc::Global;

/// For each net of a chip whether it is the Q of a kept register or a bit of a kept read port. Takes a step for
/// each net, register and bit, and a byte for each net.
pub fn kept_nets(alloc: Global, results: &Results, chip: ChipId) -> Result<List<bool>, NoMemory>
    ensures { IfOk result (λ kept. AreKept results.now chip.place kept) }
{
    results.stand();
    let (Some(chip), Some(entry)) = (chip_of(results, chip), entry_of(results, chip)) else {
        return Ok(List::new(alloc));
    };
    let mut kept = none_kept(alloc, chip.nets)?;
    keep_chip(chip, entry, &mut kept);
    Ok(kept)
}

// So many nets, none of them kept.
fn none_kept(alloc: Global, nets: u32) -> Result<List<bool>, NoMemory>
    ensures { IfOk result (λ kept. kept ≡ replicate nets false) }
{
    let mut kept = List::new(alloc);
    'nets: for _ in 0..nets {
        kept.push(false)?;
    }
    Ok(kept)
}

// Tells the nets of a chip that are kept.
fn keep_chip(chip: &Chip, entry: &ChipMap, kept: &mut List<bool>)
    requires { ChipEntryFits chip.now entry.now }
    ensures { TellsAlso (λ n. keeps_net chip.now entry.now n) kept.old kept.new }
{
    keep_registers(chip.registers.as_slice(), entry.kept.as_slice(), kept);
    keep_memories(chip.memories.as_slice(), entry.memories.as_slice(), kept);
}

// Tells the Qs of the registers that are kept.
fn keep_registers(registers: &[EmuRegister], are_kept: &[bool], kept: &mut List<bool>)
    requires { length are_kept.now ≡ length registers.now }
    ensures { TellsAlso (λ n. list_any (keeps_q n) (zip registers.now are_kept.now)) kept.old kept.new }
{
    'each: for i in 0..registers.len() {
        keep_register(registers[i], are_kept[i], kept);
    }
}

// Tells the Q of a register, if it is kept.
fn keep_register(register: EmuRegister, is_kept: bool, kept: &mut List<bool>)
    ensures { TellsAlso (λ n. keeps_q n (register, is_kept)) kept.old kept.new }
{
    if is_kept {
        keep(register.q, kept);
    }
}

// Tells the bits of the read ports of some memories that are kept.
fn keep_memories(memories: &[EmuMemory], entries: &[MemMap], kept: &mut List<bool>)
    requires { EntriesFit memories.now entries.now }
    ensures { TellsAlso (λ n. list_any (keeps_ports n) (zip memories.now entries.now)) kept.old kept.new }
{
    'each: for i in 0..memories.len() {
        keep_ports(
            memories[i].reads.as_slice(),
            entries[i].kept.as_slice(),
            kept,
        );
    }
}

// Tells the bits of the read ports that are kept.
fn keep_ports(ports: &[EmuRead], are_kept: &[bool], kept: &mut List<bool>)
    requires { length are_kept.now ≡ length ports.now }
    ensures { TellsAlso (λ n. list_any (keeps_bits n) (zip ports.now are_kept.now)) kept.old kept.new }
{
    'each: for i in 0..ports.len() {
        keep_port(&ports[i], are_kept[i], kept);
    }
}

// Tells the bits of a read port, if it is kept.
fn keep_port(port: &EmuRead, is_kept: bool, kept: &mut List<bool>)
    ensures { TellsAlso (λ n. keeps_bits n (port.now, is_kept)) kept.old kept.new }
{
    if is_kept {
        keep_bits(port.bits.as_slice(), kept);
    }
}

// Tells some nets.
fn keep_bits(bits: &[ChipNetId], kept: &mut List<bool>)
    ensures { TellsAlso (λ n. list_any (is_chip_net n) bits.now) kept.old kept.new }
{
    'each: for net in bits {
        keep(*net, kept);
    }
}

// Tells a net, where the table has it.
fn keep(net: ChipNetId, kept: &mut List<bool>)
    ensures { TellsAlso (λ n. is_chip_net n net) kept.old kept.new }
{
    if u64::from(net.place) < kept.len() {
        kept.set(u64::from(net.place), true);
    }
}
