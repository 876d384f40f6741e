//! The parts of an instance's line.
ghost use Rattle.std.specs.Prelude.{◌≡◌, ◌++◌, IfOk, OnOk, codes, decimal, flat_map};
ghost use Rattle.netlist_writer.specs.NetlistText.{net_name, op_form, register_form, memory_form, memory_pins, terminals, write_pins, read_pins};
ghost use Rattle.netlist_writer.specs.Shown.{shown, goes_on};

use crate::text::{append, append_hex, append_number};
use design_core::Op;
use emu_io::NoMemory;
use emu_machine::{EmuMemory, EmuRead, EmuRegister, EmuWrite};
use id_arena::ChipNetId;

/// Puts the form of a gate with so many inputs at the end.
pub(crate) fn push_op(text: &mut Vec<u8>, op: Op, inputs: u64) -> Result<(), NoMemory>
    ensures { OnOk result (text.new.items ≡ text.old.items ++ op_form op inputs) }
{
    match op {
        Op::And => append(text, b"and"),
        Op::Nand => append(text, b"nand"),
        Op::Or => append(text, b"or"),
        Op::Nor => append(text, b"nor"),
        Op::Xor => append(text, b"xor"),
        Op::Xnor => append(text, b"xnor"),
        Op::Buf => append(text, b"buf"),
        Op::Not => append(text, b"not"),
        Op::Table(table) => {
            append(text, b"LUT")?;
            append_number(text, inputs)?;
            append(text, b"_")?;
            append_hex(text, table)
        }
    }
}

/// Puts the form of a register at the end.
pub(crate) fn push_form(text: &mut Vec<u8>, register: EmuRegister) -> Result<(), NoMemory>
    ensures { OnOk result (text.new.items ≡ text.old.items ++ register_form register.d register.enable) }
{
    match (register.d, register.enable) {
        (None, _) => append(text, b"EHOLD"),
        (Some(_), None) => append(text, b"EREG"),
        (Some(_), Some(_)) => append(text, b"EREGE"),
    }
}

/// Puts the form of a memory at the end.
pub(crate) fn push_memory_form(text: &mut Vec<u8>, memory: &EmuMemory) -> Result<(), NoMemory>
    ensures { OnOk result (text.new.items ≡ text.old.items ++ memory_form memory.now) }
{
    append(text, b"EMEM_")?;
    append_number(text, u64::from(memory.address_bits))?;
    append(text, b"_")?;
    append_number(text, u64::from(memory.width))?;
    append(text, b"_")?;
    append_number(text, memory.writes.len())?;
    append(text, b"_")?;
    append_number(text, memory.reads.len())
}

/// Puts the letter and the number of an instance and the opening of its terminals at the end.
pub(crate) fn push_name(text: &mut Vec<u8>, letter: &[u8], number: u64) -> Result<(), NoMemory>
    ensures { OnOk result (text.new.items
        ≡ text.old.items ++ (codes " " ++ letter.now ++ decimal number ++ codes " (")) }
{
    append(text, b" ")?;
    append(text, letter)?;
    append_number(text, number)?;
    append(text, b" (")
}

/// Puts the name of a net at the end.
fn push_net(text: &mut Vec<u8>, net: ChipNetId) -> Result<(), NoMemory>
    ensures { OnOk result (text.new.items ≡ text.old.items ++ net_name net) }
{
    append(text, b"n")?;
    append_number(text, u64::from(net.place))
}

/// Puts terminals at the end, where `some` tells whether one stands before them, and tells whether one
/// stands there now.
pub(crate) fn push_nets(
    text: &mut Vec<u8>,
    some: bool,
    nets: &[ChipNetId],
) -> Result<bool, NoMemory>
    ensures shown { OnOk result (text.new.items ≡ text.old.items ++ shown some nets.now) }
    ensures goes_on { IfOk result (λ more. more ≡ goes_on some nets.now) }
{
    let mut more = some;
    'nets: for net in nets {
        if more {
            append(text, b", ")?;
        }
        push_net(text, *net)?;
        more = true;
    }
    Ok(more)
}

/// Puts the terminals of write ports at the end, as `push_nets` does.
fn push_writes(text: &mut Vec<u8>, some: bool, ports: &[EmuWrite]) -> Result<bool, NoMemory>
    ensures shown { OnOk result (text.new.items ≡ text.old.items ++ shown some (flat_map write_pins ports.now)) }
    ensures goes_on { IfOk result (λ more. more ≡ goes_on some (flat_map write_pins ports.now)) }
{
    let mut more = some;
    'ports: for port in ports {
        more = push_write(text, more, port)?;
    }
    Ok(more)
}

/// Puts the terminals of a write port at the end, as `push_nets` does.
fn push_write(text: &mut Vec<u8>, some: bool, port: &EmuWrite) -> Result<bool, NoMemory>
    ensures shown { OnOk result (text.new.items ≡ text.old.items ++ shown some (write_pins port.now)) }
    ensures goes_on { IfOk result (λ more. more ≡ goes_on some (write_pins port.now)) }
{
    push_nets(text, some, &[port.enable])?;
    push_nets(text, true, port.address.as_slice())?;
    push_nets(text, true, port.feed.as_slice())?;
    Ok(true)
}

/// Puts the terminals of read ports at the end, as `push_nets` does.
fn push_reads(text: &mut Vec<u8>, some: bool, ports: &[EmuRead]) -> Result<bool, NoMemory>
    ensures shown { OnOk result (text.new.items ≡ text.old.items ++ shown some (flat_map read_pins ports.now)) }
    ensures goes_on { IfOk result (λ more. more ≡ goes_on some (flat_map read_pins ports.now)) }
{
    let mut more = some;
    'ports: for port in ports {
        more = push_read(text, more, port)?;
    }
    Ok(more)
}

/// Puts the terminals of a read port at the end, as `push_nets` does.
fn push_read(text: &mut Vec<u8>, some: bool, port: &EmuRead) -> Result<bool, NoMemory>
    ensures shown { OnOk result (text.new.items ≡ text.old.items ++ shown some (read_pins port.now)) }
    ensures goes_on { IfOk result (λ more. more ≡ goes_on some (read_pins port.now)) }
{
    let more = push_nets(text, some, port.address.as_slice())?;
    push_nets(text, more, port.bits.as_slice())
}

/// Puts the terminals of a memory at the end.
#[tactic(auto, using(crate::proofs::ShownLemmas::shown_append))]
pub(crate) fn push_ports(text: &mut Vec<u8>, memory: &EmuMemory) -> Result<(), NoMemory>
    ensures { OnOk result (text.new.items ≡ text.old.items ++ terminals (memory_pins memory.now)) }
{
    let more = push_writes(text, false, memory.writes.as_slice())?;
    push_reads(text, more, memory.reads.as_slice())?;
    Ok(())
}
