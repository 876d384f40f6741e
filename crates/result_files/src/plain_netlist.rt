//! The netlists of one chip of `buf` and `not` gates and of registers without D.
ghost use Rattle.std.specs.Prelude.{◌≡◌, ◌<◌, ◌^◌, length};
ghost use Rattle.token_words.specs.Words.{words_of};
ghost use Rattle.emu_machine.specs.declared.netlist.Chip.{Chip};
ghost use Rattle.result_files.specs.Faults.{Answers};
ghost use Rattle.result_files.specs.PlainNetlist.{IsChipOf, SaysChip, TextsTellChipsApart, gate_words, register_words};
ghost use Rattle.result_files.specs.Taken.{IsGateWord, IsRegisterWord, IsGateBelow, IsRegisterBelow, TakesLines, TakesWires};

use crate::drivers::has_one_driver_each;
use crate::fault::FormFault;
use crate::netlist_line::{begins_gate, take_end, take_gate, take_head, take_register, take_wire};
use crate::rest::Rest;
use emu_io::List;
use emu_machine::{Chip, EmuGate, EmuRegister};
use std::alloc::Global;
use token_words::Word;
use verilog_lex::Tokens;
use verilog_lex::keyword::WIRE;

/// The chip that a text writes down: one module `chip0` with its nets, `buf` and `not` gates, and
/// registers `EHOLD`, each net with one driver. `tokens` are those of `source`. `NotYet` exactly where
/// the text writes down no such chip. Takes one pass over the tokens.
pub fn read_plain_netlist(alloc: Global, source: &[u8], tokens: &Tokens) -> Result<Chip, FormFault>
    ensures { Answers (SaysChip source.now tokens.now) result }
{
    let chip = read_chip(alloc, source, tokens)?;
    if has_one_driver_each(alloc, &chip)? {
        Ok(chip)
    } else {
        Err(FormFault::NotYet)
    }
}

/// The law that a text writes down at most one chip.
pub fn plain_netlists_are_told_apart()
    ensures { TextsTellChipsApart }
{}

/// The chip whose words a text has, however its nets are driven.
fn read_chip(alloc: Global, source: &[u8], tokens: &Tokens) -> Result<Chip, FormFault>
    ensures { Answers (IsChipOf (words_of source.now tokens.now)) result }
{
    let mut rest = Rest::new(source, tokens);
    if !take_head(&mut rest) {
        return Err(FormFault::NotYet);
    }
    let Some(nets) = take_wires(&mut rest) else {
        return Err(FormFault::NotYet);
    };
    let gates = take_gates(alloc, &mut rest, nets)?;
    let registers = take_registers(alloc, &mut rest, nets)?;
    if !take_end(&mut rest) {
        return Err(FormFault::NotYet);
    }
    Ok(Chip {
        nets,
        gates,
        registers,
        memories: List::new(alloc),
    })
}

/// Passes over the declarations of nets, and counts them.
fn take_wires(rest: &mut Rest) -> Option<u32>
    requires { length rest.old < 2 ^ 32 }
    ensures { TakesWires rest.old rest.new result }
{
    let mut nets = 0;
    'wires: while rest.begins(&Word::key(WIRE)) {
        if !take_wire(rest, nets) {
            return None;
        }
        nets += 1;
    }
    Some(nets)
}

/// Passes over the gates of a chip with so many nets.
fn take_gates(alloc: Global, rest: &mut Rest, nets: u32) -> Result<List<EmuGate>, FormFault>
    requires { length rest.old < 2 ^ 32 }
    ensures { TakesLines (IsGateBelow nets) gate_words IsGateWord rest.old rest.new result }
{
    let mut gates = List::new(alloc);
    'gates: while begins_gate(rest) {
        let Some(line) = take_gate(rest, gates.len() as u32, nets) else {
            return Err(FormFault::NotYet);
        };
        let gate = line.gate(alloc)?;
        gates.push(gate)?;
    }
    Ok(gates)
}

/// Passes over the registers of a chip with so many nets.
fn take_registers(alloc: Global, rest: &mut Rest, nets: u32) -> Result<List<EmuRegister>, FormFault>
    requires { length rest.old < 2 ^ 32 }
    ensures { TakesLines (IsRegisterBelow nets) register_words IsRegisterWord rest.old rest.new result }
{
    let mut registers = List::new(alloc);
    'registers: while rest.begins(&Word::name(b"EHOLD")) {
        let Some(register) = take_register(rest, registers.len() as u32, nets) else {
            return Err(FormFault::NotYet);
        };
        registers.push(register)?;
    }
    Ok(registers)
}
