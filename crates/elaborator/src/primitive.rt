//! Primitives.

ghost use Rattle.std.specs.Prelude.{◌≡◌, ◌++◌, IfOk, OnOk, length};
ghost use Rattle.module_bits.specs.Names.{AreNumbered};
ghost use Rattle.flattening.specs.Pieces.{elements_in, joined, nothing, performed};
ghost use Rattle.flattening.specs.Primitives.{gates_of, has_one_input, inputs_of, one_input_gates, one_output_gate, op_at, op_at_place, path_of, primitive_deed, scopes_of};
ghost use Rattle.flattening.specs.Steps.{first_fault, in_turn};
ghost use Rattle.elaborator.specs.Outcomes.{Does, Finds};
ghost use Rattle.elaborator.specs.Primitives.{primitive_step, terminal_nets, terminal_tests};

use crate::making::Making;
use crate::room::{MOST_INPUTS, beyond};
use crate::setting::{Instance, Setting};
use crate::value::read;
use design_core::{Element, LimitKind, Op, Scope};
use emu_io::{List, NoMemory, Text};
use flattening::ElabFault;
use id_arena::NetId;
use std::alloc::Global;
use verilog_lex::keyword::{AND, BUF, NAND, NOR, NOT, OR, XNOR};
use verilog_lex::{TokenKind, Tokens};
use verilog_tree::{Expr, GatePart};

/// The operation of a gate word, by its place among the reserved words.
fn op_of_word(place: u32) -> Op
    ensures { result ≡ op_at_place place }
{
    match place {
        AND => Op::And,
        NAND => Op::Nand,
        OR => Op::Or,
        NOR => Op::Nor,
        XNOR => Op::Xnor,
        BUF => Op::Buf,
        NOT => Op::Not,
        _ => Op::Xor,
    }
}

/// The operation of the primitives of an item, which begins with the gate word at this token.
fn op_at(tokens: &Tokens, token: u32) -> Op
    ensures { result ≡ op_at tokens.now token }
{
    if token >= tokens.len() {
        return Op::Xor;
    }
    match tokens.token(token).kind {
        TokenKind::Keyword(place) => op_of_word(place),
        _ => Op::Xor,
    }
}

/// Whether a primitive has one input, its last terminal, and an output at each other one.
fn has_one_input(op: Op) -> bool
    ensures { result ≡ has_one_input op }
{
    match op {
        Op::Buf | Op::Not => true,
        _ => false,
    }
}

/// How many inputs each gate of a primitive has that has so many terminals.
fn inputs_of(op: Op, terminals: u64) -> u64
    ensures { result ≡ inputs_of op terminals }
{
    if has_one_input(op) {
        1
    } else {
        terminals.saturating_sub(1)
    }
}

/// How many gates a primitive has at these nets.
fn gate_count(op: Op, nets: &[NetId]) -> u64
    ensures { result ≡ length (gates_of op nets.now) }
{
    let count = nets.len() as u64;
    if has_one_input(op) {
        count.saturating_sub(1)
    } else {
        count.min(1)
    }
}

/// Puts nets behind others.
fn push_all(nets: &mut List<NetId>, more: &[NetId]) -> Result<(), NoMemory>
    ensures { OnOk result (nets.new ≡ nets.old ++ more.now) }
{
    'nets: for net in more {
        nets.push(*net)?;
    }
    Ok(())
}

/// The nets at the terminals of a primitive, each of which has one bit.
fn read_terminals(
    alloc: Global,
    setting: &Setting,
    instance: &Instance,
    terminals: &[Expr],
) -> Result<List<NetId>, ElabFault>
    requires { AreNumbered instance.now.base instance.now.nets }
    ensures { Finds (first_fault (terminal_tests setting.now instance.now terminals.now)) (terminal_nets setting.now instance.now terminals.now) result }
{
    let mut nets = List::new(alloc);
    'terminals: for terminal in terminals {
        let bits = read(alloc, setting, instance, terminal, Some(1))?;
        push_all(&mut nets, bits.as_slice())?;
    }
    Ok(nets)
}

/// The scope in which the paths of a primitive's gates end: where it has a name, the next one, of this name.
fn open_scope(
    alloc: Global,
    setting: &Setting,
    instance: &Instance,
    name: Option<u32>,
    making: &mut Making,
) -> Result<u32, NoMemory>
    ensures path { IfOk result (λ path. path ≡ path_of instance.now name making.old) }
    ensures made { OnOk result (making.new ≡ joined making.old (record nothing { scopes = scopes_of setting.now instance.now name })) }
{
    let Some(name) = name else {
        return Ok(instance.scope);
    };
    let path = making.next_scope()?;
    let name = Text::from_bytes(alloc, setting.name(name))?;
    making.push_scope(Scope {
        parent: Some(instance.scope),
        name,
    })?;
    Ok(path)
}

/// Puts the gate of a primitive with one output behind all elements: the output is the first of its nets.
fn push_wide(
    alloc: Global,
    scope: u32,
    op: Op,
    nets: &[NetId],
    making: &mut Making,
) -> Result<(), NoMemory>
    ensures { OnOk result (making.new ≡ joined making.old (elements_in scope (one_output_gate op nets.now))) }
{
    match nets {
        [] => Ok(()),
        [output, rest @ ..] => {
            let mut inputs = List::new(alloc);
            push_all(&mut inputs, rest)?;
            making.push_element(
                scope,
                Element::Gate {
                    op,
                    inputs,
                    output: *output,
                },
            )
        }
    }
}

/// Puts the gates of a primitive with one input behind all elements: the input is the last of its nets.
fn push_narrow(
    alloc: Global,
    scope: u32,
    op: Op,
    nets: &[NetId],
    making: &mut Making,
) -> Result<(), NoMemory>
    ensures { OnOk result (making.new ≡ joined making.old (elements_in scope (one_input_gates op nets.now))) }
{
    match nets {
        [] => Ok(()),
        [outputs @ .., input] => making.push_fan(alloc, scope, op, *input, outputs),
    }
}

/// Puts the gates of a primitive at these nets behind all elements.
fn push_gates(
    alloc: Global,
    scope: u32,
    op: Op,
    nets: &[NetId],
    making: &mut Making,
) -> Result<(), NoMemory>
    ensures { OnOk result (making.new ≡ joined making.old (elements_in scope (gates_of op nets.now))) }
{
    if has_one_input(op) {
        push_narrow(alloc, scope, op, nets, making)
    } else {
        push_wide(alloc, scope, op, nets, making)
    }
}

/// Does a primitive of this operation, in an item that begins at the byte `at`.
fn do_prim_of(
    alloc: Global,
    setting: &Setting,
    instance: &Instance,
    at: u32,
    op: Op,
    prim: &GatePart,
    making: &mut Making,
) -> Result<(), ElabFault>
    requires { AreNumbered instance.now.base instance.now.nets }
    ensures { Does (λ made. performed at (primitive_deed setting.now instance.now at op prim.now made) made) making.old making.new result }
{
    let nets = read_terminals(alloc, setting, instance, prim.terminals.as_slice())?;
    let inputs = inputs_of(op, prim.terminals.len());
    if let Some(fault) = beyond(LimitKind::Inputs, at, MOST_INPUTS, inputs, 0) {
        return Err(fault);
    }
    let count = gate_count(op, nets.as_slice());
    if let Some(fault) = making.room_fault(at, 0, count, 0) {
        return Err(fault);
    }
    let scope = open_scope(alloc, setting, instance, prim.name, making)?;
    push_gates(alloc, scope, op, nets.as_slice(), making)?;
    Ok(())
}

/// Does a primitive, in an item that begins at the byte `at` with the gate word at the token `word`.
pub(crate) fn do_prim(
    alloc: Global,
    setting: &Setting,
    instance: &Instance,
    at: u32,
    word: u32,
    prim: &GatePart,
    making: &mut Making,
) -> Result<(), ElabFault>
    requires { AreNumbered instance.now.base instance.now.nets }
    ensures { Does (primitive_step setting.now instance.now at word prim.now) making.old making.new result }
{
    let op = op_at(setting.tokens, word);
    do_prim_of(alloc, setting, instance, at, op, prim, making)
}

/// Does the primitives of an item that begins at the byte `at` with the gate word at the token `word`, one by
/// one.
pub fn do_prims(
    alloc: Global,
    setting: &Setting,
    instance: &Instance,
    at: u32,
    word: u32,
    prims: &[GatePart],
    making: &mut Making,
) -> Result<(), ElabFault>
    requires { AreNumbered instance.now.base instance.now.nets }
    ensures { Does (in_turn (primitive_step setting.now instance.now at word) prims.now) making.old making.new result }
{
    'prims: for prim in prims {
        do_prim(alloc, setting, instance, at, word, prim, making)?;
    }
    Ok(())
}
