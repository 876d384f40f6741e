//! The forms of lines, told by their first word.
ghost use Rattle.std.specs.Prelude.{◌≡◌, ◌≢◌, ◌<◌, ◌≤◌, ◌^◌, ◌↔◌, ◌++◌, ℕ, Some, List, IsTrue, MatchOption};
ghost use Rattle.token_words.specs.Word.{key, name};
ghost use Rattle.netlist_reader.specs.Forms.{ShapeIs, ShowsGate, IsPossible, TellsMemory, TellsRegister, TellsTable};

use crate::hex::hex_value;
use crate::numbered::{number_before, number_of};
use crate::rest::Rest;
use design_core::Op;
use verilog_lex::keyword::{AND, BUF, NAND, NOR, NOT, OR, XNOR, XOR};

/// A form of gates: what the gate computes, and how many inputs it has at least and at most.
#[derive(Clone, Copy)]
pub(crate) struct GateShape {
    pub(crate) op: Op,
    pub(crate) least: u32,
    pub(crate) most: u32,
}

/// A form of memories: address bits, width, write ports and read ports.
#[derive(Clone, Copy)]
pub(crate) struct MemoryShape {
    pub(crate) address_bits: u32,
    pub(crate) width: u32,
    pub(crate) writes: u32,
    pub(crate) reads: u32,
}

impl GateShape {
    /// The form of a gate word with so many inputs at most.
    fn word(op: Op, most: u32) -> Option<GateShape>
        ensures { result ≡ Some (record { op = op; least = 1; most = most }) }
    {
        Some(GateShape { op, least: 1, most })
    }
}

/// The form that a reserved word is.
fn word_shape(place: u32) -> Option<GateShape>
    ensures { ShapeIs (key place) result }
{
    match place {
        AND => GateShape::word(Op::And, 64),
        NAND => GateShape::word(Op::Nand, 64),
        OR => GateShape::word(Op::Or, 64),
        NOR => GateShape::word(Op::Nor, 64),
        XOR => GateShape::word(Op::Xor, 64),
        XNOR => GateShape::word(Op::Xnor, 64),
        BUF => GateShape::word(Op::Buf, 1),
        NOT => GateShape::word(Op::Not, 1),
        _ => None,
    }
}

/// What stands behind these bytes.
fn behind<'a>(front: &[u8], bytes: &'a [u8]) -> Option<&'a [u8]>
    ensures { MatchOption result
        ((rest : List ℕ) → bytes.now ≢ front.now ++ rest)
        (λ rest. bytes.now ≡ front.now ++ rest.now) }
{
    bytes.strip_prefix(front)
}

/// Whether a table has no bit past the rows that so many inputs make.
fn has_rows(inputs: u32, table: u64) -> bool
    requires { inputs ≤ 6 }
    ensures { IsTrue result ↔ (table < 2 ^ (2 ^ inputs)) }
{
    match inputs {
        0 => table < 2,
        1 => table < 4,
        2 => table < 16,
        3 => table < 256,
        4 => table < 65536,
        5 => table < 4_294_967_296,
        _ => true,
    }
}

/// Whether there are tables of so many inputs, and this is one.
fn is_table(inputs: u32, table: u64) -> bool
    ensures { IsTrue result ↔ (inputs ≤ 6) × (table < 2 ^ (2 ^ inputs)) }
{
    inputs <= 6 && has_rows(inputs, table)
}

/// The number of inputs and the table in the name of a table gate.
fn table_of(bytes: &[u8]) -> Option<(u32, u64)>
    ensures { TellsTable bytes.now result }
{
    let Some(numbers) = behind(b"LUT", bytes) else {
        return None;
    };
    let Some((inputs, digits)) = number_before(numbers) else {
        return None;
    };
    let Some(table) = hex_value(digits) else {
        return None;
    };
    if is_table(inputs, table) {
        Some((inputs, table))
    } else {
        None
    }
}

/// The form that a name is.
fn name_shape(bytes: &[u8]) -> Option<GateShape>
    ensures { ShapeIs (name bytes.now) result }
{
    match table_of(bytes) {
        Some((inputs, table)) => Some(GateShape {
            op: Op::Table(table),
            least: inputs,
            most: inputs,
        }),
        None => None,
    }
}

/// The form of the gates of a chip with so many nets that the next word begins.
pub(crate) fn gate_shape(rest: &Rest, nets: u32) -> Option<GateShape>
    ensures { ShowsGate nets rest.now result }
{
    if nets == 0 {
        return None;
    }
    match rest.key() {
        Some(place) => word_shape(place),
        None => name_shape(rest.name()),
    }
}

/// How many terminals the registers of a form have.
pub(crate) fn register_shape(bytes: &[u8]) -> Option<u32>
    ensures { TellsRegister bytes.now result }
{
    if bytes == b"EHOLD".as_slice() {
        Some(1)
    } else if bytes == b"EREG".as_slice() {
        Some(2)
    } else if bytes == b"EREGE".as_slice() {
        Some(3)
    } else {
        None
    }
}

/// The form of memories that a name is.
pub(crate) fn memory_shape(bytes: &[u8]) -> Option<MemoryShape>
    ensures { TellsMemory bytes.now result }
{
    let Some(numbers) = behind(b"EMEM_", bytes) else {
        return None;
    };
    let Some((address_bits, numbers)) = number_before(numbers) else {
        return None;
    };
    let Some((width, numbers)) = number_before(numbers) else {
        return None;
    };
    let Some((writes, numbers)) = number_before(numbers) else {
        return None;
    };
    let Some(reads) = number_of(numbers) else {
        return None;
    };
    let shape = MemoryShape {
        address_bits,
        width,
        writes,
        reads,
    };
    if is_possible(shape) {
        Some(shape)
    } else {
        None
    }
}

/// Whether a form of memories is within the limits of a cell.
fn is_possible(shape: MemoryShape) -> bool
    ensures { IsTrue result ↔ IsPossible shape }
{
    shape.address_bits <= 16
        && shape.width > 0
        && shape.width <= 128
        && shape.writes <= 16
        && shape.reads <= 16 - shape.writes
}
