//! The lines of a netlist, taken one at a time.
ghost use Rattle.std.specs.Prelude.{◌≡◌, ◌<◌, ◌^◌, ◌↔◌, ◌∷◌, [], IfOk, IsTrue};
ghost use Rattle.token_words.specs.Word.{key};
ghost use Rattle.verilog_lex.specs.declared.keyword.TheConstants.{ENDMODULE as end_word};
ghost use Rattle.design_core.specs.Plain.{IsPlainOp};
ghost use Rattle.result_files.specs.PlainNetlist.{numbered, net_word, head_words, wire_words, register_words};
ghost use Rattle.result_files.specs.Taken.{Begins, IsGateWord, IsNetBelow, IsRegisterBelow, IsLineBelow, Takes, TakesOne, gate_of, line_words, op_words};

use crate::rest::Rest;
use design_core::Op;
use emu_io::{List, NoMemory};
use emu_machine::{EmuGate, EmuRegister};
use id_arena::ChipNetId;
use std::alloc::Global;
use token_words::Word;
use verilog_lex::keyword::{BUF, ENDMODULE, MODULE, NOT, WIRE};

/// The line of a gate with one input.
#[derive(Clone, Copy)]
pub(crate) struct GateLine {
    pub(crate) op: Op,
    pub(crate) output: ChipNetId,
    pub(crate) input: ChipNetId,
}

impl GateLine {
    /// The gate of the line.
    pub(crate) fn gate(self, alloc: Global) -> Result<EmuGate, NoMemory>
        ensures { IfOk result (λ gate. gate ≡ gate_of self) }
    {
        let mut inputs = List::new(alloc);
        inputs.push(self.input)?;
        Ok(EmuGate {
            op: self.op,
            output: self.output,
            inputs,
        })
    }
}

/// Passes over the name of this letter and this number.
fn take_numbered(rest: &mut Rest, letter: u8, number: u32) -> bool
    ensures { Takes (numbered (letter ∷ []) number ∷ []) rest.old rest.new result }
{
    match rest.take_number(letter) {
        Some(found) => found == number,
        None => false,
    }
}

/// Passes over the name of a net with a number below `nets`.
fn take_net(rest: &mut Rest, nets: u32) -> Option<ChipNetId>
    ensures { TakesOne (IsNetBelow nets) (λ n. net_word n ∷ []) rest.old rest.new result }
{
    let place = rest.take_number(b'n')?;
    if place < nets {
        Some(ChipNetId { place })
    } else {
        None
    }
}

/// Passes over the reserved word of a gate.
fn take_op(rest: &mut Rest) -> Option<Op>
    ensures { TakesOne IsPlainOp op_words rest.old rest.new result }
{
    if rest.take(&Word::key(BUF)) {
        Some(Op::Buf)
    } else if rest.take(&Word::key(NOT)) {
        Some(Op::Not)
    } else {
        None
    }
}

/// Whether the next word begins a gate.
pub(crate) fn begins_gate(rest: &Rest) -> bool
    ensures { IsTrue result ↔ Begins IsGateWord rest.now }
{
    rest.begins(&Word::key(BUF)) || rest.begins(&Word::key(NOT))
}

/// Passes over `module chip0;`.
pub(crate) fn take_head(rest: &mut Rest) -> bool
    ensures { Takes head_words rest.old rest.new result }
{
    rest.take(&Word::key(MODULE))
        && rest.take(&Word::name(b"chip0"))
        && rest.take(&Word::mark(b';'))
}

/// Passes over `wire nK;`.
pub(crate) fn take_wire(rest: &mut Rest, number: u32) -> bool
    ensures { Takes (wire_words number) rest.old rest.new result }
{
    rest.take(&Word::key(WIRE)) && take_numbered(rest, b'n', number) && rest.take(&Word::mark(b';'))
}

/// Passes over `GATE gK (output, input);`.
pub(crate) fn take_gate(rest: &mut Rest, number: u32, nets: u32) -> Option<GateLine>
    ensures { TakesOne (IsLineBelow nets) (line_words number) rest.old rest.new result }
{
    let op = take_op(rest)?;
    if !take_numbered(rest, b'g', number) || !rest.take(&Word::mark(b'(')) {
        return None;
    }
    let output = take_net(rest, nets)?;
    if !rest.take(&Word::mark(b',')) {
        return None;
    }
    let input = take_net(rest, nets)?;
    if !rest.take(&Word::mark(b')')) || !rest.take(&Word::mark(b';')) {
        return None;
    }
    Some(GateLine { op, output, input })
}

/// Passes over `EHOLD rK (q);`.
pub(crate) fn take_register(rest: &mut Rest, number: u32, nets: u32) -> Option<EmuRegister>
    ensures { TakesOne (IsRegisterBelow nets) (λ register. register_words (number, register)) rest.old rest.new result }
{
    if !rest.take(&Word::name(b"EHOLD")) || !take_numbered(rest, b'r', number) {
        return None;
    }
    if !rest.take(&Word::mark(b'(')) {
        return None;
    }
    let q = take_net(rest, nets)?;
    if !rest.take(&Word::mark(b')')) || !rest.take(&Word::mark(b';')) {
        return None;
    }
    Some(EmuRegister {
        q,
        d: None,
        enable: None,
    })
}

/// Whether the module ends here, and the text with it. Passes over the end.
pub(crate) fn take_end(rest: &mut Rest) -> bool
    ensures { IsTrue result ↔ (rest.old ≡ key end_word ∷ []) }
{
    rest.take(&Word::key(ENDMODULE)) && rest.is_empty()
}
