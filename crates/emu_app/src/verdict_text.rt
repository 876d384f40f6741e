//! The text that a rejection prints.

ghost use Rattle.std.specs.Prelude.{◌++◌, ◌≡◌, IfOk, OnOk, codes, decimal};
ghost use Rattle.emu_app.specs.Verdicts.{action_words, at_end, of_chip, place_words, rejected_text, thing_words};

use case_texts::{append, append_decimal};
use emu_io::NoMemory;
use emu_machine::{Place, Rule, Thing};
use id_arena::{ChipId, Key, MemId};
use std::alloc::Global;

/// The line that names the rule that fails first, and its least place.
pub fn rejected_text(alloc: Global, rule: Rule, place: Place) -> Result<Vec<u8>, NoMemory>
    ensures { IfOk result (λ text. text.items ≡ rejected_text rule place) }
{
    let mut text = Vec::new(alloc);
    put_number(&mut text, b"rejected A", u32::from(rule.number()))?;
    append(&mut text, b" at ")?;
    put_place(&mut text, place)?;
    append(&mut text, b"\n")?;
    Ok(text)
}

/// Puts a word and a number at the end.
fn put_number(text: &mut Vec<u8>, word: &[u8], number: u32) -> Result<(), NoMemory>
    ensures ok { OnOk result (text.new.items ≡ text.old.items ++ word.now ++ decimal number) }
{
    put_weight(text, word, u64::from(number))
}

/// Puts a word and a number of any size at the end, as weights are.
fn put_weight(text: &mut Vec<u8>, word: &[u8], weight: u64) -> Result<(), NoMemory>
    ensures ok { OnOk result (text.new.items ≡ text.old.items ++ word.now ++ decimal weight) }
{
    append(text, word)?;
    append_decimal(text, weight)
}

/// Puts a chip at the end, and a word and a number that are said of it.
fn put_chip(text: &mut Vec<u8>, chip: ChipId, word: &[u8], number: u32) -> Result<(), NoMemory>
    ensures ok { OnOk result (text.new.items ≡ text.old.items ++ of_chip chip (word.now ++ decimal number)) }
{
    put_number(text, b"chip ", chip.place())?;
    put_number(text, word, number)
}

/// Puts a frame and a chip at the end, and a word and a number that are said of the chip at the frame's end.
fn put_end(
    text: &mut Vec<u8>,
    frame: u32,
    chip: ChipId,
    word: &[u8],
    number: u32,
) -> Result<(), NoMemory>
    ensures ok { OnOk result (text.new.items ≡ text.old.items ++ at_end frame chip (word.now ++ decimal number)) }
{
    put_number(text, b"frame ", frame)?;
    append(text, b" ")?;
    put_chip(text, chip, word, number)
}

/// Puts a frame, a chip and a memory of it at the end.
fn put_memory_end(text: &mut Vec<u8>, frame: u32, chip: ChipId, mem: MemId) -> Result<(), NoMemory>
    ensures ok { OnOk result (text.new.items ≡ text.old.items ++ at_end frame chip (codes " memory " ++ decimal mem.place)) }
{
    put_end(text, frame, chip, b" memory ", mem.place())
}

/// Puts an action at the end.
fn put_action(text: &mut Vec<u8>, frame: u32, slot: u32, action: u32) -> Result<(), NoMemory>
    ensures ok { OnOk result (text.new.items ≡ text.old.items ++ action_words frame slot action) }
{
    put_number(text, b"frame ", frame)?;
    put_number(text, b" slot ", slot)?;
    put_number(text, b" action ", action)
}

/// Puts an action at the end, and the thing that it uses again.
fn put_again(
    text: &mut Vec<u8>,
    frame: u32,
    slot: u32,
    action: u32,
    thing: Thing,
) -> Result<(), NoMemory>
    ensures ok { OnOk result (text.new.items ≡ text.old.items ++ action_words frame slot action ++ thing_words thing) }
{
    put_action(text, frame, slot, action)?;
    put_thing(text, thing)
}

/// Puts a thing that is used again at the end.
fn put_thing(text: &mut Vec<u8>, thing: Thing) -> Result<(), NoMemory>
    ensures ok { OnOk result (text.new.items ≡ text.old.items ++ thing_words thing) }
{
    match thing {
        Thing::Wire(wire) => put_number(text, b" wire ", wire.place()),
        Thing::Register(chip, register) => {
            put_number(text, b" register ", chip.place())?;
            put_number(text, b" ", register.place())
        }
        Thing::Memory(chip, mem) => {
            put_number(text, b" memory ", chip.place())?;
            put_number(text, b" ", mem.place())
        }
    }
}

/// Puts a place at the end.
fn put_place(text: &mut Vec<u8>, place: Place) -> Result<(), NoMemory>
    ensures ok { OnOk result (text.new.items ≡ text.old.items ++ place_words place) }
{
    match place {
        Place::Chips { modules } => put_number(text, b"chips ", modules),
        Place::Gate { chip, gate } => put_chip(text, chip, b" gate ", gate),
        Place::Weight { chip, weight } => {
            put_number(text, b"chip ", chip.place())?;
            put_weight(text, b" weight ", weight)
        }
        Place::Frame { frame } => put_number(text, b"frame ", frame),
        Place::Action {
            frame,
            slot,
            action,
        } => put_action(text, frame, slot, action),
        Place::Again {
            frame,
            slot,
            action,
            thing,
        } => put_again(text, frame, slot, action, thing),
        Place::Register { chip, register } => put_chip(text, chip, b" register ", register.place()),
        Place::Memory { chip, mem } => put_chip(text, chip, b" memory ", mem.place()),
        Place::Input { net } => put_number(text, b"input ", net.place()),
        Place::Element { elem } => put_number(text, b"element ", elem.place()),
        Place::Output { output } => put_number(text, b"output ", output),
        Place::EndRegister {
            frame,
            chip,
            register,
        } => put_end(text, frame, chip, b" register ", register.place()),
        Place::EndMemory { frame, chip, mem } => put_memory_end(text, frame, chip, mem),
        Place::EndRead {
            frame,
            chip,
            mem,
            port,
        } => {
            put_memory_end(text, frame, chip, mem)?;
            put_number(text, b" read ", port)
        }
    }
}
