//! The lines of a trace.

ghost use Rattle.std.specs.Prelude.{◌≡◌, ◌<◌, ◌*◌, ◌/◌, ◌%◌, ◌^◌, ◌++◌, length, take, drop, get_or, false, IfOk, OnOk};
ghost use Rattle.std.specs.Char.{digit_char};
ghost use Rattle.design_core.specs.Design.{port_bits};
ghost use Rattle.design_core.specs.Operation.{bit, number};
ghost use Rattle.domain_groups.specs.Traces.{digit_count, hex_text, port_text, ports_text, trace_line_of};

use design_core::Port;
use emu_io::{List, NoMemory};
use itoa::Buffer;
use std::alloc::Global;

/// The line of the event of this number. `bits` are the values of the output bits, port by port and
/// from bit 0.
pub fn trace_line(
    alloc: Global,
    number: u64,
    outputs: &List<Port>,
    bits: &[bool],
) -> Result<Vec<u8>, NoMemory>
    requires { length bits.now ≡ length (port_bits outputs.now) }
    ensures { IfOk result (λ line. line.items ≡ trace_line_of number outputs.now bits.now) }
{
    let mut buffer = Buffer::new();
    let mut line = Vec::new(alloc);
    append(&mut line, buffer.format(number).as_bytes())?;
    push_ports(&mut line, outputs.as_slice(), bits)?;
    append(&mut line, b"\n")?;
    Ok(line)
}

/// Puts bytes at the end.
fn append(line: &mut Vec<u8>, bytes: &[u8]) -> Result<(), NoMemory>
    ensures { OnOk result (line.new.items ≡ line.old.items ++ bytes.now) }
{
    line.extend_from_slice(bytes)?;
    Ok(())
}

/// Puts the names and values of ports at the end.
fn push_ports(line: &mut Vec<u8>, ports: &[Port], bits: &[bool]) -> Result<(), NoMemory>
    requires { length bits.now ≡ length (port_bits ports.now) }
    ensures { OnOk result (line.new.items ≡ line.old.items ++ ports_text ports.now bits.now) }
{
    let mut rest = bits;
    'ports: for port in ports {
        let (shown, after) = rest.split_at(port.nets.len() as usize);
        push_port(line, port.name.bytes(), shown)?;
        rest = after;
    }
    Ok(())
}

/// Puts the name and the value of one port at the end.
fn push_port(line: &mut Vec<u8>, name: &[u8], bits: &[bool]) -> Result<(), NoMemory>
    ensures { OnOk result (line.new.items ≡ line.old.items ++ port_text name.now bits.now) }
{
    append(line, b" ")?;
    append(line, name)?;
    append(line, b"=")?;
    push_value(line, bits)?;
    Ok(())
}

/// Puts the value of some bits at the end.
fn push_value(line: &mut Vec<u8>, bits: &[bool]) -> Result<(), NoMemory>
    ensures { OnOk result
        (line.new.items ≡ line.old.items ++ hex_text (digit_count (length bits.now)) (number bits.now)) }
{
    let mut after = bits.len().div_ceil(4);
    'digits: while after > 0 {
        after -= 1;
        append(line, &[glyph(digit_at(bits, after))])?;
    }
    Ok(())
}

/// The digit after which so many stand.
fn digit_at(bits: &[bool], after: usize) -> u8
    requires { after * 4 < length bits.now }
    ensures digit { result ≡ number bits.now / 16 ^ after % 16 }
    ensures small { result < 16 }
{
    let rest = &bits[after * 4..];
    bit_at(rest, 0) + 2 * bit_at(rest, 1) + 4 * bit_at(rest, 2) + 8 * bit_at(rest, 3)
}

/// A bit as a number; 0 where there is none.
fn bit_at(bits: &[bool], place: usize) -> u8
    ensures value { result ≡ bit (get_or bits.now place false) }
    ensures small { result < 2 }
{
    match bits.get(place) {
        Some(true) => 1,
        _ => 0,
    }
}

/// The character of a digit, in lower case.
fn glyph(digit: u8) -> u8
    requires { digit < 16 }
    ensures { result ≡ digit_char digit }
{
    if digit < 10 {
        b'0' + digit
    } else {
        b'a' + (digit - 10)
    }
}
