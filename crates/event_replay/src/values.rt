//! Values written in hexadecimal.

ghost use Rattle.std.specs.Prelude.{◌≡◌, ◌<◌, ◌*◌, ◌^◌, ◌++◌, ◌↔◌, length, Some, None, if◌then◌else◌, IsTrue, OnOk};
ghost use Rattle.std.specs.Char.{digit_value};
ghost use Rattle.std.specs.List.{list_all};
ghost use Rattle.design_core.specs.Operation.{bit_of};
ghost use Rattle.event_replay.specs.Values.{IsValue, hex_number, is_hex, shown_bits};

use design_core::{PortBit, PortValues};
use emu_io::NoMemory;
use id_arena::NetId;

/// Whether the digits are a value for so many bits.
pub(crate) fn is_value(digits: &[u8], width: usize) -> bool
    ensures { IsTrue result ↔ IsValue width digits.now }
{
    'digits: for place in 0..digits.len() {
        if !digit_fits(digits[place], digits.len() - 1 - place, width) {
            return false;
        }
    }
    !digits.is_empty()
}

/// Puts the bits of a port that show a value at the end, from bit 0.
pub(crate) fn push_bits(
    values: &mut PortValues,
    nets: &[NetId],
    digits: &[u8],
) -> Result<(), NoMemory>
    requires { IsTrue (list_all is_hex digits.now) }
    ensures { OnOk result (values.new ≡ values.old ++ shown_bits nets.now (hex_number digits.now)) }
{
    'bits: for place in 0..nets.len() {
        values.push(PortBit {
            net: nets[place],
            value: bit_at(digits, place),
        })?;
    }
    Ok(())
}

/// The number that digits write.
pub(crate) fn number_of(digits: &[u8]) -> u128
    requires hex { IsTrue (list_all is_hex digits.now) }
    requires fits { hex_number digits.now < 2 ^ 128 }
    ensures { result ≡ hex_number digits.now }
{
    let mut number = 0u128;
    'digits: for byte in digits {
        number = number * 16 + u128::from(digit_value(*byte).unwrap_or(0));
    }
    number
}

/// Whether a byte is a digit, and with so many digits after it counts less than 2 to the width.
fn digit_fits(byte: u8, after: usize, width: usize) -> bool
    ensures { IsTrue result ↔ (IsTrue (is_hex byte) × (digit_value byte * 16 ^ after < 2 ^ width)) }
{
    let Some(digit) = digit_value(byte) else {
        return false;
    };
    if digit == 0 {
        return true;
    }
    if after > width / 4 {
        return false;
    }
    takes_at_most(digit, width - 4 * after)
}

/// Whether a digit has no more than so many bits.
fn takes_at_most(digit: u8, bits: usize) -> bool
    requires { digit < 16 }
    ensures { IsTrue result ↔ (digit < 2 ^ bits) }
{
    match bits {
        0 => digit < 1,
        1 => digit < 2,
        2 => digit < 4,
        3 => digit < 8,
        _ => true,
    }
}

/// A bit of the number that digits write.
fn bit_at(digits: &[u8], place: usize) -> bool
    requires { IsTrue (list_all is_hex digits.now) }
    ensures { result ≡ bit_of (hex_number digits.now) place }
{
    let after = place / 4;
    if after >= digits.len() {
        return false;
    }
    match digit_value(digits[digits.len() - 1 - after]) {
        Some(digit) => bit_in_digit(digit, place % 4),
        None => false,
    }
}

/// A bit of a digit.
fn bit_in_digit(digit: u8, place: usize) -> bool
    requires { place < 4 }
    ensures { result ≡ bit_of digit place }
{
    (digit >> place) % 2 == 1
}

/// What a hexadecimal digit counts, in upper or lower case.
fn digit_value(byte: u8) -> Option<u8>
    ensures { result ≡ (if is_hex byte then Some (digit_value byte) else None) }
{
    match byte {
        b'0'..=b'9' => Some(byte - b'0'),
        b'A'..=b'F' => Some(byte - b'A' + 10),
        b'a'..=b'f' => Some(byte - b'a' + 10),
        _ => None,
    }
}
