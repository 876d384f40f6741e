//! Bytes and numbers, put at the end of a text.
ghost use Rattle.std.specs.Prelude.{◌≡◌, ◌<◌, ◌++◌, OnOk, decimal, false};
ghost use Rattle.std.specs.Fmt.{digit_glyph};
ghost use Rattle.netlist_writer.specs.NetlistText.{hex};

use emu_io::NoMemory;
use itoa::Buffer;

/// Puts bytes at the end.
pub(crate) fn append(text: &mut Vec<u8>, bytes: &[u8]) -> Result<(), NoMemory>
    ensures { OnOk result (text.new.items ≡ text.old.items ++ bytes.now) }
{
    text.extend_from_slice(bytes)?;
    Ok(())
}

/// Puts a number in decimal at the end.
pub(crate) fn append_number(text: &mut Vec<u8>, number: u64) -> Result<(), NoMemory>
    ensures { OnOk result (text.new.items ≡ text.old.items ++ decimal number) }
{
    let mut digits = Buffer::new();
    append(text, digits.format(number).as_bytes())
}

/// Puts a number in hexadecimal of lower case, without leading zeros, at the end.

pub(crate) fn append_hex(text: &mut Vec<u8>, number: u64) -> Result<(), NoMemory>
    ensures { OnOk result (text.new.items ≡ text.old.items ++ hex number) }
{
    let mut digits = [0u8; 16];
    let mut first = 16;
    let mut rest = number;
    'digits: loop {
        first -= 1;
        digits[first] = hex_glyph((rest % 16) as u8);
        rest /= 16;
        if rest == 0 {
            break;
        }
    }
    append(text, &digits[first..])
}

/// The hexadecimal digit of lower case that counts so much.
fn hex_glyph(count: u8) -> u8
    requires { count < 16 }
    ensures { result ≡ digit_glyph false count }
{
    if count < 10 {
        b'0' + count
    } else {
        b'a' + (count - 10)
    }
}
