//! Lines of printed texts.

ghost use Rattle.std.specs.Prelude.{◌++◌, ◌≡◌, IfOk, OnOk, decimal};
ghost use Rattle.case_texts.specs.Words.{line};

use emu_io::NoMemory;
use itoa::Buffer;
use std::alloc::Global;

/// Puts bytes at the end.
pub fn append(text: &mut Vec<u8>, bytes: &[u8]) -> Result<(), NoMemory>
    ensures ok { OnOk result (text.new.items ≡ text.old.items ++ bytes.now) }
{
    text.extend_from_slice(bytes)?;
    Ok(())
}

/// Puts a number in decimal at the end.
pub fn append_decimal(text: &mut Vec<u8>, number: u64) -> Result<(), NoMemory>
    ensures ok { OnOk result (text.new.items ≡ text.old.items ++ decimal number) }
{
    let mut buffer = Buffer::new();
    append(text, buffer.format(number).as_bytes())
}

/// A line of three pieces.
pub fn line(alloc: Global, first: &[u8], second: &[u8], third: &[u8]) -> Result<Vec<u8>, NoMemory>
    ensures { IfOk result (λ text. text.items ≡ line (first.now ++ second.now ++ third.now)) }
{
    let mut text = Vec::new(alloc);
    append(&mut text, first)?;
    append(&mut text, second)?;
    append(&mut text, third)?;
    append(&mut text, b"\n")?;
    Ok(text)
}

/// A line of two pieces and a number.
pub fn numbered(
    alloc: Global,
    first: &[u8],
    second: &[u8],
    number: u64,
) -> Result<Vec<u8>, NoMemory>
    ensures { IfOk result (λ text. text.items ≡ line (first.now ++ second.now ++ decimal number)) }
{
    let mut buffer = Buffer::new();
    let digits = buffer.format(number);
    line(alloc, first, second, digits.as_bytes())
}
