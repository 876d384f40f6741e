//! Numbers and sized constants.

ghost use Rattle.std.specs.Prelude.{◌≡◌, ◌≤◌, ◌<◌, ◌%◌, ◌^◌, length};
ghost use Rattle.std.specs.Option.{SomeIff};
ghost use Rattle.verilog_lex.specs.Numbers.{digit_value, add_digit, radix_of, value_of, base_of, digits_piece, constant_piece, number_piece};

use crate::bytes::{Base, Class, byte_at, is_digit_of, run};
use crate::fault::Cause;
use crate::piece::Piece;
use crate::token::TokenKind;

/// The greatest size of a constant, in bits.
const GREATEST_SIZE: u32 = 128;

/// The number that a digit stands for.
fn digit_value(digit: u8) -> u8
    ensures is { result ≡ digit_value digit }
{
    if digit.is_ascii_digit() {
        digit - b'0'
    } else if b'a' <= digit {
        digit - b'a' + 10
    } else if b'A' <= digit {
        digit - b'A' + 10
    } else {
        0
    }
}

/// The number of digits of a base.
fn radix_of(base: Base) -> u128
    ensures { result ≡ radix_of base }
{
    match base {
        Base::Binary => 2,
        Base::Octal => 8,
        Base::Decimal => 10,
        Base::Hexadecimal => 16,
    }
}

/// A value with one more digit behind it, if that is below 2^128. An `_` stands for nothing.
fn add_digit(value: u128, radix: u128, digit: u8) -> Option<u128>
    requires { value < 2 ^ 128 }
    ensures { SomeIff result (add_digit radix value digit < 2 ^ 128) (add_digit radix value digit) }
{
    if digit == b'_' {
        return Some(value);
    }
    let shifted = value.checked_mul(radix)?;
    shifted.checked_add(u128::from(digit_value(digit)))
}

/// The number that digits stand for, if it is below 2^128.
fn value_of(digits: &[u8], base: Base) -> Option<u128>
    ensures { SomeIff result (value_of (radix_of base) digits.now < 2 ^ 128) (value_of (radix_of base) digits.now) }
{
    let radix = radix_of(base);
    let mut value = 0u128;
    for digit in digits {
        let Some(next) = add_digit(value, radix, *digit) else {
            return None;
        };
        value = next;
    }
    Some(value)
}

/// The base that the letter after a quote stands for.
fn base_of(letter: u8) -> Option<Base>
    ensures { result ≡ base_of letter }
{
    match letter {
        b'b' | b'B' => Some(Base::Binary),
        b'o' | b'O' => Some(Base::Octal),
        b'd' | b'D' => Some(Base::Decimal),
        b'h' | b'H' => Some(Base::Hexadecimal),
        _ => None,
    }
}

/// The sized constant whose digits begin after so many bytes of a text.
#[tactic(auto, unfolding(crate::specs::Numbers::digits_piece))]
fn digits_piece(text: &[u8], size: u32, base: Base, start: usize) -> Piece
    requires { start ≤ length text.now }
    ensures { result ≡ digits_piece text.now size base start }
{
    let rest = &text[start..];
    let count = run(rest, Class::Digits(base));
    let digits = &rest[..count];
    let known = run(digits, Class::Known);
    let bad = Piece::Fault {
        cause: Cause::Number,
        offset: 0,
    };
    if known < count {
        return Piece::Fault {
            cause: Cause::Digit,
            offset: start + known,
        };
    }
    if !is_digit_of(base, byte_at(digits, 0)) || size == 0 || GREATEST_SIZE < size {
        return bad;
    }
    match value_of(digits, base) {
        Some(value) => Piece::Lexeme {
            kind: TokenKind::Constant {
                size,
                value: cut(value, size),
            },
            start: 0,
            bytes: start + count,
        },
        None => bad,
    }
}

/// The lowest bits of a value.
fn cut(value: u128, size: u32) -> u128
    requires { size ≤ 128 }
    ensures { result ≡ value % 2 ^ size }
{
    if size < GREATEST_SIZE {
        value % (1u128 << size)
    } else {
        value
    }
}

/// The sized constant whose base is named after so many bytes of a text.
#[tactic(auto, unfolding(crate::specs::Numbers::constant_piece))]
fn constant_piece(text: &[u8], size: u32, letter: usize) -> Piece
    requires { letter ≤ length text.now }
    ensures { result ≡ constant_piece text.now size letter }
{
    match base_of(byte_at(text, letter)) {
        Some(base) => {
            let start = letter + 1;
            digits_piece(text, size, base, start + run(&text[start..], Class::White))
        }
        None => Piece::Fault {
            cause: Cause::Number,
            offset: 0,
        },
    }
}

/// The number or the sized constant that a text begins with; its first byte is a digit.
#[tactic(auto, unfolding(crate::specs::Numbers::number_piece))]
pub(crate) fn number_piece(text: &[u8]) -> Piece
    ensures { result ≡ number_piece text.now }
{
    let count = run(text, Class::Number);
    let quote = count + run(&text[count..], Class::White);
    let value = value_of(&text[..count], Base::Decimal);
    let number = value.and_then(|value| u32::try_from(value).ok());
    match number {
        None => Piece::Fault {
            cause: Cause::Number,
            offset: 0,
        },
        Some(number) => {
            if byte_at(text, quote) == b'\'' {
                constant_piece(text, number, quote + 1)
            } else {
                Piece::Lexeme {
                    kind: TokenKind::Number(number),
                    start: 0,
                    bytes: count,
                }
            }
        }
    }
}
