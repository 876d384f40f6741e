//! The pieces that a text is cut into, from left to right.

ghost use Rattle.std.specs.Prelude.{◌≡◌, ◌<◌, ◌≤◌, length};
ghost use Rattle.verilog_lex.specs.Pieces.{word_piece, escaped_piece, setting_piece, is_cell_directive, directive_piece, token_piece, first_piece, IsWithin};

use crate::blank::{after_blanks, blank_len};
use crate::bytes::{Class, byte_at, is_white, run};
use crate::fault::Cause;
use crate::number::number_piece;
use crate::token::TokenKind;
use crate::word::word_kind;

/// What a text begins with.
#[derive(Clone, Copy, Debug, PartialEq, Eq)]
pub(crate) enum Piece {
    /// So many bytes that are passed over.
    Blank {
        bytes: usize,
    },
    /// A directive of so many bytes that says whether undeclared names become wires after it.
    Setting {
        implicit: bool,
        bytes: usize,
    },
    /// So many bytes whose last, from the place `start` on, are a token's text.
    Lexeme {
        kind: TokenKind,
        start: usize,
        bytes: usize,
    },
    /// A fault, so many bytes from here.
    Fault {
        cause: Cause,
        offset: usize,
    },
}

/// The simple name or reserved word that a text begins with.
#[tactic(auto, unfolding(crate::specs::Pieces::word_piece))]
fn word_piece(text: &[u8]) -> Piece
    ensures { result ≡ word_piece text.now }
{
    let bytes = run(text, Class::Name);
    Piece::Lexeme {
        kind: word_kind(&text[..bytes]),
        start: 0,
        bytes,
    }
}

/// The escaped name that a text begins with; its first byte is a backslash.
#[tactic(auto, unfolding(crate::specs::Pieces::escaped_piece))]
fn escaped_piece(text: &[u8]) -> Piece
    requires { 0 < length text.now }
    ensures { result ≡ escaped_piece text.now }
{
    let end = 1 + run(&text[1..], Class::Escaped);
    if 1 < end && (end == text.len() || is_white(text[end])) {
        Piece::Lexeme {
            kind: TokenKind::Name,
            start: 1,
            bytes: end,
        }
    } else {
        Piece::Fault {
            cause: Cause::Byte,
            offset: 0,
        }
    }
}

/// The directive `default_nettype` that a text begins with, whose name has so many bytes.
#[tactic(auto, unfolding(crate::specs::Pieces::setting_piece))]
fn setting_piece(text: &[u8], bytes: usize) -> Piece
    requires { bytes ≤ length text.now }
    ensures { result ≡ setting_piece text.now bytes }
{
    let rest = after_blanks(&text[bytes..]);
    let count = run(rest, Class::Name);
    let bytes = text.len() - rest.len() + count;
    let word = &rest[..count];
    if word == b"wire".as_slice() {
        Piece::Setting {
            implicit: true,
            bytes,
        }
    } else if word == b"none".as_slice() {
        Piece::Setting {
            implicit: false,
            bytes,
        }
    } else {
        Piece::Fault {
            cause: Cause::Backquote,
            offset: 0,
        }
    }
}

/// Whether a directive tells where cells begin or end.
fn is_cell_directive(name: &[u8]) -> bool
    ensures { result ≡ is_cell_directive name.now }
{
    name == b"celldefine".as_slice() || name == b"endcelldefine".as_slice()
}

/// The directive that a text begins with; its first byte is a backquote.
#[tactic(auto, unfolding(crate::specs::Pieces::directive_piece))]
fn directive_piece(text: &[u8]) -> Piece
    requires { 0 < length text.now }
    ensures { result ≡ directive_piece text.now }
{
    let bytes = 1 + run(&text[1..], Class::Name);
    let name = &text[1..bytes];
    if name == b"timescale".as_slice() {
        Piece::Blank {
            bytes: run(text, Class::Line),
        }
    } else if is_cell_directive(name) {
        Piece::Blank { bytes }
    } else if name == b"resetall".as_slice() {
        Piece::Setting {
            implicit: true,
            bytes,
        }
    } else if name == b"default_nettype".as_slice() {
        setting_piece(text, bytes)
    } else {
        Piece::Fault {
            cause: Cause::Backquote,
            offset: 0,
        }
    }
}

/// The piece that a text begins with, where it is no white space and no whole comment or
/// attribute.
#[tactic(auto, unfolding(crate::specs::Pieces::token_piece))]
fn token_piece(text: &[u8]) -> Piece
    requires { 0 < length text.now }
    ensures { result ≡ token_piece text.now }
{
    let first = text[0];
    let second = byte_at(text, 1);
    let fault = |cause| Piece::Fault { cause, offset: 0 };
    match first {
        b'a'..=b'z' | b'A'..=b'Z' | b'_' => word_piece(text),
        b'0'..=b'9' => number_piece(text),
        b'\\' => escaped_piece(text),
        b'`' => directive_piece(text),
        b'\'' => fault(Cause::Number),
        b'/' if second == b'*' => fault(Cause::Comment),
        b'(' if second == b'*' => fault(Cause::Attribute),
        b'(' | b')' | b'[' | b']' | b'{' | b'}' | b',' | b';' | b':' | b'=' | b'.' => {
            Piece::Lexeme {
                kind: TokenKind::Mark(first),
                start: 0,
                bytes: 1,
            }
        }
        _ => fault(Cause::Byte),
    }
}

/// The piece that a text begins with.
#[tactic(auto, unfolding(crate::specs::Pieces::first_piece))]
pub(crate) fn first_piece(text: &[u8]) -> Piece
    requires { 0 < length text.now }
    ensures is { result ≡ first_piece text.now }
    ensures within { IsWithin (length text.now) result }
{
    match blank_len(text) {
        Some(bytes) => Piece::Blank { bytes },
        None => token_piece(text),
    }
}
