//! One word.

ghost use Rattle.std.specs.Prelude.{◌≡◌};
ghost use Rattle.token_words.specs.Word.{key, mark, name};

use std::marker::Model;
use verilog_lex::TokenKind;

/// What a token is and, where it is a name, its bytes; no other word has bytes.
#[derive(Debug, Drop)]
pub struct Word<'a> {
    pub(crate) kind: TokenKind,
    pub(crate) name: &'a [u8],
}

impl<'a> Model for Word<'a> {
    ghost use Rattle.token_words.specs.Word.{Word};

    ghost Value = { Word };

    ghost view = { λ w. record { kind = w.kind; name = w.name.now } };
}

impl<'a> Word<'a> {
    /// The reserved word at a place of the list of all.
    pub fn key(place: u32) -> Word<'a>
        ensures { result ≡ key place }
    {
        Word {
            kind: TokenKind::Keyword(place),
            name: &[],
        }
    }

    /// A mark, by its byte.
    pub fn mark(byte: u8) -> Word<'a>
        ensures { result ≡ mark byte }
    {
        Word {
            kind: TokenKind::Mark(byte),
            name: &[],
        }
    }

    /// A name.
    pub fn name(bytes: &'a [u8]) -> Word<'a>
        ensures { result ≡ name bytes.now }
    {
        Word {
            kind: TokenKind::Name,
            name: bytes,
        }
    }
}
