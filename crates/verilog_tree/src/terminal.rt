//! What the grammar sees of a token.

ghost use Rattle.std.specs.Prelude.{◌↔◌, ◌≡◌, IsTrue};
ghost use Rattle.verilog_tree.specs.Terminal.{code_of, is_plain, mark_of, terminal_of, word_of};

use crate::source::Dir;
use verilog_lex::TokenKind;
use verilog_lex::keyword::{
    AND, ASSIGN, BUF, ENDMODULE, INPUT, MODULE, NAND, NOR, NOT, OR, OUTPUT, SUPPLY0, SUPPLY1, WIRE,
    XNOR, XOR,
};

/// What the grammar sees of a token: a terminal of its lines.
#[derive(Clone, Copy, Debug, PartialEq, Eq, Drop)]
pub enum Terminal {
    Name,
    /// A plain number, with its value.
    Number(u32),
    /// A sized constant.
    Constant,
    Module,
    EndModule,
    /// `input` or `output`.
    Direction(Dir),
    Wire,
    /// `supply0` or, where true, `supply1`.
    Supply(bool),
    Assign,
    /// The word of a gate.
    Gate,
    /// A reserved word that the grammar does not use.
    Reserved,
    OpenParen,
    CloseParen,
    OpenBracket,
    CloseBracket,
    OpenBrace,
    CloseBrace,
    Comma,
    Semicolon,
    Colon,
    Equals,
    Dot,
    /// A mark that the grammar does not have; no text has such a token.
    Stray,
}

impl Terminal {
    /// Whether this is the same terminal as one that has no value.
    #[tactic(auto, using(crate::proofs::Plain::plain))]
    pub(crate) fn is(self, other: Terminal) -> bool
        requires { IsTrue (is_plain other) }
        ensures { IsTrue result ↔ (self ≡ other) }
    {
        self.code() == other.code()
    }

    /// A number for each terminal that has no value, and 255 for those that have one.
    fn code(self) -> u8
        ensures { result ≡ code_of self }
    {
        match self {
            Terminal::Name => 0,
            Terminal::Constant => 1,
            Terminal::Module => 2,
            Terminal::EndModule => 3,
            Terminal::Wire => 4,
            Terminal::Assign => 5,
            Terminal::Gate => 6,
            Terminal::Reserved => 7,
            Terminal::OpenParen => 8,
            Terminal::CloseParen => 9,
            Terminal::OpenBracket => 10,
            Terminal::CloseBracket => 11,
            Terminal::OpenBrace => 12,
            Terminal::CloseBrace => 13,
            Terminal::Comma => 14,
            Terminal::Semicolon => 15,
            Terminal::Colon => 16,
            Terminal::Equals => 17,
            Terminal::Dot => 18,
            Terminal::Stray => 19,
            Terminal::Number(_) | Terminal::Direction(_) | Terminal::Supply(_) => 255,
        }
    }
}

/// The mark with this byte.
fn mark_with(byte: u8) -> Terminal
    ensures { result ≡ mark_of byte }
{
    match byte {
        b'(' => Terminal::OpenParen,
        b')' => Terminal::CloseParen,
        b'[' => Terminal::OpenBracket,
        b']' => Terminal::CloseBracket,
        b'{' => Terminal::OpenBrace,
        b'}' => Terminal::CloseBrace,
        b',' => Terminal::Comma,
        b';' => Terminal::Semicolon,
        b':' => Terminal::Colon,
        b'=' => Terminal::Equals,
        b'.' => Terminal::Dot,
        _ => Terminal::Stray,
    }
}

/// The reserved word at this place of their list.
fn word_at(place: u32) -> Terminal
    ensures { result ≡ word_of place }
{
    match place {
        MODULE => Terminal::Module,
        ENDMODULE => Terminal::EndModule,
        INPUT => Terminal::Direction(Dir::Input),
        OUTPUT => Terminal::Direction(Dir::Output),
        WIRE => Terminal::Wire,
        SUPPLY0 => Terminal::Supply(false),
        SUPPLY1 => Terminal::Supply(true),
        ASSIGN => Terminal::Assign,
        AND | NAND | OR | NOR | XOR | XNOR | BUF | NOT => Terminal::Gate,
        _ => Terminal::Reserved,
    }
}

/// What the grammar sees of a token of this kind.
pub(crate) fn terminal_for(kind: TokenKind) -> Terminal
    ensures { result ≡ terminal_of kind }
{
    match kind {
        TokenKind::Name => Terminal::Name,
        TokenKind::Keyword(place) => word_at(place),
        TokenKind::Number(value) => Terminal::Number(value),
        TokenKind::Constant { .. } => Terminal::Constant,
        TokenKind::Mark(byte) => mark_with(byte),
    }
}
