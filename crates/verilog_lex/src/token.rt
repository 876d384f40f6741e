//! The tokens of a text: what each is, where it stands, and the list of them all.

ghost use Rattle.verilog_lex.specs.Rows.{constant_at, constants_of};
ghost use Rattle.std.specs.Prelude.{◌≡◌, ◌++◌, ◌∷◌, [], ◌<◌, ◌↔◌, IsTrue, length, slice_get, OnOk, OnErr};

use emu_io::{List, NoMemory};
use std::alloc::Global;
use std::marker::Model;

/// What a token is.
#[derive(Clone, Copy, Debug, PartialEq, Eq)]
pub enum TokenKind {
    /// A name that is no reserved word, or any escaped name.
    Name,
    /// A reserved word, by its place in the list of reserved words.
    Keyword(u32),
    /// A plain number.
    Number(u32),
    /// A sized constant: its size in bits, from 1 to 128, and its value, cut to that size.
    Constant { size: u32, value: u128 },
    /// One of the marks `( ) [ ] { } , ; : = .`, by its byte.
    Mark(u8),
}

/// A token and the part of the source that is its text: the bytes from `start` up to `end`.
#[derive(Clone, Copy, Debug, PartialEq, Eq)]
pub struct Token {
    pub kind: TokenKind,
    pub start: u32,
    pub end: u32,
    /// Whether undeclared names become wires here.
    pub implicit: bool,
}

/// What a stored token is; its numbers stand beside it.
#[derive(Clone, Copy, Debug)]
enum Form {
    Name,
    Keyword,
    Number,
    Constant,
    Mark(u8),
}

/// A token as it is stored, in 16 bytes: one number serves as the place of a reserved word, as a
/// number, and as the place of a constant among the constants.
#[derive(Clone, Copy, Debug)]
struct Row {
    number: u32,
    start: u32,
    end: u32,
    form: Form,
    implicit: bool,
}

/// A sized constant as it is stored. Few tokens are constants, so these stand in a list of their own.
#[derive(Clone, Copy, Debug)]
struct Constant {
    size: u32,
    value: u128,
}

impl Row {
    ghost use Rattle.verilog_lex.specs.Rows.{IsHeld, row_of, token_of};

    /// The row of a token; where it is a constant, this is its place among the constants.
    fn new(token: Token, place: u32) -> Row
        ensures { result ≡ row_of place token }
    {
        let (form, number) = match token.kind {
            TokenKind::Name => (Form::Name, 0),
            TokenKind::Keyword(place) => (Form::Keyword, place),
            TokenKind::Number(number) => (Form::Number, number),
            TokenKind::Constant { .. } => (Form::Constant, place),
            TokenKind::Mark(byte) => (Form::Mark(byte), 0),
        };
        Row {
            number,
            start: token.start,
            end: token.end,
            form,
            implicit: token.implicit,
        }
    }

    /// The token of the row, with these constants.
    fn token(&self, constants: &[Constant]) -> Token
        requires { IsHeld (length constants.now) self.now }
        ensures { result ≡ token_of constants.now self.now }
    {
        let kind = match self.form {
            Form::Name => TokenKind::Name,
            Form::Keyword => TokenKind::Keyword(self.number),
            Form::Number => TokenKind::Number(self.number),
            Form::Constant => constant_at(constants, self.number),
            Form::Mark(byte) => TokenKind::Mark(byte),
        };
        Token {
            kind,
            start: self.start,
            end: self.end,
            implicit: self.implicit,
        }
    }
}

/// The constant at a place.
fn constant_at(constants: &[Constant], place: u32) -> TokenKind
    requires { place < length constants.now }
    ensures { result ≡ constant_at constants.now place }
{
    let constant = constants[place as usize];
    TokenKind::Constant {
        size: constant.size,
        value: constant.value,
    }
}

/// Puts a token behind the constants, where it is one.
fn add_constant(constants: &mut List<Constant>, kind: TokenKind) -> Result<(), NoMemory>
    ensures ok { OnOk result (constants.new ≡ constants.old ++ constants_of kind) }
    ensures err { OnErr result (constants.new ≡ constants.old) }
{
    match kind {
        TokenKind::Constant { size, value } => constants.push(Constant { size, value }),
        _ => Ok(()),
    }
}

/// The tokens of a text in order, fewer than 2^32; contracts see their list.
#[derive(Debug, Drop)]
pub struct Tokens {
    rows: List<Row>,
    constants: List<Constant>,
}

impl Model for Tokens {
    ghost use Rattle.std.specs.Prelude.{List, map};
    ghost use Rattle.verilog_lex.specs.declared.token.Token.{Token};
    ghost use Rattle.verilog_lex.specs.Rows.{AreHeld, token_of};

    ghost Value = { List Token };

    ghost view = { λ t. map (token_of t.constants) t.rows };

    ghost invariant = { λ t. AreHeld t.constants t.rows };
}

impl Tokens {
    pub(crate) fn new(alloc: Global) -> Tokens
        ensures { result ≡ [] }
    {
        Tokens {
            rows: List::new(alloc),
            constants: List::new(alloc),
        }
    }

    /// The number of tokens.
    pub fn len(&self) -> u32
        ensures { result ≡ length self.now }
    {
        self.rows.len() as u32
    }

    /// Whether there is no token.
    pub fn is_empty(&self) -> bool
        ensures { IsTrue result ↔ (self.now ≡ []) }
    {
        self.len() == 0
    }

    /// The token at a place below the number of tokens.
    pub fn token(&self, k: u32) -> Token
        requires { k < length self.now }
        ensures { slice_get self.now k ≡ Some result }
    {
        let row = self.rows.get(u64::from(k));
        row.token(self.constants.as_slice())
    }

    /// Adds a token at the end.
    pub(crate) fn push(&mut self, token: Token) -> Result<(), NoMemory>
        requires { length self.old < 4294967295 }
        ensures ok { OnOk result (self.new ≡ self.old ++ token ∷ []) }
        ensures err { OnErr result (self.new ≡ self.old) }
    {
        let place = self.constants.len() as u32;
        self.rows.push(Row::new(token, place))?;
        if let Err(fault) = add_constant(&mut self.constants, token.kind) {
            self.rows.pop();
            return Err(fault);
        }
        Ok(())
    }
}
