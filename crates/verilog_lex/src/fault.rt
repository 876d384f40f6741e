//! What is wrong with a text that has no tokens.

use emu_io::NoMemory;

/// Why a text has no tokens: the first place from the left where no form of the profile stands.
#[derive(Clone, Copy, Debug, PartialEq, Eq)]
pub enum LexFault {
    /// A byte that begins no token.
    BadByte { at: u32 },
    /// A comment without its end; `at` is its opening.
    OpenComment { at: u32 },
    /// An attribute without its end; `at` is its opening.
    OpenAttribute { at: u32 },
    /// A number that is none of the forms of numbers; `at` is its first byte.
    BadNumber { at: u32 },
    /// A digit `x`, `z` or `?` in a sized constant; `at` is that digit.
    UnknownDigit { at: u32 },
    /// A backquote whose directive the profile does not have; `at` is the backquote.
    Directive { at: u32 },
    /// No memory was left.
    NoMemory,
}

impl From<NoMemory> for LexFault {
    ghost use Rattle.std.specs.Prelude.{◌≡◌};
    ghost use Rattle.verilog_lex.specs.declared.fault.LexFault.TheVariants as lex;

    ghost from_gives = { λ _ fault. fault ≡ lex.NoMemory };

    fn from(_: NoMemory) -> LexFault {
        LexFault::NoMemory
    }
}

/// A fault of a text without its place.
#[derive(Clone, Copy, Debug, PartialEq, Eq)]
pub(crate) enum Cause {
    Byte,
    Comment,
    Attribute,
    Number,
    Digit,
    Backquote,
}

impl Cause {
    ghost use Rattle.std.specs.Prelude.{◌≡◌};
    ghost use Rattle.verilog_lex.specs.Pieces.{fault_at};

    /// The fault of this cause at a byte.
    pub(crate) fn fault(self, at: u32) -> LexFault
        ensures { result ≡ fault_at self at }
    {
        match self {
            Cause::Byte => LexFault::BadByte { at },
            Cause::Comment => LexFault::OpenComment { at },
            Cause::Attribute => LexFault::OpenAttribute { at },
            Cause::Number => LexFault::BadNumber { at },
            Cause::Digit => LexFault::UnknownDigit { at },
            Cause::Backquote => LexFault::Directive { at },
        }
    }
}
