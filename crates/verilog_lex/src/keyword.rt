//! The reserved words that the grammar uses, by their places in the list of all.

ghost use Rattle.verilog_lex.specs.Keyword.{KeywordsAreNamed};

/// `and`.
pub const AND: u32 = 1;

/// `assign`.
pub const ASSIGN: u32 = 2;

/// `buf`.
pub const BUF: u32 = 5;

/// `endmodule`.
pub const ENDMODULE: u32 = 26;

/// `input`.
pub const INPUT: u32 = 47;

/// `module`.
pub const MODULE: u32 = 57;

/// `nand`.
pub const NAND: u32 = 58;

/// `nor`.
pub const NOR: u32 = 61;

/// `not`.
pub const NOT: u32 = 63;

/// `or`.
pub const OR: u32 = 66;

/// `output`.
pub const OUTPUT: u32 = 67;

/// `supply0`.
pub const SUPPLY0: u32 = 97;

/// `supply1`.
pub const SUPPLY1: u32 = 98;

/// `wire`.
pub const WIRE: u32 = 120;

/// `xnor`.
pub const XNOR: u32 = 122;

/// `xor`.
pub const XOR: u32 = 123;

/// A law: each of the constants is the place of the word that it is named for.
pub fn keywords_are_named()
    ensures { KeywordsAreNamed }
{}
