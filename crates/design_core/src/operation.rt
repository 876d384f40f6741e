//! What a gate does.

/// What a gate computes: what one of the words for gates says, which Verilog has eight of, or a table.
///
/// Bit `i` of a table is the output where input `j` contributes `2^j` to `i`.
#[derive(Clone, Copy, Debug, Drop, PartialEq, Eq)]
pub enum Op {
    And,
    Nand,
    Or,
    Nor,
    Xor,
    Xnor,
    Buf,
    Not,
    Table(u64),
}
