//! The tree of a Verilog source text.
//!
//! [`parse`] reads the tokens of a text by the grammar of the project's profile, one token in hand.
//! Its contract is about what the grammar sees of the tokens. The grammar is a relation between places
//! in that list and trees, with one constructor for each of its lines, and the answer is one of these:
//! the tree of the text, where at most 64 braces are open at once; the first token up to which no text
//! begins, told apart by whether it is a reserved word that the grammar does not use; or the 65th brace,
//! where a text goes on after it. [`has_one_tree`] carries the law that a list of tokens has at most one
//! tree, [`texts_are_read`] that what the grammar has within the nesting is never refused.
#![tactic(auto)]

mod assignment;
mod expression;
mod header;
mod instance;
mod item;
mod module;
mod parser;
mod part;
mod primitive;
mod reader;
mod source;
mod terminal;

pub use parser::{ParseFault, has_one_tree, parse, texts_are_read};
pub use source::{
    AssignPair, Dir, Expr, GatePart, IndexRange, Inst, Item, Links, Module, NamedLink, NetPart,
    PortName, Source,
};
pub use terminal::Terminal;
