//! The tokens of a text in the project's profile of Verilog.
//!
//! [`tokens`] cuts a text into names, reserved words, numbers, sized constants and marks, and passes
//! over white space, comments, attributes and the directives of the profile. Its contract names one
//! list of tokens or one fault with its byte for each text: what the text holds from its start on is
//! a relation with one line for the end, for what is passed over, for what sets the default of
//! undeclared names, for a token and for a fault; which of them stands at a place is told by the
//! longest runs of bytes there. [`each_text_has_one_answer`] carries the law that each text has an
//! answer, and no other, [`keywords_are_named`] that the constants of [`keyword`] are the places of
//! their words.
#![tactic(auto)]

mod blank;
mod bytes;
mod fault;
pub mod keyword;
mod lex;
mod number;
mod piece;
mod token;
mod word;

pub use fault::LexFault;
pub use keyword::keywords_are_named;
pub use lex::{each_text_has_one_answer, tokens};
pub use token::{Token, TokenKind, Tokens};
