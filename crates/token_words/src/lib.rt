//! What the tokens of a text say, whatever their places in it: the list of its words.
//!
//! A reader of a text of few words makes the words that it expects, and compares all tokens with
//! them at once. A word is told in `specs/Word.antt`, the words of tokens in `specs/Words.antt`.
#![tactic(auto)]

mod word;
mod words;

pub use word::Word;
pub use words::{are_words, is_word_at, name_at};
