//! Laws of tokens, which hold for every text.
//!
//! This crate has no code: each function is empty, and its contract is a law on the definitions of
//! `verilog_lex`, which say of each place of a text what begins there. The laws say the same in
//! other words, by least places and by sums, so that a misreading would show.
#![tactic(auto)]

pub mod blanks;
pub mod numbers;
