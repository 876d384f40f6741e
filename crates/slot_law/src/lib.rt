//! The law of one slot: where its actions meet the rules, true marks at its start give true marks at its
//! end.
//!
//! The crate has no code that runs: its function is empty, and its contract is a law on the definitions
//! of `emu_machine`. A crate above calls the function to have the law among its facts.
#![tactic(auto)]

pub mod actions;
