//! What acceptance promises: where the twelve rules hold, the machine agrees with the design.
//!
//! The crate has no code that runs. Its functions are empty, and their contracts are laws on the definitions
//! of `emu_machine`. A crate above calls such a function to have the law among its facts.
#![tactic(auto)]

pub mod acceptance;
