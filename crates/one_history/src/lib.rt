//! The law that each ranked design has exactly one history.
//!
//! The crate has no code that runs: its function is empty, and its contract is a law on the definitions
//! of `design_core`. A crate above calls the function to have the law among its facts.
#![tactic(auto)]

pub mod histories;
