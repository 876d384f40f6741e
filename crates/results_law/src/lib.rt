//! Laws of printed results, which hold for all of them.
//!
//! This crate has no code: each function is empty, and its contract is a law. What is printed for results
//! is read back as these results.
#![tactic(auto)]

pub mod back;
