//! What marks promise, for every case: laws from which the agreement of machine and design follows.
//!
//! The crate has no code that runs. Each public function is empty, and its contract is a law.
#![tactic(auto)]

pub mod gates;
