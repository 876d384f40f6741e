//! What traces tell: laws that lead from accepted results and from the one history to the bytes of traces.
//!
//! The crate has no code that runs. Its functions are empty, and their contracts are laws on the
//! definitions of `domain_groups`. A crate above calls a function to have its law among its facts.
#![tactic(auto)]

pub mod traces;
