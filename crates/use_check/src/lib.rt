//! The rule of acceptance A6, judged of any results on any board: in a slot no wire, register or memory is
//! used twice.
//!
//! `specs/Least.antt` says what the least place is at which a rule fails; the crates above cite it too.
#![tactic(auto)]

mod judged;
mod tables;
mod uses;

pub use uses::find_a6;
