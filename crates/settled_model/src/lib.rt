//! The original design's opened valuation and its events.
//!
//! `Settled::open` is the opened valuation of a ranked design and an opening, and each `event` goes to
//! the one valuation after. So after any list of events `value` and `word` are those of the one history.
//! An event goes once through the nodes in order of rank, takes no memory, and evaluates no element twice.
//! How each node gets its turn is told once, at the opening, so that an event has little to read.
#![tactic(auto)]

mod clocked;
mod elements;
mod gates;
mod laws;
mod memory;
mod opening;
mod pass;
mod settled;
mod steps;
mod tables;
mod turn;

pub use laws::{openings_fit, runs_give_the_history, runs_grow};
pub use opening::{OpenWord, Opening};
pub use settled::Settled;
