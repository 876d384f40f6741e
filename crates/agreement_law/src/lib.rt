//! From true marks to agreement: laws that lead from what one slot does to whole runs of the machine.
//!
//! The definitions say what it means that marks are true of a state, and that a slot keeps them so. The
//! law joins slots to frames, and frames to runs beside a history. The crate has no code that runs: its
//! function is empty, and its contract is the law.
#![tactic(auto)]

pub mod agreement;
