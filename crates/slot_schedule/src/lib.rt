//! List plans: in which slot of a frame each thing is done, and over which wire each net is sent.
//!
//! `specs` says which plan is the list plan of a frame, by equations on the finished plan.
//! `plans_are_one` says that there is at most one, `values_are_ready`, `wires_carry_one` and
//! `memories_are_used_once` what it orders.
#![tactic(auto)]

mod laws;
mod plan;

pub use laws::{memories_are_used_once, plans_are_one, values_are_ready, wires_carry_one};
pub use plan::{PlanAct, PlanFrame, PlanStep};
