//! Laws of designs and their histories, which hold for every design.
//!
//! This crate has no code: each function is empty, and its contract is a law on the definitions of
//! `design_core`. A crate above calls the function to have the law among its facts.
#![tactic(auto)]

pub mod drivers;
pub mod events;
pub mod outside;
pub mod words;
