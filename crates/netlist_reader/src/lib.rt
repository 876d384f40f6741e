//! The netlist of a compiler's results, read from its tokens.
//!
//! `specs/Netlist.antt` says which words the netlist of some chips has, with one line for each form: the
//! printer's definitions give the names. [`read_netlist`] gives the chips whose netlist a text is, or its
//! first token that cannot stand there: those before it begin the netlist of some chips, those up to it
//! begin none (`specs/Faults.antt`). [`netlists_are_told_apart`] carries the law that a text stands for at
//! most one list of chips.
#![tactic(auto)]

mod chip;
mod fault;
mod hex;
mod instance;
mod items;
mod lacking;
mod lines;
mod netlist;
mod numbered;
mod piece;
mod pins;
mod rest;
mod shape;
#[cfg(test)]
mod tests;

pub use fault::NetlistFault;
pub use netlist::{netlists_are_told_apart, read_netlist};
