//! The text of a netlist, to the byte.
//!
//! `print_netlist` gives the modules `chip0`, `chip1`, .. of a netlist's chips, with one line for each net,
//! gate, register and memory. `specs/NetlistText.antt` says the text line by line.
#![tactic(auto)]

mod instance;
mod lines;
mod netlist;
mod text;

pub use netlist::print_netlist;

#[cfg(test)]
mod tests;
