//! What a Verilog text and a cell table stand for: the definition of flattening, and its laws.
//!
//! This crate has no code that runs. It has the types of the answer, [`ElabFault`] and [`Made`], and in
//! `specs` the definition: a text is flattened by steps in the order of the text, each of which is some
//! tests and then some parts; the design is what all steps make, and the fault is that of the first test
//! that fails. `specs/Stands.antt` says what design bytes and cell bytes stand for, and the empty
//! functions carry the laws. `elaborator` is proved against this.
#![tactic(auto)]

mod fault;
pub mod laws;
mod made;

pub use fault::ElabFault;
pub use made::Made;
