//! Numbers, texts and lists out of JSON texts, for the readers of this project's own formats.
//!
//! `read_json` gives the data that a text stands for, and answers `NotJson` exactly where the text
//! stands for none. The other calls take a member of an object by its key, and give it exactly
//! where it has the wanted form. A list of more than 4,294,967,295 items has it nowhere, so that
//! readers may number items with 32 bits. What takes memory answers a `ShapeFault`.
#![tactic(auto)]

mod members;
mod names;
mod shape;
mod text;

pub use members::{
    array_member, array_of, number_member, number_of, text_member, word_member, word_of,
};
pub use names::{name_member, name_of, names_member, optional_name_member};
pub use shape::ShapeFault;
pub use text::{JsonFault, read_json};
