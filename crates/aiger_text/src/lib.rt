//! The body of a text file in the AIGER format, into the builder of a netlist: the lines of the inputs, latches, outputs and gates, in one
//! pass over the bytes. What is refused is the first fault, by its kind and the first byte of its line.
#![tactic(auto)]

mod body;

pub use body::{read_text, spelled_text_is_read};
