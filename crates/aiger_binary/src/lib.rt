//! The body of a binary file in the AIGER format, into the builder of a netlist. The inputs are the first variables and have
//! no lines; the latches are the next and have a line each, without their own literal; the outputs have lines as in a text
//! file; the gates are the last, each of two numbers: how far its right literals stand below it and below each other. What is
//! refused is the first fault, by its kind and the first byte of its item. (AIGER, the binary format.)
#![tactic(auto)]

mod body;
mod gate;
mod latch;

pub use body::{read_binary, spelled_binary_is_read};
