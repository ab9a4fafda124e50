//! And-inverter graphs in memory. A `Netlist` is sound by its type, and gives the values of its literals in a row of bits. A
//! `NetBuilder` takes its definitions in any order, and refuses what is wrong with the first rule that fails.
//! The format and its meaning are those of AIGER (Biere, Heljanko, Wieringa: AIGER 1.9 And Beyond); the definitions stand in `circ_model`.
#![tactic(auto)]

mod builder;
mod fault;
mod levels;
mod netlist;
mod order;
mod undefined;

pub use builder::{NetBuilder, reset_literal};
pub use fault::BuildFault;
pub use netlist::{Netlist, literal_bit};
