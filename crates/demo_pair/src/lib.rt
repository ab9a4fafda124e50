//! The demo circuit of a size: a random netlist, made of the words of a permuted congruential generator (M. O'Neill, PCG,
//! 2014), and a copy of it in which some latches, and every use of them, are complemented. The two are equivalent.
#![tactic(auto)]

mod copying;
mod making;

pub use making::make_demo;
