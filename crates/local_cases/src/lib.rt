//! Cases over the clauses that they rest on. A case is that two literals hold of the variables of frames. It is put to a solver over
//! variables of its own, with the clauses that define what is met from its two on: so its refutation costs what it rests on, as a
//! SAT sweep asks of a cone in which equal nodes are merged. (Kuehlmann and Krohm, DAC 1997; Chatterjee, Mishchenko, Brayton and
//! Kuehlmann, DAC 2007.)
//!
//! Which clauses are taken is a hint. What is made of a refutation is checked where it is used.
#![tactic(auto)]

mod cases;
mod definitions;
mod local;
mod refuter;
mod shorts;

pub use cases::LocalCases;
pub use refuter::{Refuter, add_clause};
