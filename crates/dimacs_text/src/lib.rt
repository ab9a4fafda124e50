//! DIMACS texts: formulas in conjunctive normal form as the solvers' competitions write them, and the answers to them.
//!
//! The formula that a text is stands in specs/Texts, as a function of its lines and of a line's words.
#![tactic(auto)]

mod answer;
mod body;
mod fault;
mod header;
mod read;
mod solving;

pub use answer::{Solution, solve_formula};
pub use fault::{DimacsError, DimacsFault, DimacsKind};
pub use read::read_dimacs;
pub use solving::solve_text;
