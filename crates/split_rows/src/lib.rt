//! Rows that split classes, found by simulation of 64 runs or paths at once: what goes on after the opening, and what a model
//! of the solver leads to. A pair that one of them separates needs no question to a solver. (Mishchenko, Chatterjee, Brayton,
//! Een, Improvements to combinational equivalence checking, ICCAD 2006; on frames of signal correspondence: A. Mishchenko, M.
//! Case, R. Brayton, S. Jang, IWLS 2008.)
#![tactic(auto)]

mod ahead;
mod from_reset;
mod left;
mod model;
mod rows;
mod waiting;
mod words;

pub use rows::SplitRows;
