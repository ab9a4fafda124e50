//! A solver that is kept from question to question: whether two literals can be true together where all clauses hold that were given
//! so far. What it learned for one question serves the next (incremental solving under assumptions: N. Eén, N. Sörensson, Temporal
//! Induction by Incremental SAT Solving, BMC 2003).
//!
//! The design is MiniSat's (Eén and Sörensson, SAT 2003), with variables that move to the front of a list in place of a heap. Each
//! clause that it learns is derived by resolution in a store (`implied_clauses`), and so is the clause that refutes a question: nothing
//! of the search has to be believed, so trail, watches and analysis are advice, and each reads what another wrote as it stands.
#![tactic(auto)]

mod analysis;
mod queue;
mod rows;
mod search;
mod solver;
mod trail;
mod watches;

pub use cnf_store::Value;
pub use solver::{KeptSolver, Outcome};
