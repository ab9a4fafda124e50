//! A solver by clause learning: it decides whether some assignment satisfies all clauses of a formula, with a row of bits
//! that does, or with a log that derives the empty clause.
//!
//! The design is MiniSat's (Eén and Sörensson, SAT 2003): first unique implication points, two watched literals, a heap of
//! variables by activity, saved phases, restarts. What is proved rests on the trail and on clauses that were just read, and
//! never on watches, activities or restarts.
#![tactic(auto)]

mod analysis;
mod answer;
mod edge;
mod marks;
mod ready;
mod solving;
mod watching;
mod workspace;

pub use answer::{Answer, solve, solve_with};
pub use ready::Ready;
pub use workspace::Workspace;
