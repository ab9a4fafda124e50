//! A checker of derivations that trusts no solver: it reads a log line by line and finds the first line that doesn't follow.
//!
//! A line is checked by unit propagation along its hints alone (LRAT; Cruz-Filipe, Heule and others, CADE 2017). What is
//! assumed stands as marks by literal and as a stack, so a line costs the literals of its clause and of the clauses that
//! its hints name.
#![tactic(auto)]

mod line;
mod reaching;
mod refute;
mod scan;
mod whole_log;

pub use line::are_within;
pub use reaching::reached;
pub use whole_log::{check, first_bad};
