//! The trail of a solver that learns clauses: which literals are assigned, in which order, at which level and why, and what
//! that says of a clause.
//!
//! As in MiniSat (Eén and Sörensson, SAT 2003) a decision opens a level, an implied literal keeps the number of the clause
//! that implied it, and going back unassigns from the newest on. A literal is a code: twice its variable, plus one where it
//! is complemented. All memory is taken when the trail is made, and a literal's value is one read.
#![tactic(auto)]

mod laws;
mod looking;
mod trail;

pub use laws::{ranks_rise, reasons_imply};
pub use looking::{ClauseStatus, Look};
pub use trail::{Trail, complement};
