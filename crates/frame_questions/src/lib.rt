//! Questions over unrolled frames, put to a solver: a path on which two literals differ, or that there is none.
//!
//! The frames' clauses are made ready once; those of a question stand beside them while it is asked. (Incremental solving: Eén
//! and Sörensson, BMC 2003.)
#![tactic(auto)]

mod assuming;
mod found;

pub use found::{Prepared, Seen, Separation};
pub use sat_core::Workspace;
