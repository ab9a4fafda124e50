//! Many pairs in one run. Workers claim pairs of a list on one word, without a lock, and each settles what it claimed alone, as
//! one thread of a check does: so a pair that takes long holds nobody up. The answers are the verdicts of the list's pairs, in
//! its order, for every schedule and every number of workers.
#![tactic(auto)]

mod crew;
mod outcome;
mod running;
mod slots;
mod solving;
mod worker;

pub use outcome::{Outcome, Outputs};
pub use running::run_pairs;
pub use slots::Solved;
pub use solving::{left_out, outcome_of};
