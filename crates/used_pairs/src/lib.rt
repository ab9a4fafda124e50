//! The pairs of places on which a proof of a pair rests: it counts as long as these stand together, whatever else is split.
#![tactic(auto)]

mod latches;
mod list;
mod logs;
mod members;

pub use latches::latch_pairs;
pub use list::PairList;
pub use logs::log_pairs;
