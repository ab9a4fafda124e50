//! A run over a list of pairs: all files are loaded and read in the list's order, then the pairs are settled by a pool of workers,
//! and each pair gets one line, in the list's order. A pair that has no product doesn't end the run; a file that can't be loaded
//! does.
#![tactic(auto)]

mod answering;
mod batch;
mod ending;
mod loading;
mod page;
mod plan;
mod telling;

pub use batch::{Batch, run_batch};
pub use ending::Unanswered;
pub use plan::Plan;
pub use telling::{tell_unanswered, unanswered_status};
