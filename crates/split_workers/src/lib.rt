//! Workers that refine one partition at once: each claims pairs from a word, settles them by turns at one prover or, where the question
//! is over a large cone, by a solver of its own, and answers at a board behind a lock. Whatever their schedule, they end at the
//! classes of the greatest correspondence.
#![tactic(auto)]

mod earlier;
mod place;
mod report;
mod room;
mod running;
mod worker;

pub use earlier::Earlier;
pub use report::{WorkReport, reports_of};
pub use running::{Refined, Task, refine, refine_known};
