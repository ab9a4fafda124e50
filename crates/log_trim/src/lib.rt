//! Logs without the lines that their last line doesn't reach. A solver logs each clause that it learns, and most of them serve the
//! search alone; what is left is accepted over each formula that the whole log is accepted over. (Trimming: Wetzler, Heule, Hunt, SAT
//! 2014; of LRAT: Pollitt, Fleury, Biere, SAT 2023.)
#![tactic(auto)]

mod trimming;

pub use trimming::{trim, trimmed};
