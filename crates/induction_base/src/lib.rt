//! What the frames from reset say: the least difference of the outputs below a depth, with a run that shows it, and the base
//! of an induction over k frames. Both are questions of bounded model checking (Biere, Cimatti, Clarke, Zhu, TACAS 1999) over
//! frames; the base is that of k-induction (Sheeran, Singh, Stålmarck, FMCAD 2000). The search for a difference goes frame by frame
//! over one hashed graph, into which outputs that are found equal are merged (Kuehlmann and Krohm, DAC 1997).
#![tactic(auto)]

mod base;
mod difference;
mod free_bits;
mod laws;
mod lexicographic;
mod pattern_runs;
mod rows;
mod whole_frames;

pub use base::{Base, base_holds};
pub use difference::{Diff, least_difference, least_difference_beyond};
pub use laws::one_least_run;
pub use lexicographic::least_run;
