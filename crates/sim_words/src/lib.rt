//! Simulation of 64 runs at once: one word for each place, and lane b, that is bit b, of every word belongs to run b; and of 512, with
//! eight words for each place.
//!
//! Signals that differ in some frame, each with its phase, are in no class together, so simulation splits cheaply what
//! proofs would have to split one by one (C.A.J. van Eijk, IEEE TCAD 19(7), 2000, starts from simulated values too).
#![tactic(auto)]

mod kernel;
mod sim;
mod start;
mod stimulus;
mod wide;
mod wide_kernel;

pub use kernel::{frame_words, next_words};
pub use sim::SimState;
pub use stimulus::Stimulus;
pub use wide::WideState;
