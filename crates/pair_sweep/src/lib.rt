//! Whether the needed pairs of one version of the classes after another pass, as far as one graph shows: their frames are
//! literals of it, equal literals pass at once, and what the solver finds equal is merged for good. (SAT sweeping: A. Kuehlmann,
//! ICCAD 2004; fraiging: A. Mishchenko, S. Chatterjee, R. Jiang, R. Brayton, 2005; on frames of signal correspondence: A.
//! Mishchenko, M. Case, R. Brayton, S. Jang, IWLS 2008.)
#![tactic(auto)]

mod free_bit;
mod sweep;

pub use and_graph::{Asker, Halt};
pub use free_bit::{Difference, FreeBit};
pub use sweep::{Sweep, SweepMemory};
