//! 64 paths at once that begin in any states, and those of their rows that may split classes. A model of the solver is one such
//! path: simulated with 63 like it, it splits more than the pair that it was found for, and needs no further question. (van Eijk,
//! IEEE TCAD 19(7), 2000, splits by counterexamples; A. Mishchenko, S. Chatterjee, R. Jiang, R. Brayton, 2005, simulate 64 at once.)
#![tactic(auto)]

mod holding;
mod laws;
mod paths;
mod rows;

pub use laws::rows_that_may_split;
pub use paths::StepLanes;
pub use rows::LaneRows;
