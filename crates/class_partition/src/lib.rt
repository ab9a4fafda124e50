//! Partitions of the places of a pair of netlists into classes with phases, and why splitting them finds the greatest
//! correspondence. (Signal correspondence by partition refinement: van Eijk, IEEE TCAD 19(7), 2000.)
#![tactic(auto)]

mod classes;
mod laws;
mod least;
mod parts;
mod split;

pub use classes::{Classes, Needed};
pub use laws::{refinement, split_function, verdict_of_classes};
