//! A pair of netlists on shared inputs as one machine: what stands at each place, what the places' values are in each
//! frame of a path, and what those values obey.
#![tactic(auto)]

mod build;
mod cell;
mod laws;
mod path;
mod product;
mod rows;
mod same;
mod signals;
mod walk;

pub use cell::{Cell, Start};
pub use laws::{cells_of_pairs, paths_of_values, values_of_cells};
pub use path::Path;
pub use product::{PairFault, Product};
pub use walk::Scratch;
