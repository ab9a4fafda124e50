//! A hash-consed and-inverter graph (Kuehlmann and Krohm, DAC 1997), into which proved equalities are merged, as SAT sweeping
//! does it (Kuehlmann, ICCAD 2004; Mishchenko, Chatterjee, Jiang and Brayton, FRAIGs, 2005).
//!
//! A node is a leaf, which is free, or a gate over nodes before it. Each has a canonical literal, an earlier one that has its
//! value under each valuation of the nodes. `and` folds constants and finds a gate that is there already; a question to the
//! solver tells whether two literals can differ, and `merge_equal` takes in that they can't. Such a fact rests on the nodes
//! alone, so it holds for ever. Nothing here knows what the graph is made from.
#![tactic(auto)]

mod activity;
mod asking;
mod canonical;
mod clauses;
mod cone;
mod cone_solver;
mod effort;
mod equals;
mod frontier;
mod graph;
mod halt;
mod hashing;
mod laws;
mod lemmas;
mod looking;
mod node;
mod pattern;
mod posed;
mod recall;
mod sums;

pub use asking::Asker;
pub use graph::Graph;
pub use halt::Halt;
pub use laws::{leaves_are_free, leaves_settle_all};
pub use node::Node;
pub use pattern::{LeafValue, Pattern};
