//! What the workers of a run take turns at: one prover for all of them, on a graph that all share. A question over a large cone is put
//! aside, and its worker solves it away from the table, while others go on there.
#![tactic(auto)]

mod bench;
mod lent;
mod table;

pub use lent::Lent;
pub use table::Table;
