//! Clauses of a formula in conjunctive normal form, and the assignments that satisfy them.
//!
//! A clause is a list of literals: in the numbers of DIMACS at the edge (`Cnf`), by codes where a solver works on it
//! (`Joined`, `Clauses`). All clauses of a formula stand in one row of numbers, and a clause is lent as a slice of it.
#![tactic(auto)]

mod arena;
mod clauses;
mod cnf;
mod laws;
mod value;

pub use arena::Arena;
pub use clauses::{Clauses, Joined};
pub use cnf::Cnf;
pub use laws::clauses_together;
pub use value::Value;
