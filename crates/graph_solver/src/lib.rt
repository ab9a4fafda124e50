//! A solver that is kept over the nodes of a graph: whether two literals are equal where some pairs of literals are taken to be, with
//! what it learned of one question for the next.
//!
//! A node is a variable, so the clauses of its gate are given once, when a question first comes to it, and what is learned holds
//! for all questions over the same facts. Facts come as models break them (lazy constraints; speculative reduction: H. Mony, J.
//! Baumgartner, A. Mishchenko, R. Brayton, DAC 2009), and stay until the solver is emptied. The search decides the nodes on which a
//! question rests, and then those on which the facts do (as in circuit-based solvers: Kuehlmann, Ganai, Paruthi, DAC 2001).
#![tactic(auto)]

mod laws;
mod solver;
mod told;
mod walk;

pub use laws::facts_stay;
pub use solver::{Answer, GraphSolver};
