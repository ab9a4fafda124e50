//! Tests of rows, clauses, the solvers, the one over a graph's nodes, derivations, their checker, and DIMACS texts.
//! They stand in a crate of their own, so that each library is proved once.
#![tactic(auto)]

#[cfg(test)]
mod checking;
#[cfg(test)]
mod clauses;
#[cfg(test)]
mod derivations;
#[cfg(test)]
mod facts;
#[cfg(test)]
mod formulas;
#[cfg(test)]
mod guidance;
#[cfg(test)]
mod keeping;
#[cfg(test)]
mod resolving;
#[cfg(test)]
mod rows;
#[cfg(test)]
mod solving;
