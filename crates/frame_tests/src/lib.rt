//! Tests of the pair and its frames: simulation, partitions, clauses, the base of an induction, traces and certificates.
//! They stand in a crate of their own, so that each library is proved once.
#![tactic(auto)]

#[cfg(test)]
mod certificates;
#[cfg(test)]
mod circuits;
#[cfg(test)]
mod class_lines;
#[cfg(test)]
mod induction;
#[cfg(test)]
mod least_runs;
#[cfg(test)]
mod leaves;
#[cfg(test)]
mod partitions;
#[cfg(test)]
mod posed;
#[cfg(test)]
mod products;
#[cfg(test)]
mod rows;
#[cfg(test)]
mod simulation;
#[cfg(test)]
mod traces;
#[cfg(test)]
mod unrolling;
#[cfg(test)]
mod used_logs;
