//! Tests of reduced netlists.
//! They stand in a crate of their own, so that the library is proved once.
#![tactic(auto)]

#[cfg(test)]
mod making;
#[cfg(test)]
mod reductions;
