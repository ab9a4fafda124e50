//! Tests of lists of pairs, of runs over many pairs, and of workers that are woken.
//! They stand in a crate of their own, so that each library is proved once.
#![tactic(auto)]

#[cfg(test)]
mod lists;
#[cfg(test)]
mod pools;
#[cfg(test)]
mod waking;
