//! Tests of netlists in memory, and of the readers and writers of AIGER files.
//! They stand in a crate of their own, so that each library is proved once.
#![tactic(auto)]

#[cfg(test)]
mod binary_files;
#[cfg(test)]
mod codec;
#[cfg(test)]
mod graphs;
#[cfg(test)]
mod text_files;
#[cfg(test)]
mod whole_files;
