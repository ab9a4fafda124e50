//! Tests of whole runs of the program: devices, words, demo pairs, and `run`.
//! They stand in a crate of their own, so that each library is proved once.
#![tactic(auto)]

#[cfg(test)]
mod batches;
#[cfg(test)]
mod climbs;
#[cfg(test)]
mod demos;
#[cfg(test)]
mod devices;
#[cfg(test)]
mod hostile;
#[cfg(test)]
mod reduces;
#[cfg(test)]
mod runs;
#[cfg(test)]
mod words;
