//! Tests of claims, versions, boards and workers.
//! They stand in a crate of their own, so that each library is proved once.
#![tactic(auto)]

#[cfg(test)]
mod boards;
#[cfg(test)]
mod circuits;
#[cfg(test)]
mod claims;
#[cfg(test)]
mod held_rows;
#[cfg(test)]
mod known;
#[cfg(test)]
mod listed;
#[cfg(test)]
mod passes;
#[cfg(test)]
mod proving;
#[cfg(test)]
mod vectors;
#[cfg(test)]
mod versions;
#[cfg(test)]
mod workers;
