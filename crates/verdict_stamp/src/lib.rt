//! Versions of the classes on the way to the greatest correspondence, the proofs and vectors that are found under one of
//! them, and the loop that ends at the greatest. (Signal correspondence: van Eijk, IEEE TCAD 19(7), 2000; by k-induction:
//! Sheeran, Singh, Stålmarck, FMCAD 2000.)
#![tactic(auto)]

mod known;
mod laws;
mod opening;
mod prover;
mod refine;
mod used;
mod vector;
mod verdict;
mod version;
mod versions;

pub use known::Known;
pub use laws::{known_passes, version_is_all_pairs};
pub use pair_sweep::{Asker, Halt};
pub use prover::{Proof, Prover, ProverMemory};
pub use refine::greatest_classes;
pub use used::Used;
pub use vector::Vector;
pub use verdict::Verdict;
pub use version::Version;
pub use versions::{Stamp, Versions};
