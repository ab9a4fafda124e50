//! Clauses that given clauses imply, made of these by resolution alone (J. A. Robinson, A machine-oriented logic based on the
//! resolution principle, JACM 12(1), 1965). A solver that keeps what it learns may choose its chains of resolutions as it likes:
//! what they lead to is implied whatever they are, so nothing of its search has to be believed.
#![tactic(auto)]

mod implied;

pub use implied::{Implied, Step, complement};
