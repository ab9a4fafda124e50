//! The next pair of a version, claimed by one exchange on a shared word: no lock, and no pair is claimed twice.
//! The word counts up as a ticket does. A greater version starts it anew, for the holder of the board's lock alone.
//! Each seat lists what its thread claimed, and the rule of the word is a fact about all lists at once.
#![tactic(auto)]

mod claim;
mod differ;
mod seat;
mod view;
mod word;

pub use claim::Claim;
pub use seat::Seat;
pub use word::{ClaimWord, is_spent, version_in};
