//! The classes of the greatest correspondence of a small pair, found by trying all of its paths: what tests compare the program with.
#![tactic(auto)]

mod plain;

pub use plain::{few_free_bits, plain_classes};
