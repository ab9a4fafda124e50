//! Rows of bits: the states, input rows and rows of values of a circuit's frames.
//!
//! A `BitRow` has a fixed number of bits, packed in words of 64; contracts see it as the list of its bits.
//! `Rows` is a list of them. Nothing here knows of circuits, so every layer may use it.
#![tactic(auto)]

mod row;
mod row_list;

pub use row::BitRow;
pub use row_list::Rows;
