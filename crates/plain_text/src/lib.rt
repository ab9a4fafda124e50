//! Plain text in bytes: the pieces between separators (lines, and the words of a line) and decimal numbers, read and
//! written. Each reader equals a function of the whole bytes, and takes no memory. It stands on std alone, for the
//! readers and writers of all formats.
#![tactic(auto)]

mod decimal;
mod number;
mod pieces;
mod words;

pub use decimal::decimal_digits;
pub use number::{number_from, read_number};
pub use pieces::{is_byte, next_piece};
pub use words::number_word;
