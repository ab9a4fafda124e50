//! Rows of a frame, kept as the bits of their leaves. A gate's bit is the product of two lower places, so the frame of a product
//! machine is determined by its inputs and latches (van Eijk, IEEE TCAD 19(7), 2000): of thousands of rows of one pair only those bits
//! need be kept, with one table of what stands at each place.
#![tactic(auto)]

mod laws;
mod table;

pub use laws::rows_by_leaves;
pub use table::LeafTable;
