//! Whole AIGER files. A file is read in one pass: its header, its body, symbol lines, and then the end or a comment; what
//! has no definition and what waits for itself is told last, after the whole file. The body is text or binary.
//! (The AIGER And-Inverter Graph format, Biere 2007, with the resets of AIGER 1.9.)
#![tactic(auto)]

mod file;
mod laws;

pub use file::read_netlist;
pub use laws::{one_reading, spelled_files, written_binary_is_read, written_text_is_read};
