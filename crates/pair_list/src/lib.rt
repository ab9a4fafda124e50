//! The list of a run over many pairs of files: a line for each pair, its two names with one space between. The grammar is in
//! specs/Lists, as a relation between bytes and a list or a first fault; each text has just one reading.
#![tactic(auto)]

mod fault;
mod laws;
mod lines;
mod names;
mod read;

pub use fault::{ListError, ListFault, ListKind};
pub use laws::one_reading;
pub use names::Names;
pub use read::{MOST_PAIRS, read_list};
