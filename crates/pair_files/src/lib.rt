//! The netlists of files, and the pair of two, or why there is none. A file is loaded whole and read once; of two files the left
//! one is loaded and read first.
#![tactic(auto)]

mod fault;
mod loading;

pub use fault::{Side, Unpaired, Unread};
pub use loading::{LONGEST_NETLIST, load_netlist, load_pair, unread_as};
