//! The texts of a run: the lines that it prints, and what it tells of files that it refuses or can't load. Of one pair it is known
//! here what its verdict's line is, and what is told where there is no pair.
#![tactic(auto)]

mod lines;
mod telling;
mod texts;

pub use lines::{
    agrees_line, demo_line, different_line, differs_line, equivalent_line, push_numbers,
    reduced_line, undecided_head,
};
pub use telling::{
    name_of, tell, tell_fault, tell_line_fault, tell_unpaired, tell_unread, tell_unstored,
    unpaired_status,
};
pub use texts::{write_about_file, write_differ, write_fault, write_line_fault};
