//! Classes of signals as text: the names of signals, and a line for each class of two or more, by the names of its members.
//!
//! The text is a function of the pair and the classes, in specs/ClassLines.
#![tactic(auto)]

mod lines;
mod names;

pub use lines::push_class_lines;
pub use names::push_name;
