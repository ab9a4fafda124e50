//! The words of a run: which command they are, with which files and options.
#![tactic(auto)]

mod app;
mod command;
mod read;
mod taken;

pub use command::{
    Batch, Check, CheckOptions, Climb, Command, Demo, Reduce, Replay, Verify, WordsFault,
};
pub use read::read_words;
