//! Derivations: what a solver logs when it finds that no assignment satisfies, line by line as in LRAT.
//!
//! The definitions stand in specs/Derivations: when a line follows from the clauses before it, and when a log is accepted.
//! A log's text stands in specs/Texts and specs/Parts, as functions of the text's lines and of a line's words; what is written
//! is read again.
#![tactic(auto)]

mod laws;
mod log;
mod part;
mod read;
mod text;
mod words;
mod write;

pub use laws::accepted_logs_refute;
pub use log::Log;
pub use part::{PartEnd, Stop, read_part};
pub use read::read_step;
pub use text::{LogError, LogFault, read_log, write_log};
pub use words::literal_word;
pub use write::write_step;
