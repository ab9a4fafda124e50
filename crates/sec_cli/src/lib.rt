//! The program `sec` but for its `main`: the commands, their answers, and what becomes of them.
#![tactic(auto)]

mod batching;
mod checking;
mod climbing;
mod command;
mod counting;
mod delivering;
mod demo;
mod ending;
mod reducing;
mod replaying;
mod telling;
mod third;
mod verifying;

pub use command::{Report, run};
pub use ending::{Refusal, Reply};
pub use pair_files::{Side, Unpaired};
