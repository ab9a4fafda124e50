//! The desk of a run of workers: one board behind a lock, with ledgers that tell how often each worker ended, and how many pairs it
//! answered. A worker claims its pairs from a word, past the lock, and calls the desk from a seat. When all seats are back, the
//! ledgers' totals say that each worker was told once that each pair is counted.
#![tactic(auto)]

mod caller;
mod desk;
mod seat;
mod separated;

pub use caller::{Caller, Ticket};
pub use desk::{Asked, Desk, Request};
pub use seat::{Blanks, Ledgers, Seat, seats};
pub use separated::Separated;
