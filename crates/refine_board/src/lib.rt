//! The board of partition refinement that workers share: which needed pairs are open, out or counted, and a journal of every
//! call. At each moment the board is the replay of its journal, and every journal that is legal, whoever made its calls and
//! in whatever order, ends at the classes of the greatest correspondence.
#![tactic(auto)]

mod answers;
mod board;
mod closing;
mod history;
mod journal;
mod laws;
mod looking;
mod marks;
mod run;
mod same;
mod steps;
mod touched;

pub use answers::{Claimed, Cut, Kept, Look, Offer, Pass, Take};
pub use board::Board;
pub use closing::finish;
pub use history::replay;
pub use journal::{Entry, Journal, LaidRow, Step};
pub use laws::any_schedule;
pub use marks::{LastOffer, Mark};
pub use run::Run;
