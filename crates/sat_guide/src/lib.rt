//! What guides the search of a solver that learns clauses: which clauses to look at when a literal falls, which variable to
//! decide next and how, which literals a learned clause can do without, when to restart, and which learned clauses to go on
//! watching.
//!
//! The design is MiniSat's (Eén and Sörensson, SAT 2003): two watched literals with blocking literals, a heap of variables by
//! activity, saved phases; with restarts and a choice of clauses by the levels that these spread over, as in Glucose (Audemard and
//! Simon, IJCAI 2009). All of it is advice: a solver reads again what it is led to, so no fact rests on anything here, and the
//! contracts say no more than that each call is safe and returns.
#![tactic(auto)]

mod cone;
mod guide;
mod hints;
mod minimising;
mod ordering;
mod pace;
mod spread;
mod uses;
mod watches;

pub use cone::Near;
pub use guide::Guide;
pub use hints::Hints;
pub use minimising::Minimiser;
pub use ordering::Order;
pub use pace::Pace;
pub use spread::spread_of;
pub use uses::Uses;
pub use watches::{Sweep, Watches};
