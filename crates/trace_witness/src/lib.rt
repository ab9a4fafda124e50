//! Traces: paths that are runs of a pair of netlists, as a text, read again and replayed. The text has the form of an
//! AIGER 1.9 witness (Biere, Heljanko, Wieringa, 2011), with outputs in the place of bad-state properties.
#![tactic(auto)]

mod bits;
mod fault;
mod read;
mod replay;
mod write;

pub use fault::{TraceError, TraceFault, TraceKind};
pub use read::{Trace, read_trace};
pub use replay::first_difference;
pub use write::write_trace;
