//! Where files come from and where text goes: shelves of named files and sinks of bytes, each with a count of its
//! faults. Code over them can give up only where such a count rose, so a body that fails by itself is refused.
//! With them stand shelves and sinks in memory for tests, sure ones that never fail, and the adapters over real
//! files and streams.
#![tactic(auto)]

mod fault;
mod files;
mod gate;
mod mem_shelf;
mod mem_sink;
mod number;
mod real;
mod shelf;
mod sink;
mod sure;
mod text;

pub use fault::{Failed, LoadFault, Memory, StoreFault};
pub use gate::{FreeGate, Gate};
pub use mem_shelf::MemShelf;
pub use mem_sink::MemSink;
pub use number::write_number;
pub use real::{FsShelf, OutSink};
pub use shelf::Shelf;
pub use sink::Sink;
pub use sure::{SureShelf, SureSink};
pub use text::write_text;
