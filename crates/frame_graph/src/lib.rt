//! The frames of a pair of netlists as literals of one hashed and-inverter graph: from reset, or after frames in which the
//! classes of a version are assumed, where each place is replaced by the least place of its class. A pair whose literals
//! are one passes with no question to a solver. (Van Eijk, IEEE TCAD 19(7), 2000; speculative reduction: H. Mony, J.
//! Baumgartner, A. Mishchenko, R. Brayton, DAC 2009.)
#![tactic(auto)]

mod cells;
mod frame;
mod frames;
mod laws;
mod leaf;
mod literals;
mod map;
mod own_literals;
mod places;
mod settling;

pub use laws::{both_halves, each_path_is_read, maps_stay};
pub use leaf::Leaf;
pub use map::FrameMap;
