//! Places that structural hashing shows to be equal in every state, up to complement: what a netlist has more than once. A pair of
//! them passes under any classes, so a proof of it outlives every split. (Structural hashing: A. Kuehlmann, F. Krohm, DAC 1997.)
#![tactic(auto)]

mod candidates;
mod shown;
mod twins;

pub use twins::twin_classes;
