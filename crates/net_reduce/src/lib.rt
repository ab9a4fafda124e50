//! A netlist without its equal signals. Of each class of signals that the greatest correspondence shows equal, up to complement,
//! the least stays, and stands for the others wherever these are used. (C.A.J. van Eijk, IEEE TCAD 19(7), 2000; ABC calls it
//! `scorr`.) The classes are found for a pair of the netlist and its stub, which has no signals of its own. The netlist and what
//! it is reduced to agree in every frame of every run.
#![tactic(auto)]

mod copying;
mod reducing;
mod stubs;
mod table;

pub use reducing::reduce;
pub use stubs::stub;
