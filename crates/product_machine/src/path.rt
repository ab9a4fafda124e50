//! Paths of a pair of netlists, in the memory of the program.
use bit_rows::{BitRow, Rows};
use std::marker::Model;

/// A start bit for each latch, the left netlist's first, and the rows of shared inputs, one for each frame. Contracts see
/// it as the definitions' path.
#[derive(Drop)]
pub struct Path {
    pub start: BitRow,
    pub inputs: Rows,
}

impl Model for Path {
    ghost use Rattle.circ_model.specs.Meaning.{Path as Steps};

    ghost Value = { Steps };

    ghost view = { λ p. record { start = p.start; inputs = p.inputs } };
}
