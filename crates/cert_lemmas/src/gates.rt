//! Gates of one frame that are equal since their operands are: so most needed pairs are, once those below them are derived, as a hashed
//! graph shows (Kuehlmann and Krohm, DAC 1997). The two lines of such a pair are written down, and no solver is asked.

ghost use Rattle.std.specs.Prelude.{◌≤◌, ◌<◌, length};

use circ_model::Lit;
use class_partition::Classes;
use cnf_store::Cnf;
use product_machine::Cell;
use std::alloc::{AllocError, Global};

/// A gate of the frame: its operands, each with the number of the clause that says that the gate needs it, and the number of the clause
/// that says that both give it.
#[derive(Clone, Copy)]
pub(crate) struct Gate {
    pub place: u32,
    pub left: Lit,
    pub needs_left: u64,
    pub right: Lit,
    pub needs_right: u64,
    pub given: u64,
}

// A gate with its operands the other way round.
fn turned(gate: &Gate) -> Gate {
    Gate {
        place: gate.place,
        left: gate.right,
        needs_left: gate.needs_right,
        right: gate.left,
        needs_right: gate.needs_left,
        given: gate.given,
    }
}

/// By place the number of the first of its gate's three clauses, or 0 where it has none.
#[derive(Drop)]
pub(crate) struct Gates {
    first: Vec<u64>,
}

// Notes the gate whose last clause is this one, if it is a gate's. The variables of the frame's places begin past `base`.
fn note_gate(frames: &Cnf, last: u64, base: u32, first: &mut [u64])
    requires some { 2 < last }
    requires within { last ≤ length frames.now.clauses }
{
    let left = frames.clause(last - 2);
    let right = frames.clause(last - 1);
    let given = frames.clause(last);
    if left.len() != 2 || right.len() != 2 || given.len() != 3 {
        return;
    }
    let own = given[0];
    if own <= 0 || left[0] != -own || right[0] != -own {
        return;
    }
    let at = (own as u32).saturating_sub(base).saturating_sub(1) as usize;
    if own as u32 > base && at < first.len() {
        first[at] = last - 2;
    }
}

// Whether two literals of a pair are of one class, at their relative phase.
fn are_paired(classes: &Classes, a: Lit, b: Lit) -> bool {
    if a.var() >= classes.len() || b.var() >= classes.len() {
        return false;
    }
    classes.paired(a, b)
}

// Whether the left operands of two gates are so, and the right ones.
fn has_paired(classes: &Classes, one: &Gate, other: &Gate) -> bool {
    are_paired(classes, one.left, other.left) && are_paired(classes, one.right, other.right)
}

impl Gates {
    /// The gates of a frame whose variables begin past `base`, among the clauses of frames.
    pub(crate) fn new(
        alloc: Global,
        frames: &Cnf,
        places: u32,
        base: u32,
    ) -> Result<Gates, AllocError> {
        let mut first = vec![in alloc; 0; places as usize]?;
        let total = frames.len();
        for before in 2..total {
            note_gate(frames, before + 1, base, first.as_mut_slice());
        }
        Ok(Gates { first })
    }

    // The gate at a place.
    fn at(&self, cells: &[Cell], place: u32) -> Option<Gate> {
        let at = place as usize;
        if at >= cells.len() || at >= self.first.len() || self.first[at] == 0 {
            return None;
        }
        let first = self.first[at];
        match cells[at] {
            Cell::Product(left, right) => Some(Gate {
                place,
                left,
                needs_left: first,
                right,
                needs_right: first.saturating_add(1),
                given: first.saturating_add(2),
            }),
            _ => None,
        }
    }

    /// The gates of a class's least place and of another place, where their operands are pairwise of one class: each left one and each
    /// right one.
    pub(crate) fn twins(
        &self,
        cells: &[Cell],
        classes: &Classes,
        least: u32,
        place: u32,
    ) -> Option<(Gate, Gate)> {
        let one = self.at(cells, least)?;
        let other = self.at(cells, place)?;
        if has_paired(classes, &one, &other) {
            return Some((one, other));
        }
        let turn = turned(&other);
        if has_paired(classes, &one, &turn) {
            Some((one, turn))
        } else {
            None
        }
    }
}
