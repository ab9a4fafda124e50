//! The places that two places of a frame come down to, met by an explicit stack.

use product_machine::Cell;
use std::alloc::{AllocError, Global};

/// The places that two places come down to in their frame, and they themselves.
#[derive(Drop)]
pub(crate) struct Cone {
    // by place: the turn in which it was met
    met: Vec<u32>,
    turn: u32,
    stack: Vec<u32>,
    pub places: Vec<u32>,
}

impl Cone {
    pub(crate) fn new(alloc: Global, places: u32) -> Result<Cone, AllocError> {
        Ok(Cone {
            met: vec![in alloc; 0; places as usize]?,
            turn: 0,
            stack: Vec::new(alloc),
            places: Vec::new(alloc),
        })
    }

    /// Forgets what was met.
    pub(crate) fn clear(&mut self) {
        self.stack.clear();
        self.places.clear();
        self.turn = self.turn.wrapping_add(1);
        if self.turn == 0 {
            self.met.fill(0);
            self.turn = 1;
        }
    }

    /// Meets a place.
    pub(crate) fn meet(&mut self, place: u32) -> Result<(), AllocError> {
        let row = place as usize;
        if row < self.met.len() && self.met[row] != self.turn {
            self.met[row] = self.turn;
            self.stack.push(place)?;
            self.places.push(place)?;
        }
        Ok(())
    }

    /// Meets what stands below those that were met.
    pub(crate) fn descend(&mut self, cells: &[Cell]) -> Result<(), AllocError> {
        for _ in 0..cells.len() {
            let Some(place) = self.stack.pop() else {
                return Ok(());
            };
            if (place as usize) < cells.len() {
                self.meet_below(cells[place as usize])?;
            }
        }
        Ok(())
    }

    fn meet_below(&mut self, cell: Cell) -> Result<(), AllocError> {
        match cell {
            Cell::Product(left, right) => {
                self.meet(left.var())?;
                self.meet(right.var())
            }
            _ => Ok(()),
        }
    }
}
