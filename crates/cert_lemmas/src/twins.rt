//! Gates with operands of one class each: their lines are written down.

use crate::gates::Gate;
use crate::lemmas::Lemmas;
use crate::places::Derived;
use circ_model::Lit;
use class_partition::Classes;
use product_machine::Cell;
use std::alloc::{AllocError, Global};

impl Lemmas {
    /// Derives it where both are gates with operands of one class each, as far as what links these is derived. Answers whether it did.
    pub(crate) fn derive_twins(
        &mut self,
        cells: &[Cell],
        classes: &Classes,
        place: u32,
    ) -> Result<bool, AllocError> {
        let least = self.places.least_of(classes, place);
        if self.places.is_turned(classes, place) {
            return Ok(false);
        }
        let Some((one, other)) = self.gates.twins(cells, classes, least, place) else {
            return Ok(false);
        };
        let down = self.derive_from(classes, &one, &other)?;
        let up = self.derive_from(classes, &other, &one)?;
        if down == 0 || up == 0 {
            return Ok(false);
        }
        let lines = Derived {
            least: down,
            place: up,
        };
        self.places.set_derived(place, lines);
        Ok(true)
    }

    // Derives that one gate gives another, whose operands its own give. Answers the number of the line, or 0.
    fn derive_from(
        &mut self,
        classes: &Classes,
        from: &Gate,
        to: &Gate,
    ) -> Result<u64, AllocError> {
        if from.place > 0x7fff_ffff || to.place > 0x7fff_ffff {
            return Ok(0);
        }
        self.lines
            .assume(Lit::of(from.place, false), Lit::of(to.place, true))?;
        let left = self.lines.give(from.needs_left, from.left)?;
        let right = self.lines.give(from.needs_right, from.right)?;
        if !left || !right {
            return Ok(0);
        }
        let left = self.carry(classes, from.left, to.left)?;
        let right = self.carry(classes, from.right, to.right)?;
        if !left || !right {
            return Ok(0);
        }
        let one = self.places.literal(from.place, true);
        let other = self.places.literal(to.place, false);
        if from.place < to.place {
            self.lines.end_line(to.given, one, other)
        } else {
            self.lines.end_line(to.given, other, one)
        }
    }

    // Goes from a literal that is assumed to another of its class, over the class's least place. Answers whether it came there.
    fn carry(&mut self, classes: &Classes, from: Lit, to: Lit) -> Result<bool, AllocError> {
        let least = self.places.least_literal(classes, from);
        let there = self.step(classes, from, from, least)?;
        let back = self.step(classes, to, least, to)?;
        Ok(there && back)
    }

    // Gives a literal by the line that says so of a place and the least of its class: of the literal's place and the other of the two.
    fn step(&mut self, classes: &Classes, of: Lit, from: Lit, to: Lit) -> Result<bool, AllocError> {
        if from == to {
            return Ok(true);
        }
        let known = self.places.derived_at(of.var());
        if known.least == 0 || known.place == 0 {
            return Ok(false);
        }
        let has_value = of.complement() == self.places.is_turned(classes, of.var());
        let line = if has_value == (of == from) {
            known.place
        } else {
            known.least
        };
        let hint = self.lines.given.saturating_add(line);
        self.lines.give(hint, to)
    }
}
