//! Cases over what they rest on, where a place that is derived to be equal to its class's least stands for no gate.

use crate::lemmas::Lemmas;
use crate::lines::Lines;
use crate::places::Derived;
use crate::taking::{Hinted, Refuted, of_frames};
use class_partition::Classes;
use local_cases::LocalCases;
use sat_log::Log;
use std::alloc::{AllocError, Global};

impl Refuted for LocalCases {
    fn clauses(&self) -> u64 {
        self.len()
    }

    // Its last two clauses are those of its literals.
    fn hinted(&self, hint: u64) -> Hinted {
        let total = self.len();
        if hint > total {
            Hinted::Line(hint - total - 1)
        } else if hint == total {
            Hinted::Second
        } else if hint + 1 == total {
            Hinted::First
        } else {
            let (first, second) = self.literals();
            of_frames(self.source(hint), (self.stated(first), self.stated(second)))
        }
    }

    fn literal_of(&self, lit: i32) -> i32 {
        self.literal(lit)
    }

    fn both(&self) -> (i32, i32) {
        self.literals()
    }
}

// Takes in the lines from line `start` on that rest on neither of a case's literals.
fn note_lines(cases: &mut LocalCases, lines: &Lines, start: u64) -> Result<(), AllocError> {
    for i in start..lines.log.len() {
        if !lines.rests(i - start) {
            cases.note(lines.log.clause(i), i + 1)?;
        }
    }
    Ok(())
}

impl Lemmas {
    /// Derives it over what it rests on, where it can: a case and then the other. Answers whether it did.
    pub(crate) fn derive_locally(
        &mut self,
        alloc: Global,
        classes: &Classes,
        place: u32,
    ) -> Result<bool, AllocError> {
        let (x, y) = self.places.literals_of(classes, place);
        let least = self.refute_locally(alloc, classes, place, (x, y.wrapping_neg()))?;
        if least == 0 {
            return Ok(false);
        }
        let other = self.refute_locally(alloc, classes, place, (x.wrapping_neg(), y))?;
        if other == 0 {
            return Ok(false);
        }
        let lines = Derived {
            least,
            place: other,
        };
        self.places.set_derived(place, lines);
        Ok(true)
    }

    // What is known of a variable of which a place's case is asked: what it is derived to be equal to, or what defines it.
    fn define(&mut self, classes: &Classes, place: u32, var: u32) -> Result<(), AllocError> {
        let own = i32::try_from(var).unwrap_or(0);
        let base = self.places.base;
        let at = var.saturating_sub(base).saturating_sub(1);
        if var > base && at != place {
            let known = self.places.derived_at(at);
            if known.least != 0 && known.place != 0 {
                let (x, y) = self.places.literals_of(classes, at);
                let lit = if y == own { x } else { x.wrapping_neg() };
                let up = self.lines.given.saturating_add(known.place);
                let down = self.lines.given.saturating_add(known.least);
                if y == own {
                    return self.cases.equate(own, lit, up, down);
                }
                return self.cases.equate(own, lit, down, up);
            }
        }
        self.cases.define(var)
    }

    // Lays the clauses on which a case of a place rests.
    fn lay(&mut self, classes: &Classes, place: u32, case: (i32, i32)) -> Result<(), AllocError> {
        let (first, second) = case;
        self.cases.begin(first, second)?;
        for j in 0..self.cases.most() {
            let Some(var) = self.cases.member(j) else {
                break;
            };
            self.define(classes, place, var)?;
        }
        self.cases.recall(&self.lines.log, self.lines.given)?;
        self.cases.end()
    }

    // Derives that not both of a case's literals hold, over what it rests on, and answers the number of the line, or 0.
    fn refute_locally(
        &mut self,
        alloc: Global,
        classes: &Classes,
        place: u32,
        case: (i32, i32),
    ) -> Result<u64, AllocError> {
        self.lay(classes, place, case)?;
        match self.cases.refute(alloc)? {
            Some(log) => self.take_locally(alloc, log),
            None => Ok(0),
        }
    }

    // Takes over the lines that its refutation needs.
    fn take_locally(&mut self, alloc: Global, log: Log) -> Result<u64, AllocError> {
        let start = self.lines.log.len();
        let last = self.lines.take_over(alloc, &self.cases, log)?;
        note_lines(&mut self.cases, &self.lines, start)?;
        Ok(last)
    }
}
