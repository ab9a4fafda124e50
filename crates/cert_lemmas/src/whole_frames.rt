//! Cases over all clauses of the frames, and the two clauses of each place of the cone of which they are derived.

use crate::lemmas::Lemmas;
use crate::lines::number_at;
use crate::places::{Derived, Places};
use crate::taking::{Hinted, Refuted, of_frames};
use class_partition::Classes;
use cnf_store::Cnf;
use local_cases::add_clause;
use product_machine::Cell;
use std::alloc::{AllocError, Global};

// A formula without clauses.
fn no_clauses(alloc: Global, vars: u32) -> Result<Cnf, AllocError> {
    if vars <= 2147483647 {
        Cnf::new(alloc, vars)
    } else {
        Cnf::new(alloc, 2147483647)
    }
}

// A case: that two literals hold, and the numbers of the frames' clauses that state them, or 0. The clauses beside those of the frames,
// so many as are given, are the two, and then those of earlier lines.
#[derive(Drop)]
struct Case {
    given: u64,
    first: i32,
    second: i32,
    stated: (u64, u64),
    own: Cnf,
    lines: Vec<u64>,
}

impl Refuted for Case {
    fn clauses(&self) -> u64 {
        self.given.saturating_add(self.own.len())
    }

    fn hinted(&self, hint: u64) -> Hinted {
        if hint <= self.given {
            return of_frames(hint, self.stated);
        }
        let past = hint - self.given;
        let own = self.own.len();
        if past == 1 {
            Hinted::First
        } else if past == 2 {
            Hinted::Second
        } else if past <= own {
            let line = number_at(&self.lines, past - 3);
            Hinted::Clause(self.given.saturating_add(line))
        } else {
            Hinted::Line(past - own - 1)
        }
    }

    fn literal_of(&self, lit: i32) -> i32 {
        lit
    }

    fn both(&self) -> (i32, i32) {
        (self.first, self.second)
    }
}

impl Case {
    // Adds the two clauses that its literals hold.
    fn add_literals(&mut self) -> Result<(), AllocError> {
        add_clause(&mut self.own, &[self.first])?;
        add_clause(&mut self.own, &[self.second])
    }
}

impl Places {
    // Adds what is derived of the places of the cone.
    fn add_known(&self, classes: &Classes, place: u32, case: &mut Case) -> Result<(), AllocError> {
        for q in &self.cone.places {
            let known = self.derived_at(*q);
            if *q != place && known.least != 0 && known.place != 0 {
                let (x, y) = self.literals_of(classes, *q);
                add_clause(&mut case.own, &[x.wrapping_neg(), y])?;
                case.lines.push(known.least)?;
                add_clause(&mut case.own, &[x, y.wrapping_neg()])?;
                case.lines.push(known.place)?;
            }
        }
        Ok(())
    }
}

impl Lemmas {
    /// Derives that a place and the least of its class are equal, over what is derived of the places of their cone.
    pub(crate) fn derive_whole(
        &mut self,
        alloc: Global,
        cells: &[Cell],
        classes: &Classes,
        place: u32,
    ) -> Result<(), AllocError> {
        let least = self.places.least_of(classes, place);
        self.places.cone.clear();
        self.places.cone.meet(place)?;
        self.places.cone.meet(least)?;
        self.places.cone.descend(cells)?;
        let (x, y) = self.places.literals_of(classes, place);
        let least = self.derive_case(alloc, classes, place, x, y.wrapping_neg())?;
        let other = self.derive_case(alloc, classes, place, x.wrapping_neg(), y)?;
        let lines = Derived {
            least,
            place: other,
        };
        self.places.set_derived(place, lines);
        Ok(())
    }

    // Derives that not both of two literals hold, and answers the number of the line, or 0.
    fn derive_case(
        &mut self,
        alloc: Global,
        classes: &Classes,
        place: u32,
        first: i32,
        second: i32,
    ) -> Result<u64, AllocError> {
        let mut case = Case {
            given: self.lines.given,
            first,
            second,
            stated: (self.cases.stated(first), self.cases.stated(second)),
            own: no_clauses(alloc, self.refuter.vars())?,
            lines: Vec::new(alloc),
        };
        let derived = self.derive_in(alloc, classes, place, &mut case);
        drop(case);
        derived
    }

    fn derive_in(
        &mut self,
        alloc: Global,
        classes: &Classes,
        place: u32,
        case: &mut Case,
    ) -> Result<u64, AllocError> {
        case.add_literals()?;
        self.places.add_known(classes, place, case)?;
        match self.refuter.refute(alloc, &case.own)? {
            None => Ok(0),
            Some(log) => self.lines.take_over(alloc, case, log),
        }
    }
}
