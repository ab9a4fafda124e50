//! Which marked places of the trail analysis may drop: those whose literals follow from the other marked ones, through the
//! clauses that implied them (Sörensson and Eén, "MiniSat v1.13", 2005; Sörensson and Biere, SAT 2009). What was found of a
//! place is kept for the rest of the conflict, and the work is bounded, so that the hints of a learned clause stay few where
//! implications form long chains. No fact rests on what is answered here: it decides how short a learned clause gets.

use cnf_store::Clauses;
use std::alloc::{AllocError, Global};

/// How many literals of reasons are read for one conflict.
const MOST_READ: usize = 1000;

/// What was found of a place: whether its literal is redundant, as it follows from those at marked places.
#[derive(Clone, Copy, PartialEq, Eq)]
enum Redundancy {
    Nothing,
    Follows,
    Stays,
}

/// A place on the way down, and the next literal of its reason.
#[derive(Clone, Copy)]
struct Step {
    place: usize,
    next: usize,
}

/// What is known of the places below a conflict's level.
#[derive(Drop)]
pub struct Minimiser {
    found: Vec<Redundancy>,
    path: Vec<Step>,
    left: usize,
}

impl Minimiser {
    /// Knows of no place.
    pub fn new(alloc: Global) -> Minimiser {
        Minimiser {
            found: Vec::new(alloc),
            path: Vec::new(alloc),
            left: MOST_READ,
        }
    }

    /// Begins a conflict: nothing is known of this many places. It works in the memory of earlier conflicts.
    pub fn begin(&mut self, places: usize) -> Result<(), AllocError> {
        self.found.clear();
        self.left = MOST_READ;
        self.found.resize(places, Redundancy::Nothing)
    }

    /// Whether the literal at a place follows from those at marked places below it.
    pub fn follows(
        &mut self,
        db: &Clauses,
        reasons: &[u64],
        at: &[usize],
        seen: &[bool],
        place: usize,
    ) -> Result<bool, AllocError> {
        if found_of(&self.found, place) == Redundancy::Nothing {
            self.path.clear();
            self.path.push(Step { place, next: 0 })?;
            let mut left = self.left;
            'search: while left > 0 && self.path.len() > 0 {
                let read = self.advance(db, reasons, at, seen)?;
                left = (left - 1).saturating_sub(read);
            }
            self.left = left;
        }
        Ok(found_of(&self.found, place) == Redundancy::Follows)
    }

    // Goes on with the last place of the path, and says how many literals it read.
    fn advance(
        &mut self,
        db: &Clauses,
        reasons: &[u64],
        at: &[usize],
        seen: &[bool],
    ) -> Result<usize, AllocError> {
        let Some(step) = self.path.pop() else {
            return Ok(0);
        };
        let Some(clause) = reason_of(db, reasons, step.place) else {
            self.give_up(step.place);
            return Ok(0);
        };
        let next = first_open(clause, step, &self.found, at, seen);
        if next >= clause.len() {
            note(&mut self.found, step.place, Redundancy::Follows);
        } else {
            self.descend(step.place, next, clause[next], at)?;
        }
        Ok(next.saturating_sub(step.next))
    }

    // Goes on with the place of a literal of this one's reason, where it may follow.
    fn descend(
        &mut self,
        place: usize,
        next: usize,
        lit: u32,
        at: &[usize],
    ) -> Result<(), AllocError> {
        let lower = place_of(lit, at);
        if lower >= place || found_of(&self.found, lower) == Redundancy::Stays {
            self.give_up(place);
            return Ok(());
        }
        self.path.push(Step { place, next })?;
        self.path.push(Step {
            place: lower,
            next: 0,
        })?;
        Ok(())
    }

    // This place and those of the path stay.
    fn give_up(&mut self, place: usize) {
        note(&mut self.found, place, Redundancy::Stays);
        for step in &self.path {
            note(&mut self.found, step.place, Redundancy::Stays);
        }
        self.path.clear();
    }
}

// What was found of a place.
fn found_of(found: &[Redundancy], place: usize) -> Redundancy {
    if place < found.len() {
        found[place]
    } else {
        Redundancy::Stays
    }
}

// Writes what was found of a place.
fn note(found: &mut [Redundancy], place: usize, what: Redundancy) {
    if place < found.len() {
        found[place] = what;
    }
}

// The clause that implied the literal at a place.
fn reason_of<'d>(db: &'d Clauses, reasons: &[u64], place: usize) -> Option<&'d [u32]> {
    if place >= reasons.len() {
        return None;
    }
    let reason = reasons[place] as usize;
    if reason == 0 || reason > db.len() {
        return None;
    }
    Some(db.get(reason - 1))
}

// Where a literal's variable stands; past every place where it doesn't.
fn place_of(lit: u32, at: &[usize]) -> usize {
    let var = lit as usize / 2;
    if var < at.len() && at[var] > 0 {
        at[var] - 1
    } else {
        usize::MAX
    }
}

// The first literal, from the step's next on, of which it isn't known that it follows from marked places.
fn first_open(
    clause: &[u32],
    step: Step,
    found: &[Redundancy],
    at: &[usize],
    seen: &[bool],
) -> usize {
    for n in step.next..clause.len() {
        if is_open(clause[n], step.place, found, at, seen) {
            return n;
        }
    }
    clause.len()
}

// Whether a literal of a place's reason is another that isn't known to follow.
fn is_open(lit: u32, place: usize, found: &[Redundancy], at: &[usize], seen: &[bool]) -> bool {
    let lower = place_of(lit, at);
    if lower == place || (lower < seen.len() && seen[lower]) {
        return false;
    }
    found_of(found, lower) != Redundancy::Follows
}
