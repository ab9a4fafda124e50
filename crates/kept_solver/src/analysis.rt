//! From a conflict to a chain of resolutions: back to the first literal of the level through which all paths from its decision go
//! (Marques-Silva and Sakallah, GRASP, 1996), and then on to the literals of lower levels whose reasons add nothing
//! (local minimisation: Beame, Kautz and Sabharwal, 2004; Sörensson and Biere, SAT 2009).

ghost use Rattle.std.specs.Prelude.{◌≡◌, ◌<◌, ◌≤◌, ◌*◌, length};

use crate::rows::{NONE, clause_in};
use crate::trail::Trail;
use implied_clauses::{Implied, Step, complement};
use std::alloc::{AllocError, Global};

/// A chain in the making.
#[derive(Drop)]
pub(crate) struct Analysis {
    /// The clause with which it begins.
    pub first: u32,
    /// The resolutions.
    pub steps: Vec<Step>,
    /// The variables that were met.
    pub met: Vec<u32>,
    // by variable: whether it was met
    seen: Vec<bool>,
    // how many of the highest level were met and aren't resolved yet; and the places of those that are lower, and lowest
    above: u32,
    lower: Vec<u32>,
    lowest: Vec<u32>,
}

impl Analysis {
    /// No chain.
    pub fn new(alloc: Global) -> Analysis {
        Analysis {
            first: NONE,
            steps: Vec::new(alloc),
            met: Vec::new(alloc),
            seen: Vec::new(alloc),
            above: 0,
            lower: Vec::new(alloc),
            lowest: Vec::new(alloc),
        }
    }

    /// Has room for so many variables.
    pub fn widen(&mut self, vars: usize) -> Result<(), AllocError> {
        for _ in self.seen.len()..vars {
            self.seen.push(false)?;
        }
        Ok(())
    }

    fn is_seen(&self, var: u32) -> bool {
        (var as usize) < self.seen.len() && self.seen[var as usize]
    }

    fn set_seen(&mut self, var: u32, is: bool) {
        if (var as usize) < self.seen.len() {
            self.seen[var as usize] = is;
        }
    }

    // Begins a chain with a clause, of which one variable stays as it is.
    fn begin(
        &mut self,
        store: &Implied,
        trail: &Trail,
        first: u32,
        stays: u32,
    ) -> Result<(), AllocError> {
        for i in 0..self.met.len() {
            if i < self.met.len() {
                let var = self.met[i];
                self.set_seen(var, false);
            }
        }
        self.met.clear();
        self.steps.clear();
        self.lower.clear();
        self.lowest.clear();
        self.above = 0;
        self.first = first;
        self.meet(clause_in(store, first), trail, stays)
    }

    // Meets the literals of a clause but for those of one variable.
    fn meet(&mut self, clause: &[u32], trail: &Trail, but: u32) -> Result<(), AllocError> {
        for lit in clause {
            let var = *lit / 2;
            if var != but && !self.is_seen(var) {
                self.set_seen(var, true);
                self.met.push(var)?;
                self.count(trail, var)?;
            }
        }
        Ok(())
    }

    // Counts a variable by its level.
    fn count(&mut self, trail: &Trail, var: u32) -> Result<(), AllocError> {
        let level = trail.level_of(var);
        if level == 0 {
            self.lowest.push(trail.place_of(var))?;
        } else if level == trail.level() {
            self.above = self.above.saturating_add(1);
        } else {
            self.lower.push(trail.place_of(var))?;
        }
        Ok(())
    }

    // Resolves with the clause that implied a literal.
    fn resolve(&mut self, store: &Implied, trail: &Trail, lit: u32) -> Result<(), AllocError> {
        let clause = trail.reason_of(lit / 2);
        self.steps.push(Step { pivot: lit, clause })?;
        self.meet(clause_in(store, clause), trail, lit / 2)
    }

    /// The chain of a clause that is false, of more than two levels.
    pub fn learn(
        &mut self,
        store: &Implied,
        trail: &Trail,
        conflict: u32,
    ) -> Result<(), AllocError> {
        self.begin(store, trail, conflict, NONE)?;
        for place in (trail.start()..trail.lits.len()).rev() {
            if self.above <= 1 {
                break;
            }
            let lit = trail.lit(place);
            if self.is_seen(lit / 2) {
                self.above -= 1;
                self.resolve(store, trail, lit)?;
            }
        }
        self.minimise(store, trail)
    }

    // Resolves what is lower and adds nothing, from the newest on, and then what is lowest.
    fn minimise(&mut self, store: &Implied, trail: &Trail) -> Result<(), AllocError> {
        self.lower.sort()?;
        for i in (0..self.lower.len()).rev() {
            if i < self.lower.len() {
                let lit = trail.lit(self.lower[i] as usize);
                if self.adds_nothing(store, trail, lit) {
                    self.resolve(store, trail, lit)?;
                }
            }
        }
        for i in 0..self.lowest.len() {
            if i < self.lowest.len() {
                let lit = trail.lit(self.lowest[i] as usize);
                self.resolve(store, trail, lit)?;
            }
        }
        Ok(())
    }

    // Whether all other literals of the clause that implied a literal were met, or stand on the lowest level.
    fn adds_nothing(&self, store: &Implied, trail: &Trail, lit: u32) -> bool {
        let reason = trail.reason_of(lit / 2);
        if reason == NONE {
            return false;
        }
        for other in clause_in(store, reason) {
            let var = *other / 2;
            if var != lit / 2 && !self.is_seen(var) && trail.level_of(var) != 0 {
                return false;
            }
        }
        true
    }

    /// The chain of a clause down to what was decided, in which one variable stays as it is.
    pub fn conclude(
        &mut self,
        store: &Implied,
        trail: &Trail,
        first: u32,
        stays: u32,
    ) -> Result<(), AllocError> {
        self.begin(store, trail, first, stays)?;
        for place in (0..trail.lits.len()).rev() {
            let lit = trail.lit(place);
            if self.is_seen(lit / 2) && trail.reason_of(lit / 2) != NONE {
                self.resolve(store, trail, lit)?;
            }
        }
        Ok(())
    }

    /// The chain by which a clause that implied a literal on the lowest level, where each such literal but this has a clause of its own,
    /// comes down to this literal.
    pub fn settle(&mut self, store: &Implied, trail: &Trail, lit: u32) -> Result<(), AllocError> {
        let first = trail.reason_of(lit / 2);
        self.steps.clear();
        self.first = first;
        for other in clause_in(store, first) {
            if *other != lit {
                self.steps.push(Step {
                    pivot: complement(*other),
                    clause: trail.reason_of(*other / 2),
                })?;
            }
        }
        Ok(())
    }
}
