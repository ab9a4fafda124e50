//! The clauses on which a case rests, over variables of their own, so that its refutation costs what it rests on: as a SAT sweep asks of a
//! cone in which equal nodes are merged. A place that is known to be equal to the least of its class has that said, and its gate isn't
//! looked at. Which clauses are taken is a hint: a log that is made of them is checked where it is used.

use crate::definitions::Definition;
use crate::refuter::add_clause;
use crate::shorts::{Shorts, literals_of};
use cnf_store::Cnf;
use sat_log::Log;
use std::alloc::{AllocError, Global};

// So many variables at most.
const MOST: u32 = 2_000_000_000;

/// Members, each a variable of the frames with a number here; and clauses over these, each with its number there.
#[derive(Drop)]
pub(crate) struct Local {
    // by variable of the frames: the number that it had last
    numbers: Vec<u32>,
    pub members: Vec<u32>,
    pub cnf: Cnf,
    sources: Vec<u64>,
    clause: Vec<i32>,
}

// A literal with the sign of another.
fn signed_like(var: u32, lit: i32) -> i32 {
    let own = i32::try_from(var).unwrap_or(0);
    if lit < 0 { own.wrapping_neg() } else { own }
}

impl Local {
    /// No members, of so many variables.
    pub(crate) fn new(alloc: Global, vars: u32) -> Result<Local, AllocError> {
        let size = (vars as usize).saturating_add(1);
        let cnf = Cnf::new(alloc, 0)?;
        Ok(Local {
            numbers: vec![in alloc; 0; size]?,
            members: Vec::new(alloc),
            cnf,
            sources: Vec::new(alloc),
            clause: Vec::new(alloc),
        })
    }

    // No members.
    fn clear(&mut self) {
        self.members.clear();
        self.cnf.cut(0, 0);
        self.sources.clear();
    }

    /// The variables of two literals alone, and no clauses.
    pub(crate) fn begin(&mut self, first: i32, second: i32) -> Result<(), AllocError> {
        self.clear();
        self.meet(first)?;
        self.meet(second)?;
        Ok(())
    }

    /// Whether the variables of all literals are members.
    pub(crate) fn has_all(&self, clause: &[i32]) -> bool {
        for lit in clause {
            if self.known(lit.unsigned_abs()).is_none() {
                return false;
            }
        }
        true
    }

    /// The number of a variable here, counted from 0, where it is a member.
    pub(crate) fn known(&self, var: u32) -> Option<u32> {
        let at = var as usize;
        if at >= self.numbers.len() {
            return None;
        }
        let number = self.numbers[at];
        if (number as usize) < self.members.len() && self.members[number as usize] == var {
            Some(number)
        } else {
            None
        }
    }

    // The literal here for one of the frames, whose variable becomes a member.
    fn meet(&mut self, lit: i32) -> Result<i32, AllocError> {
        let var = lit.unsigned_abs();
        if let Some(number) = self.known(var) {
            return Ok(signed_like(number.saturating_add(1), lit));
        }
        let number = self.members.len().min(MOST as usize) as u32;
        if self.cnf.vars() >= MOST || var as usize >= self.numbers.len() {
            return Err(AllocError);
        }
        self.members.push(var)?;
        self.cnf.add_vars(1);
        self.numbers[var as usize] = number;
        Ok(signed_like(number.saturating_add(1), lit))
    }

    /// Adds a clause over the frames' variables, with its number there.
    pub(crate) fn add(&mut self, clause: &[i32], source: u64) -> Result<(), AllocError> {
        let mut own = 0;
        self.clause.clear();
        for lit in clause {
            own = self.meet(*lit)?;
            self.clause.push(own)?;
        }
        if own != 0 {
            add_clause(&mut self.cnf, &self.clause)?;
            self.sources.push(source)?;
        }
        Ok(())
    }

    /// Adds that a variable is equal to a literal, by two clauses.
    pub(crate) fn equate(
        &mut self,
        var: i32,
        lit: i32,
        needs: u64,
        given: u64,
    ) -> Result<(), AllocError> {
        self.add(&[var.wrapping_neg(), lit], needs)?;
        self.add(&[var, lit.wrapping_neg()], given)
    }

    /// Adds what defines a variable.
    pub(crate) fn define(&mut self, var: i32, what: Definition) -> Result<(), AllocError> {
        match what {
            Definition::Free => Ok(()),
            Definition::Stated(number, lit) => self.add(&[lit], number),
            Definition::Equal(needs, given, lit) => self.equate(var, lit, needs, given),
            Definition::Product(first, left, right) => {
                let needs = var.wrapping_neg();
                self.add(&[needs, left], first)?;
                self.add(&[needs, right], first.saturating_add(1))?;
                let both = [var, left.wrapping_neg(), right.wrapping_neg()];
                self.add(&both, first.saturating_add(2))
            }
        }
    }

    /// Adds the short lines of a log over the members, past so many clauses that are given.
    pub(crate) fn recall(
        &mut self,
        shorts: &Shorts,
        log: &Log,
        given: u64,
    ) -> Result<(), AllocError> {
        for j in 0..self.members.len() {
            let var = self.member(j);
            self.recall_at(shorts, log, given, var)?;
        }
        Ok(())
    }

    // Adds those of which a variable is the highest.
    fn recall_at(
        &mut self,
        shorts: &Shorts,
        log: &Log,
        given: u64,
        var: u32,
    ) -> Result<(), AllocError> {
        let mut at = shorts.last_at(var);
        for _ in 0..shorts.len() {
            let Some((number, before)) = shorts.line(at) else {
                return Ok(());
            };
            at = before;
            let clause = literals_of(log, number);
            if self.has_all(clause) {
                self.add(clause, given.saturating_add(number))?;
            }
        }
        Ok(())
    }

    /// The variable of a member, counted from 0; past the end none, 0.
    pub(crate) fn member(&self, j: usize) -> u32 {
        if j < self.members.len() {
            self.members[j]
        } else {
            0
        }
    }

    /// The frames' literal for one here.
    pub(crate) fn literal(&self, lit: i32) -> i32 {
        let at = lit.unsigned_abs().saturating_sub(1) as usize;
        if at < self.members.len() {
            signed_like(self.members[at], lit)
        } else {
            0
        }
    }

    /// The number in the frames of a clause here, counted from 1.
    pub(crate) fn source(&self, number: u64) -> u64 {
        let at = number.saturating_sub(1);
        if at < self.sources.len() as u64 {
            self.sources[at as usize]
        } else {
            0
        }
    }
}
