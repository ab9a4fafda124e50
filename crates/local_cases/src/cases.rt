//! Cases, one after another: the clauses of the one at hand, the solver that refutes it, and what it leaves to the next.

ghost use Rattle.std.specs.Prelude.{◌≡◌, [], IfOk, IfSome, length};
ghost use Rattle.sat_log.specs.Derivations.{IsAccepted};

use crate::definitions::{Definition, Definitions};
use crate::local::Local;
use crate::refuter::Refuter;
use crate::shorts::Shorts;
use cnf_store::Cnf;
use sat_log::Log;
use std::alloc::{AllocError, Global};
use std::marker::Model;

/// The case at hand over the clauses that it rests on, with what defines the frames' variables, and short lines of earlier cases. Contracts
/// see it as the case's clauses, over variables of their own.
#[derive(Drop)]
pub struct LocalCases {
    definitions: Definitions,
    first: i32,
    second: i32,
    local: Local,
    shorts: Shorts,
    solver: Refuter,
    row: Vec<u32>,
}

impl Model for LocalCases {
    ghost use Rattle.std.specs.Prelude.{◌≡◌, []};
    ghost use Rattle.cnf_store.specs.Clauses.{Formula};

    ghost Value = { Formula };

    ghost view = { λ c. c.local.cnf };

    ghost invariant = { λ c. c.solver ≡ record { vars = 0; clauses = [] } };
}

// A solver of clauses that share none.
fn solver_of(alloc: Global) -> Result<Refuter, AllocError>
    ensures { IfOk result (λ solver. solver ≡ record { vars = 0; clauses = [] }) }
{
    let none = Cnf::new(alloc, 0)?;
    Refuter::new(alloc, &none)
}

// The clauses of a case, and short lines: none yet, over so many variables.
fn none_of(alloc: Global, vars: u32) -> Result<(Local, Shorts), AllocError> {
    let local = Local::new(alloc, vars)?;
    match Shorts::new(alloc, vars) {
        Ok(shorts) => Ok((local, shorts)),
        Err(error) => {
            drop(local);
            Err(error)
        }
    }
}

// No case was asked yet, where this is what defines variables.
fn with_solver(
    alloc: Global,
    definitions: Definitions,
    vars: u32,
) -> Result<LocalCases, AllocError> {
    let solver = match solver_of(alloc) {
        Ok(solver) => solver,
        Err(error) => {
            drop(definitions);
            return Err(error);
        }
    };
    match none_of(alloc, vars) {
        Ok((local, shorts)) => Ok(LocalCases {
            definitions,
            first: 0,
            second: 0,
            local,
            shorts,
            solver,
            row: Vec::new(alloc),
        }),
        Err(error) => {
            drop(definitions);
            drop(solver);
            Err(error)
        }
    }
}

// The activities of the members with which the solver is to begin; the first two, of the case's own literals, as the most active.
fn fill_row(local: &Local, shorts: &Shorts, row: &mut Vec<u32>) -> Result<(), AllocError> {
    row.clear();
    for j in 0..local.members.len() {
        let activity = shorts.activity(local.member(j));
        row.push(if j < 2 { u32::MAX } else { activity })?;
    }
    Ok(())
}

// Takes in the activities that the solver left.
fn take_activities(local: &Local, solver: &Refuter, shorts: &mut Shorts) {
    for j in 0..local.members.len() {
        shorts.set_activity(local.member(j), solver.activity(j));
    }
}

impl LocalCases {
    /// No case was asked yet, over these frames.
    pub fn new(alloc: Global, frames: &Cnf) -> Result<LocalCases, AllocError> {
        let definitions = Definitions::new(alloc, frames)?;
        with_solver(alloc, definitions, frames.vars())
    }

    /// Begins a case: the variables of its two literals alone, and no clauses.
    pub fn begin(&mut self, first: i32, second: i32) -> Result<(), AllocError> {
        self.first = first;
        self.second = second;
        self.local.begin(first, second)
    }

    /// The two literals of the case.
    pub fn literals(&self) -> (i32, i32) {
        (self.first, self.second)
    }

    /// How many variables there are at most.
    pub fn most(&self) -> usize {
        self.definitions.len()
    }

    /// The variable of a member, counted from 0 in the order in which they were met.
    pub fn member(&self, j: usize) -> Option<u32> {
        if j < self.local.members.len() {
            Some(self.local.member(j))
        } else {
            None
        }
    }

    /// Adds that a variable is equal to a literal, by two clauses with these numbers: that it needs that, and that it is given by it.
    pub fn equate(&mut self, var: i32, lit: i32, needs: u64, given: u64) -> Result<(), AllocError> {
        self.local.equate(var, lit, needs, given)
    }

    /// Adds what defines a variable in the frames.
    pub fn define(&mut self, var: u32) -> Result<(), AllocError> {
        let own = i32::try_from(var).unwrap_or(0);
        let what = self.definitions.of(var);
        self.local.define(own, what)
    }

    /// Adds the short lines of a log over the members, past so many clauses that are given.
    pub fn recall(&mut self, log: &Log, given: u64) -> Result<(), AllocError> {
        self.local.recall(&self.shorts, log, given)
    }

    /// Adds the two clauses that the case's literals hold, which come last.
    pub fn end(&mut self) -> Result<(), AllocError> {
        self.local.add(&[self.first], 0)?;
        self.local.add(&[self.second], 0)
    }

    /// A refutation of the case's clauses; none where they are satisfiable.
    pub fn refute(&mut self, alloc: Global) -> Result<Option<Log>, AllocError>
        ensures log { IfOk result (λ o. IfSome o (IsAccepted self.old)) }
        ensures clauses { self.new ≡ self.old }
    {
        fill_row(&self.local, &self.shorts, &mut self.row)?;
        self.solver.begin_with(self.row.as_slice())?;
        let found = self.solver.refute(alloc, &self.local.cnf)?;
        take_activities(&self.local, &self.solver, &mut self.shorts);
        Ok(found)
    }

    /// How many clauses the case has.
    pub fn len(&self) -> u64
        ensures { result ≡ length self.now.clauses }
    {
        self.local.cnf.len()
    }

    /// The frames' literal for one of the case's clauses.
    pub fn literal(&self, lit: i32) -> i32 {
        self.local.literal(lit)
    }

    /// The number in the frames of a clause of the case, counted from 1.
    pub fn source(&self, number: u64) -> u64 {
        self.local.source(number)
    }

    /// The number of the frames' clause that states a literal alone; 0 where none does.
    pub fn stated(&self, lit: i32) -> u64 {
        match self.definitions.of(lit.unsigned_abs()) {
            Definition::Stated(number, own) => { if own == lit { number } else { 0 } }
            _ => 0,
        }
    }

    /// Takes in a line that rests on clauses of the frames alone, for later cases, where it is short.
    pub fn note(&mut self, clause: &[i32], number: u64) -> Result<(), AllocError> {
        self.shorts.note(clause, number)
    }
}
