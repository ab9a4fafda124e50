//! A solver over clauses that many cases share, which answers no more than a refutation.

ghost use Rattle.std.specs.Prelude.{◌≡◌, IfOk, IfSome};
ghost use Rattle.sat_core.specs.Answers.{joined};
ghost use Rattle.sat_log.specs.Derivations.{IsAccepted};

use cnf_store::Cnf;
use log_check::are_within;
use sat_core::{Answer, Ready, Workspace};
use sat_log::Log;
use std::alloc::{AllocError, Global};
use std::marker::Model;

/// Adds a clause, where its literals are of the formula's variables.
pub fn add_clause(own: &mut Cnf, literals: &[i32]) -> Result<(), AllocError>
    ensures { own.new.vars ≡ own.old.vars }
{
    if are_within(literals, own.vars()) {
        own.add(literals)
    } else {
        Ok(())
    }
}

/// A solver over shared clauses. Contracts see it as these.
#[derive(Drop)]
pub struct Refuter {
    vars: u32,
    ready: Ready,
    work: Workspace,
}

impl Model for Refuter {
    ghost use Rattle.std.specs.Prelude.{◌≡◌};
    ghost use Rattle.cnf_store.specs.Clauses.{Formula};

    ghost Value = { Formula };

    ghost view = { λ r. r.ready };

    ghost invariant = { λ r. r.ready.vars ≡ r.vars };
}

impl Refuter {
    /// A solver over these clauses.
    pub fn new(alloc: Global, shared: &Cnf) -> Result<Refuter, AllocError>
        ensures { IfOk result (λ r. r ≡ shared.now) }
    {
        Ok(Refuter {
            vars: shared.vars(),
            ready: Ready::new(alloc, shared)?,
            work: Workspace::new(),
        })
    }

    /// How many variables the shared clauses have.
    pub fn vars(&self) -> u32
        ensures { result ≡ self.now.vars }
    {
        self.vars
    }

    /// A refutation of the shared clauses with these, which have as many variables at least; none where they are satisfiable.
    pub fn refute(&mut self, alloc: Global, own: &Cnf) -> Result<Option<Log>, AllocError>
        ensures log { IfOk result (λ o. IfSome o (IsAccepted (joined self.old own.now))) }
        ensures shared { self.new ≡ self.old }
    {
        if own.vars() < self.vars {
            return Ok(None);
        }
        match self.ready.solve_in(alloc, &mut self.work, own)? {
            Answer::Unsat(log) => Ok(Some(log)),
            Answer::Sat(_) => Ok(None),
        }
    }

    /// Has the next question begin with these activities.
    pub fn begin_with(&mut self, activities: &[u32]) -> Result<(), AllocError>
        ensures { self.new ≡ self.old }
    {
        self.work.begin_with(activities)
    }

    /// How active a variable was in the last question.
    pub fn activity(&self, var: usize) -> u32 {
        self.work.activity(var)
    }
}
