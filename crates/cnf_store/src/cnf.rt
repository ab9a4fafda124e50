//! A formula in conjunctive normal form. Variables and clauses are counted from 1, as in DIMACS.

ghost use Rattle.std.specs.Prelude.{◌≡◌, ◌≤◌, ◌<◌, ◌+◌, ◌-◌, ◌++◌, ◌∷◌, [], IsOk, IfOk, OnOk, OnErr, length, take, slice_index_or};
ghost use Rattle.cnf_store.specs.Clauses.{Formula, IsFormula, AreLiterals, AreClauses};

use crate::arena::Arena;
use std::alloc::{AllocError, Global};
use std::marker::Model;

/// Clauses over so many variables, at most 2,147,483,647. Contracts see it as a number and a list of clauses.
#[derive(Drop)]
pub struct Cnf {
    vars: u32,
    clauses: Arena<i32>,
}

impl Model for Cnf {
    ghost use Rattle.cnf_store.specs.Clauses.{Formula, IsFormula};

    ghost Value = { Formula };

    ghost view = { λ c. record { vars = c.vars; clauses = c.clauses } };

    ghost invariant = { λ c. IsFormula (record { vars = c.vars; clauses = c.clauses }) };
}

impl Cnf {
    /// A formula without clauses, over variables 1 to `vars`.
    pub fn new(alloc: Global, vars: u32) -> Result<Cnf, AllocError>
        requires few { vars ≤ 2147483647 }
        ensures ok { IsOk result }
        ensures empty { IfOk result (λ c. c ≡ record { vars = vars; clauses = [] }) }
    {
        Ok(Cnf {
            vars,
            clauses: Arena::new(alloc),
        })
    }

    /// How many variables it has.
    pub fn vars(&self) -> u32
        ensures value { result ≡ self.now.vars }
        ensures formula { IsFormula self.now }
    {
        self.vars
    }

    /// Adds n variables after those that it has.
    pub fn add_vars(&mut self, n: u32)
        requires few { self.old.vars + n ≤ 2147483647 }
        ensures vars { self.new.vars ≡ self.old.vars + n }
        ensures clauses { self.new.clauses ≡ self.old.clauses }
    {
        self.vars += n;
    }

    /// Appends a clause. An `Err` changes nothing.
    pub fn add(&mut self, clause: &[i32]) -> Result<(), AllocError>
        requires literals { AreLiterals self.old.vars clause.now }
        ensures added { OnOk result (self.new ≡ record { vars = self.old.vars; clauses = self.old.clauses ++ clause.now ∷ [] }) }
        ensures unchanged { OnErr result (self.new ≡ self.old) }
    {
        self.clauses.add(clause)
    }

    /// Drops the clauses after the nth, and sets the number of variables.
    pub fn cut(&mut self, n: u64, vars: u32)
        requires few { vars ≤ 2147483647 }
        requires within { AreClauses vars (take n self.old.clauses) }
        ensures vars { self.new.vars ≡ vars }
        ensures clauses { self.new.clauses ≡ take n self.old.clauses }
    {
        keep(&mut self.clauses, n);
        self.vars = vars;
    }

    /// How many clauses it has.
    pub fn len(&self) -> u64
        ensures value { result ≡ length self.now.clauses }
        ensures formula { IsFormula self.now }
    {
        self.clauses.len() as u64
    }

    /// The literals of clause i, counted from 1.
    pub fn clause(&self, i: u64) -> &[i32]
        requires first { 0 < i }
        requires last { i ≤ length self.now.clauses }
        ensures value { result.now ≡ slice_index_or self.now.clauses (i - 1) [] }
        ensures literals { AreLiterals self.now.vars result.now }
    {
        self.clauses.get((i - 1) as usize)
    }
}

// Keeps the first n.
fn keep(clauses: &mut Arena<i32>, n: u64)
    ensures { clauses.new ≡ take n clauses.old }
{
    if n < clauses.len() as u64 {
        clauses.cut(n as usize);
    }
}
