//! What defines the variables of frames, read off their clauses: a gate's three (Tseitin), or two that say that a variable is equal to
//! a literal of a lower one, as a latch is to its next literal in the frame before, and a place to the least of its class where the
//! classes hold. What stands last in the clauses counts. A hint: nothing here is trusted.

ghost use Rattle.std.specs.Prelude.{◌≤◌, ◌<◌, length};

use cnf_store::Cnf;
use std::alloc::{AllocError, Global};

/// What a variable is, with the numbers of the clauses that say so.
#[derive(Clone, Copy)]
pub(crate) enum Definition {
    /// It is free.
    Free,
    /// It is as a literal of it says, which a clause states alone: the clause, and the literal.
    Stated(u64, i32),
    /// It is equal to a literal: the clause that it needs that, and the one that it is given by it.
    Equal(u64, u64, i32),
    /// It is the product of two literals: the first of its three clauses.
    Product(u64, i32, i32),
}

/// By variable, what it is.
#[derive(Drop)]
pub(crate) struct Definitions {
    of: Vec<Definition>,
}

// Sets what a variable is.
fn define(of: &mut [Definition], var: u32, what: Definition) {
    if (var as usize) < of.len() {
        of[var as usize] = what;
    }
}

// Where two clauses say that a variable is equal to a literal of a lower one.
fn note_equal(one: &[i32], other: &[i32], number: u64, of: &mut [Definition]) {
    if one.len() != 2 || other.len() != 2 {
        return;
    }
    if one[0].wrapping_neg() != other[0] || one[1].wrapping_neg() != other[1] {
        return;
    }
    let (own, lit) = if one[0].unsigned_abs() > one[1].unsigned_abs() {
        (one[0], one[1])
    } else {
        (one[1], one[0])
    };
    let after = number.saturating_add(1);
    let what = if own < 0 {
        Definition::Equal(number, after, lit)
    } else {
        Definition::Equal(after, number, lit.wrapping_neg())
    };
    define(of, own.unsigned_abs(), what);
}

// Where three clauses are those of a gate.
fn note_gate(left: &[i32], right: &[i32], given: &[i32], number: u64, of: &mut [Definition]) {
    if left.len() != 2 || right.len() != 2 || given.len() != 3 {
        return;
    }
    let needs = given[0].wrapping_neg();
    if given[0] > 0 && left[0] == needs && right[0] == needs {
        define(
            of,
            given[0].unsigned_abs(),
            Definition::Product(number, left[1], right[1]),
        );
    }
}

// Takes a clause in, with those before it.
fn note(frames: &Cnf, number: u64, of: &mut [Definition])
    requires some { 0 < number }
    requires within { number ≤ length frames.now.clauses }
{
    let clause = frames.clause(number);
    if clause.len() == 1 {
        let lit = clause[0];
        define(of, lit.unsigned_abs(), Definition::Stated(number, lit));
    }
    if number > 1 {
        note_equal(frames.clause(number - 1), clause, number - 1, of);
    }
    if number > 2 {
        let left = frames.clause(number - 2);
        note_gate(left, frames.clause(number - 1), clause, number - 2, of);
    }
}

impl Definitions {
    /// Of the variables of frames.
    pub(crate) fn new(alloc: Global, frames: &Cnf) -> Result<Definitions, AllocError> {
        let size = (frames.vars() as usize).saturating_add(1);
        let mut of = vec![in alloc; Definition::Free; size]?;
        let total = frames.len();
        for before in 0..total {
            note(frames, before + 1, of.as_mut_slice());
        }
        Ok(Definitions { of })
    }

    /// How many variables there are at most.
    pub(crate) fn len(&self) -> usize {
        self.of.len()
    }

    /// What a variable is.
    pub(crate) fn of(&self, var: u32) -> Definition {
        if (var as usize) < self.of.len() {
            self.of[var as usize]
        } else {
            Definition::Free
        }
    }
}
