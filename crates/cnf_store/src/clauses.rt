//! Clauses by codes, read where they stand: those that many questions share, a question's own, and what was learned of them.

ghost use Rattle.std.specs.Prelude.{◌≡◌, ◌≤◌, ◌<◌, ◌+◌, ◌^◌, ◌++◌, ◌∷◌, [], ℕ, List, IfOk, OnOk, OnErr, length, slice_index_or};

use crate::arena::Arena;
use std::alloc::AllocError;
use std::marker::Model;

/// The clauses of two arenas as one list: those that many questions share, then a question's own.
#[derive(Drop)]
pub struct Joined<'f> {
    shared: &'f Arena<u32>,
    own: &'f Arena<u32>,
    first: usize,
    count: usize,
}

impl<'f> Model for Joined<'f> {
    ghost use Rattle.std.specs.Prelude.{ℕ, List, ◌++◌};
    ghost use Rattle.cnf_store.specs.Joined.{AreCounted};

    ghost Value = { List (List ℕ) };

    ghost view = { λ f. f.shared.now ++ f.own.now };

    ghost invariant = { λ f. AreCounted f.shared.now f.own.now f.first f.count };
}

impl<'f> Joined<'f> {
    /// Both, where their clauses can be counted.
    pub fn new(shared: &'f Arena<u32>, own: &'f Arena<u32>) -> Result<Joined<'f>, AllocError>
        ensures { IfOk result (λ f. f ≡ shared.entry.now ++ own.entry.now) }
    {
        let first = shared.len();
        let count = first.checked_add(own.len()).ok_or(AllocError)?;
        Ok(Joined {
            shared,
            own,
            first,
            count,
        })
    }

    /// How many clauses there are.
    pub fn len(&self) -> usize
        ensures { result ≡ length self.now }
    {
        self.count
    }

    /// The clause at this place, counted from 0.
    pub fn get(&self, i: usize) -> &[u32]
        requires { i < length self.now }
        ensures { result.now ≡ slice_index_or self.now i [] }
    {
        if i < self.first {
            self.shared.get(i)
        } else {
            self.own.get(i - self.first)
        }
    }
}

/// The clauses of a formula, then those that were learned.
#[derive(Drop)]
pub struct Clauses<'f> {
    formula: Joined<'f>,
    learned: Arena<u32>,
    first: usize,
    count: usize,
}

impl<'f> Model for Clauses<'f> {
    ghost use Rattle.std.specs.Prelude.{ℕ, List, ◌++◌};
    ghost use Rattle.cnf_store.specs.Joined.{AreCounted};

    ghost Value = { List (List ℕ) };

    ghost view = { λ c. c.formula ++ c.learned };

    ghost invariant = { λ c. AreCounted c.formula c.learned c.first c.count };
}

impl<'f> Clauses<'f> {
    /// Nothing is learned yet; the arena is for what will be.
    pub fn new(formula: Joined<'f>, learned: Arena<u32>) -> Clauses<'f>
        requires { learned ≡ [] }
        ensures { result ≡ formula.entry }
    {
        let first = formula.len();
        Clauses {
            formula,
            learned,
            first,
            count: first,
        }
    }

    /// How many clauses there are.
    pub fn len(&self) -> usize
        ensures { result ≡ length self.now }
    {
        self.count
    }

    /// The clause at this place, counted from 0.
    pub fn get(&self, i: usize) -> &[u32]
        requires { i < length self.now }
        ensures { result.now ≡ slice_index_or self.now i [] }
    {
        if i < self.first {
            self.formula.get(i)
        } else {
            self.learned.get(i - self.first)
        }
    }

    /// Learns a clause. An `Err` changes nothing.
    pub fn add(&mut self, items: &[u32]) -> Result<(), AllocError>
        ensures ok { OnOk result (self.new ≡ self.old ++ items.now ∷ []) }
        ensures err { OnErr result (self.new ≡ self.old) }
    {
        let count = self.count.checked_add(1).ok_or(AllocError)?;
        self.learned.add(items)?;
        self.count = count;
        Ok(())
    }

    /// The memory of what was learned.
    pub fn into_learned(self) -> Arena<u32> {
        self.learned
    }
}
