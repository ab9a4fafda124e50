//! The solver as its callers see it.

ghost use Rattle.std.specs.Prelude.{◌≡◌, ◌<◌, ◌≤◌, ◌⊎◌, ◌++◌, ◌∷◌, [], ℕ, IfOk, OnOk, OnErr, true};
ghost use Rattle.std.specs.List.{All};
ghost use Rattle.cnf_store.specs.Codes.{neg};
ghost use Rattle.implied_clauses.specs.Implied.{Implies};
ghost use Rattle.kept_solver.specs.Outcomes.{IsOutcome};

use crate::rows::NONE;
use crate::search::{Ending, Search};
use cnf_store::Value;
use implied_clauses::{Implied, complement};
use std::alloc::{AllocError, Global};
use std::marker::Model;

/// What a question comes to.
#[derive(Clone, Copy, PartialEq, Eq, Debug)]
pub enum Outcome {
    /// The two literals are true together under no assignment that satisfies all clauses.
    Refuted,
    /// They are where variables have the values that the solver then tells: a hint.
    Model,
    /// The search was left.
    Unknown,
}

/// A solver with what it learned. Contracts see the clauses that it was given. A code is twice the variable, from 0 on, plus one where
/// it is complemented.
#[derive(Drop)]
pub struct KeptSolver {
    store: Implied,
    search: Search,
}

impl Model for KeptSolver {
    ghost use Rattle.std.specs.Prelude.{ℕ, List};

    ghost Value = { List (List ℕ) };

    ghost view = { λ s. s.store.given };
}

// The greater of two codes.
fn greater(a: u32, b: u32) -> u32
    ensures left { a ≤ result }
    ensures right { b ≤ result }
{
    if a < b { b } else { a }
}

// The greatest of some codes, or 0.
fn most_of(clause: &[u32]) -> u32
    ensures { All (λ (l : ℕ). l ≤ result) clause.now }
{
    let mut most = 0;
    for l in clause {
        most = greater(most, *l);
    }
    most
}

// Has a store have room for a code.
fn make_room(store: &mut Implied, code: u32) -> Result<(), AllocError>
    ensures given { store.new.given ≡ store.old.given }
    ensures room { OnOk result (code < store.new.codes) }
{
    if code < store.codes() {
        return Ok(());
    }
    if code >= NONE - 1 {
        return Err(AllocError);
    }
    store.widen(code - code % 2 + 2)
}

// Whether each literal of a clause is one of two.
fn is_over(clause: &[u32], x: u32, y: u32) -> bool
    ensures { result ≡ true → All (λ (l : ℕ). (l ≡ x) ⊎ (l ≡ y)) clause.now }
{
    for l in clause {
        if *l != x && *l != y {
            return false;
        }
    }
    true
}

// Whether the newest clause says that two literals aren't true together.
fn refuted_by_last(store: &Implied, a: u32, b: u32) -> Outcome
    ensures { IsOutcome store.now.given a b result }
{
    let count = store.len();
    if count == 0 {
        return Outcome::Unknown;
    }
    if is_over(store.clause(count - 1), complement(a), complement(b)) {
        Outcome::Refuted
    } else {
        Outcome::Unknown
    }
}

impl KeptSolver {
    /// No clause is given. An `Err`, here and below, is want of memory or of numbers of variables.
    pub fn new(alloc: Global) -> Result<KeptSolver, AllocError>
        ensures { IfOk result (λ s. s ≡ []) }
    {
        Ok(KeptSolver {
            store: Implied::new(alloc, 0)?,
            search: Search::new(alloc)?,
        })
    }

    /// Takes all clauses away, and all that was learned of them.
    pub fn clear(&mut self) -> Result<(), AllocError>
        ensures ok { OnOk result (self.new ≡ []) }
        ensures err { OnErr result (self.new ≡ self.old) }
    {
        self.search.clear()?;
        self.store.clear();
        Ok(())
    }

    /// Gives a clause.
    pub fn give(&mut self, clause: &[u32]) -> Result<(), AllocError>
        ensures ok { OnOk result (self.new ≡ self.old ++ clause.now ∷ []) }
        ensures err { OnErr result (self.new ≡ self.old) }
    {
        make_room(&mut self.store, most_of(clause))?;
        self.store.give(clause)
    }

    /// Has each model have a value of this variable, whatever the question: the search decides it when those of the question have values.
    pub fn add_beside(&mut self, var: u32) -> Result<(), AllocError>
        ensures { self.new ≡ self.old }
    {
        self.search.add_beside(var)
    }

    /// Turns to questions that rest on these variables: the search decides them alone, the greatest first.
    pub fn turn_to(&mut self, variables: &[u32]) -> Result<(), AllocError>
        ensures { self.new ≡ self.old }
    {
        self.search.turn_to(&self.store, variables)
    }

    /// Whether two literals, of two variables, can be true together.
    pub fn decide(&mut self, a: u32, b: u32) -> Result<Outcome, AllocError>
        ensures kept { self.new ≡ self.old }
        ensures outcome { IfOk result (IsOutcome self.old a b) }
    {
        make_room(&mut self.store, greater(a, b))?;
        match self.search.run(&mut self.store, a, b)? {
            Ending::Refuted => Ok(refuted_by_last(&self.store, a, b)),
            Ending::Found => Ok(Outcome::Model),
            Ending::Left => Ok(Outcome::Unknown),
        }
    }

    /// A literal's value in the model that was found last. A hint.
    pub fn value(&self, lit: u32) -> Value {
        self.search.value(lit)
    }
}
