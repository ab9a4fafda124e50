//! A store of clauses by codes.
ghost use Rattle.std.specs.Prelude.{◌≡◌, ◌≢◌, ◌<◌, ◌≤◌, ◌*◌, ◌⊎◌, ◌++◌, ◌∷◌, [], ℕ, List, Bool, true, false, IfOk, OnOk, OnErr, length, replicate, set, slice_index_or};
ghost use Rattle.std.specs.List.{All, Contains};
ghost use Rattle.cnf_store.specs.Codes.{neg};
ghost use Rattle.implied_clauses.specs.Implied.{AreSteps, Implies, IsDerived, IsOf, begun, chained, resolvent, with_others};

use cnf_store::Arena;
use std::alloc::{AllocError, Global};
use std::marker::Model;

/// A resolution with a clause, by its number from 0 on, on a literal of it, by its code.
#[derive(Clone, Copy, Drop)]
pub struct Step {
    /// The literal, whose complement goes.
    pub pivot: u32,
    /// The clause.
    pub clause: u32,
}

/// Clauses over so many codes of literals, of which some were given, and imply all. A code is twice the variable, from 0 on, plus one
/// where it is complemented, so there are twice as many codes as variables.
#[derive(Drop)]
pub struct Implied {
    clauses: Arena<u32>,
    // for each clause whether it was given
    given: Vec<bool>,
    // a bit for each code, none of which is set between two calls; which may be set; and a clause in the making
    marks: Vec<bool>,
    listed: Vec<u32>,
    clause: Vec<u32>,
}

impl Model for Implied {
    ghost use Rattle.std.specs.Prelude.{◌≡◌, ◌<◌, ℕ, List, false, length, replicate};
    ghost use Rattle.std.specs.List.{All};
    ghost use Rattle.implied_clauses.specs.Implied.{Implies, Store, chosen};

    ghost Value = { Store };

    ghost view = { λ s. record { codes = length s.marks.items; given = chosen s.given.items s.clauses; clauses = s.clauses } };

    ghost invariant = { λ s. (length s.marks.items < 4294967296) × (length s.given.items ≡ length s.clauses)
        × All (λ (c : List ℕ). All (λ (l : ℕ). l < length s.marks.items) c) s.clauses
        × All (Implies (chosen s.given.items s.clauses)) s.clauses
        × (s.marks.items ≡ replicate (length s.marks.items) false) };
}

// Whether a literal has a mark.
fn is_marked(marks: &[bool], l: u32) -> bool
    ensures { result ≡ slice_index_or marks.now l false }
{
    (l as usize) < marks.len() && marks[l as usize]
}

// Whether a literal is to be marked: it isn't the pivot, and has no mark yet.
fn is_fresh(marks: &[bool], l: u32, pivot: u32) -> bool
    ensures yes { result ≡ true → l ≢ pivot }
    ensures no { result ≡ false → (l ≡ pivot) ⊎ (slice_index_or marks.now l false ≡ true) }
{
    l != pivot && !is_marked(marks, l)
}

// Sets the marks of a clause's literals but for one.
fn mark(
    marks: &mut [bool],
    listed: &mut Vec<u32>,
    clause: &[u32],
    pivot: u32,
) -> Result<(), AllocError>
    requires below { All (λ (l : ℕ). l < length marks.old) clause.now }
    requires listed { (l : ℕ) → slice_index_or marks.old l false ≡ true → Contains listed.old.items l }
    ensures marks { OnOk result (marks.new ≡ with_others pivot clause.now marks.old) }
    ensures listed { (l : ℕ) → slice_index_or marks.new l false ≡ true → Contains listed.new.items l }
    ensures size { length marks.new ≡ length marks.old }
{
    for l in clause {
        if is_fresh(marks, *l, pivot) {
            listed.push(*l)?;
            marks[*l as usize] = true;
        }
    }
    Ok(())
}

// Goes from a set of literals along a chain of resolutions.
fn follow(
    clauses: &Arena<u32>,
    marks: &mut [bool],
    listed: &mut Vec<u32>,
    steps: &[Step],
) -> Result<(), AllocError>
    requires below { All (λ (c : List ℕ). All (λ (l : ℕ). l < length marks.old) c) clauses.now }
    requires few { length marks.old < 4294967296 }
    requires steps { AreSteps (length marks.old) (length clauses.now) steps.now }
    requires listed { (l : ℕ) → slice_index_or marks.old l false ≡ true → Contains listed.old.items l }
    ensures marks { OnOk result (marks.new ≡ chained clauses.now marks.old steps.now) }
    ensures listed { (l : ℕ) → slice_index_or marks.new l false ≡ true → Contains listed.new.items l }
    ensures size { length marks.new ≡ length marks.old }
{
    for step in steps {
        unmark(marks, complement(step.pivot));
        mark(marks, listed, clauses.get(step.clause as usize), step.pivot)?;
    }
    Ok(())
}

/// The complement of a literal, by codes.
pub fn complement(l: u32) -> u32
    ensures { result ≡ neg l }
{
    l ^ 1
}

// Takes the mark of a literal away, where it may have one.
fn unmark(marks: &mut [bool], l: u32)
    ensures { marks.new ≡ set marks.old l false }
{
    if (l as usize) < marks.len() {
        marks[l as usize] = false;
    }
}

// Takes all marks away.
fn wipe(marks: &mut [bool], listed: &[u32])
    requires { (l : ℕ) → slice_index_or marks.old l false ≡ true → Contains listed.now l }
    ensures { marks.new ≡ replicate (length marks.old) false }
{
    for l in listed {
        unmark(marks, *l);
    }
}

// Writes the marked ones as a clause.
fn gather(marks: &[bool], listed: &[u32], clause: &mut Vec<u32>) -> Result<(), AllocError>
    requires { (l : ℕ) → slice_index_or marks.now l false ≡ true → Contains listed.now l }
    ensures { OnOk result (IsOf marks.now clause.new.items) }
{
    clause.clear();
    for l in listed {
        if is_marked(marks, *l) {
            clause.push(*l)?;
        }
    }
    Ok(())
}

impl Implied {
    /// No clause yet, over so many codes. An `Err` is want of memory.
    pub fn new(alloc: Global, codes: u32) -> Result<Implied, AllocError>
        ensures { IfOk result (λ s. s ≡ record { codes = codes; given = []; clauses = [] }) }
    {
        Ok(Implied {
            clauses: Arena::new(alloc),
            given: Vec::new(alloc),
            marks: vec![in alloc; false; codes as usize]?,
            listed: Vec::new(alloc),
            clause: Vec::new(alloc),
        })
    }

    /// For how many codes there is room.
    pub fn codes(&self) -> u32
        ensures { result ≡ self.now.codes }
    {
        self.marks.len() as u32
    }

    /// Makes room for so many codes. An `Err` changes nothing.
    pub fn widen(&mut self, codes: u32) -> Result<(), AllocError>
        requires more { self.old.codes ≤ codes }
        ensures ok { OnOk result (self.new ≡ record { codes = codes; given = self.old.given; clauses = self.old.clauses }) }
        ensures err { OnErr result (self.new ≡ self.old) }
    {
        self.marks.resize(codes as usize, false)?;
        Ok(())
    }

    /// How many clauses there are.
    pub fn len(&self) -> usize
        ensures { result ≡ length self.now.clauses }
    {
        self.clauses.len()
    }

    /// A clause by its number.
    pub fn clause(&self, i: usize) -> &[u32]
        requires { i < length self.now.clauses }
        ensures value { result.now ≡ slice_index_or self.now.clauses i [] }
        ensures implied { Implies self.now.given result.now }
    {
        self.clauses.get(i)
    }

    /// Appends a clause that is given.
    pub fn give(&mut self, clause: &[u32]) -> Result<(), AllocError>
        requires literals { All (λ (l : ℕ). l < self.old.codes) clause.now }
        ensures ok { OnOk result (self.new ≡ record { codes = self.old.codes; given = self.old.given ++ clause.now ∷ []; clauses = self.old.clauses ++ clause.now ∷ [] }) }
        ensures err { OnErr result (self.new ≡ self.old) }
    {
        self.given.reserve(1)?;
        self.clauses.add(clause)?;
        self.given.push_reserved(true);
        Ok(())
    }

    /// Appends the clause to which a chain of resolutions leads, which begins with the clause of number `first`. An `Err`, for want of
    /// memory, appends none.
    pub fn derive(&mut self, first: usize, steps: &[Step]) -> Result<(), AllocError>
        requires first { first < length self.old.clauses }
        requires steps { AreSteps self.old.codes (length self.old.clauses) steps.now }
        ensures ok { OnOk result (IsDerived self.old self.new first steps.now) }
        ensures err { OnErr result (self.new ≡ self.old) }
    {
        let Implied {
            clauses,
            given,
            marks,
            listed,
            clause,
        } = self;
        make(clauses, marks, listed, clause, first, steps)?;
        given.reserve(1)?;
        clauses.add(clause.as_slice())?;
        given.push_reserved(false);
        Ok(())
    }

    /// Takes all clauses away. It keeps the memory.
    pub fn clear(&mut self)
        ensures { self.new ≡ record { codes = self.old.codes; given = []; clauses = [] } }
    {
        self.clauses.cut(0);
        self.given.clear();
    }
}

// Sets the marks to which a chain leads, and writes their clause.
fn write(
    clauses: &Arena<u32>,
    marks: &mut [bool],
    listed: &mut Vec<u32>,
    clause: &mut Vec<u32>,
    first: usize,
    steps: &[Step],
) -> Result<(), AllocError>
    requires below { All (λ (c : List ℕ). All (λ (l : ℕ). l < length marks.old) c) clauses.now }
    requires few { length marks.old < 4294967296 }
    requires first { first < length clauses.now }
    requires steps { AreSteps (length marks.old) (length clauses.now) steps.now }
    requires marks { marks.old ≡ replicate (length marks.old) false }
    ensures made { OnOk result (IsOf (chained clauses.now (begun (length marks.old) (slice_index_or clauses.now first [])) steps.now) clause.new.items) }
    ensures listed { (l : ℕ) → slice_index_or marks.new l false ≡ true → Contains listed.new.items l }
    ensures size { length marks.new ≡ length marks.old }
{
    let none = marks.len() as u32;
    mark(marks, listed, clauses.get(first), none)?;
    follow(clauses, marks, listed, steps)?;
    gather(marks, listed.as_slice(), clause)
}

// Makes the clause to which a chain leads. No mark is left.
fn make(
    clauses: &Arena<u32>,
    marks: &mut Vec<bool>,
    listed: &mut Vec<u32>,
    clause: &mut Vec<u32>,
    first: usize,
    steps: &[Step],
) -> Result<(), AllocError>
    requires below { All (λ (c : List ℕ). All (λ (l : ℕ). l < length marks.old.items) c) clauses.now }
    requires few { length marks.old.items < 4294967296 }
    requires first { first < length clauses.now }
    requires steps { AreSteps (length marks.old.items) (length clauses.now) steps.now }
    requires marks { marks.old.items ≡ replicate (length marks.old.items) false }
    ensures made { OnOk result (IsOf (chained clauses.now (begun (length marks.old.items) (slice_index_or clauses.now first [])) steps.now) clause.new.items) }
    ensures marks { marks.new.items ≡ marks.old.items }
{
    listed.clear();
    let row = marks.as_mut_slice();
    let made = write(clauses, row, listed, clause, first, steps);
    wipe(row, listed.as_slice());
    made
}
