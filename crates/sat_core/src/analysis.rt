//! From a conflict to a learned clause and its hints: resolves back to the first place that all paths from the level's
//! decision go through (Marques-Silva and Sakallah, GRASP, 1996), and then goes on down the trail, where it resolves what
//! follows from the rest (Sörensson and Eén, "MiniSat v1.13", 2005; Sörensson and Biere, SAT 2009). Both are one walk over
//! marked places. Which literals are dropped is the minimiser's guess, and each guess gives a clause that follows.

ghost use Rattle.std.specs.Prelude.{◌≡◌, ◌≢◌, ◌≤◌, ◌<◌, ◌+◌, ◌-◌, ◌*◌, ◌/◌, ◌%◌, ◌^◌, ◌++◌, ◌∷◌, [], ℕ, Bool, true, false, List, IfOk, OnOk, OnErr, length, slice_index, slice_index_or, slice_set, map, take, reverse, vec_len, ◌⊎◌, ◌↔◌, IsTrue};
ghost use Rattle.std.specs.List.{All, Any, Contains};
ghost use Rattle.cnf_store.specs.Codes.{neg, clause_at};
ghost use Rattle.sat_core.specs.Derivations.{Refutes};
ghost use Rattle.sat_trail.specs.Trail.{StandsBelow, AreReasoned};
ghost use Rattle.sat_core.specs.Analysis.{IsMarked, AreCounted, AddsMarks, AreResolved, AreKnown, StandsFrom, IsConflict, State, Resolves, KeepsPlace, IsUnique, IsLowered, IsMinimised, IsLearned};

use crate::marks::Marks;
use cnf_store::Clauses;
use sat_guide::{Minimiser, spread_of};
use sat_trail::{Trail, complement};
use std::alloc::{AllocError, Global};

/// What analysis works in, kept from conflict to conflict: the marked places, the clauses that were resolved, the learned
/// clause, by codes and by signed literals, and what is known of the literals that it can do without. Of the last conflict, as
/// hints for the search, how many of those clauses were resolved on its level, and over how many levels the learned one spreads.
#[derive(Drop)]
pub struct Analysis {
    pub marks: Marks,
    pub hints: Vec<u64>,
    pub learned: Vec<u32>,
    pub literals: Vec<i32>,
    pub minimiser: Minimiser,
    pub resolved: usize,
    pub spread: u32,
}

impl Analysis {
    /// Nothing is learned yet.
    pub fn new(alloc: Global) -> Analysis {
        Analysis {
            marks: Marks::new(alloc),
            hints: Vec::new(alloc),
            learned: Vec::new(alloc),
            literals: Vec::new(alloc),
            minimiser: Minimiser::new(alloc),
            resolved: 0,
            spread: 0,
        }
    }

    /// Learns a clause from a conflict: resolves back to the first place that all paths from the last decision go through,
    /// and drops literals that follow from the others. The complement of that place's literal is the clause's last. The
    /// level's decision stands at `start`, and all literals of the conflict are false below `from`.
    pub fn learn(
        &mut self,
        db: &Clauses,
        trail: &Trail,
        start: usize,
        from: usize,
        conflict: u64,
    ) -> Result<usize, AllocError>
        requires reasoned { AreReasoned db.now trail.now.lits.items trail.now.reasons.items }
        requires implied { (p : ℕ) → start < p → p < from → 0 < slice_index trail.now.reasons.items p }
        requires conflict { IsConflict db.now trail.now.lits.items from conflict }
        requires top { Any (λ m. StandsFrom trail.now.lits.items start from (neg m)) (clause_at db.now conflict) }
        ensures { IfOk result (λ i. IsLearned db.now trail.now.lits.items start from i self.new.learned.items self.new.hints.items) }
    {
        self.begin(db, trail, start, from, conflict)?;
        let first = self.resolve_level(db, trail, from)?;
        self.resolved = self.hints.len();
        self.minimise(db, trail, first)?;
        self.learned.push(complement(trail.lits[first]))?;
        self.spread = spread_of(&trail.starts, &trail.at, &self.learned);
        turn(&mut self.hints);
        Ok(first)
    }

    /// Derives the empty clause from a conflict that rests on no decision.
    pub fn learn_nothing(
        &mut self,
        db: &Clauses,
        trail: &Trail,
        from: usize,
        conflict: u64,
    ) -> Result<(), AllocError>
        requires reasoned { AreReasoned db.now trail.now.lits.items trail.now.reasons.items }
        requires implied { (p : ℕ) → p < from → 0 < slice_index trail.now.reasons.items p }
        requires conflict { IsConflict db.now trail.now.lits.items from conflict }
        ensures refutes { OnOk result (Refutes db.now [] self.new.hints.items) }
        ensures known { OnOk result (AreKnown db.now self.new.hints.items) }
    {
        self.begin(db, trail, 0, from, conflict)?;
        let mut i = from;
        'down: while self.marks.above > 0 {
            i = self.marks.next(i);
            self.resolve(db, trail, i)?;
        }
        turn(&mut self.hints);
        Ok(())
    }

    // Marks the literals of the conflict.
    fn begin(
        &mut self,
        db: &Clauses,
        trail: &Trail,
        start: usize,
        from: usize,
        conflict: u64,
    ) -> Result<(), AllocError>
        requires conflict { IsConflict db.now trail.now.lits.items from conflict }
        ensures state { OnOk result (State db.now trail.now.lits.items self.new from) }
        ensures marked { OnOk result (All (λ m. IsMarked trail.now.lits.items self.new.marks.seen.items from m) (clause_at db.now conflict)) }
        ensures resolved { OnOk result (AreResolved self.new.marks.seen.items from) }
        ensures start { OnOk result (self.new.marks.start ≡ start) }
    {
        self.marks.clear(trail.lits.len(), start)?;
        self.hints.clear();
        self.hints.push(conflict)?;
        self.marks
            .mark(trail, db.get((conflict - 1) as usize), u32::MAX, from);
        Ok(())
    }

    // Resolves with the reason of place i.
    fn resolve(&mut self, db: &Clauses, trail: &Trail, i: usize) -> Result<(), AllocError>
        requires reasoned { AreReasoned db.now trail.now.lits.items trail.now.reasons.items }
        requires implied { 0 < slice_index trail.now.reasons.items i }
        requires start { self.old.marks.start ≤ i }
        requires seen { slice_index_or self.old.marks.seen.items i false ≡ true }
        requires state { State db.now trail.now.lits.items self.old (i + 1) }
        ensures { OnOk result (Resolves db.now trail.now.lits.items i self.old self.new) }
    {
        let reason = trail.reasons[i];
        self.hints.push(reason)?;
        self.marks.above -= 1;
        self.marks
            .mark(trail, db.get((reason - 1) as usize), trail.lits[i], i);
        self.marks.seen[i] = false;
        Ok(())
    }

    // Resolves down to the first place that all paths from the level's decision go through.
    fn resolve_level(
        &mut self,
        db: &Clauses,
        trail: &Trail,
        from: usize,
    ) -> Result<usize, AllocError>
        requires reasoned { AreReasoned db.now trail.now.lits.items trail.now.reasons.items }
        requires implied { (p : ℕ) → self.old.marks.start < p → p < from → 0 < slice_index trail.now.reasons.items p }
        requires state { State db.now trail.now.lits.items self.old from }
        requires resolved { AreResolved self.old.marks.seen.items from }
        requires some { 0 < self.old.marks.above }
        ensures unique { IfOk result (λ i. IsUnique db.now trail.now.lits.items i self.new) }
        ensures below { IfOk result (λ i. i < from) }
        ensures start { OnOk result (self.new.marks.start ≡ self.old.marks.start) }
    {
        let mut i = self.marks.next(from);
        'down: while self.marks.above > 1 {
            self.resolve(db, trail, i)?;
            i = self.marks.next(i);
        }
        Ok(i)
    }

    // Goes on down from the level's start: resolves marked places, or keeps their literals.
    fn minimise(&mut self, db: &Clauses, trail: &Trail, first: usize) -> Result<(), AllocError>
        requires reasoned { AreReasoned db.now trail.now.lits.items trail.now.reasons.items }
        requires unique { IsUnique db.now trail.now.lits.items first self.old }
        ensures { OnOk result (IsMinimised db.now trail.now.lits.items self.old.marks.start first self.new) }
    {
        let start = self.marks.start;
        self.learned.clear();
        self.minimiser.begin(start)?;
        self.marks.lower();
        let mut i = start;
        'down: while self.marks.above > 0 {
            i = self.marks.next(i);
            self.drop_or_keep(db, trail, start, first, i)?;
        }
        Ok(())
    }

    // Resolves place i, where it has a reason and the minimiser takes it to follow; else keeps its literal.
    fn drop_or_keep(
        &mut self,
        db: &Clauses,
        trail: &Trail,
        start: usize,
        first: usize,
        i: usize,
    ) -> Result<(), AllocError>
        requires reasoned { AreReasoned db.now trail.now.lits.items trail.now.reasons.items }
        requires seen { slice_index_or self.old.marks.seen.items i false ≡ true }
        requires lowered { IsLowered db.now trail.now.lits.items start first (i + 1) self.old }
        ensures { OnOk result (IsLowered db.now trail.now.lits.items start first i self.new) }
    {
        if trail.reasons[i] == 0 {
            return self.keep(trail, i);
        }
        let follows = self
            .minimiser
            .follows(db, &trail.reasons, &trail.at, &self.marks.seen, i)?;
        if follows {
            return self.resolve(db, trail, i);
        }
        self.keep(trail, i)
    }

    // Keeps the literal of place i.
    fn keep(&mut self, trail: &Trail, i: usize) -> Result<(), AllocError>
        requires place { i < length trail.now.lits.items }
        requires some { 0 < self.old.marks.above }
        ensures { OnOk result (KeepsPlace trail.now.lits.items i self.old self.new) }
    {
        self.learned.push(complement(trail.lits[i]))?;
        self.marks.above -= 1;
        Ok(())
    }
}

// Turns the hints round.
fn turn(hints: &mut Vec<u64>)
    ensures { hints.new.items ≡ reverse hints.old.items }
{
    hints.as_mut_slice().reverse();
}
