//! Marked places of the trail, and how many of them analysis has still to pass.

ghost use Rattle.std.specs.Prelude.{◌≡◌, ◌≤◌, ◌<◌, ◌+◌, ◌-◌, ◌/◌, ◌^◌, ℕ, true, false, OnOk, length, slice_index_or, ◌⊎◌};
ghost use Rattle.std.specs.List.{All};
ghost use Rattle.cnf_store.specs.Codes.{neg};
ghost use Rattle.sat_trail.specs.Trail.{StandsBelow};
ghost use Rattle.sat_core.specs.Analysis.{IsMarked, open_below, AreCounted, AddsMarks};

use sat_trail::Trail;
use std::alloc::{AllocError, Global};

/// Which places are marked, and how many below the one that analysis has come to: from the start of a level on, and below
/// that.
#[derive(Drop)]
pub struct Marks {
    pub seen: Vec<bool>,
    pub start: usize,
    pub above: usize,
    pub below: usize,
}

impl Marks {
    /// Marks of no place.
    pub fn new(alloc: Global) -> Marks {
        Marks {
            seen: Vec::new(alloc),
            start: 0,
            above: 0,
            below: 0,
        }
    }

    /// No mark on this many places, of a level that starts at one of them.
    pub fn clear(&mut self, places: usize, start: usize) -> Result<(), AllocError>
        ensures size { OnOk result (length self.new.seen.items ≡ places) }
        ensures clean { OnOk result ((q : ℕ) → slice_index_or self.new.seen.items q false ≡ false) }
        ensures start { OnOk result (self.new.start ≡ start) }
        ensures above { OnOk result (self.new.above ≡ 0) }
        ensures below { OnOk result (self.new.below ≡ 0) }
    {
        self.start = start;
        self.above = 0;
        self.below = 0;
        self.seen.clear();
        self.seen.resize(places, false)
    }

    // Marks the place at which a literal is false.
    fn mark_one(&mut self, trail: &Trail, lit: u32, limit: usize)
        requires wrong { StandsBelow trail.now.lits.items limit (neg lit) }
        requires limit { limit ≤ length trail.now.lits.items }
        requires size { length self.old.seen.items ≡ length trail.now.lits.items }
        requires counted { AreCounted limit self.old }
        ensures counted { AreCounted limit self.new }
        ensures marked { IsMarked trail.now.lits.items self.new.seen.items limit lit }
        ensures adds { AddsMarks limit self.old self.new }
    {
        let place = trail.at[lit as usize / 2] - 1;
        if self.seen[place] {
            return;
        }
        self.seen[place] = true;
        if place < self.start {
            self.below += 1;
            return;
        }
        self.above += 1;
    }

    // Marks the place at which a literal is false, unless it is this one.
    fn mark_other(&mut self, trail: &Trail, lit: u32, skip: u32, limit: usize)
        requires wrong { (lit ≡ skip) ⊎ StandsBelow trail.now.lits.items limit (neg lit) }
        requires limit { limit ≤ length trail.now.lits.items }
        requires size { length self.old.seen.items ≡ length trail.now.lits.items }
        requires counted { AreCounted limit self.old }
        ensures counted { AreCounted limit self.new }
        ensures marked { (lit ≡ skip) ⊎ IsMarked trail.now.lits.items self.new.seen.items limit lit }
        ensures adds { AddsMarks limit self.old self.new }
    {
        if lit != skip {
            self.mark_one(trail, lit, limit);
        }
    }

    /// Marks the places below a limit at which the literals of a clause are false, all but this one.
    pub fn mark(&mut self, trail: &Trail, clause: &[u32], skip: u32, limit: usize)
        requires wrong { All (λ m. (m ≡ skip) ⊎ StandsBelow trail.now.lits.items limit (neg m)) clause.now }
        requires limit { limit ≤ length trail.now.lits.items }
        requires size { length self.old.seen.items ≡ length trail.now.lits.items }
        requires counted { AreCounted limit self.old }
        ensures counted { AreCounted limit self.new }
        ensures marked { All (λ m. (m ≡ skip) ⊎ IsMarked trail.now.lits.items self.new.seen.items limit m) clause.now }
        ensures adds { AddsMarks limit self.old self.new }
    {
        for lit in clause {
            self.mark_other(trail, *lit, skip, limit);
        }
    }

    /// The next marked place down the trail, where some from the level's start on are left.
    pub fn next(&self, from: usize) -> usize
        requires within { from ≤ length self.now.seen.items }
        requires counted { AreCounted from self.now }
        requires some { 0 < self.now.above }
        ensures below { result < from }
        ensures start { self.now.start ≤ result }
        ensures seen { slice_index_or self.now.seen.items result false ≡ true }
        ensures counted { AreCounted (result + 1) self.now }
        ensures none { (q : ℕ) → result < q → q < from → slice_index_or self.now.seen.items q false ≡ false }
    {
        let seen = self.seen.as_slice();
        let mut i = from;
        'down: loop {
            i -= 1;
            if seen[i] {
                return i;
            }
        }
    }

    /// Goes on with those below the level's start.
    pub fn lower(&mut self)
        requires { open_below self.old.seen.items 0 self.old.start ≡ self.old.below }
        ensures counted { AreCounted self.old.start self.new }
        ensures seen { self.new.seen.items ≡ self.old.seen.items }
        ensures start { self.new.start ≡ 0 }
    {
        self.start = 0;
        self.above = self.below;
        self.below = 0;
    }
}
