//! Which learned clauses to go on watching: those that spread over few levels (Audemard and Simon, IJCAI 2009), and of the others
//! the half that conflicts used most of late (Eén and Sörensson, SAT 2003). The rest stays in the derivation, but is looked at no
//! more. No fact rests on it.

use std::alloc::{AllocError, Global};

/// A clause that spreads over so many levels is watched for good, and so is each of two literals.
const FEW: u32 = 3;

/// How much each learned clause was used, and how many may be watched.
#[derive(Drop)]
pub struct Uses {
    // the number of the first learned clause
    first: usize,
    // by learned clause: its weight, or 0 where it is forgotten, and whether it is watched for good
    weights: Vec<u64>,
    lasting: Vec<bool>,
    // the weights that a choice looks at
    ranking: Vec<u64>,
    // what is added to a weight
    bump: u64,
    watched: usize,
    room: usize,
    // conflicts until there is more room, and how many that were before
    wait: usize,
    span: usize,
}

impl Uses {
    /// Nothing is learned beside so many clauses.
    pub fn new(alloc: Global, first: usize) -> Uses {
        Uses {
            first,
            weights: Vec::new(alloc),
            lasting: Vec::new(alloc),
            ranking: Vec::new(alloc),
            bump: 1 << 16,
            watched: 0,
            room: if first / 3 < 1000 { 1000 } else { first / 3 },
            wait: 100,
            span: 100,
        }
    }

    /// Whether clause `number` is watched on.
    pub fn keeps(&self, number: usize) -> bool {
        if number < self.first {
            return true;
        }
        let learned = number - self.first;
        learned < self.weights.len() && self.weights[learned] > 0
    }

    // Whether a learned clause is watched for good.
    fn lasts(&self, learned: usize) -> bool {
        learned < self.lasting.len() && self.lasting[learned]
    }

    /// Counts a use of clause `number`.
    pub fn raise(&mut self, number: usize) {
        if number < self.first {
            return;
        }
        let learned = number - self.first;
        if learned < self.weights.len() && self.weights[learned] > 0 {
            self.weights[learned] = self.weights[learned].saturating_add(self.bump);
        }
    }

    /// Takes in the newest clause, after a conflict, which spreads over so many levels, and has later uses weigh more.
    pub fn add(&mut self, spread: u32) -> Result<(), AllocError> {
        self.weights.push(self.bump)?;
        self.lasting.push(spread <= FEW)?;
        self.watched = self.watched.saturating_add(1);
        self.wait = self.wait.saturating_sub(1);
        if self.wait == 0 {
            self.span = self.span.saturating_add(self.span / 2);
            self.wait = self.span;
            self.room = self.room.saturating_add(self.room / 10);
        }
        self.bump = self.bump.saturating_add(self.bump / 1024);
        if self.bump >= 1 << 56 {
            for weight in self.weights.iter_mut() {
                *weight = scaled(*weight);
            }
            self.bump = scaled(self.bump);
        }
        Ok(())
    }

    /// Whether more clauses are watched than there is room for beside a trail of this length.
    pub fn are_many(&self, trail: usize) -> bool {
        self.watched >= self.room.saturating_add(trail)
    }

    /// Chooses those that stay: about half, and those that last.
    pub fn choose(&mut self) -> Result<(), AllocError> {
        self.ranking.clear();
        for learned in 0..self.weights.len() {
            if self.weights[learned] > 0 && !self.lasts(learned) {
                self.ranking.push(self.weights[learned])?;
            }
        }
        self.ranking.sort()?;
        let half = self.ranking.len() / 2;
        let least = if half < self.ranking.len() {
            self.ranking[half]
        } else {
            0
        };
        self.drop_below(least);
        Ok(())
    }

    // Marks those of less weight as forgotten, but for those that last.
    fn drop_below(&mut self, least: u64) {
        let mut watched: usize = 0;
        for learned in 0..self.weights.len() {
            if self.weights[learned] < least && !self.lasts(learned) {
                self.weights[learned] = 0;
            } else {
                watched = watched.saturating_add(1);
            }
        }
        self.watched = watched;
    }
}

// A weight among smaller ones. What isn't forgotten stays so.
fn scaled(weight: u64) -> u64 {
    if weight == 0 { 0 } else { (weight >> 40) + 1 }
}
