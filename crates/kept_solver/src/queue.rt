//! Which variable to decide next: the one that a conflict met last, with the value that it had last. The variables of a question stand in
//! a list, and those that a conflict meets move to its front (variable move to front: L. Ryan, 2004; A. Biere, A. Fröhlich, SAT 2015).

use crate::rows::{NONE, item, lengthen, put, value_in};
use cnf_store::Value;
use implied_clauses::complement;
use std::alloc::{AllocError, Global};

/// The list, and the values that variables had last.
#[derive(Drop)]
pub(crate) struct Queue {
    // by variable: the next one towards the back, and the next one towards the front
    backward: Vec<u32>,
    forward: Vec<u32>,
    front: u32,
    back: u32,
    // by variable: the question in which it was listed, and a number that rises towards the front
    listed: Vec<u32>,
    ranks: Vec<u64>,
    question: u32,
    highest: u64,
    lowest: u64,
    // all that stand before this one have values
    cursor: u32,
    // by variable
    phases: Vec<bool>,
}

// Where ranks begin.
const MIDDLE: u64 = 1 << 62;

impl Queue {
    /// No variable is listed.
    pub fn new(alloc: Global) -> Queue {
        Queue {
            backward: Vec::new(alloc),
            forward: Vec::new(alloc),
            front: NONE,
            back: NONE,
            listed: Vec::new(alloc),
            ranks: Vec::new(alloc),
            question: 0,
            highest: MIDDLE,
            lowest: MIDDLE,
            cursor: NONE,
            phases: Vec::new(alloc),
        }
    }

    /// Has room for so many variables.
    pub fn widen(&mut self, vars: usize) -> Result<(), AllocError> {
        lengthen(&mut self.backward, vars, NONE)?;
        lengthen(&mut self.forward, vars, NONE)?;
        lengthen(&mut self.listed, vars, 0)?;
        for _ in self.ranks.len()..vars {
            self.ranks.push(0)?;
        }
        for _ in self.phases.len()..vars {
            self.phases.push(false)?;
        }
        Ok(())
    }

    /// Begins a list.
    pub fn begin(&mut self) {
        self.question = self.question.wrapping_add(1);
        self.front = NONE;
        self.back = NONE;
        self.cursor = NONE;
        self.highest = MIDDLE;
        self.lowest = MIDDLE;
    }

    // Whether a variable is listed.
    fn has(&self, var: u32) -> bool {
        item(&self.listed, var as usize) == self.question
    }

    fn rank(&self, var: u32) -> u64 {
        if (var as usize) < self.ranks.len() {
            self.ranks[var as usize]
        } else {
            0
        }
    }

    fn set_rank(&mut self, var: u32, rank: u64) {
        if (var as usize) < self.ranks.len() {
            self.ranks[var as usize] = rank;
        }
    }

    /// Lists a variable at the front, where it isn't listed and there is room for it.
    pub fn push_front(&mut self, var: u32) {
        if (var as usize) < self.listed.len() && !self.has(var) {
            put(&mut self.listed, var as usize, self.question);
            self.link_front(var);
        }
    }

    fn link_front(&mut self, var: u32) {
        self.highest = self.highest.saturating_add(1);
        self.set_rank(var, self.highest);
        put(&mut self.forward, var as usize, NONE);
        put(&mut self.backward, var as usize, self.front);
        if self.front == NONE {
            self.back = var;
        } else {
            put(&mut self.forward, self.front as usize, var);
        }
        self.front = var;
    }

    /// Lists a variable at the back, where it isn't listed and there is room for it.
    pub fn push_back(&mut self, var: u32) {
        if (var as usize) >= self.listed.len() || self.has(var) {
            return;
        }
        self.lowest = self.lowest.saturating_sub(1);
        self.set_rank(var, self.lowest);
        put(&mut self.listed, var as usize, self.question);
        put(&mut self.backward, var as usize, NONE);
        put(&mut self.forward, var as usize, self.back);
        if self.back == NONE {
            self.front = var;
        } else {
            put(&mut self.backward, self.back as usize, var);
        }
        self.back = var;
    }

    // Takes a variable out of the list.
    fn unlink(&mut self, var: u32) {
        let behind = item(&self.backward, var as usize);
        let ahead = item(&self.forward, var as usize);
        if behind == NONE {
            self.back = ahead;
        } else {
            put(&mut self.forward, behind as usize, ahead);
        }
        if ahead == NONE {
            self.front = behind;
        } else {
            put(&mut self.backward, ahead as usize, behind);
        }
    }

    /// Moves a variable to the front, where it is listed.
    pub fn raise(&mut self, var: u32) {
        if !self.has(var) || self.front == var {
            return;
        }
        if self.cursor == var {
            self.cursor = item(&self.forward, var as usize);
        }
        self.unlink(var);
        self.link_front(var);
    }

    /// Begins to look for variables without a value at the front.
    pub fn rewind(&mut self) {
        self.cursor = self.front;
    }

    /// A variable that lost its value.
    pub fn release(&mut self, lit: u32) {
        let var = lit / 2;
        if (var as usize) < self.phases.len() {
            self.phases[var as usize] = lit % 2 == 0;
        }
        if self.has(var) && (self.cursor == NONE || self.rank(var) > self.rank(self.cursor)) {
            self.cursor = var;
        }
    }

    /// The variable without a value that is nearest to the front.
    pub fn pick(&mut self, values: &[Value]) -> Option<u32> {
        for _ in 0..usize::MAX {
            let var = self.cursor;
            if var == NONE {
                return None;
            }
            if value_in(values, var.saturating_mul(2)) == Value::Free {
                return Some(var);
            }
            self.cursor = item(&self.backward, var as usize);
        }
        None
    }

    /// A variable's literal that was true last.
    pub fn by_phase(&self, var: u32) -> u32 {
        let code = var.saturating_mul(2);
        if (var as usize) < self.phases.len() && self.phases[var as usize] {
            code
        } else {
            complement(code)
        }
    }
}
