//! The trail: which literals are assigned, in which order, on which level and why.

use crate::rows::{NONE, item, lengthen, put, value_in};
use cnf_store::Value;
use implied_clauses::complement;
use std::alloc::{AllocError, Global};

/// What is assigned.
#[derive(Drop)]
pub(crate) struct Trail {
    /// From the oldest literal on; a place is one here.
    pub lits: Vec<u32>,
    /// By literal.
    pub values: Vec<Value>,
    // by variable: its place, its level, and the clause that implied it
    places: Vec<u32>,
    levels: Vec<u32>,
    reasons: Vec<u32>,
    // where the levels from 1 on begin
    starts: Vec<u32>,
}

impl Trail {
    /// Nothing is assigned.
    pub fn new(alloc: Global) -> Trail {
        Trail {
            lits: Vec::new(alloc),
            values: Vec::new(alloc),
            places: Vec::new(alloc),
            levels: Vec::new(alloc),
            reasons: Vec::new(alloc),
            starts: Vec::new(alloc),
        }
    }

    /// Has room for so many variables.
    pub fn widen(&mut self, vars: usize) -> Result<(), AllocError> {
        for _ in self.values.len() / 2..vars {
            self.values.push(Value::Free)?;
            self.values.push(Value::Free)?;
        }
        lengthen(&mut self.places, vars, NONE)?;
        lengthen(&mut self.levels, vars, 0)?;
        lengthen(&mut self.reasons, vars, NONE)
    }

    /// The literal at a place.
    pub fn lit(&self, place: usize) -> u32 {
        item(&self.lits, place)
    }

    /// A literal's value.
    pub fn value(&self, lit: u32) -> Value {
        value_in(&self.values, lit)
    }

    /// How many levels there are beside the lowest.
    pub fn level(&self) -> u32 {
        u32::try_from(self.starts.len()).unwrap_or(NONE)
    }

    /// The place of an assigned variable.
    pub fn place_of(&self, var: u32) -> u32 {
        item(&self.places, var as usize)
    }

    /// The level of an assigned variable.
    pub fn level_of(&self, var: u32) -> u32 {
        item(&self.levels, var as usize)
    }

    /// The clause that implied a variable, or `NONE` where it was decided.
    pub fn reason_of(&self, var: u32) -> u32 {
        item(&self.reasons, var as usize)
    }

    /// Has another clause be what implied it.
    pub fn explain(&mut self, var: u32, clause: u32) {
        put(&mut self.reasons, var as usize, clause);
    }

    /// Where the highest level begins.
    pub fn start(&self) -> usize {
        self.start_of(self.level())
    }

    // Where a level begins.
    fn start_of(&self, level: u32) -> usize {
        if level == 0 {
            0
        } else {
            item(&self.starts, level as usize - 1) as usize
        }
    }

    /// Opens a level.
    pub fn open(&mut self) -> Result<(), AllocError> {
        let place = u32::try_from(self.lits.len()).unwrap_or(NONE);
        self.starts.push(place)?;
        Ok(())
    }

    /// Assigns a literal.
    pub fn assign(&mut self, lit: u32, reason: u32) -> Result<(), AllocError> {
        let place = u32::try_from(self.lits.len()).unwrap_or(NONE);
        self.lits.push(lit)?;
        let var = lit as usize / 2;
        put(&mut self.places, var, place);
        let level = self.level();
        put(&mut self.levels, var, level);
        put(&mut self.reasons, var, reason);
        self.set(lit, Value::True);
        self.set(complement(lit), Value::False);
        Ok(())
    }

    fn set(&mut self, lit: u32, value: Value) {
        if (lit as usize) < self.values.len() {
            self.values[lit as usize] = value;
        }
    }

    /// Takes the newest literal back, where it stands above a level.
    pub fn take_back(&mut self, level: u32) -> Option<u32> {
        if level >= self.level() || self.lits.len() <= self.start_of(level + 1) {
            return None;
        }
        let lit = self.lits.pop()?;
        self.set(lit, Value::Free);
        self.set(complement(lit), Value::Free);
        Some(lit)
    }

    /// Closes the levels above one.
    pub fn close(&mut self, level: u32) {
        self.starts.truncate(level as usize);
    }

    /// Takes all back, at a cost of what was assigned.
    pub fn clear(&mut self) {
        for i in 0..self.lits.len() {
            let lit = item(&self.lits, i);
            self.set(lit, Value::Free);
            self.set(complement(lit), Value::Free);
        }
        self.lits.clear();
        self.starts.clear();
    }
}
