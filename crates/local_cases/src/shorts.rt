//! Short lines that rest on clauses of the frames alone: cases over the same variables begin with them. And how active variables were in
//! the last cases. Hints, both.

use sat_log::Log;
use std::alloc::{AllocError, Global};

// A line of more literals is not worth keeping.
const LONGEST: usize = 8;

// No line.
const NONE: u32 = u32::MAX;

/// The numbers of such lines, and activities by variable.
#[derive(Drop)]
pub(crate) struct Shorts {
    lines: Vec<u64>,
    // by variable, the last of them of which it is the highest; and of each, the one before it with the same
    last: Vec<u32>,
    before: Vec<u32>,
    activity: Vec<u32>,
}

impl Shorts {
    /// None yet, over so many variables.
    pub(crate) fn new(alloc: Global, vars: u32) -> Result<Shorts, AllocError> {
        let size = (vars as usize).saturating_add(1);
        let last = vec![in alloc; NONE; size]?;
        Ok(Shorts {
            lines: Vec::new(alloc),
            last,
            before: Vec::new(alloc),
            activity: vec![in alloc; 0; size]?,
        })
    }

    /// Takes a line in, where it is short.
    pub(crate) fn note(&mut self, clause: &[i32], number: u64) -> Result<(), AllocError> {
        if clause.len() > LONGEST || clause.len() < 2 {
            return Ok(());
        }
        let mut top = 0;
        for lit in clause {
            top = lit.unsigned_abs().max(top);
        }
        let row = top as usize;
        if row < self.last.len() {
            let own = self.lines.len().min(NONE as usize) as u32;
            self.lines.push(number)?;
            self.before.push(self.last[row])?;
            self.last[row] = own;
        }
        Ok(())
    }

    /// The last of which a variable is the highest.
    pub(crate) fn last_at(&self, var: u32) -> u32 {
        if (var as usize) < self.last.len() {
            self.last[var as usize]
        } else {
            NONE
        }
    }

    /// The number of a line, and the one before it with the same highest variable.
    pub(crate) fn line(&self, at: u32) -> Option<(u64, u32)> {
        let row = at as usize;
        if row < self.lines.len() && row < self.before.len() {
            Some((self.lines[row], self.before[row]))
        } else {
            None
        }
    }

    /// How many there are.
    pub(crate) fn len(&self) -> usize {
        self.lines.len()
    }

    /// How active a variable was.
    pub(crate) fn activity(&self, var: u32) -> u32 {
        if (var as usize) < self.activity.len() {
            self.activity[var as usize]
        } else {
            0
        }
    }

    /// Takes in how active a variable was.
    pub(crate) fn set_activity(&mut self, var: u32, activity: u32) {
        if (var as usize) < self.activity.len() {
            self.activity[var as usize] = activity;
        }
    }
}

/// The literals of a line, counted from 1; none past the end.
pub(crate) fn literals_of(log: &Log, number: u64) -> &[i32] {
    if number > 0 && number <= log.len() {
        log.clause(number - 1)
    } else {
        &[]
    }
}
