//! Lines of a log that grows, and the memory in which one is made.

ghost use Rattle.std.specs.Prelude.{◌<◌};
ghost use Rattle.std.specs.List.{All};
ghost use Rattle.log_check.specs.FirstBad.{Decides};

use crate::taking::Rests;
use circ_model::Lit;
use log_check::are_within;
use sat_log::Log;
use std::alloc::{AllocError, Global};

// Whether a hint is the number of a clause.
fn is_number(hint: u64) -> bool
    ensures { Decides result (0 < hint) }
{
    hint != 0
}

// Whether all hints are.
fn are_numbers(hints: &[u64]) -> bool
    ensures { Decides result (All (λ h. 0 < h) hints.now) }
{
    for hint in hints {
        if !is_number(*hint) {
            return false;
        }
    }
    true
}

/// Adds a line.
pub(crate) fn add_line(log: &mut Log, literals: &[i32], hints: &[u64]) -> Result<(), AllocError> {
    if are_within(literals, 2147483647) && are_numbers(hints) {
        log.add(literals, hints)
    } else {
        Ok(())
    }
}

/// The number at a place, or 0.
pub(crate) fn number_at(numbers: &[u64], i: u64) -> u64 {
    if i < numbers.len() as u64 {
        numbers[i as usize]
    } else {
        0
    }
}

/// The lines that are derived, past so many clauses that are given. Beside them the memory in which a line is made, which literals
/// of the frame are assumed in it, and what each line of the last case's refutation rests on.
#[derive(Drop)]
pub(crate) struct Lines {
    pub given: u64,
    pub log: Log,
    pub literals: Vec<i32>,
    pub hints: Vec<u64>,
    pub assumed: Vec<Lit>,
    pub rests: Vec<Rests>,
}

impl Lines {
    pub(crate) fn new(alloc: Global, given: u64) -> Lines {
        Lines {
            given,
            log: Log::new(alloc),
            literals: Vec::new(alloc),
            hints: Vec::new(alloc),
            assumed: Vec::new(alloc),
            rests: Vec::new(alloc),
        }
    }

    /// Begins a line with two literals assumed.
    pub(crate) fn assume(&mut self, one: Lit, other: Lit) -> Result<(), AllocError> {
        self.hints.clear();
        self.assumed.clear();
        self.assumed.push(one)?;
        self.assumed.push(other)?;
        Ok(())
    }

    // Whether a literal is assumed.
    fn has(&self, lit: Lit) -> bool {
        for own in self.assumed.as_slice() {
            if *own == lit {
                return true;
            }
        }
        false
    }

    /// Adds a hint that gives a literal, unless that is assumed already. Answers whether its complement isn't.
    pub(crate) fn give(&mut self, hint: u64, lit: Lit) -> Result<bool, AllocError> {
        if self.has(lit) {
            return Ok(true);
        }
        if self.has(lit.not()) {
            return Ok(false);
        }
        self.hints.push(hint)?;
        self.assumed.push(lit)?;
        Ok(true)
    }

    /// Ends a line of two literals by a last hint, and answers its number.
    pub(crate) fn end_line(&mut self, hint: u64, one: i32, other: i32) -> Result<u64, AllocError> {
        self.hints.push(hint)?;
        add_line(&mut self.log, &[one, other], &self.hints)?;
        Ok(self.log.len())
    }
}
