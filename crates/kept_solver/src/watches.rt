//! Two watched literals (Moskewicz and others, DAC 2001) with blocking literals, as in MiniSat 2.2. A clause has two watches, each in
//! the list of its literal; the lists are linked through one row, so no list has memory of its own.

use crate::rows::{NONE, item, lengthen, put, value_in};
use cnf_store::Value;
use std::alloc::{AllocError, Global};

/// What a look at a watch comes to.
#[derive(Clone, Copy)]
pub(crate) enum Look {
    /// The clause is satisfied.
    Holds,
    /// It watches this literal from now on.
    Moves(u32),
    /// All its literals are false but for this one, which may be.
    Due(u32),
}

/// The clauses by number, each with its literals moved about so that the first two are watched. A watch is twice its clause, plus one for the second.
#[derive(Drop)]
pub(crate) struct Watches {
    // by literal: its first watch
    heads: Vec<u32>,
    // by watch: the next of its list, and a literal of its clause
    nexts: Vec<u32>,
    blockers: Vec<u32>,
    // where the literals of each clause end
    ends: Vec<u32>,
    lits: Vec<u32>,
}

impl Watches {
    /// No clause is watched.
    pub fn new(alloc: Global) -> Watches {
        Watches {
            heads: Vec::new(alloc),
            nexts: Vec::new(alloc),
            blockers: Vec::new(alloc),
            ends: Vec::new(alloc),
            lits: Vec::new(alloc),
        }
    }

    /// Has room for the literals of so many variables.
    pub fn widen(&mut self, vars: usize) -> Result<(), AllocError> {
        lengthen(&mut self.heads, vars.saturating_mul(2), NONE)
    }

    /// Forgets all clauses.
    pub fn clear(&mut self) {
        self.heads.clear();
        self.nexts.clear();
        self.blockers.clear();
        self.ends.clear();
        self.lits.clear();
    }

    /// How many clauses there are.
    pub fn len(&self) -> usize {
        self.ends.len()
    }

    /// How many watches.
    pub fn count(&self) -> usize {
        self.nexts.len()
    }

    /// Takes in a clause, which watches two of its literals, where it has so many.
    pub fn add(&mut self, clause: &[u32], first: u32, second: u32) -> Result<(), AllocError> {
        let from = self.lits.len();
        self.lits.extend_from_slice(clause)?;
        bring(&mut self.lits, from, first);
        bring(&mut self.lits, from.saturating_add(1), second);
        self.add_watch(first, second, clause.len() >= 2)?;
        self.add_watch(second, first, clause.len() >= 2)?;
        let end = u32::try_from(self.lits.len()).unwrap_or(NONE);
        self.ends.push(end)?;
        Ok(())
    }

    // Adds a watch to the list of a literal, or one that is in no list.
    fn add_watch(&mut self, lit: u32, blocker: u32, is_listed: bool) -> Result<(), AllocError> {
        let watch = u32::try_from(self.nexts.len()).unwrap_or(NONE);
        self.nexts.push(NONE)?;
        self.blockers.push(blocker)?;
        if is_listed {
            self.link(watch, lit);
        }
        Ok(())
    }

    /// Puts a watch into the list of a literal.
    pub fn link(&mut self, watch: u32, lit: u32) {
        let head = item(&self.heads, lit as usize);
        put(&mut self.nexts, watch as usize, head);
        put(&mut self.heads, lit as usize, watch);
    }

    /// Takes what follows a watch, or else is the first, out of the list of a literal: this one follows instead.
    pub fn skip(&mut self, lit: u32, before: u32, next: u32) {
        if before == NONE {
            put(&mut self.heads, lit as usize, next);
        } else {
            put(&mut self.nexts, before as usize, next);
        }
    }

    /// The first watch of a literal.
    pub fn head(&self, lit: u32) -> u32 {
        item(&self.heads, lit as usize)
    }

    /// The watch after another.
    pub fn next(&self, watch: u32) -> u32 {
        item(&self.nexts, watch as usize)
    }

    /// Looks at a watch whose literal fell.
    pub fn look(&mut self, watch: u32, values: &[Value]) -> Look {
        if value_in(values, item(&self.blockers, watch as usize)) == Value::True {
            return Look::Holds;
        }
        let number = watch as usize / 2;
        let from = if number == 0 {
            0
        } else {
            item(&self.ends, number - 1) as usize
        };
        let to = item(&self.ends, number) as usize;
        if to > self.lits.len() || from > to {
            return Look::Holds;
        }
        let found = seek(&mut self.lits[from..to], watch as usize % 2, values);
        if let Look::Due(other) = found {
            put(&mut self.blockers, watch as usize, other);
        }
        if let Look::Holds = found {
            let other = item(&self.lits, from + 1 - watch as usize % 2);
            put(&mut self.blockers, watch as usize, other);
        }
        found
    }
}

// Looks at the literals of a clause of which the first or the second fell.
fn seek(clause: &mut [u32], fallen: usize, values: &[Value]) -> Look {
    if clause.len() < 2 || fallen > 1 {
        return Look::Holds;
    }
    let other = clause[1 - fallen];
    if value_in(values, other) == Value::True {
        return Look::Holds;
    }
    for i in 2..clause.len() {
        let lit = clause[i];
        if value_in(values, lit) != Value::False {
            clause[i] = clause[fallen];
            clause[fallen] = lit;
            return Look::Moves(lit);
        }
    }
    Look::Due(other)
}

// Exchanges a literal with what stands at this place.
fn bring(lits: &mut [u32], to: usize, lit: u32) {
    for i in to..lits.len() {
        if lits[i] == lit {
            lits[i] = lits[to];
            lits[to] = lit;
            return;
        }
    }
}
