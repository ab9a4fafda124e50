//! The memory of a solver, kept from question to question.

ghost use Rattle.std.specs.Prelude.{◌≡◌, ◌<◌, ◌^◌, [], IfOk, OnOk, length};

use crate::analysis::Analysis;
use cnf_store::Arena;
use sat_guide::{Guide, Hints};
use sat_trail::Trail;
use std::alloc::{AllocError, Global};

/// What one question leaves to the next, over any formulas: nothing is copied where they share one. It holds no more than a
/// solver needs for one question.
#[derive(Drop)]
pub struct Workspace {
    pub(crate) kept: Option<Kept>,
}

impl Workspace {
    /// Nothing is kept yet.
    pub fn new() -> Workspace {
        Workspace { kept: None }
    }

    /// How active a variable, counted from 0, is after the last question: how often its conflicts raised it, those of late more, in
    /// 256ths of what a raise adds by then. A hint.
    pub fn activity(&self, var: usize) -> u32 {
        match &self.kept {
            Some(kept) => kept.question.guide.order.activity(var),
            None => 0,
        }
    }

    /// Has the variables of the next question begin it as active as this. A hint, which the first question doesn't take.
    pub fn begin_with(&mut self, activities: &[u32]) -> Result<(), AllocError> {
        match &mut self.kept {
            Some(kept) => kept.question.guide.order.begin_with(activities),
            None => Ok(()),
        }
    }

    /// Keeps it for the next question.
    pub(crate) fn keep(&mut self, kept: Kept) {
        self.kept.insert(kept);
    }
}

/// What is kept: of a question, and of its search.
#[derive(Drop)]
pub(crate) struct Kept {
    pub question: Question,
    pub memory: Memory,
}

/// A question's own clauses by codes, and where to look.
#[derive(Drop)]
pub(crate) struct Question {
    pub own: Arena<u32>,
    pub clause: Vec<u32>,
    pub guide: Guide,
}

/// What a search learned, its trail, and what it analysed conflicts in.
#[derive(Drop)]
pub(crate) struct Memory {
    pub learned: Arena<u32>,
    pub trail: Trail,
    pub analysis: Analysis,
}

impl Kept {
    /// For questions over a formula of so many variables.
    pub fn new(
        alloc: Global,
        vars: usize,
        clauses: &Arena<u32>,
        hints: &Hints,
    ) -> Result<Kept, AllocError>
        requires { vars < 2 ^ 31 }
    {
        let guide = Guide::new(alloc, vars, clauses, hints)?;
        let trail = Trail::new(alloc, vars)?;
        Ok(Kept {
            question: Question {
                own: Arena::new(alloc),
                clause: Vec::new(alloc),
                guide,
            },
            memory: Memory {
                learned: Arena::new(alloc),
                trail,
                analysis: Analysis::new(alloc),
            },
        })
    }

    /// Empties it for a question over so many variables.
    pub fn empty(&mut self, alloc: Global, vars: usize) -> Result<(), AllocError>
        requires { vars < 2 ^ 31 }
        ensures own { OnOk result (self.new.question.own ≡ []) }
        ensures learned { OnOk result (self.new.memory.learned ≡ []) }
        ensures trail { OnOk result (self.new.memory.trail.lits.items ≡ []) }
        ensures size { OnOk result (length self.new.memory.trail.at.items ≡ vars) }
    {
        self.question.own.cut(0);
        self.memory.learned.cut(0);
        self.question.guide.end(&self.memory.trail.lits)?;
        empty(alloc, &mut self.memory.trail, vars)
    }
}

// Empties a trail for so many variables, in its memory where it has as many.
fn empty(alloc: Global, trail: &mut Trail, vars: usize) -> Result<(), AllocError>
    requires { vars < 2 ^ 31 }
    ensures trail { OnOk result (trail.new.lits.items ≡ []) }
    ensures size { OnOk result (length trail.new.at.items ≡ vars) }
{
    if trail.at.len() == vars {
        trail.clear();
    } else {
        *trail = Trail::new(alloc, vars)?;
    }
    Ok(())
}
