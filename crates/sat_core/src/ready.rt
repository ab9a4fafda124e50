//! A formula that many questions share: what a search needs of it is made once.

ghost use Rattle.std.specs.Prelude.{◌≡◌, ◌≤◌, ◌<◌, ◌^◌, ◌++◌, [], IfOk, OnOk};
ghost use Rattle.sat_core.specs.Answers.{IsAnswer, joined};
ghost use Rattle.sat_core.specs.Ready.{IsPosed};
ghost use Rattle.sat_core.specs.Solving.{IsOutcome};
ghost use Rattle.cnf_store.specs.Codes.{AreWithin};
ghost use Rattle.sat_core.specs.Signed.{signed_clauses};

use crate::answer::Answer;
use crate::edge::{add_codes, bits_of};
use crate::solving::{Decided, Outcome, solve_codes};
use crate::workspace::{Kept, Question, Workspace};
use cnf_store::{Arena, Cnf};
use sat_guide::Hints;
use std::alloc::{AllocError, Global};
use std::marker::Model;

/// A formula made ready. Contracts see it as the formula.
#[derive(Drop)]
pub struct Ready {
    vars: u32,
    codes: Arena<u32>,
    hints: Hints,
}

impl Model for Ready {
    ghost use Rattle.cnf_store.specs.Clauses.{Formula};
    ghost use Rattle.sat_core.specs.Signed.{signed_clauses};
    ghost use Rattle.sat_core.specs.Ready.{AreCodes};

    ghost Value = { Formula };

    ghost view = { λ r. record { vars = r.vars; clauses = signed_clauses r.codes } };

    ghost invariant = { λ r. AreCodes r.vars r.codes };
}

impl Ready {
    /// Makes a formula ready.
    pub fn new(alloc: Global, cnf: &Cnf) -> Result<Ready, AllocError>
        ensures { IfOk result (λ r. r ≡ cnf.now) }
    {
        let vars = cnf.vars();
        let mut codes = Arena::new(alloc);
        let mut clause = Vec::new(alloc);
        add_codes(cnf, vars, &mut clause, &mut codes)?;
        let hints = Hints::new(alloc, vars as usize, &codes)?;
        Ok(Ready { vars, codes, hints })
    }

    // What is kept for questions over it: what is handed in, or new where that is none or of another formula.
    fn kept(&self, alloc: Global, kept: Option<Kept>) -> Result<Kept, AllocError> {
        let vars = self.vars as usize;
        if let Some(old) = kept {
            if old.question.guide.serves(vars, &self.hints) {
                return Ok(old);
            }
            drop(old);
        }
        let codes = &self.codes;
        Kept::new(alloc, vars, codes, &self.hints)
    }

    // Takes a question: its clauses, and where to look.
    fn pose(&self, alloc: Global, question: &mut Question, own: &Cnf) -> Result<(), AllocError>
        requires { question.old.own ≡ [] }
        ensures value { OnOk result (signed_clauses question.new.own ≡ own.now.clauses) }
        ensures within { OnOk result (AreWithin own.now.vars question.new.own) }
    {
        let vars = own.vars();
        add_codes(own, vars, &mut question.clause, &mut question.own)?;
        let first = self.codes.len();
        question
            .guide
            .begin(alloc, vars as usize, &self.hints, &question.own, first)
    }

    // Empties what is kept, and takes a question.
    fn fill(&self, alloc: Global, kept: &mut Kept, own: &Cnf) -> Result<(), AllocError>
        ensures { OnOk result (IsPosed own.now kept.new) }
    {
        kept.empty(alloc, own.vars() as usize)?;
        self.pose(alloc, &mut kept.question, own)
    }

    // What is kept, with a question.
    fn posed(&self, alloc: Global, kept: Option<Kept>, own: &Cnf) -> Result<Kept, AllocError>
        ensures { IfOk result (IsPosed own.now) }
    {
        let mut kept = self.kept(alloc, kept)?;
        match self.fill(alloc, &mut kept, own) {
            Ok(()) => Ok(kept),
            Err(e) => {
                drop(kept);
                Err(e)
            }
        }
    }

    // Decides over codes, in the memory of earlier questions.
    fn decide_in(
        &self,
        alloc: Global,
        work: &mut Workspace,
        own: &Cnf,
    ) -> Result<Outcome, AllocError>
        requires { self.now.vars ≤ own.now.vars }
        ensures outcome { IfOk result (IsOutcome (joined self.now own.now)) }
        ensures few { OnOk result (own.now.vars ≤ 2147483647) }
    {
        let Kept {
            mut question,
            memory,
        } = self.posed(alloc, work.kept.take(), own)?;
        let Decided { outcome, memory } = solve_codes(
            alloc,
            own.vars() as usize,
            &self.codes,
            &question.own,
            memory,
            &mut question.guide,
        )?;
        work.keep(Kept { question, memory });
        Ok(outcome)
    }

    /// Decides whether some assignment satisfies its clauses and those of another formula, which come after them, over the
    /// variables of the other. It works in the memory of earlier questions: one over the same formula costs what it touches.
    /// What a workspace was used for before, and how that ended, changes no answer's meaning.
    pub fn solve_in(
        &self,
        alloc: Global,
        work: &mut Workspace,
        own: &Cnf,
    ) -> Result<Answer, AllocError>
        requires { self.now.vars ≤ own.now.vars }
        ensures { IfOk result (IsAnswer (joined self.now own.now)) }
    {
        match self.decide_in(alloc, work, own)? {
            Outcome::Sat(row) => Ok(Answer::Sat(bits_of(alloc, &row)?)),
            Outcome::Unsat(log) => Ok(Answer::Unsat(log)),
        }
    }

    /// What `solve_in` answers, in memory of its own.
    pub fn solve_with(&self, alloc: Global, own: &Cnf) -> Result<Answer, AllocError>
        requires { self.now.vars ≤ own.now.vars }
        ensures { IfOk result (IsAnswer (joined self.now own.now)) }
    {
        let mut work = Workspace::new();
        let answer = self.solve_in(alloc, &mut work, own);
        drop(work);
        answer
    }
}
