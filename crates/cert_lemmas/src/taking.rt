//! The lines of a case's refutation, taken over: each gets the literals of the case that it rests on, and the last one both.

ghost use Rattle.std.specs.Prelude.{◌<◌, length};

use crate::lines::{Lines, add_line};
use log_trim::trim;
use sat_log::Log;
use std::alloc::{AllocError, Global};

/// What a hint of a case's refutation stands for.
pub(crate) enum Hinted {
    /// A clause of the frames, or a line that was derived before: its number.
    Clause(u64),
    /// That the first literal of the case holds.
    First,
    /// That the second one does.
    Second,
    /// A line of the refutation, counted from 0.
    Line(u64),
}

/// What a clause of the frames stands for in a case whose literals the frames state in clauses of these numbers; 0 for none. The last line
/// assumes both literals, and a hint that gives again what is assumed isn't accepted: so such a clause counts as the case's own.
pub(crate) fn of_frames(number: u64, stated: (u64, u64)) -> Hinted {
    if number == stated.0 {
        Hinted::First
    } else if number == stated.1 {
        Hinted::Second
    } else {
        Hinted::Clause(number)
    }
}

/// A case that is refuted.
pub(crate) trait Refuted {
    /// How many clauses its refutation is over.
    fn clauses(&self) -> u64;

    /// What a hint of the refutation stands for.
    fn hinted(&self, hint: u64) -> Hinted;

    /// The frames' literal for one of the refutation.
    fn literal_of(&self, lit: i32) -> i32;

    /// The two literals of the case.
    fn both(&self) -> (i32, i32);
}

/// On which of a case's two literals a line rests.
#[derive(Clone, Copy)]
pub(crate) struct Rests {
    pub first: bool,
    pub second: bool,
}

// What lines rest on, and what the line of a row rests on beside it.
fn with(on: Rests, rests: &[Rests], row: u64) -> Rests {
    if row >= rests.len() as u64 {
        return on;
    }
    let below = rests[row as usize];
    Rests {
        first: on.first || below.first,
        second: on.second || below.second,
    }
}

impl Lines {
    /// Takes over the lines that a case's refutation needs, and answers the number of the last one.
    pub(crate) fn take_over<C: Refuted>(
        &mut self,
        alloc: Global,
        case: &C,
        log: Log,
    ) -> Result<u64, AllocError> {
        let kept = trim(alloc, case.clauses(), log)?;
        let taken = self.take(case, &kept);
        drop(kept);
        taken
    }

    /// Whether the line of a row that was taken over rests on a literal of its case.
    pub(crate) fn rests(&self, row: u64) -> bool {
        let none = Rests {
            first: false,
            second: false,
        };
        let on = with(none, self.rests.as_slice(), row);
        on.first || on.second
    }

    // Takes over the lines of a case's refutation.
    fn take<C: Refuted>(&mut self, case: &C, kept: &Log) -> Result<u64, AllocError> {
        let start = self.log.len();
        self.rests.clear();
        for i in 0..kept.len() {
            self.take_line(case, start, kept, i)?;
        }
        Ok(self.log.len())
    }

    // Takes over a line. The last one rests on both literals.
    fn take_line<C: Refuted>(
        &mut self,
        case: &C,
        start: u64,
        kept: &Log,
        i: u64,
    ) -> Result<(), AllocError>
        requires { i < length kept.now }
    {
        let count = kept.len();
        let last = i + 1 == count;
        let on = self.take_hints(case, start, kept.hints(i))?;
        let on = Rests {
            first: last || on.first,
            second: last || on.second,
        };
        self.rests.push(on)?;
        self.take_literals(case, kept.clause(i), on)?;
        add_line(&mut self.log, &self.literals, &self.hints)
    }

    // The literals of a line, with those of the case that it rests on.
    fn take_literals<C: Refuted>(
        &mut self,
        case: &C,
        clause: &[i32],
        on: Rests,
    ) -> Result<(), AllocError> {
        self.literals.clear();
        for lit in clause {
            self.literals.push(case.literal_of(*lit))?;
        }
        let (first, second) = case.both();
        if on.first {
            self.literals.push(first.wrapping_neg())?;
        }
        if on.second {
            self.literals.push(second.wrapping_neg())?;
        }
        Ok(())
    }

    // The hints of a line as they are taken over, where the case's lines begin past `start`. Answers what the line rests on.
    fn take_hints<C: Refuted>(
        &mut self,
        case: &C,
        start: u64,
        hints: &[u64],
    ) -> Result<Rests, AllocError> {
        let mut on = Rests {
            first: false,
            second: false,
        };
        self.hints.clear();
        for hint in hints {
            on = self.take_hint(case.hinted(*hint), start, on)?;
        }
        Ok(on)
    }

    fn take_hint(&mut self, hinted: Hinted, start: u64, on: Rests) -> Result<Rests, AllocError> {
        match hinted {
            Hinted::First => Ok(Rests { first: true, ..on }),
            Hinted::Second => Ok(Rests { second: true, ..on }),
            Hinted::Clause(number) => {
                self.hints.push(number)?;
                Ok(on)
            }
            Hinted::Line(row) => {
                let before = self.given.saturating_add(start);
                self.hints
                    .push(before.saturating_add(row).saturating_add(1))?;
                Ok(with(on, self.rests.as_slice(), row))
            }
        }
    }
}
