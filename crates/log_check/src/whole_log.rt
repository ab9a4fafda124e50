//! A whole log: how many lines follow, and whether the last clause is empty.

ghost use Rattle.std.specs.Prelude.{◌≡◌, ◌<◌, ◌*◌, ◌+◌, [], List, Bool, true, false, length, IfOk};
ghost use Rattle.std.specs.List.{All};
ghost use Rattle.cnf_store.specs.Clauses.{satisfies};
ghost use Rattle.sat_log.specs.Derivations.{EndsEmpty, IsAccepted};
ghost use Rattle.log_check.specs.Marks.{AreMarks};
ghost use Rattle.log_check.specs.FirstBad.{Decides, FollowTo, IsFirstBad};

use crate::line::follows;
use cnf_store::Cnf;
use sat_log::Log;
use std::alloc::{AllocError, Global};

// How many lines follow, up to the first that doesn't.
fn count_following(
    formula: &Cnf,
    log: &Log,
    marks: &mut [bool],
    assumed: &mut Vec<i32>,
) -> Result<u64, AllocError>
    requires marks { AreMarks marks.old [] }
    requires assumed { assumed.old.items ≡ [] }
    requires size { length marks.old ≡ 2 * formula.now.vars + 2 }
    ensures ok { IfOk result (λ n. FollowTo formula.now.vars formula.now.clauses log.now n) }
{
    let _given = formula.len();
    for i in 0..log.len() {
        if !follows(formula, log, i, marks, assumed)? {
            return Ok(i);
        }
    }
    Ok(log.len())
}

// Whether there is a last line, and its clause is empty.
fn ends_empty(log: &Log) -> bool
    ensures { Decides result (EndsEmpty log.now) }
{
    let count = log.len();
    if count == 0 {
        return false;
    }
    is_empty(log.clause(count - 1))
}

fn is_empty(clause: &[i32]) -> bool
    ensures { Decides result (clause.now ≡ []) }
{
    clause.len() == 0
}

/// The first line that doesn't follow, counted from 0; where all follow, the number of lines if the last clause isn't
/// empty or there is none. It is none where the log is accepted.
pub fn first_bad(alloc: Global, formula: &Cnf, log: &Log) -> Result<Option<u64>, AllocError>
    ensures { IfOk result (IsFirstBad formula.now log.now) }
{
    let mut marks = vec![in alloc; false; 2 * formula.vars() as usize + 2]?;
    let mut assumed = Vec::new(alloc);
    let count = count_following(formula, log, &mut marks, &mut assumed)?;
    if count == log.len() && ends_empty(log) {
        Ok(None)
    } else {
        Ok(Some(count))
    }
}

/// Whether the log is accepted. If it is, no assignment satisfies the formula.
pub fn check(alloc: Global, formula: &Cnf, log: &Log) -> Result<bool, AllocError>
    ensures exact { IfOk result (λ yes. Decides yes (IsAccepted formula.now log.now)) }
    ensures sound { IfOk result (λ yes. yes ≡ true → (row : List Bool) → satisfies row formula.now.clauses ≡ false) }
{
    match first_bad(alloc, formula, log)? {
        None => Ok(true),
        Some(_) => Ok(false),
    }
}
