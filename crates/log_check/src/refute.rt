//! The hints of a line, one after the other: each clause but the last gives one more literal, and the last is false.

ghost use Rattle.std.specs.Prelude.{◌≡◌, ◌<◌, ◌≤◌, ◌*◌, ◌+◌, ◌-◌, ℕ, ℤ, length, IfOk};
ghost use Rattle.std.specs.List.{All};
ghost use Rattle.cnf_store.specs.Clauses.{AreLiterals, AreClauses};
ghost use Rattle.sat_log.specs.Derivations.{clause_at, Refutes};
ghost use Rattle.log_check.specs.Marks.{AreMarks};
ghost use Rattle.log_check.specs.FirstBad.{Decides, clauses_before};

use crate::scan::{Scan, assume, scan_clause};
use cnf_store::Cnf;
use sat_log::Log;
use std::alloc::AllocError;

// The clause of this number, of the formula or of a line before line i.
fn clause_of<'a>(formula: &'a Cnf, log: &'a Log, i: u64, number: u64) -> &'a [i32]
    requires line { i ≤ length log.now }
    requires first { 0 < number }
    requires last { number ≤ length formula.now.clauses + i }
    requires within { AreClauses formula.now.vars (clauses_before formula.now log.now i) }
    ensures value { result.now ≡ clause_at (clauses_before formula.entry.now log.entry.now i) number }
    ensures literals { AreLiterals formula.entry.now.vars result.now }
    ensures small { AreLiterals 2147483647 result.now }
{
    let given = formula.len();
    if number <= given {
        formula.clause(number)
    } else {
        log.clause(number - given - 1)
    }
}

/// Whether the hints refute what is assumed. It assumes more on the way.
pub fn refutes(
    formula: &Cnf,
    log: &Log,
    i: u64,
    marks: &mut [bool],
    assumed: &mut Vec<i32>,
    hints: &[u64],
) -> Result<bool, AllocError>
    requires line { i ≤ length log.now }
    requires marks { AreMarks marks.old assumed.old.items }
    requires size { length marks.old ≡ 2 * formula.now.vars + 2 }
    requires within { AreClauses formula.now.vars (clauses_before formula.now log.now i) }
    requires known { All (λ h. (0 < h) × (h ≤ length formula.now.clauses + i)) hints.now }
    ensures ok { IfOk result (λ yes. Decides yes (Refutes (clauses_before formula.now log.now i) assumed.old.items hints.now) × AreMarks marks.new assumed.new.items) }
    ensures size { length marks.new ≡ length marks.old }
{
    for j in 0..hints.len() {
        let last = j + 1 == hints.len();
        match scan_clause(marks, assumed, clause_of(formula, log, i, hints[j])) {
            Scan::Conflict => return Ok(last),
            Scan::Neither => return Ok(false),
            Scan::Unit(lit) => {
                if last {
                    return Ok(false);
                }
                assume(marks, assumed, lit)?;
            }
        }
    }
    Ok(false)
}
