//! One line of a log: its literals, its hints, and whether the hints refute the literals' complements.

ghost use Rattle.std.specs.Prelude.{◌≡◌, ◌≢◌, ◌<◌, ◌≤◌, ◌*◌, ◌+◌, ◌++◌, [], ℕ, ℤ, neg_ℤ, Bool, true, false, length, map, IfOk};
ghost use Rattle.std.specs.List.{All};
ghost use Rattle.cnf_store.specs.Clauses.{IsLiteral, AreLiterals, AreClauses};
ghost use Rattle.sat_log.specs.Derivations.{Follows, line_at};
ghost use Rattle.log_check.specs.Marks.{mark_at, AreMarks};
ghost use Rattle.log_check.specs.FirstBad.{Decides, clauses_before};

use crate::refute::refutes;
use crate::scan::{assume, is_marked, place_of};
use cnf_store::Cnf;
use sat_log::Log;
use std::alloc::AllocError;

// Whether a literal is of so many variables.
fn is_within(lit: i32, vars: u32) -> bool
    ensures { Decides result (IsLiteral vars lit) }
{
    lit != 0 && lit.unsigned_abs() <= vars
}

/// Whether all literals are of so many variables, which are numbered from 1 on.
pub fn are_within(literals: &[i32], vars: u32) -> bool
    ensures { Decides result (AreLiterals vars literals.now) }
{
    for lit in literals {
        if !is_within(*lit, vars) {
            return false;
        }
    }
    true
}

// Whether a hint is the number of a given clause or of one of these lines.
fn is_earlier(hint: u64, given: u64, lines: u64) -> bool
    ensures { Decides result ((0 < hint) × (hint ≤ given + lines)) }
{
    hint != 0 && (hint <= given || hint - given <= lines)
}

// Whether all hints are.
fn are_earlier(hints: &[u64], given: u64, lines: u64) -> bool
    ensures { Decides result (All (λ h. (0 < h) × (h ≤ given + lines)) hints.now) }
{
    for hint in hints {
        if !is_earlier(*hint, given, lines) {
            return false;
        }
    }
    true
}

// Assumes the complement of each literal.
fn deny(
    literals: &[i32],
    vars: u32,
    marks: &mut [bool],
    assumed: &mut Vec<i32>,
) -> Result<(), AllocError>
    requires marks { AreMarks marks.old assumed.old.items }
    requires few { vars ≤ 2147483647 }
    requires size { length marks.old ≡ 2 * vars + 2 }
    requires within { AreLiterals vars literals.now }
    ensures ok { IfOk result (λ x. (assumed.new.items ≡ assumed.old.items ++ map neg_ℤ literals.now) × AreMarks marks.new assumed.new.items) }
    ensures size { length marks.new ≡ length marks.old }
{
    for i in 0..literals.len() {
        assume(marks, assumed, -literals[i])?;
    }
    Ok(())
}

// Whether none of the literals is assumed.
fn are_free(marks: &[bool], literals: &[i32]) -> bool
    ensures { Decides result (All (λ l. mark_at marks.now l ≡ false) literals.now) }
{
    for lit in literals {
        if is_marked(marks, *lit) {
            return false;
        }
    }
    true
}

// Takes back all that is assumed.
fn clear(marks: &mut [bool], assumed: &mut Vec<i32>)
    requires marks { AreMarks marks.old assumed.old.items }
    ensures marks { AreMarks marks.new [] }
    ensures assumed { assumed.new.items ≡ [] }
    ensures size { length marks.new ≡ length marks.old }
{
    unmark(marks, assumed);
    assumed.clear();
}

fn unmark(marks: &mut [bool], assumed: &[i32])
    requires marks { AreMarks marks.old assumed.now }
    ensures marks { AreMarks marks.new [] }
    ensures size { length marks.new ≡ length marks.old }
{
    for i in 0..assumed.len() {
        unmark_one(marks, assumed[i]);
    }
}

fn unmark_one(marks: &mut [bool], lit: i32)
    ensures others { (l : ℤ) → mark_at marks.new l ≡ true → (l ≢ lit) × (mark_at marks.old l ≡ true) }
    ensures size { length marks.new ≡ length marks.old }
{
    let place = place_of(lit);
    if place < marks.len() {
        marks[place] = false;
    }
}

/// Whether line i follows from the formula and the lines before it.
pub fn follows(
    formula: &Cnf,
    log: &Log,
    i: u64,
    marks: &mut [bool],
    assumed: &mut Vec<i32>,
) -> Result<bool, AllocError>
    requires line { i < length log.now }
    requires marks { AreMarks marks.old [] }
    requires assumed { assumed.old.items ≡ [] }
    requires size { length marks.old ≡ 2 * formula.now.vars + 2 }
    requires within { AreClauses formula.now.vars (clauses_before formula.now log.now i) }
    ensures ok { IfOk result (λ yes. Decides yes (Follows formula.now.vars (clauses_before formula.now log.now i) (line_at log.now i)) × AreMarks marks.new [] × (assumed.new.items ≡ [])) }
    ensures size { length marks.new ≡ length marks.old }
{
    let literals = log.clause(i);
    let hints = log.hints(i);
    if !are_within(literals, formula.vars()) {
        return Ok(false);
    }
    if !are_earlier(hints, formula.len(), i) {
        return Ok(false);
    }
    deny(literals, formula.vars(), marks, assumed)?;
    if !are_free(marks, literals) {
        clear(marks, assumed);
        return Ok(false);
    }
    let follows = refutes(formula, log, i, marks, assumed, hints)?;
    clear(marks, assumed);
    Ok(follows)
}
