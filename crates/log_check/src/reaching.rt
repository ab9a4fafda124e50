//! The clauses of a formula that the last line of an accepted log reaches through hints: they alone leave no satisfying assignment.
//! (The core that a trimmed derivation leaves: Wetzler, Heule, Hunt, SAT 2014.)

ghost use Rattle.std.specs.Prelude.{◌≡◌, ◌<◌, ◌≤◌, ◌+◌, List, Bool, true, false, length, IfOk};
ghost use Rattle.std.specs.List.{All};
ghost use Rattle.sat_log.specs.Derivations.{IsAccepted, line_at};
ghost use Rattle.log_check.specs.Reached.{AddsMarks, AreReached, SatisfiesMarked, is_marked};

use bit_rows::BitRow;
use cnf_store::Cnf;
use sat_log::Log;
use std::alloc::{AllocError, Global};

// Marks the clauses that these hints name.
fn mark_hints(hints: &[u64], marks: &mut BitRow)
    requires within { All (λ h. (0 < h) × (h ≤ length marks.old)) hints.now }
    ensures { AddsMarks hints.now marks.old marks.new }
{
    let _count = marks.len();
    for i in 0..hints.len() {
        marks.set((hints[i] - 1) as u32, true);
    }
}

// Marks the clauses that line i hints, if that is marked.
fn mark_from(given: u64, log: &Log, i: u64, marks: &mut BitRow)
    requires line { i < length log.now }
    requires size { length marks.old ≡ given + length log.now }
    requires earlier { All (λ h. (0 < h) × (h ≤ given + i)) (line_at log.now i).hints }
    ensures size { length marks.new ≡ length marks.old }
    ensures marked { is_marked marks.old (given + i) ≡ true → AddsMarks (line_at log.now i).hints marks.old marks.new }
    ensures unmarked { is_marked marks.old (given + i) ≡ false → marks.new ≡ marks.old }
{
    let _count = marks.len();
    if marks.get((given + i) as u32) {
        mark_hints(log.hints(i), marks);
    }
}

// How many clauses and lines there are, where a row has bits for them.
fn count_all(given: u64, lines: u64) -> Result<u32, AllocError>
    ensures { IfOk result (λ count. count ≡ given + lines) }
{
    let count = given.checked_add(lines).ok_or(AllocError)?;
    if count > u32::MAX as u64 {
        return Err(AllocError);
    }
    Ok(count as u32)
}

// A mark for each clause and each line: whether it is reached.
fn reached_marks(alloc: Global, formula: &Cnf, log: &Log) -> Result<BitRow, AllocError>
    requires { IsAccepted formula.now log.now }
    ensures { IfOk result (AreReached (length formula.now.clauses) log.now (length formula.now.clauses + length log.now)) }
{
    let given = formula.len();
    let mut i = log.len();
    let count = count_all(given, i)?;
    let mut marks = BitRow::with_len(alloc, count)?;
    marks.set(count - 1, true);
    while i > 0 {
        i -= 1;
        mark_from(given, log, i, &mut marks);
    }
    Ok(marks)
}

/// A bit for each clause of the formula: whether the last line of the log reaches it through hints. No assignment makes all of
/// these true. It errs for want of memory, and where clauses and lines are together 2^32 or more.
pub fn reached(alloc: Global, formula: &Cnf, log: &Log) -> Result<BitRow, AllocError>
    requires { IsAccepted formula.now log.now }
    ensures reached { IfOk result (AreReached (length formula.now.clauses) log.now (length formula.now.clauses)) }
    ensures refuted { IfOk result (λ bits. (row : List Bool) → SatisfiesMarked row formula.now.clauses bits → ⊥) }
{
    let marks = reached_marks(alloc, formula, log)?;
    let _all = marks.len();
    let count = formula.len() as u32;
    let mut bits = BitRow::with_len(alloc, count)?;
    bits.copy_bits(0, &marks, 0, count);
    Ok(bits)
}
