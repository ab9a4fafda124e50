//! Lines are marked backward from the last one: those that it reaches through hints. Then those that are marked are copied with new
//! numbers.

ghost use Rattle.std.specs.Prelude.{◌≡◌, ◌<◌, ◌≤◌, ◌+◌, ◌++◌, ◌∷◌, [], ℕ, true, false, length, map, slice_index, IfOk, OnOk};
ghost use Rattle.std.specs.List.{All};
ghost use Rattle.cnf_store.specs.Clauses.{Formula};
ghost use Rattle.sat_log.specs.Derivations.{IsAccepted, clauses_of, line_at};
ghost use Rattle.log_trim.specs.Trimming.{AddsMarks, AreNeeded, IsSubsequence, IsTrimmed, is_marked, new_number, renumbered};

use sat_log::Log;
use std::alloc::{AllocError, Global};

// Marks the line that a hint names, if it stands before line i.
fn mark_hint(given: u64, hint: u64, i: u64, marks: &mut [bool])
    requires within { i ≤ length marks.old }
    ensures { AddsMarks given (hint ∷ []) i marks.old marks.new }
{
    if hint > given && hint - given <= i {
        marks[(hint - given - 1) as usize] = true;
    }
}

// Marks the lines before line i that these hints name.
fn mark_hints(given: u64, hints: &[u64], i: u64, marks: &mut [bool])
    requires within { i ≤ length marks.old }
    ensures { AddsMarks given hints.now i marks.old marks.new }
{
    for hint in hints {
        mark_hint(given, *hint, i, marks);
    }
}

// Marks the lines that line i hints, if that is marked.
fn mark_from(given: u64, log: &Log, i: u64, marks: &mut [bool])
    requires line { i < length log.now }
    requires size { length marks.old ≡ length log.now }
    ensures size { length marks.new ≡ length marks.old }
    ensures marked { is_marked marks.old i ≡ true → AddsMarks given (line_at log.now i).hints i marks.old marks.new }
    ensures unmarked { is_marked marks.old i ≡ false → marks.new ≡ marks.old }
{
    if marks[i as usize] {
        mark_hints(given, log.hints(i), i, marks);
    }
}

// A mark for each of so many lines, of which the last has it.
fn last_marked(alloc: Global, count: u64) -> Result<Vec<bool>, AllocError>
    ensures size { IfOk result (λ marks. length marks.items ≡ count) }
    ensures last { IfOk result (λ marks. (i : ℕ) → i + 1 ≡ count → is_marked marks.items i ≡ true) }
    ensures only { IfOk result (λ marks. (i : ℕ) → is_marked marks.items i ≡ true → i + 1 ≡ count) }
{
    let mut marks = vec![in alloc; false; count as usize]?;
    if count > 0 {
        marks[(count - 1) as usize] = true;
    }
    Ok(marks)
}

// A mark for each line: whether it is the last, or a later line that is marked hints it.
fn needed_lines(alloc: Global, given: u64, log: &Log) -> Result<Vec<bool>, AllocError>
    ensures { IfOk result (λ marks. AreNeeded given log.now marks.items) }
{
    let mut i = log.len();
    let mut marks = last_marked(alloc, i)?;
    while i > 0 {
        i -= 1;
        mark_from(given, log, i, &mut marks);
    }
    Ok(marks)
}

// The number of a clause among those that stay.
fn new_number(given: u64, before: &[u64], hint: u64) -> u64
    requires few { (j : ℕ) → j < length before.now → slice_index before.now j ≤ j }
    requires first { 0 < hint }
    ensures value { result ≡ new_number given before.now hint }
    ensures first { 0 < result }
{
    if hint <= given {
        return hint;
    }
    let line = (hint - given - 1) as usize;
    if line < before.len() {
        given + before[line] + 1
    } else {
        hint
    }
}

// The hints with their new numbers, in place of what the buffer had.
fn renumber(
    given: u64,
    before: &[u64],
    hints: &[u64],
    into: &mut Vec<u64>,
) -> Result<(), AllocError>
    requires few { (j : ℕ) → j < length before.now → slice_index before.now j ≤ j }
    requires given { All (λ h. 0 < h) hints.now }
    ensures value { OnOk result (into.new.items ≡ map (new_number given before.now) hints.now) }
    ensures given { OnOk result (All (λ h. 0 < h) into.new.items) }
{
    into.clear();
    for hint in hints {
        into.push(new_number(given, before, *hint))?;
    }
    Ok(())
}

// Appends line i of a log to another one.
fn keep_line(
    given: u64,
    before: &[u64],
    log: &Log,
    i: u64,
    hints: &mut Vec<u64>,
    kept: &mut Log,
) -> Result<(), AllocError>
    requires line { i < length log.now }
    requires few { (j : ℕ) → j < length before.now → slice_index before.now j ≤ j }
    ensures { OnOk result (kept.new ≡ kept.old ++ renumbered given before.now (line_at log.now i) ∷ []) }
{
    renumber(given, before, log.hints(i), hints)?;
    kept.add(log.clause(i), hints.as_slice())
}

// Adds the lines that are marked to a log without lines.
fn add_marked(
    alloc: Global,
    given: u64,
    log: &Log,
    marks: &[bool],
    kept: &mut Log,
) -> Result<(), AllocError>
    requires needed { AreNeeded given log.now marks.now }
    requires empty { kept.old ≡ [] }
    ensures accepted { OnOk result ((formula : Formula) → length formula.clauses ≡ given → IsAccepted formula log.now → IsAccepted formula kept.new) }
    ensures trimmed { OnOk result (IsTrimmed given kept.new) }
    ensures clauses { OnOk result (IsSubsequence (clauses_of kept.new) (clauses_of log.now)) }
{
    let mut before = Vec::new(alloc);
    let mut hints = Vec::new(alloc);
    for i in 0..log.len() {
        before.push(kept.len())?;
        if marks[i as usize] {
            keep_line(given, before.as_slice(), log, i, &mut hints, kept)?;
        }
    }
    Ok(())
}

// The lines that are marked.
fn marked_lines(alloc: Global, given: u64, log: &Log, marks: &[bool]) -> Result<Log, AllocError>
    requires needed { AreNeeded given log.now marks.now }
    ensures accepted { IfOk result (λ kept. (formula : Formula) → length formula.clauses ≡ given → IsAccepted formula log.now → IsAccepted formula kept) }
    ensures trimmed { IfOk result (IsTrimmed given) }
    ensures clauses { IfOk result (λ kept. IsSubsequence (clauses_of kept) (clauses_of log.now)) }
{
    let mut kept = Log::new(alloc);
    match add_marked(alloc, given, log, marks, &mut kept) {
        Ok(()) => Ok(kept),
        Err(error) => {
            drop(kept);
            Err(error)
        }
    }
}

/// The lines of a log that its last line reaches through hints, in their order and with new numbers, where the formula has
/// `given` clauses. Over a formula that the log is accepted over, they are accepted. It errs for want of memory alone.
pub fn trimmed(alloc: Global, given: u64, log: &Log) -> Result<Log, AllocError>
    ensures accepted { IfOk result (λ kept. (formula : Formula) → length formula.clauses ≡ given → IsAccepted formula log.now → IsAccepted formula kept) }
    ensures trimmed { IfOk result (IsTrimmed given) }
    ensures clauses { IfOk result (λ kept. IsSubsequence (clauses_of kept) (clauses_of log.now)) }
{
    let marks = needed_lines(alloc, given, log)?;
    marked_lines(alloc, given, log, marks.as_slice())
}

/// A log as it is trimmed, where it isn't used again. It errs for want of memory alone.
pub fn trim(alloc: Global, given: u64, log: Log) -> Result<Log, AllocError>
    ensures accepted { IfOk result (λ kept. (formula : Formula) → length formula.clauses ≡ given → IsAccepted formula log → IsAccepted formula kept) }
    ensures trimmed { IfOk result (IsTrimmed given) }
{
    let kept = trimmed(alloc, given, &log);
    drop(log);
    kept
}
