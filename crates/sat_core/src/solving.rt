//! The search: what follows, then a conflict or a decision, until the clauses are refuted or all of them hold.

ghost use Rattle.std.specs.Prelude.{◌≡◌, ◌≢◌, ◌≤◌, ◌<◌, ◌+◌, ◌-◌, ◌*◌, ◌/◌, ◌%◌, ◌^◌, ◌++◌, ◌∷◌, [], ℕ, Bool, true, false, List, IfOk, OnOk, OnErr, IfSome, IfNone, length, slice_index, slice_index_or, slice_set, map, take, reverse, vec_len, ◌⊎◌, ◌↔◌, IsTrue, ◌==◌};
ghost use Rattle.std.specs.List.{All, Any, Contains};
ghost use Rattle.cnf_store.specs.Codes.{neg, clause_at, AreWithin, MakesTrue};
ghost use Rattle.sat_log.specs.Derivations.{Line};
ghost use Rattle.sat_trail.specs.Trail.{IsPlaced, StandsBelow, IsWrong, IsUnit, AreStarts};
ghost use Rattle.sat_core.specs.Analysis.{IsLearned};
ghost use Rattle.sat_core.specs.Signed.{signed_line, coded};
ghost use Rattle.sat_core.specs.Solving.{Keeps, Advances, HasStepped, HasEnded, HasDecided, IsOutcome, IsRowOf};
ghost use Rattle.sat_core.specs.declared.solving.Outcome.TheVariants.{Sat, Unsat};
ghost use Rattle.sat_trail.specs.Rank.{rank};

use crate::analysis::Analysis;
use crate::edge::push_literals;
use crate::watching::{open_up, propagate, read_all_units};
use crate::workspace::Memory;
use cnf_store::{Arena, Clauses, Joined};
use sat_guide::{Guide, Order, Pace, Uses};
use sat_log::Log;
use sat_trail::{Look, Trail, complement};
use std::alloc::{AllocError, Global};

/// What a solver has at hand: the formula and its variables, all clauses with those that were learned, the log of these, the
/// trail, and what conflicts are analysed in.
#[derive(Drop)]
pub struct Solver<'f> {
    pub vars: usize,
    pub formula: Joined<'f>,
    pub db: Clauses<'f>,
    pub log: Log,
    pub trail: Trail,
    pub analysis: Analysis,
}

/// What the search comes to, over codes.
#[derive(Drop)]
pub enum Outcome {
    Sat(Vec<bool>),
    Unsat(Log),
}

/// What a step comes to: the search goes on, or the clauses are refuted, or each of them has a literal on the trail.
#[derive(Drop)]
pub enum Progress {
    On,
    Refuted,
    Full,
}

/// Adds what a clause implies.
pub fn imply(s: &mut Solver, lit: u32, clause: u64)
    requires keeps { Keeps s.old }
    requires clause { (0 < clause) × (clause ≤ length s.old.db) }
    requires unit { IsUnit s.old.trail.lits.items s.old.trail.at.items (clause_at s.old.db clause) lit }
    ensures advances { Advances s.old s.new }
    ensures clauses { s.new.db ≡ s.old.db }
{
    s.trail.imply(lit, clause);
}

// Decides a variable.
fn decide(s: &mut Solver, var: usize, phase: bool)
    requires keeps { Keeps s.old }
    requires var { var < length s.old.trail.at.items }
    requires free { slice_index s.old.trail.at.items var ≡ 0 }
    ensures { Advances s.old s.new }
{
    s.trail.decide(literal(var, phase));
}

fn literal(var: usize, phase: bool) -> u32
    requires { var < 2 ^ 31 }
    ensures { result / 2 ≡ var }
{
    let even = 2 * var as u32;
    if phase { even } else { even + 1 }
}

// Keeps the values that a way back takes.
fn release_from(order: &mut Order, trail: &Trail, level: usize) -> Result<(), AllocError> {
    if level >= trail.starts.len() {
        return Ok(());
    }
    for p in trail.starts[level]..trail.lits.len() {
        order.release(trail.lits[p])?;
    }
    Ok(())
}

// Adds the learned clause to the clauses and to the log.
fn keep_learned(db: &mut Clauses, log: &mut Log, analysis: &mut Analysis) -> Result<(), AllocError>
    requires literals { All (λ l. l < 4294967294) analysis.old.learned.items }
    requires hints { All (λ h. 0 < h) analysis.old.hints.items }
    ensures db { OnOk result (db.new ≡ db.old ++ analysis.old.learned.items ∷ []) }
    ensures log { OnOk result (log.new ≡ log.old ++ signed_line analysis.old.learned.items analysis.old.hints.items ∷ []) }
{
    push_literals(&analysis.learned, &mut analysis.literals)?;
    log.add(&analysis.literals, &analysis.hints)?;
    db.add(&analysis.learned)
}

// Adds the learned clause, goes back as far as it allows and adds what it implies there.
fn backjump(
    s: &mut Solver,
    order: &mut Order,
    level: usize,
    limit: usize,
    first: usize,
) -> Result<Progress, AllocError>
    requires keeps { Keeps s.old }
    requires level { (0 < level) × (level ≤ length s.old.trail.starts.items) }
    requires limit { limit ≤ length s.old.trail.lits.items }
    requires learned { IsLearned s.old.db s.old.trail.lits.items (slice_index s.old.trail.starts.items (level - 1)) limit first s.old.analysis.learned.items s.old.analysis.hints.items }
    ensures { IfOk result (HasStepped s.old s.new) }
{
    let lit = complement(s.trail.lits[first]);
    let second = s.trail.top(&s.analysis.learned, lit);
    let cut = s.trail.level_below(second);
    release_from(order, &s.trail, cut)?;
    keep_learned(&mut s.db, &mut s.log, &mut s.analysis)?;
    s.trail.back_to(cut);
    s.trail.imply(lit, s.db.len() as u64);
    Ok(Progress::On)
}

// Derives the empty clause from a conflict that rests on no decision.
fn refute(s: &mut Solver, from: usize, conflict: u64) -> Result<Progress, AllocError>
    requires keeps { Keeps s.old }
    requires conflict { (0 < conflict) × (conflict ≤ length s.old.db) }
    requires from { from ≤ length s.old.trail.lits.items }
    requires wrong { IsWrong s.old.trail.lits.items from (clause_at s.old.db conflict) }
    requires root { 0 < length s.old.trail.starts.items → from ≤ slice_index s.old.trail.starts.items 0 }
    ensures { IfOk result (HasStepped s.old s.new) }
{
    s.analysis.learn_nothing(&s.db, &s.trail, from, conflict)?;
    s.log.add(&[], &s.analysis.hints)?;
    Ok(Progress::Refuted)
}

// Learns from a clause that is false.
fn on_conflict(s: &mut Solver, order: &mut Order, conflict: u64) -> Result<Progress, AllocError>
    requires keeps { Keeps s.old }
    requires conflict { (0 < conflict) × (conflict ≤ length s.old.db) }
    requires wrong { IsWrong s.old.trail.lits.items (length s.old.trail.lits.items) (clause_at s.old.db conflict) }
    ensures { IfOk result (HasStepped s.old s.new) }
{
    let from = s.trail.top(s.db.get((conflict - 1) as usize), u32::MAX);
    let level = s.trail.level_below(from);
    if level == 0 {
        return refute(s, from, conflict);
    }
    let start = s.trail.starts[level - 1];
    let first = s.analysis.learn(&s.db, &s.trail, start, from, conflict)?;
    backjump(s, order, level, from, first)
}

// Where every variable has a value, or seems to: reads every clause.
fn check_all(s: &mut Solver, order: &mut Order) -> Result<Progress, AllocError>
    requires keeps { Keeps s.old }
    requires full { (v : ℕ) → v < length s.old.trail.at.items → 0 < slice_index s.old.trail.at.items v }
    ensures { IfOk result (HasStepped s.old s.new) }
{
    match s.trail.look_through(&s.db) {
        Look::Implied(lit, clause) => {
            imply(s, lit, clause);
            Ok(Progress::On)
        }
        Look::Conflict(clause) => on_conflict(s, order, clause),
        Look::Quiet => Ok(Progress::Full),
    }
}

// A variable without a value: what the order has, or any.
fn pick(order: &mut Order, trail: &Trail) -> Option<usize>
    ensures some { IfSome result (λ v. (v < length trail.now.at.items) × (slice_index trail.now.at.items v ≡ 0)) }
    ensures none { IfNone result ((v : ℕ) → v < length trail.now.at.items → 0 < slice_index trail.now.at.items v) }
{
    if let Some(var) = order.pick(&trail.values) {
        if is_open(&trail.at, var) {
            return Some(var);
        }
    }
    trail.free()
}

// Whether a variable has no value.
fn is_open(at: &[usize], var: usize) -> bool
    ensures { result ≡ true → (var < length at.now) × (slice_index at.now var ≡ 0) }
{
    var < at.len() && at[var] == 0
}

// One step: what follows, and then a conflict or a decision.
fn step(
    alloc: Global,
    s: &mut Solver,
    guide: &mut Guide,
    from: usize,
) -> Result<Progress, AllocError>
    requires keeps { Keeps s.old }
    ensures { IfOk result (HasStepped s.old s.new) }
{
    match propagate(alloc, s, guide, from)? {
        Some(conflict) => on_conflict(s, &mut guide.order, conflict),
        None => go_further(alloc, s, guide),
    }
}

// Where nothing follows: the variables on which the question doesn't rest, or a decision.
fn go_further(alloc: Global, s: &mut Solver, guide: &mut Guide) -> Result<Progress, AllocError>
    requires keeps { Keeps s.old }
    ensures { IfOk result (HasStepped s.old s.new) }
{
    match open_up(alloc, s, guide)? {
        Some(conflict) => on_conflict(s, &mut guide.order, conflict),
        None => branch(s, &mut guide.order),
    }
}

// Decides a variable without a value, or reads every clause where there is none.
fn branch(s: &mut Solver, order: &mut Order) -> Result<Progress, AllocError>
    requires keeps { Keeps s.old }
    ensures { IfOk result (HasStepped s.old s.new) }
{
    match pick(order, &s.trail) {
        Some(var) => {
            decide(s, var, order.phase_of(var));
            Ok(Progress::On)
        }
        None => check_all(s, order),
    }
}

// Back to the first level.
fn restart(s: &mut Solver, order: &mut Order) -> Result<(), AllocError>
    requires { Keeps s.old }
    ensures keeps { OnOk result (Keeps s.new) }
    ensures vars { s.new.vars ≡ s.old.vars }
    ensures formula { s.new.formula ≡ s.old.formula }
{
    if s.trail.starts.len() > 0 {
        release_from(order, &s.trail, 0)?;
        s.trail.back_to(0);
    }
    Ok(())
}

// Raises the clauses that were resolved on the last conflict's level, and their variables.
fn raise_last(s: &Solver, order: &mut Order, uses: &mut Uses) {
    let hints = &s.analysis.hints;
    let lower = hints.len().saturating_sub(s.analysis.resolved);
    for i in lower..hints.len() {
        let number = hints[i] as usize;
        if number > 0 && number <= s.db.len() {
            uses.raise(number - 1);
            for l in s.db.get(number - 1) {
                order.raise(*l as usize / 2);
            }
        }
    }
    order.grow();
}

// Watches the clause that a conflict had learned, and looks no more at those that conflicts use seldom.
fn take_in(s: &Solver, guide: &mut Guide, uses: &mut Uses) -> Result<(), AllocError> {
    guide.attach(&s.db, &s.trail.lits, &s.trail.at)?;
    raise_last(s, &mut guide.order, uses);
    uses.add(s.analysis.spread)?;
    if uses.are_many(s.trail.lits.len()) {
        uses.choose()?;
        guide.extra.forget(uses)?;
    }
    Ok(())
}

// The trail as a row of bits.
fn row_of(alloc: Global, trail: &Trail) -> Result<Vec<bool>, AllocError>
    ensures { IfOk result (λ row. IsRowOf trail.now row.items) }
{
    let mut row = Vec::new(alloc);
    for v in 0..trail.at.len() {
        row.push(is_set(trail, v))?;
    }
    Ok(row)
}

// Whether a variable is true.
fn is_set(trail: &Trail, v: usize) -> bool
    requires { v < length trail.now.at.items }
    ensures { (l : ℕ) → StandsBelow trail.now.lits.items (length trail.now.lits.items) l → l / 2 ≡ v → result ≡ (l % 2 == 0) }
{
    let place = trail.at[v];
    place != 0 && trail.lits[place - 1] % 2 == 0
}

/// What a search comes to, and its memory for the next.
#[derive(Drop)]
pub struct Decided {
    pub outcome: Outcome,
    pub memory: Memory,
}

/// Decides on the shared clauses and a question's own, in memory that is empty.
pub fn solve_codes(
    alloc: Global,
    vars: usize,
    shared: &Arena<u32>,
    own: &Arena<u32>,
    memory: Memory,
    guide: &mut Guide,
) -> Result<Decided, AllocError>
    requires shared { AreWithin vars shared.now }
    requires own { AreWithin vars own.now }
    requires learned { memory.learned ≡ [] }
    requires trail { memory.trail.lits.items ≡ [] }
    requires size { length memory.trail.at.items ≡ vars }
    ensures { IfOk result (λ d. IsOutcome (coded vars (shared.now ++ own.now)) d.outcome) }
{
    let (formula, known) = match join(shared, own) {
        Ok(both) => both,
        Err(e) => {
            drop(memory);
            return Err(e);
        }
    };
    let mut s = begin(alloc, vars, formula, known, memory);
    match assignment(alloc, &mut s, guide) {
        Ok(Some(row)) => Ok(satisfied(s, row)),
        Ok(None) => Ok(refuted(s)),
        Err(e) => {
            drop(s);
            Err(e)
        }
    }
}

// The formula, twice.
fn join<'f>(
    shared: &'f Arena<u32>,
    own: &'f Arena<u32>,
) -> Result<(Joined<'f>, Joined<'f>), AllocError>
    ensures first { IfOk result (λ both. both.0 ≡ shared.entry.now ++ own.entry.now) }
    ensures second { IfOk result (λ both. both.1 ≡ shared.entry.now ++ own.entry.now) }
{
    Ok((Joined::new(shared, own)?, Joined::new(shared, own)?))
}

// A solver that has done nothing yet.
fn begin<'f>(
    alloc: Global,
    vars: usize,
    formula: Joined<'f>,
    known: Joined<'f>,
    memory: Memory,
) -> Solver<'f>
    requires same { known ≡ formula }
    requires within { AreWithin vars formula }
    requires learned { memory.learned ≡ [] }
    requires trail { memory.trail.lits.items ≡ [] }
    requires size { length memory.trail.at.items ≡ vars }
    ensures keeps { Keeps result }
    ensures vars { result.vars ≡ vars }
    ensures formula { result.formula ≡ formula.entry }
{
    let Memory {
        learned,
        trail,
        analysis,
    } = memory;
    Solver {
        vars,
        formula,
        db: Clauses::new(known, learned),
        log: Log::new(alloc),
        trail,
        analysis,
    }
}

// A row of bits that satisfies all clauses; or none, and then the log derives the empty clause.
fn assignment(
    alloc: Global,
    s: &mut Solver,
    guide: &mut Guide,
) -> Result<Option<Vec<bool>>, AllocError>
    requires { Keeps s.old }
    ensures { IfOk result (HasDecided s.old s.new) }
{
    if search(alloc, s, guide)? {
        Ok(Some(row_of(alloc, &s.trail)?))
    } else {
        Ok(None)
    }
}

// Whether an assignment satisfies all clauses: the trail is then one, and else the log derives the empty clause.
fn search(alloc: Global, s: &mut Solver, guide: &mut Guide) -> Result<bool, AllocError>
    requires { Keeps s.old }
    ensures { IfOk result (HasEnded s.old s.new) }
{
    guide.attach(&s.db, &s.trail.lits, &s.trail.at)?;
    read_all_units(s, guide);
    let mut uses = Uses::new(alloc, s.formula.len());
    let mut pace = Pace::new();
    let mut restarts: u32 = 0;
    let mut from = 0;
    'steps: loop {
        if pace.is_due() && restarts < 1000000 {
            restarts += 1;
            pace.rest();
            restart(s, &mut guide.order)?;
            from = s.trail.lits.len();
        } else {
            let known = s.db.len();
            match step(alloc, s, guide, from)? {
                Progress::On => {}
                Progress::Refuted => return Ok(false),
                Progress::Full => return Ok(true),
            }
            if s.db.len() > known {
                pace.note(s.analysis.spread);
                take_in(s, guide, &mut uses)?;
            }
            from = s.trail.lits.len().saturating_sub(1);
        }
    }
}

// Ends with the log.
fn refuted(s: Solver) -> Decided
    ensures { result.outcome ≡ Unsat s.entry.log }
{
    let Solver {
        db,
        log,
        trail,
        analysis,
        ..
    } = s;
    Decided {
        outcome: Outcome::Unsat(log),
        memory: Memory {
            learned: db.into_learned(),
            trail,
            analysis,
        },
    }
}

// Ends with a row of bits.
fn satisfied(s: Solver, row: Vec<bool>) -> Decided
    ensures { result.outcome ≡ Sat row }
{
    Decided {
        outcome: Outcome::Sat(row),
        memory: into_memory(s),
    }
}

// The memory of a solver.
fn into_memory(s: Solver) -> Memory {
    let Solver {
        db,
        trail,
        analysis,
        ..
    } = s;
    Memory {
        learned: db.into_learned(),
        trail,
        analysis,
    }
}
