//! Propagation by watched literals. The watches are hints: each clause that they lead to is read again.

ghost use Rattle.std.specs.Prelude.{◌≡◌, ◌≤◌, ◌<◌, ◌+◌, ◌^◌, IfOk, OnOk, length};
ghost use Rattle.cnf_store.specs.Codes.{clause_at};
ghost use Rattle.sat_core.specs.Solving.{Keeps};
ghost use Rattle.sat_trail.specs.Looking.{IsStatus};
ghost use Rattle.sat_core.specs.Watching.{Grows, HasSwept};

use crate::solving::{Solver, imply};
use sat_guide::{Guide, Near, Sweep, Watches};
use sat_trail::{ClauseStatus, complement};
use std::alloc::{AllocError, Global};

// What the trail says of a clause, counted from 0.
fn inspect_in(s: &Solver, number: usize) -> ClauseStatus
    requires keeps { Keeps s.now }
    requires number { number < length s.now.db }
    ensures { IsStatus s.now.trail.lits.items s.now.trail.at.items (clause_at s.now.db (number + 1)) result }
{
    s.trail.inspect(s.db.get(number))
}

// Takes what a clause, counted from 0, implies, or finds that it is false: then it is named as reasons are, from 1 on.
fn settle(s: &mut Solver, number: usize) -> Option<u64>
    requires { Keeps s.old }
    ensures { HasSwept s.old s.new result }
{
    if number >= s.db.len() {
        return None;
    }
    match inspect_in(s, number) {
        ClauseStatus::Unit(lit) => {
            imply(s, lit, number as u64 + 1);
            None
        }
        ClauseStatus::Wrong => Some(number as u64 + 1),
        ClauseStatus::Holds => None,
        ClauseStatus::Open => None,
    }
}

// Goes along the clauses that watch a literal that fell.
fn go_along(
    s: &mut Solver,
    w: &mut Watches,
    near: &Near,
    sweep: &mut Sweep,
) -> Result<Option<u64>, AllocError>
    requires { Keeps s.old }
    ensures { IfOk result (HasSwept s.old s.new) }
{
    for _ in 0..sweep.len() {
        let Some(number) = w.advance(sweep, &s.trail.values, near)? else {
            return Ok(None);
        };
        let found = settle(s, number);
        if found.is_some() {
            return Ok(found);
        }
    }
    Ok(None)
}

// Goes along these watches of a literal that fell, from the first on.
fn sweep(
    alloc: Global,
    s: &mut Solver,
    w: &mut Watches,
    near: &Near,
    fallen: u32,
) -> Result<Option<u64>, AllocError>
    requires { Keeps s.old }
    ensures { IfOk result (HasSwept s.old s.new) }
{
    let mut walk = w.begin(alloc, fallen);
    let found = go_along(s, w, near, &mut walk)?;
    w.end(walk);
    Ok(found)
}

// Goes along all watches of a literal that fell: those of the shared clauses, then the others.
fn sweep_all(
    alloc: Global,
    s: &mut Solver,
    guide: &mut Guide,
    fallen: u32,
) -> Result<Option<u64>, AllocError>
    requires { Keeps s.old }
    ensures { IfOk result (HasSwept s.old s.new) }
{
    let found = sweep(alloc, s, &mut guide.shared, &guide.near, fallen)?;
    if found.is_some() {
        return Ok(found);
    }
    sweep(alloc, s, &mut guide.extra, &guide.near, fallen)
}

/// Takes all that follows from this place of the trail on, or finds a clause that is false.
pub fn propagate(
    alloc: Global,
    s: &mut Solver,
    guide: &mut Guide,
    from: usize,
) -> Result<Option<u64>, AllocError>
    requires { Keeps s.old }
    ensures { IfOk result (HasSwept s.old s.new) }
{
    let mut head = from;
    'queue: while head < s.trail.lits.len() {
        let lit = s.trail.lits[head];
        head += 1;
        let found = sweep_all(alloc, s, guide, complement(lit))?;
        if found.is_some() {
            return Ok(found);
        }
    }
    Ok(None)
}

// Reads these clauses, counted from 0, and takes what is implied of variables to which the search goes.
fn read_units(s: &mut Solver, near: &Near, units: &[u32])
    requires { Keeps s.old }
    ensures { Grows s.old s.new }
{
    for unit in units {
        read_unit(s, near, *unit as usize);
    }
}

// Reads a clause, and takes what is implied of a variable to which the search goes.
fn read_unit(s: &mut Solver, near: &Near, number: usize)
    requires { Keeps s.old }
    ensures { Grows s.old s.new }
{
    if is_near(s, near, number) {
        settle(s, number);
    }
}

// Whether the search goes to the variable of a clause's first literal.
fn is_near(s: &Solver, near: &Near, number: usize) -> bool {
    if number >= s.db.len() {
        return false;
    }
    let clause = s.db.get(number);
    clause.len() == 0 || near.has(clause[0] as usize / 2)
}

/// Reads the clauses of at most one literal, and takes what is implied.
pub fn read_all_units(s: &mut Solver, guide: &Guide)
    requires { Keeps s.old }
    ensures { Grows s.old s.new }
{
    read_units(s, &guide.near, guide.shared_units.as_slice());
    read_units(s, &guide.near, guide.units.as_slice());
}

/// Goes to all variables, where the search kept to those on which the question rests and is done with them: takes all that
/// then follows, or finds a clause that is false.
pub fn open_up(alloc: Global, s: &mut Solver, guide: &mut Guide) -> Result<Option<u64>, AllocError>
    requires { Keeps s.old }
    ensures { IfOk result (HasSwept s.old s.new) }
{
    if !guide.opens(&s.trail.values) {
        return Ok(None);
    }
    read_all_units(s, guide);
    propagate(alloc, s, guide, 0)
}
