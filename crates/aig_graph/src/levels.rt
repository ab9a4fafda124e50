//! The level of each gate: one more than the higher of its literals' levels; leaves have level 0.
ghost use Rattle.std.specs.Prelude.{◌≡◌, ◌≤◌, ◌<◌, ◌/◌, ◌++◌, ◌∷◌, [], ◌-◌, ◌+◌, max, true, ℕ, ◌^◌, map, length, take, set, slice_index, MatchOption, IfOk, vec_len};
ghost use Rattle.aig_graph.specs.Walk.{no_gate, gate_in, var_in, Uses, IsDone, Indexes, Walk, Turns, Turned, Keeps, Meets, Between, SettlesOr, IsCyclic, IsLevels, AreLevels, first_level};

use circ_model::Gate;
use std::alloc::{AllocError, Global};

const ON_WAY: u32 = 4294967294;

fn gate_of(gates: &[Gate], number: u32) -> Gate
    requires { number < length gates.now }
    ensures { result ≡ gate_in gates.now number }
{
    gates[number as usize]
}

// A variable that the gate uses and that has no level yet.
fn first_open(level: &[u32], gate: &Gate) -> Option<u32>
    requires left { gate.now.left / 2 < length level.now }
    requires right { gate.now.right / 2 < length level.now }
    ensures { MatchOption result (IsDone level.now (gate.now.left / 2) × IsDone level.now (gate.now.right / 2)) (λ v. Uses gate.now v × (4294967294 ≤ slice_index level.now v) × (v < length level.now)) }
{
    if level[gate.left.var() as usize] >= ON_WAY {
        return Some(gate.left.var());
    }
    if level[gate.right.var() as usize] >= ON_WAY {
        return Some(gate.right.var());
    }
    None
}

// The level of a gate whose right literals have theirs.
fn level_above(level: &[u32], gate: &Gate) -> u32
    requires left { IsDone level.now (gate.now.left / 2) }
    requires right { IsDone level.now (gate.now.right / 2) }
    requires left_within { gate.now.left / 2 < length level.now }
    requires right_within { gate.now.right / 2 < length level.now }
    ensures { result ≡ 1 + max (slice_index level.now (gate.now.left / 2)) (slice_index level.now (gate.now.right / 2)) }
{
    let left = level[gate.left.var() as usize];
    let right = level[gate.right.var() as usize];
    left.max(right) + 1
}

// One turn of the walk: on to a gate that the one on top waits for, or the one on top gets its level. False where gates wait for each other.
fn turn(
    defs: &[u32],
    gates: &[Gate],
    level: &mut [u32],
    stack: &mut Vec<u32>,
) -> Result<bool, AllocError>
    requires index { Indexes defs.now gates.now }
    requires walk { Walk defs.now gates.now level.old stack.old.items }
    requires some { 0 < vec_len stack.old }
    ensures { IfOk result (λ more. Turns more defs.now gates.now level.old level.new stack.new.items) }
{
    let end = stack.len() - 1;
    let gate = gate_of(gates, stack[end]);
    let Some(waits_for) = first_open(level, &gate) else {
        level[gate.var as usize] = level_above(level, &gate);
        stack.truncate(end);
        return Ok(true);
    };
    if level[waits_for as usize] == ON_WAY {
        return Ok(false);
    }
    stack.push(defs[waits_for as usize] - 2)?;
    level[waits_for as usize] = ON_WAY;
    Ok(true)
}

// Settles a gate, and those that it waits for. False where gates wait for each other.
fn settle(
    defs: &[u32],
    gates: &[Gate],
    number: u32,
    level: &mut [u32],
    stack: &mut Vec<u32>,
) -> Result<bool, AllocError>
    requires index { Indexes defs.now gates.now }
    requires between { Between defs.now gates.now level.old }
    requires number { number < length gates.now }
    requires empty { stack.old.items ≡ [] }
    ensures settled { IfOk result (λ more. SettlesOr more defs.now gates.now level.old level.new number) }
    ensures empty { IfOk result (λ more. more ≡ true → stack.new.items ≡ []) }
{
    let var = gate_of(gates, number).var as usize;
    if level[var] < ON_WAY {
        return Ok(true);
    }
    stack.push(number)?;
    level[var] = ON_WAY;
    'turns: while !stack.is_empty() {
        if !turn(defs, gates, level, stack)? {
            return Ok(false);
        }
    }
    Ok(true)
}

fn first_levels(alloc: Global, defs: &[u32]) -> Result<Vec<u32>, AllocError>
    ensures { IfOk result (λ v. v.items ≡ map first_level defs.now) }
{
    let mut level = Vec::with_capacity(alloc, defs.len())?;
    for def in defs {
        level.push(if *def < 2 { 0 } else { u32::MAX })?;
    }
    Ok(level)
}

fn settle_all(
    alloc: Global,
    defs: &[u32],
    gates: &[Gate],
    level: &mut [u32],
) -> Result<bool, AllocError>
    requires index { Indexes defs.now gates.now }
    requires between { Between defs.now gates.now level.old }
    requires few { length gates.now < 2 ^ 32 }
    ensures { IfOk result (λ all. AreLevels all defs.now gates.now level.new) }
{
    let mut stack = Vec::new(alloc);
    for number in 0..gates.len() as u32 {
        if !settle(defs, gates, number, level, &mut stack)? {
            return Ok(false);
        }
    }
    Ok(true)
}

/// Levels for all gates, or none where gates wait for each other.
pub fn levels_of(
    alloc: Global,
    defs: &[u32],
    gates: &[Gate],
) -> Result<Option<Vec<u32>>, AllocError>
    requires index { Indexes defs.now gates.now }
    requires few { length gates.now < 2 ^ 32 }
    ensures { IfOk result (λ r. MatchOption r (IsCyclic gates.now) (λ level. IsLevels defs.now gates.now level.items)) }
{
    let mut level = first_levels(alloc, defs)?;
    if settle_all(alloc, defs, gates, &mut level)? {
        Ok(Some(level))
    } else {
        Ok(None)
    }
}
