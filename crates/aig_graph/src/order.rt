//! The order in which gates stand.
ghost use Rattle.std.specs.Prelude.{◌≡◌, OnOk};
ghost use Rattle.std.specs.List.Sorted.{IsPermutation, IsNonDecreasingBy};
ghost use Rattle.aig_graph.specs.Walk.{key_of};

use circ_model::Gate;
use std::alloc::AllocError;

fn key(level: &[u32], gate: Gate) -> u64
    ensures { result ≡ key_of level.now gate }
{
    let place = gate.var as usize;
    let height = if place < level.len() { level[place] } else { 0 };
    height as u64 * 4294967296 + gate.var as u64
}

/// By level, then by variable.
pub fn sort_gates(gates: &mut Vec<Gate>, level: &[u32]) -> Result<(), AllocError>
    ensures permutation { IsPermutation gates.old.items gates.new.items }
    ensures sorted { OnOk result (IsNonDecreasingBy (key_of level.now) gates.new.items) }
{
    gates.sort_by_key(|g| key(level, *g))?;
    Ok(())
}
