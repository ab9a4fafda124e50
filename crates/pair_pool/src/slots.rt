//! Answers in the order of the list, whatever the order in which they were found.
ghost use Rattle.std.specs.Prelude.{◌≡◌, ℕ, ◌<◌, ◌≤◌, length, IfOk};
ghost use Rattle.pair_pool.specs.Claims.{AreFound};
ghost use Rattle.pair_pool.specs.Outcomes.{IsOutcomeAt};
ghost use Rattle.pair_pool.specs.Solutions.{AreEmpty, AreOutcomes, AreSlots};

use crate::outcome::Outcome;
use crate::solving::outcome_of;
use crate::worker::Claimed;
use product_machine::Product;
use std::alloc::{AllocError, Global};
use std::sync::Wait;
use std::thread::Threads;

/// The place of a pair in the list, and its outcome.
#[derive(Drop)]
pub struct Solved {
    pub index: u32,
    pub outcome: Outcome,
}

// So many slots, all empty.
fn empty_slots(alloc: Global, count: usize) -> Result<Vec<Option<Outcome>>, AllocError>
    ensures { IfOk result (λ s. AreEmpty count s.items) }
{
    let mut slots = Vec::new(alloc);
    for _at in 0..count {
        slots.push(None)?;
    }
    Ok(slots)
}

/// The outcomes that were found, each at the place of its pair.
pub(crate) fn slots_of(
    alloc: Global,
    products: &[Product],
    claimed: Vec<Claimed>,
) -> Result<Vec<Option<Outcome>>, AllocError>
    ensures { (k : ℕ) → AreFound products.now k claimed.items → IfOk result (λ s. AreSlots products.now k s.items) }
{
    let mut slots = empty_slots(alloc, products.len())?;
    let mut claimed = claimed;
    while let Some(one) = claimed.pop() {
        let Claimed { index, outcome } = one;
        let at = index as usize;
        if at < slots.len() {
            slots[at] = outcome;
        }
    }
    Ok(slots)
}

// The outcome in a slot, which is then empty. An empty slot's pair is settled here.
fn outcome_in<R: Threads + Wait + Sync>(
    rt: &R,
    alloc: Global,
    products: &[Product],
    k: u32,
    slots: &mut Vec<Option<Outcome>>,
    index: usize,
) -> Result<Outcome, AllocError>
    requires some { 0 < k }
    requires few { k ≤ 16 }
    requires slots { AreSlots products.now k slots.old.items }
    requires place { index < length products.now }
    ensures slots { AreSlots products.now k slots.new.items }
    ensures outcome { IfOk result (IsOutcomeAt products.now k index) }
{
    match slots[index].take() {
        Some(outcome) => Ok(outcome),
        None => outcome_of(rt, alloc, &products[index], k),
    }
}

/// The outcome of each pair of the list, in its order. Those that no worker found are found here.
pub(crate) fn solve_all<R: Threads + Wait + Sync>(
    rt: &R,
    alloc: Global,
    products: &[Product],
    k: u32,
    slots: Vec<Option<Outcome>>,
) -> Result<Vec<Solved>, AllocError>
    requires some { 0 < k }
    requires few { k ≤ 16 }
    requires few_products { length products.now ≤ 10000 }
    requires slots { AreSlots products.now k slots.items }
    ensures { IfOk result (λ s. AreOutcomes products.now k s.items) }
{
    let mut slots = slots;
    let mut solved = Vec::new(alloc);
    for index in 0..products.len() {
        let outcome = outcome_in(rt, alloc, products, k, &mut slots, index)?;
        solved.push(Solved {
            index: index as u32,
            outcome,
        })?;
    }
    Ok(solved)
}
