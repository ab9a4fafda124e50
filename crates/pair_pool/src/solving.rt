//! One pair, settled in the calling thread.
ghost use Rattle.std.specs.Prelude.{◌≡◌, ◌<◌, ◌≤◌, length, IfOk};
ghost use Rattle.circ_model.specs.Meaning.{IsSoundPair, places_of, outputs_of};
ghost use Rattle.circ_model.specs.Verdict.{AgreeBelow};
ghost use Rattle.class_partition.specs.Classes.{ArePartition, AreOfGreatest};
ghost use Rattle.pair_pool.specs.Unpaired.{AreLeftOut};
ghost use Rattle.pair_pool.specs.Outcomes.{IsOutcome};

use crate::outcome::{Outcome, Outputs};
use class_partition::Classes;
use induction_base::least_difference;
use product_machine::Product;
use sec_base::FreeGate;
use split_workers::{Refined, refine};
use std::alloc::{AllocError, Global};
use std::sync::Wait;
use std::thread::Threads;

/// The outputs that classes don't pair, rising.
pub fn left_out(alloc: Global, product: &Product, classes: &Classes) -> Result<Vec<u32>, AllocError>
    requires sound { IsSoundPair product.now }
    requires places { length classes.now.least ≡ places_of product.now }
    ensures { IfOk result (λ u. AreLeftOut product.now classes.now (outputs_of product.now) u.items) }
{
    let mut outputs = Vec::new(alloc);
    for j in 0..product.outputs() {
        let (left, right) = product.output(j);
        if !classes.paired(left, right) {
            outputs.push(j)?;
        }
    }
    Ok(outputs)
}

// The outcome by the classes of the greatest correspondence, where no run differs below the depth.
fn outcome_by(
    alloc: Global,
    product: &Product,
    k: u32,
    classes: &Classes,
) -> Result<Outcome, AllocError>
    requires sound { IsSoundPair product.now }
    requires partition { ArePartition (places_of product.now) classes.now }
    requires greatest { AreOfGreatest product.now k classes.now }
    requires agree { AgreeBelow product.now k }
    ensures { IfOk result (IsOutcome product.now k) }
{
    let outputs = left_out(alloc, product, classes)?;
    if outputs.is_empty() {
        Ok(Outcome::Equivalent(classes.count()))
    } else {
        Ok(Outcome::Undecided(classes.count(), Outputs::new(outputs)))
    }
}

/// The verdict of a pair with induction over k frames and differences below frame k. It works alone, with all that one thread of
/// a check has; whatever it used is given back when it returns. It errs for want of memory alone.
pub fn outcome_of<R: Threads + Wait + Sync>(
    rt: &R,
    alloc: Global,
    product: &Product,
    k: u32,
) -> Result<Outcome, AllocError>
    requires some { 0 < k }
    requires few { k ≤ 16 }
    ensures { IfOk result (IsOutcome product.now k) }
{
    let _sound = product.cells();
    if let Some(diff) = least_difference(alloc, product, k)? {
        return Ok(Outcome::Different(diff.frame as u64, diff.output));
    }
    // One worker of `refine` works in this thread. `finish` of a board would ask over whole frames for each pair, without the rows
    // that simulation found and without what sweeps merged, and make its prover anew after each split.
    let Refined { version, .. } = refine(rt, alloc, product, k, 1, &FreeGate)?;
    outcome_by(alloc, product, k, version.classes())
}
