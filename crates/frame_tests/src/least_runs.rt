//! Least runs: of inputs that are shown late, and of free latches.
ghost use Rattle.std.specs.Prelude.{◌≤◌};

use crate::circuits::{KEPT, late_pair, pair_is};
use induction_base::*;
use product_machine::{Path, Product};
use std::alloc::{AllocError, Global};
use std::test::Fail;

// The least run of the least difference below 64.
#[tactic(auto, using(induction_base::proofs::Least::shown_at_end))]
fn least_of(alloc: Global, product: &Product) -> Result<Option<Diff>, AllocError> {
    match least_difference(alloc, product, 64)? {
        None => Ok(None),
        Some(found) => Ok(Some(least_run(alloc, product, &found)?)),
    }
}

// In how many rows the first input is one, and the last of these rows.
fn ones(run: &Path) -> (u64, u64) {
    let mut count = 0u64;
    let mut last = 0;
    for t in 0..run.inputs.len() {
        let row = run.inputs.row(t);
        if row.len() > 0 && row.get(0) {
            count = count.saturating_add(1);
            last = t;
        }
    }
    (count, last)
}

// Whether the least run ends with this frame and has its first input one in that frame alone.
fn is_one_at_end(alloc: Global, product: &Product, frame: u32) -> bool {
    match least_of(alloc, product) {
        Ok(Some(least)) => least.frame == frame && ones(&least.run) == (1, frame as u64),
        _ => false,
    }
}

// Whether that of an input that is shown from a frame on does.
fn late_input_is_one_at_end(alloc: Global, frame: u32) -> bool
    requires { frame ≤ 60 }
{
    match late_pair(alloc, frame) {
        Ok(product) => is_one_at_end(alloc, &product, frame),
        Err(_) => false,
    }
}

#[test]
fn an_input_that_is_shown_late_is_one_in_that_frame_alone(rt: HostRuntime) -> Result<(), Fail> {
    const FRAMES: &[u32] = &[0, 1, 7, 40];
    for &frame in FRAMES {
        assert!(rt; frame <= 60 && late_input_is_one_at_end(rt.alloc(), frame));
    }
    Ok(())
}

// Whether the least run of two free latches starts with the second at 1.
fn second_starts_at_one(alloc: Global, product: &Product) -> bool {
    match least_of(alloc, product) {
        Ok(Some(least)) => {
            let start = &least.run.start;
            start.len() == 2 && !start.get(0) && start.get(1)
        }
        _ => false,
    }
}

#[test]
fn of_two_free_latches_the_second_starts_at_one(rt: HostRuntime) -> Result<(), Fail> {
    assert!(rt; pair_is(rt.alloc(), KEPT, KEPT, second_starts_at_one));
    Ok(())
}
