//! Worked pairs: a toggling latch against the constant and against itself, and two outputs of which the second differs first.
ghost use Rattle.std.specs.Prelude.{◌≡◌, ◌<◌, ◌≤◌};
ghost use Rattle.circ_model.specs.Meaning.{places_of};

use crate::circuits::{DELAYS, LOW, LOW_TWICE, TOGGLE, pair_is, pair_of};
use circ_model::Lit;
use induction_base::*;
use product_machine::Product;
use std::alloc::Global;
use std::test::Fail;

// Whether the least difference below a depth has this frame, this output and so many rows in its run, or there is none.
fn is_least(alloc: Global, product: &Product, k: u32, least: Option<(u32, u32, u64)>) -> bool
    requires some { 0 < k }
    requires few { k ≤ 64 }
{
    match least_difference(alloc, product, k) {
        Ok(Some(found)) => least == Some((found.frame, found.output, found.run.inputs.len())),
        Ok(None) => least == None,
        Err(_) => false,
    }
}

// Whether a pair has no difference in its first frame, and this least one in its first three.
fn differs_first(alloc: Global, left: &str, right: &str, least: (u32, u32, u64)) -> bool {
    match pair_of(alloc, left, right) {
        Ok(product) => {
            is_least(alloc, &product, 1, None) && is_least(alloc, &product, 3, Some(least))
        }
        Err(_) => false,
    }
}

#[test]
fn a_toggling_latch_leaves_the_constant_in_frame_one(rt: HostRuntime) -> Result<(), Fail> {
    assert!(rt; differs_first(rt.alloc(), TOGGLE, LOW, (1, 0, 2)));
    Ok(())
}

#[test]
fn the_least_frame_comes_before_the_least_output(rt: HostRuntime) -> Result<(), Fail> {
    assert!(rt; differs_first(rt.alloc(), DELAYS, LOW_TWICE, (1, 1, 2)));
    Ok(())
}

// Whether two frames of a run break the equality of the left latch with this place in this frame, with so many rows, or hold
// it.
fn is_base(alloc: Global, product: &Product, place: u32, broken: Option<(u32, u64)>) -> bool
    requires places { places_of product.now ≡ 3 }
    requires place { place < 3 }
{
    match base_holds(alloc, product, 2, Lit::of(1, false), Lit::of(place, false)) {
        Ok(Base::Holds(_)) => broken == None,
        Ok(Base::Breaks(run, frame)) => broken == Some((frame, run.inputs.len())),
        Err(_) => false,
    }
}

// Whether two toggling latches agree, and the left one and the constant don't.
fn are_bases(alloc: Global, product: &Product) -> bool {
    product.len() == 3
        && is_base(alloc, product, 2, None)
        && is_base(alloc, product, 0, Some((1, 2)))
}

#[test]
fn toggling_latches_agree_and_leave_the_constant(rt: HostRuntime) -> Result<(), Fail> {
    assert!(rt; pair_is(rt.alloc(), TOGGLE, TOGGLE, are_bases));
    Ok(())
}
