//! Products of two netlists, and the frames of their paths.
ghost use Rattle.std.specs.Prelude.{◌≡◌, ◌<◌, length};
ghost use Rattle.circ_model.specs.Meaning.{IsPath};
ghost use Rattle.product_machine.specs.Walk.{FitsPair};

use crate::circuits::{LATCH_OF_PRODUCT, PRODUCT_OF_LATCHES, pair_is};
use crate::rows::{has_bits, row_of};
use bit_rows::{BitRow, Rows};
use circ_model::{Lit, Signal};
use product_machine::{Path, Product, Scratch};
use std::alloc::{AllocError, Global};
use std::test::Fail;

// A path of three frames over two inputs that starts with all latches 0.
fn path_of(alloc: Global, product: &Product, inputs: [u32; 3]) -> Result<Path, AllocError> {
    let mut rows = Rows::new(alloc);
    for bits in inputs {
        rows.push(row_of(alloc, 2, bits)?)?;
    }
    Ok(Path {
        start: BitRow::with_len(alloc, product.latches())?,
        inputs: rows,
    })
}

// Whether a frame of a path has these values, that of place 0 lowest.
fn is_frame(product: &Product, path: &Path, t: u64, scratch: &mut Scratch, bits: u32) -> bool
    requires path { IsPath product.now path.now }
    requires frame { t < length path.now.inputs }
    requires scratch { FitsPair product.now scratch.old }
    ensures { FitsPair product.now scratch.new }
{
    product.values_at(path, t, scratch);
    has_bits(scratch.values(), bits)
}

// Whether a path of three frames has these.
fn are_frames(product: &Product, path: &Path, scratch: &mut Scratch, frames: [u32; 3]) -> bool
    requires path { IsPath product.now path.now }
    requires frames { length path.now.inputs ≡ 3 }
    requires scratch { FitsPair product.now scratch.old }
{
    is_frame(product, path, 0, scratch, frames[0])
        && is_frame(product, path, 1, scratch, frames[1])
        && is_frame(product, path, 2, scratch, frames[2])
}

// Whether a path is a run of three frames, and has these.
fn has_frames(alloc: Global, product: &Product, path: &Path, frames: [u32; 3]) -> bool {
    if !product.is_path(path) || path.inputs.len() != 3 || !product.is_run(path) {
        return false;
    }
    match Scratch::for_product(alloc, product) {
        Ok(mut scratch) => are_frames(product, path, &mut scratch, frames),
        Err(_) => false,
    }
}

// Whether these inputs give these frames, and a run.
fn inputs_give_frames(alloc: Global, product: &Product) -> bool {
    const INPUTS: [u32; 3] = [3, 1, 0];
    const FRAMES: [u32; 3] = [0b10000110, 0b01111010, 0b00001000];
    match path_of(alloc, product, INPUTS) {
        Ok(path) => has_frames(alloc, product, &path, FRAMES),
        Err(_) => false,
    }
}

// Whether each place is found by its signal, and a signal that isn't there isn't found.
fn signals_are_found(product: &Product) -> bool {
    for place in 0..product.len() {
        if product.place(product.signal(place)) != Some(place) {
            return false;
        }
    }
    product.place(Signal::Left(1)).is_none() && product.place(Signal::Right(5)).is_none()
}

// Whether the pair is laid out as it must: the constant, two inputs, two latches, their product, the latch, the product of the
// inputs.
fn is_laid_out(product: &Product) -> bool {
    let shown = (Lit::of(5, false), Lit::of(6, false));
    product.outputs() == 1
        && product.output(0) == shown
        && product.latches() == 3
        && product.next(2) == Lit::of(7, false)
        && product.same(product)
}

// Whether all of this holds.
fn go_together(alloc: Global, product: &Product) -> bool {
    inputs_give_frames(alloc, product) && signals_are_found(product) && is_laid_out(product)
}

#[test]
fn a_product_of_latches_and_a_latch_of_a_product_go_together(rt: HostRuntime) -> Result<(), Fail> {
    assert!(rt;
        pair_is(
            rt.alloc(),
            PRODUCT_OF_LATCHES,
            LATCH_OF_PRODUCT,
            go_together
        )
    );
    Ok(())
}
