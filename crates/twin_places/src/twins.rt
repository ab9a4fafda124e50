//! Classes of twins.
ghost use Rattle.std.specs.Prelude.{◌≡◌, ◌<◌, ◌≤◌, ℕ, IfOk, IfSome, IsTrue, length, slice_index};
ghost use Rattle.circ_model.specs.Meaning.{places_of};
ghost use Rattle.class_partition.specs.Classes.{ArePartition};
ghost use Rattle.class_partition.specs.Steps.{classes_of};
ghost use Rattle.twin_places.specs.Twins.{AreTwins};

use crate::candidates::first_places;
use crate::shown::are_shown;
use bit_rows::BitRow;
use class_partition::Classes;
use product_machine::Product;
use std::alloc::{AllocError, Global};

// Whether each entry is a place, not after its own, that is its own entry.
fn are_least(least: &[u32]) -> bool
    ensures lower { IsTrue result → (p : ℕ) → p < length least.now → slice_index least.now p ≤ p }
    ensures fixed { IsTrue result → (p : ℕ) → p < length least.now → slice_index least.now (slice_index least.now p) ≡ slice_index least.now p }
{
    for place in 0..least.len() {
        let first = least[place] as usize;
        if first > place || least[first] != least[place] {
            return false;
        }
    }
    true
}

// The phases of classes.
fn phases_of(alloc: Global, classes: &Classes) -> Result<BitRow, AllocError>
    ensures { IfOk result (λ row. length row ≡ length classes.now.least) }
{
    let mut phases = BitRow::with_len(alloc, classes.len())?;
    for place in 0..classes.len() {
        phases.set(place, classes.phase(place));
    }
    Ok(phases)
}

// The classes of which these are the least places, at the phases of others; none where they are no partition.
fn classes_with(
    alloc: Global,
    least: Vec<u32>,
    classes: &Classes,
) -> Result<Option<Classes>, AllocError>
    requires places { length least.items ≡ length classes.now.least }
    ensures { IfOk result (λ c. IfSome c (ArePartition (length classes.now.least))) }
{
    if !are_least(least.as_slice()) {
        return Ok(None);
    }
    let phases = phases_of(alloc, classes)?;
    Ok(Some(Classes::of_least(least, phases)))
}

/// Classes of places that structural hashing shows to be equal in every state, at the phases of these classes; none where it doesn't
/// show that of those that seem so. It errs for want of memory alone.
#[tactic(auto, using(crate::proofs::Passing::twins_where_all_pass))]
pub fn twin_classes(
    alloc: Global,
    product: &Product,
    classes: &Classes,
) -> Result<Option<Classes>, AllocError>
    requires classes { length classes.now.least ≡ places_of product.now }
    ensures { IfOk result (λ t. IfSome t (AreTwins product.now)) }
{
    let least = first_places(alloc, product, classes)?;
    let Some(twins) = classes_with(alloc, least, classes)? else {
        return Ok(None);
    };
    match are_shown(alloc, product, &twins) {
        Ok(true) => Ok(Some(twins)),
        Ok(false) => Ok(None),
        Err(error) => Err(error),
    }
}
