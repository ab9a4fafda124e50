//! Whether a graph shows of classes that each place passes with its class's least place, by induction over one frame.
ghost use Rattle.std.specs.Prelude.{◌≡◌, ◌<◌, ℕ, IfOk, IsTrue, None, Ok, length};
ghost use Rattle.circ_model.specs.Meaning.{places_of};
ghost use Rattle.class_partition.specs.Classes.{Passes};

use class_partition::Classes;
use pair_sweep::{Asker, FreeBit, Halt, Sweep, SweepMemory};
use product_machine::Product;
use std::alloc::{AllocError, Global};

// Whether it was found that there is no difference. A question that is put aside leaves that open.
fn is_none(found: Result<Option<Vec<FreeBit>>, Halt>) -> Result<bool, AllocError>
    ensures { IfOk result (λ none. IsTrue none → found ≡ Ok None) }
{
    match found {
        Ok(None) => Ok(true),
        Ok(Some(_)) => Ok(false),
        Err(Halt::Memory) => Err(AllocError),
        Err(Halt::Posed) => Ok(false),
    }
}

// Whether a place is seen to pass.
fn is_shown(
    alloc: Global,
    sweep: &mut Sweep<'_, '_>,
    asker: &mut Asker,
    place: u32,
) -> Result<bool, AllocError>
    requires place { place < places_of sweep.old.pair }
    ensures kept { sweep.new ≡ sweep.old }
    ensures passes { IfOk result (λ shown. IsTrue shown → Passes sweep.old.pair sweep.old.k sweep.old.classes place) }
{
    let base = is_none(sweep.base_difference(alloc, asker, place))?;
    if !base {
        return Ok(false);
    }
    let step = is_none(sweep.step_difference(alloc, asker, place))?;
    Ok(step)
}

// Whether all places are.
fn all_shown(
    alloc: Global,
    sweep: &mut Sweep<'_, '_>,
    asker: &mut Asker,
    places: u32,
) -> Result<bool, AllocError>
    requires places { places ≡ places_of sweep.old.pair }
    ensures { IfOk result (λ shown. IsTrue shown → (p : ℕ) → p < places → Passes sweep.old.pair sweep.old.k sweep.old.classes p) }
{
    for place in 0..places {
        let shown = is_shown(alloc, sweep, asker, place)?;
        if !shown {
            return Ok(false);
        }
    }
    Ok(true)
}

// Whether all places of a sweep are.
fn all_shown_in(alloc: Global, sweep: &mut Sweep<'_, '_>, places: u32) -> Result<bool, AllocError>
    requires places { places ≡ places_of sweep.old.pair }
    ensures { IfOk result (λ shown. IsTrue shown → (p : ℕ) → p < places → Passes sweep.old.pair sweep.old.k sweep.old.classes p) }
{
    let mut asker = Asker::posing(alloc, 0, 0)?;
    let shown = all_shown(alloc, sweep, &mut asker, places);
    drop(asker);
    shown
}

/// Whether it is so of all places. No question is put to the solver that isn't over a few nodes.
pub(crate) fn are_shown(
    alloc: Global,
    product: &Product,
    classes: &Classes,
) -> Result<bool, AllocError>
    requires classes { length classes.now.least ≡ places_of product.now }
    ensures { IfOk result (λ shown. IsTrue shown → (p : ℕ) → p < places_of product.now → Passes product.now 1 classes.now p) }
{
    let memory = SweepMemory::new(alloc, product, 1, 1)?;
    let mut sweep = Sweep::new(memory, classes)?;
    let shown = all_shown_in(alloc, &mut sweep, product.len());
    drop(sweep);
    shown
}
