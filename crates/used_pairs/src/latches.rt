//! Latches whose next literals classes pair: they are equal in each frame after one in which these hold.
ghost use Rattle.std.specs.Prelude.{◌≡◌, ◌<◌, ◌/◌, ℕ, IfOk, IfSome, IfNone, length, true};
ghost use Rattle.circ_model.specs.Meaning.{IsSoundPair, places_of};
ghost use Rattle.class_partition.specs.Classes.{IsNeeded, least_of, needed};
ghost use Rattle.used_pairs.specs.Latches.{AreByNext, AreNexts, between, next_at};
ghost use Rattle.used_pairs.specs.Lists.{StepsBy, all_together};

use crate::list::PairList;
use circ_model::Lit;
use class_partition::{Classes, Needed};
use product_machine::{Cell, Product};
use std::alloc::{AllocError, Global};

// The next literal of the latch at a place; none where no latch stands there.
fn next_of(product: &Product, place: u32) -> Option<Lit>
    requires { place < places_of product.now }
    ensures is { result ≡ next_at product.now place }
    ensures pair { IsSoundPair product.now }
    ensures within { IfSome result (λ next. next / 2 < places_of product.now) }
{
    let _places = product.len();
    let cell = product.cells()[place as usize];
    match cell {
        Cell::Held(_, next) => Some(next),
        _ => None,
    }
}

// The next literals of the latches at two places, where classes pair them at the relative phase of the places.
fn paired_nexts(product: &Product, classes: &Classes, pair: Needed) -> Option<(Lit, Lit)>
    requires places { length classes.now.least ≡ places_of product.now }
    requires rep { pair.rep < places_of product.now }
    requires member { pair.member < places_of product.now }
    ensures pair { IsSoundPair product.now }
    ensures some { IfSome result (λ nexts. AreNexts product.now classes.now pair nexts.0 nexts.1) }
    ensures within { IfSome result (λ nexts. (nexts.0 / 2 < places_of product.now) × (nexts.1 / 2 < places_of product.now)) }
    ensures none { IfNone result (AreByNext product.now classes.now pair → ⊥) }
{
    let a = next_of(product, pair.rep)?;
    let b = next_of(product, pair.member)?;
    let opposite = classes.phase(pair.rep) != classes.phase(pair.member);
    let at_sign = if opposite { b.not() } else { b };
    if classes.paired(a, at_sign) {
        Some((a, b))
    } else {
        None
    }
}

// The places of two literals as a pair, and none where they are one.
fn list_between(alloc: Global, a: Lit, b: Lit) -> Result<PairList, AllocError>
    ensures { IfOk result (λ l. l ≡ between (a / 2) (b / 2)) }
{
    let mut pairs = Vec::new(alloc);
    let (p, q) = (a.var(), b.var());
    if p != q {
        pairs.push(Needed {
            rep: p.min(q),
            member: p.max(q),
        })?;
    }
    PairList::of(alloc, pairs)
}

/// The pairs on which it rests that a latch passes with its class's least place after k frames, where that is a latch too:
/// the places of their next literals, where the classes pair these at the relative phase of the latches, and no pair where
/// both literals have one place. `None` where the classes don't show it so. It errs for want of memory alone.
pub fn latch_pairs(
    alloc: Global,
    product: &Product,
    classes: &Classes,
    pair: Needed,
) -> Result<Option<PairList>, AllocError>
    requires places { length classes.now.least ≡ places_of product.now }
    requires needed { IsNeeded (places_of product.now) classes.now pair.member }
    requires rep { pair.rep ≡ least_of classes.now pair.member }
    ensures steps { IfOk result (λ found. IfSome found (λ l. (k : ℕ) → 0 < k → StepsBy product.now k classes.now.phase l (needed classes.now pair.member))) }
    ensures together { IfOk result (λ found. IfSome found (λ l. all_together classes.now l ≡ true)) }
    ensures none { IfOk result (λ found. IfNone found (AreByNext product.now classes.now pair → ⊥)) }
{
    let _places = classes.len();
    match paired_nexts(product, classes, pair) {
        Some(nexts) => Ok(Some(list_between(alloc, nexts.0, nexts.1)?)),
        None => Ok(None),
    }
}
