//! Logs of a needed pair's two questions: it passes by the pairs of which the log of the last frame reaches a clause, whatever else
//! the classes say. (The clauses that a derivation uses: Zhang, Malik, DATE 2003.)
ghost use Rattle.std.specs.Prelude.{◌≡◌, ◌<◌, ◌≤◌, IfOk, IfSome, MatchOption, length, true};
ghost use Rattle.circ_model.specs.Meaning.{places_of};
ghost use Rattle.class_partition.specs.Classes.{IsNeeded, least_of, needed};
ghost use Rattle.sat_log.specs.Derivations.{IsAccepted};
ghost use Rattle.log_check.specs.FirstBad.{Decides};
ghost use Rattle.frame_unroll.specs.Unrolled.{formula_of};
ghost use Rattle.used_pairs.specs.Lists.{PassesBy, StepsBy, all_together};
ghost use Rattle.used_pairs.specs.Logs.{AreAccepted, AreUsed, base_asked, step_asked};

use crate::list::PairList;
use crate::members::{members_of, pairs_with};
use class_partition::{Classes, Needed};
use frame_unroll::Unrolled;
use log_check::{check, reached};
use product_machine::Product;
use sat_log::Log;
use std::alloc::{AllocError, Global};

// Whether a log shows that a place is equal to its class's least place in the first k frames from reset.
fn is_base(
    alloc: Global,
    product: &Product,
    k: u32,
    classes: &Classes,
    member: u32,
    log: &Log,
) -> Result<bool, AllocError>
    requires some { 0 < k }
    requires few { k ≤ 16 }
    requires places { length classes.now.least ≡ places_of product.now }
    requires needed { IsNeeded (places_of product.now) classes.now member }
    ensures { IfOk result (λ yes. Decides yes (IsAccepted (formula_of (base_asked product.now k classes.now member)) log.now)) }
{
    let _few = product.len();
    let _places = classes.len();
    let (a, b) = classes.needed(member);
    let mut frames = Unrolled::reset_frames(alloc, product, k)?;
    frames.ask(alloc, a, b, 0, k - 1)?;
    check(alloc, frames.cnf(), log)
}

// The pairs of which an accepted log over frames that ask about the last one reaches a clause.
fn step_pairs(
    alloc: Global,
    product: &Product,
    k: u32,
    classes: &Classes,
    member: u32,
    log: &Log,
) -> Result<Option<PairList>, AllocError>
    requires few { k ≤ 16 }
    requires places { length classes.now.least ≡ places_of product.now }
    requires needed { IsNeeded (places_of product.now) classes.now member }
    ensures accepted { IfOk result (λ found. MatchOption found (¬ IsAccepted (formula_of (step_asked product.now k classes.now member)) log.now) (λ l. IsAccepted (formula_of (step_asked product.now k classes.now member)) log.now)) }
    ensures used { IfOk result (λ found. IfSome found (AreUsed classes.now (step_asked product.now k classes.now member) log.now)) }
    ensures steps { IfOk result (λ found. IfSome found (λ l. StepsBy product.now k classes.now.phase l (needed classes.now member))) }
{
    let _cells = product.cells();
    let places = classes.len();
    let _few = product.len();
    let (a, b) = classes.needed(member);
    let mut frames = Unrolled::step_frames(alloc, product, k, classes)?;
    frames.ask(alloc, a, b, k, k)?;
    if !check(alloc, frames.cnf(), log)? {
        return Ok(None);
    }
    let marks = reached(alloc, frames.cnf(), log)?;
    let bits = members_of(alloc, places, &frames, &marks)?;
    let pairs = pairs_with(alloc, classes, &bits)?;
    Ok(Some(PairList::of(alloc, pairs)?))
}

/// The pairs on which it rests that a place is equal to its class's least place, by a log over k frames from reset and one over k
/// frames from any state in which the classes hold, and the next: the needed pairs of which the second reaches a clause, in the order of
/// their members. `None` where one of the logs isn't accepted. It errs for want of memory, and where clauses and lines of a log are
/// together 2^32 or more.
pub fn log_pairs(
    alloc: Global,
    product: &Product,
    k: u32,
    classes: &Classes,
    pair: Needed,
    base: &Log,
    step: &Log,
) -> Result<Option<PairList>, AllocError>
    requires some { 0 < k }
    requires few { k ≤ 16 }
    requires places { length classes.now.least ≡ places_of product.now }
    requires needed { IsNeeded (places_of product.now) classes.now pair.member }
    requires rep { pair.rep ≡ least_of classes.now pair.member }
    ensures passes { IfOk result (λ found. IfSome found (λ l. PassesBy product.now k classes.now.phase l (needed classes.now pair.member))) }
    ensures accepted { IfOk result (λ found. MatchOption found (¬ AreAccepted product.now k classes.now pair.member base.now step.now) (λ l. AreAccepted product.now k classes.now pair.member base.now step.now)) }
    ensures used { IfOk result (λ found. IfSome found (AreUsed classes.now (step_asked product.now k classes.now pair.member) step.now)) }
    ensures together { IfOk result (λ found. IfSome found (λ l. all_together classes.now l ≡ true)) }
{
    let _cells = product.cells();
    let _places = classes.len();
    if is_base(alloc, product, k, classes, pair.member, base)? {
        step_pairs(alloc, product, k, classes, pair.member, step)
    } else {
        Ok(None)
    }
}
