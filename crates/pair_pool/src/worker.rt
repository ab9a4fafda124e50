//! A worker: it claims a pair of the list, settles it, and claims the next, until each pair is claimed or memory runs out.
ghost use Rattle.std.specs.Prelude.{◌≡◌, ◌<◌, ◌≤◌, IfSome};
ghost use Rattle.claim_word.specs.Seats.{IsAnswered, IsSameSeat, beside};
ghost use Rattle.pair_pool.specs.Outcomes.{IsOutcomeAt};
ghost use Rattle.pair_pool.specs.Claims.{HasFound, IsSeated};

use crate::outcome::Outcome;
use crate::solving::outcome_of;
use claim_word::{Claim, ClaimWord, Seat};
use product_machine::Product;
use sec_base::Gate;
use std::alloc::Global;
use std::sync::Wait;
use std::thread::Threads;

/// The pairs of a list, and over how many frames the induction goes.
#[derive(Drop)]
pub(crate) struct Pairs<'a> {
    pub(crate) products: &'a [Product],
    pub(crate) k: u32,
}

/// A worker's number, and its seat at the word.
#[derive(Drop)]
pub(crate) struct Chair {
    pub(crate) worker: u32,
    pub(crate) seat: Seat,
}

/// A claimed pair's place in the list, and its outcome, or none where memory ran out.
#[derive(Drop)]
pub(crate) struct Claimed {
    pub(crate) index: u32,
    pub(crate) outcome: Option<Outcome>,
}

/// A worker's seat, and all that it claimed, in that order.
#[derive(Drop)]
pub(crate) struct Done {
    pub(crate) seat: Seat,
    pub(crate) claimed: Vec<Claimed>,
}

// The outcome of the pair at a place of the list, or none where there is no such pair or memory runs out.
fn settle<R: Threads + Wait + Sync>(
    rt: &R,
    alloc: Global,
    pairs: &Pairs<'_>,
    index: u32,
) -> Option<Outcome>
    requires some { 0 < pairs.now.k }
    requires few { pairs.now.k ≤ 16 }
    ensures { IfSome result (IsOutcomeAt pairs.now.products.now pairs.now.k index) }
{
    let at = index as usize;
    if at >= pairs.products.len() {
        return None;
    }
    match outcome_of(rt, alloc, &pairs.products[at], pairs.k) {
        Ok(outcome) => Some(outcome),
        Err(_) => None,
    }
}

// One claim, past the gate.
fn claim<G: Gate>(word: &ClaimWord, gate: &G, worker: u32, call: u64, seat: &mut Seat) -> Claim
    requires own { seat.old.word ≡ word.now }
    ensures answer { IsAnswered seat.old seat.new result }
    ensures seat { IsSameSeat seat.old seat.new }
{
    gate.hold(worker, call);
    let claim = word.claim(seat);
    gate.told(worker, call);
    claim
}

/// Works in a chair to the end. Claims are numbered from 0 for the gate, those that another thread was faster at too.
pub(crate) fn work<R: Threads + Wait + Sync, G: Gate>(
    rt: &R,
    alloc: Global,
    word: &ClaimWord,
    pairs: &Pairs<'_>,
    gate: &G,
    chair: Chair,
) -> Done
    requires seat { chair.seat ≡ beside word.now }
    requires some { 0 < pairs.now.k }
    requires few { pairs.now.k ≤ 16 }
    ensures seated { IsSeated word.now result }
    ensures found { HasFound pairs.now.products.now pairs.now.k result }
{
    let Chair { worker, mut seat } = chair;
    let mut claimed = Vec::new(alloc);
    for call in 0..u64::MAX {
        if claimed.reserve(1).is_err() {
            break;
        }
        match claim(word, gate, worker, call, &mut seat) {
            Claim::Mine(_, index) => {
                gate.works(worker, call);
                let outcome = settle(rt, alloc, pairs, index);
                let is_out = outcome.is_none();
                claimed.push_reserved(Claimed { index, outcome });
                if is_out {
                    break;
                }
            }
            Claim::Spent(_) => break,
            Claim::Moved(_, _) => {}
        }
    }
    Done { seat, claimed }
}
