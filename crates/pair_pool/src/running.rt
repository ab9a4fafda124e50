//! A run over a list of pairs.
ghost use Rattle.std.specs.Prelude.{◌≡◌, ◌<◌, ◌≤◌, length, IfOk};
ghost use Rattle.claim_word.specs.Seats.{beside};
ghost use Rattle.pair_pool.specs.Claims.{AreFound, AreOnce, HasFound, IsSeated};
ghost use Rattle.pair_pool.specs.Solutions.{AreOutcomes};

use crate::crew::{chairs, gather};
use crate::slots::{Solved, slots_of, solve_all};
use crate::worker::{Chair, Claimed, Done, Pairs, work};
use claim_word::ClaimWord;
use product_machine::Product;
use sec_base::Gate;
use std::alloc::{AllocError, Global};
use std::sync::Wait;
use std::thread;
use std::thread::Threads;

// What so many workers claim, each in a thread of its own: no pair is claimed twice, and each outcome is that of its pair.
fn run_workers<R: Threads + Wait + Sync, G: Gate>(
    rt: &R,
    alloc: Global,
    products: &[Product],
    k: u32,
    workers: u32,
    gate: &G,
) -> Result<Vec<Claimed>, AllocError>
    requires some { 0 < k }
    requires few { k ≤ 16 }
    requires few_products { length products.now ≤ 10000 }
    ensures found { IfOk result (λ c. AreFound products.now k c.items) }
    ensures once { IfOk result (λ c. AreOnce c.items) }
{
    let (word, mut board) = ClaimWord::new(alloc, products.len() as u32)?;
    let crew = chairs(alloc, &word, &mut board, workers)?;
    let shared = &word;
    let pairs = &Pairs { products, k };
    let told = thread::map_vec(
        rt,
        crew,
        &|chair: Chair| -> Done
            requires seat { chair.seat ≡ beside shared.now }
            requires some { 0 < pairs.now.k }
            requires few { pairs.now.k ≤ 16 }
            ensures seated { IsSeated shared.entry.now result }
            ensures found { HasFound pairs.entry.now.products.now pairs.entry.now.k result }
        { work(rt, alloc, shared, pairs, gate, chair) },
    )?;
    gather(alloc, &word, board, told)
}

/// The verdicts of the pairs of a list, in its order, with induction over k frames and differences below frame k. Up to so many
/// workers claim pairs, each in a thread of its own where one can be made, and settle each alone. The gate is told of each claim
/// of a worker, and, with the claim's number, where the work on a claimed pair begins. What no worker settled, as where memory
/// ran out there, the caller settles when all are back. It errs for want of memory alone.
pub fn run_pairs<R: Threads + Wait + Sync, G: Gate>(
    rt: &R,
    alloc: Global,
    products: &[Product],
    k: u32,
    workers: u32,
    gate: &G,
) -> Result<Vec<Solved>, AllocError>
    requires few_products { length products.now ≤ 10000 }
    requires some { 0 < k }
    requires few { k ≤ 16 }
    requires workers { (0 < workers) × (workers ≤ 64) }
    ensures { IfOk result (λ s. AreOutcomes products.now k s.items) }
{
    let crew = workers.min(products.len() as u32);
    let claimed = run_workers(rt, alloc, products, k, crew, gate)?;
    let slots = slots_of(alloc, products, claimed)?;
    solve_all(rt, alloc, products, k, slots)
}
