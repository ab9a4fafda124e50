//! A batch: its list is read, all files are loaded, the pairs are settled, and the answers are written.
ghost use Rattle.std.specs.Prelude.{◌≡◌, ◌≤◌, ◌<◌, ◌⊎◌, ℕ, List, [], length, IsTrue, IfOk, IfErr, Option};
ghost use Rattle.sec_base.specs.Faults.{Rose, appended};
ghost use Rattle.batch_run.specs.Answers.{IsBatch};
ghost use Rattle.batch_run.specs.Endings.{EndsBytes, EndsList, IsBatchEnding, IsFailed, IsListRead, IsStopOf, failed_in_batch};
ghost use Rattle.batch_run.specs.Loads.{AreLoaded, AreWithinProducts};

use crate::answering::{Settled, write_answers};
use crate::ending::Unanswered;
use crate::loading::{Pairs, Stop, load_all};
use crate::plan::Plan;
use pair_files::Unpaired;
use pair_list::{Names, read_list};
use pair_pool::run_pairs;
use sec_base::{Gate, Shelf};
use std::alloc::{AllocError, Global};
use std::sync::Wait;
use std::thread::Threads;

/// As many bytes as a list may have.
pub(crate) const LONGEST_LIST: u64 = 67_108_864;

/// The answers of a list's pairs.
#[derive(Drop)]
pub struct Batch {
    /// A line for each pair, in the list's order.
    pub text: Vec<u8>,
    /// The greatest status of a pair, and 0 for an empty list.
    pub status: u8,
}

// Settles the pairs that have a product, and writes all answers.
fn answer_all<R: Threads + Wait + Sync, G: Gate>(
    rt: &R,
    alloc: Global,
    list: &[Names],
    pairs: &Pairs,
    plan: &Plan,
    gate: &G,
) -> Result<Batch, AllocError>
    requires few { length list.now ≤ 10000 }
    requires products { length pairs.now.products.items ≤ length list.now }
    requires loaded { length pairs.now.loaded.items ≡ length list.now }
    requires within { AreWithinProducts pairs.now.products.items pairs.now.loaded.items }
    ensures batch { (file : List ℕ → Option (List ℕ)) → AreLoaded file pairs.now.products.items list.now pairs.now.loaded.items → IfOk result (λ b. IsBatch file plan.now.k list.now b.text.items b.status) }
    ensures status { IfOk result (λ b. (b.status ≤ 2) ⊎ (b.status ≡ 4)) }
{
    let products = pairs.products.as_slice();
    let solved = run_pairs(rt, alloc, products, plan.k, plan.workers, gate)?;
    let settled = Settled {
        products,
        solved: solved.as_slice(),
        k: plan.k,
    };
    write_answers(alloc, list, pairs.loaded.as_slice(), &settled)
}

// Why a batch answers nothing whose loading stopped.
fn unanswered_at(list: Vec<Names>, stop: Stop) -> Unanswered
    requires { stop.at < length list.items }
    ensures { IsStopOf list.items stop result }
{
    let mut list = list;
    match stop.why {
        Unpaired::LoadFailed(side) => Unanswered::FileFailed(list.swap_remove(stop.at), side),
        _ => Unanswered::Memory,
    }
}

// The batch of a list.
fn run_list<R: Threads + Wait + Sync, S: Shelf, G: Gate>(
    rt: &R,
    alloc: Global,
    shelf: &mut S,
    list: Vec<Names>,
    plan: &Plan,
    gate: &G,
) -> Result<Batch, Unanswered>
    requires few { length list.items ≤ 10000 }
    ensures ending { IsTrue S.tells → EndsList (S.file shelf.old) plan.now.k list.items result }
    ensures read { IsListRead result }
    ensures status { IfOk result (λ b. (b.status ≤ 2) ⊎ (b.status ≡ 4)) }
    ensures failed { IfErr result (λ u. IsFailed u → Rose (S.load_faults shelf.old) (S.load_faults shelf.new)) }
    ensures files { S.file shelf.new ≡ S.file shelf.old }
    ensures names { S.failed shelf.new ≡ appended (S.failed shelf.old) (failed_in_batch [] result) }
    ensures load_count { S.load_faults shelf.old ≤ S.load_faults shelf.new }
    ensures store_count { S.store_faults shelf.new ≡ S.store_faults shelf.old }
{
    match load_all(alloc, shelf, list.as_slice()) {
        Ok(pairs) => Ok(answer_all(rt, alloc, list.as_slice(), &pairs, plan, gate)?),
        Err(stop) => Err(unanswered_at(list, stop)),
    }
}

// The batch of a list's bytes.
fn run_bytes<R: Threads + Wait + Sync, S: Shelf, G: Gate>(
    rt: &R,
    alloc: Global,
    shelf: &mut S,
    bytes: &[u8],
    plan: &Plan,
    gate: &G,
) -> Result<Batch, Unanswered>
    ensures ending { IsTrue S.tells → EndsBytes (S.file shelf.old) plan.now.k bytes.now result }
    ensures read { IsListRead result }
    ensures status { IfOk result (λ b. (b.status ≤ 2) ⊎ (b.status ≡ 4)) }
    ensures failed { IfErr result (λ u. IsFailed u → Rose (S.load_faults shelf.old) (S.load_faults shelf.new)) }
    ensures files { S.file shelf.new ≡ S.file shelf.old }
    ensures names { S.failed shelf.new ≡ appended (S.failed shelf.old) (failed_in_batch [] result) }
    ensures load_count { S.load_faults shelf.old ≤ S.load_faults shelf.new }
    ensures store_count { S.store_faults shelf.new ≡ S.store_faults shelf.old }
{
    let list = read_list(alloc, bytes)?;
    run_list(rt, alloc, shelf, list, plan, gate)
}

/// The batch of the list in a file: all files of its pairs are loaded and read in the list's order, and then the pairs are settled as
/// planned. A pair that has no product gets what a check tells of it; a file that can't be loaded
/// ends the batch.
pub fn run_batch<R: Threads + Wait + Sync, S: Shelf, G: Gate>(
    rt: &R,
    alloc: Global,
    shelf: &mut S,
    list: &str,
    plan: &Plan,
    gate: &G,
) -> Result<Batch, Unanswered>
    ensures ending { IsTrue S.tells → IsBatchEnding (S.file shelf.old) plan.now.k list.now result }
    ensures status { IfOk result (λ b. (b.status ≤ 2) ⊎ (b.status ≡ 4)) }
    ensures failed { IfErr result (λ u. IsFailed u → Rose (S.load_faults shelf.old) (S.load_faults shelf.new)) }
    ensures files { S.file shelf.new ≡ S.file shelf.old }
    ensures names { S.failed shelf.new ≡ appended (S.failed shelf.old) (failed_in_batch list.now result) }
    ensures load_count { S.load_faults shelf.old ≤ S.load_faults shelf.new }
    ensures store_count { S.store_faults shelf.new ≡ S.store_faults shelf.old }
{
    let mut bytes = Vec::new(alloc);
    shelf.load(list, LONGEST_LIST, &mut bytes)?;
    run_bytes(rt, alloc, shelf, bytes.as_slice(), plan, gate)
}
