//! The answer of `climb`: checks with induction over 1, 2, .. frames, up to the first that decides.
ghost use Rattle.std.specs.Prelude.{◌≡◌, ◌<◌, ◌≤◌, ◌+◌, IfOk, IfSome, OnOk, MatchBool, ◌==◌, is_some};
ghost use Rattle.circ_model.specs.Verdict.{AgreeBelow};
ghost use Rattle.class_partition.specs.Classes.{AreOfGreatest};
ghost use Rattle.induction_base.specs.Least.{IsShown};
ghost use Rattle.prover_table.specs.Tables.{IsMemoryFor};
ghost use Rattle.command_line.specs.Asked.{ForClimb, climb_asked, options_asked, IsCheckWithin, IsClimbWithin};
ghost use Rattle.sec_cli.specs.Endings.{HasJournal};
ghost use Rattle.sec_cli.specs.Answers.{IsCheckAnswer, is_refined};
ghost use Rattle.sec_cli.specs.Climbs.{IsClimbAnswer, IsReached, check_of_climb};

use crate::checking::{Reached, check_beyond, different};
use crate::ending::Reply;
use command_line::{CheckOptions, Climb};
use induction_base::{Diff, least_difference};
use product_machine::Product;
use refine_board::Journal;
use sec_base::Gate;
use split_workers::Earlier;
use std::alloc::{AllocError, Global};
use std::mem;
use std::sync::Wait;
use std::thread::Threads;
use verdict_stamp::{Known, ProverMemory, Version};

// The check with induction over so many frames.
fn check_of(c: &Climb, k: u32) -> CheckOptions<'static>
    ensures asked { options_asked result ≡ check_of_climb (climb_asked c.now) k }
    ensures k { result.k ≡ k }
    ensures depth { result.depth ≡ k }
{
    CheckOptions {
        k,
        depth: k,
        workers: c.workers,
        classes: false,
        stats: false,
        trace: None,
        cert: None,
        tied: false,
        least: c.least,
    }
}

// What is known before the first check of a climb, where the outputs agree in the first frame. What it proves can go on to so many
// frames.
fn reached_first<'p>(
    alloc: Global,
    product: &'p Product,
    most: u32,
) -> Result<Reached<'p>, AllocError>
    requires some { 0 < most }
    requires few { most ≤ 16 }
    requires agree { AgreeBelow product.now 1 }
    ensures { IfOk result (IsReached product.entry.now 1) }
{
    let memory = ProverMemory::new(alloc, product, 1, most)?;
    Ok(Reached {
        agreed: 1,
        earlier: Earlier {
            known: None,
            memory: Some(memory),
        },
    })
}

// The classes of a check that is undecided.
fn known_after<'p>(alloc: Global, version: Version<'p>) -> Result<Known<'p>, AllocError>
    requires greatest { AreOfGreatest version.pair version.k version.classes }
    ensures { IfOk result (λ n. (n.pair ≡ version.entry.pair) × (n.k ≡ version.entry.k)) }
{
    let k = version.k();
    let known = Known::of(alloc, version.product(), k, version.classes());
    drop(version);
    known
}

// After a check that is undecided: the outputs agree in as many frames as it searched, its classes are known, and what it proved
// goes on to one frame more.
fn reach<'p>(
    alloc: Global,
    version: Version<'p>,
    reached: &mut Reached<'p>,
) -> Result<(), AllocError>
    requires few { version.k < 16 }
    requires greatest { AreOfGreatest version.pair version.k version.classes }
    requires memory { IfSome reached.old.earlier.memory (IsMemoryFor version.pair version.k) }
    ensures agreed { OnOk result (reached.new.agreed ≡ version.entry.k) }
    ensures known { OnOk result (IfSome reached.new.earlier.known (λ n. (n.pair ≡ version.entry.pair) × (n.k ≡ version.entry.k))) }
    ensures memory { OnOk result (IfSome reached.new.earlier.memory (IsMemoryFor version.entry.pair (version.entry.k + 1))) }
{
    let k = version.k();
    let known = known_after(alloc, version)?;
    reached.agreed = k;
    drop(mem::replace(&mut reached.earlier.known, Some(known)));
    if let Some(left) = reached.earlier.memory.take() {
        let deeper = left.deeper(alloc)?;
        drop(mem::replace(&mut reached.earlier.memory, Some(deeper)));
    }
    Ok(())
}

// An answer that ends the climb. With a difference comes the journal of the refinement before it.
fn ended(answer: Reply, before: Option<Journal>) -> Reply
    ensures status { result.status ≡ answer.status }
    ensures text { result.text.items ≡ answer.text.items }
    ensures file { result.file.items ≡ answer.file.items }
    ensures journal { MatchBool (answer.status == 1) (result.journal ≡ before) (result.journal ≡ answer.journal) }
{
    let mut answer = answer;
    if answer.status == 1 {
        answer.journal = before;
    }
    answer
}

// The answer where outputs differ in the first frame: no depth is tried but the first, and nothing is refined.
fn differs_at_once(
    alloc: Global,
    product: &Product,
    c: &Climb,
    diff: Diff,
) -> Result<Reply, AllocError>
    requires within { IsClimbWithin (climb_asked c.now) }
    requires shown { IsShown product.now 1 diff }
    ensures answer { IfOk result (IsClimbAnswer product.now (climb_asked c.now)) }
    ensures status { IfOk result (λ a. a.status ≤ 2) }
    ensures journal { IfOk result (λ a. HasJournal (ForClimb (climb_asked c.now)) a.status a.journal) }
{
    let check = check_of(c, 1);
    let answer = different(alloc, product, &check, diff)?;
    Ok(ended(answer, None))
}

// A check of a climb, and where it is undecided what is known before the next.
fn try_depth<'p, R: Threads + Wait + Sync, G: Gate>(
    rt: &R,
    alloc: Global,
    product: &'p Product,
    check: &CheckOptions,
    reached: &mut Reached<'p>,
    gate: &G,
) -> Result<Reply, AllocError>
    requires within { IsCheckWithin (options_asked check.now) }
    requires depth { check.now.depth ≡ check.now.k }
    requires few { check.now.k < 16 }
    requires reached { IsReached product.now check.now.k reached.old }
    ensures answer { IfOk result (IsCheckAnswer product.entry.now (options_asked check.now)) }
    ensures status { IfOk result (λ a. a.status ≤ 2) }
    ensures journal { IfOk result (λ a. is_some a.journal ≡ is_refined a.status) }
    ensures reached { IfOk result (λ a. a.status ≡ 2 → IsReached product.entry.now (check.now.k + 1) reached.new) }
{
    let (answer, version) = check_beyond(rt, alloc, product, check, reached, gate)?;
    if answer.status != 2 {
        return Ok(answer);
    }
    reach(alloc, version, reached)?;
    Ok(answer)
}

// The climb from what is known before the first check. What the checks before it found serves each check: it asks for no pair of the
// classes that are known, goes on with the graph and all that was proved of it, and seeks no difference in the frames in which the
// outputs agree.
fn climb_from<'p, R: Threads + Wait + Sync, G: Gate>(
    rt: &R,
    alloc: Global,
    product: &'p Product,
    c: &Climb,
    reached: &mut Reached<'p>,
    gate: &G,
) -> Result<Reply, AllocError>
    requires within { IsClimbWithin (climb_asked c.now) }
    requires reached { IsReached product.now 1 reached.old }
    ensures answer { IfOk result (IsClimbAnswer product.now (climb_asked c.now)) }
    ensures status { IfOk result (λ a. a.status ≤ 2) }
    ensures journal { IfOk result (λ a. HasJournal (ForClimb (climb_asked c.now)) a.status a.journal) }
{
    let mut before = None;
    for k in 1..c.most {
        let answer = try_depth(rt, alloc, product, &check_of(c, k), reached, gate)?;
        if answer.status != 2 {
            return Ok(ended(answer, before));
        }
        before = answer.journal;
    }
    let (answer, _) = check_beyond(rt, alloc, product, &check_of(c, c.most), reached, gate)?;
    Ok(ended(answer, before))
}

// The climb of a pair whose outputs agree in the first frame of every run.
fn climb_on<R: Threads + Wait + Sync, G: Gate>(
    rt: &R,
    alloc: Global,
    product: &Product,
    c: &Climb,
    gate: &G,
) -> Result<Reply, AllocError>
    requires within { IsClimbWithin (climb_asked c.now) }
    requires agree { AgreeBelow product.now 1 }
    ensures answer { IfOk result (IsClimbAnswer product.now (climb_asked c.now)) }
    ensures status { IfOk result (λ a. a.status ≤ 2) }
    ensures journal { IfOk result (λ a. HasJournal (ForClimb (climb_asked c.now)) a.status a.journal) }
{
    let mut reached = reached_first(alloc, product, c.most)?;
    let answer = climb_from(rt, alloc, product, c, &mut reached, gate);
    drop(reached);
    answer
}

/// The verdict of the least depth of the induction that decides, as it is printed, or where none up to the greatest does, that
/// of the greatest.
pub(crate) fn climb_pair<R: Threads + Wait + Sync, G: Gate>(
    rt: &R,
    alloc: Global,
    product: &Product,
    c: &Climb,
    gate: &G,
) -> Result<Reply, AllocError>
    requires { IsClimbWithin (climb_asked c.now) }
    ensures answer { IfOk result (IsClimbAnswer product.now (climb_asked c.now)) }
    ensures status { IfOk result (λ a. a.status ≤ 2) }
    ensures journal { IfOk result (λ a. HasJournal (ForClimb (climb_asked c.now)) a.status a.journal) }
{
    if let Some(diff) = least_difference(alloc, product, 1)? {
        return differs_at_once(alloc, product, c, diff);
    }
    climb_on(rt, alloc, product, c, gate)
}
