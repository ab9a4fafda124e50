//! The answer of `batch`: the lines of a list's pairs, and their greatest status.
ghost use Rattle.std.specs.Prelude.{◌≡◌, ◌≤◌, ◌⊎◌, [], None, IsTrue, IfOk};
ghost use Rattle.sec_base.specs.Faults.{Rose, appended};
ghost use Rattle.command_line.specs.Asked.{IsBatchWithin, batch_asked};
ghost use Rattle.sec_cli.specs.Endings.{IsBatchEnded, IsLoadEnding, failed_names};

use crate::ending::{Refusal, Reply};
use batch_run::{Plan, run_batch};
use command_line::Batch;
use sec_base::{Gate, Shelf};
use std::alloc::Global;
use std::sync::Wait;
use std::thread::Threads;

/// How a batch ends.
pub(crate) fn batch_ending<R: Threads + Wait + Sync, S: Shelf, G: Gate>(
    rt: &R,
    alloc: Global,
    shelf: &mut S,
    b: &Batch,
    gate: &G,
) -> Result<Reply, Refusal>
    requires { IsBatchWithin (batch_asked b.now) }
    ensures ending { IsTrue S.tells → IsBatchEnded (S.file shelf.old) (batch_asked b.now) result }
    ensures status { IfOk result (λ a. (a.status ≤ 2) ⊎ (a.status ≡ 4)) }
    ensures journal { IfOk result (λ a. a.journal ≡ None) }
    ensures failed { IsLoadEnding result → Rose (S.load_faults shelf.old) (S.load_faults shelf.new) }
    ensures files { S.file shelf.new ≡ S.file shelf.old }
    ensures names { S.failed shelf.new ≡ appended (S.failed shelf.old) (failed_names [] [] b.now.list.now result) }
    ensures load_count { S.load_faults shelf.old ≤ S.load_faults shelf.new }
    ensures store_count { S.store_faults shelf.new ≡ S.store_faults shelf.old }
{
    let plan = Plan::new(b.k, b.workers);
    let batch_run::Batch { text, status } = run_batch(rt, alloc, shelf, b.list, &plan, gate)?;
    Ok(Reply {
        status,
        text,
        file: Vec::new(alloc),
        journal: None,
    })
}
