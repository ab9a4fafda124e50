//! The answer of `replay`: what a stored trace shows on a pair.
ghost use Rattle.std.specs.Prelude.{◌≡◌, ◌≤◌, ◌<◌, ◌^◌, ℕ, List, [], ◌∷◌, None, IsTrue, IfOk, length};
ghost use Rattle.sec_base.specs.Faults.{Rose, appended};
ghost use Rattle.circ_model.specs.Meaning.{IsRun};
ghost use Rattle.sec_cli.specs.Answers.{IsReplayOf};
ghost use Rattle.sec_cli.specs.Endings.{IsReplayed, IsReplayedAs, IsOfPair, IsLoadEnding, failed_third, longest_third};

use crate::ending::{Refusal, Reply};
use crate::third::load_third;
use product_machine::{Path, Product, Scratch};
use run_texts::{agrees_line, differs_line};
use sec_base::Shelf;
use std::alloc::{AllocError, Global};
use trace_witness::{first_difference, read_trace};

// What a run shows.
fn answer_of(alloc: Global, product: &Product, run: &Path) -> Result<Reply, AllocError>
    requires run { IsRun product.now run.now }
    ensures replay { IfOk result (IsReplayOf product.now run.now) }
    ensures status { IfOk result (λ a. a.status ≤ 2) }
    ensures journal { IfOk result (λ a. a.journal ≡ None) }
{
    let mut scratch = Scratch::for_product(alloc, product)?;
    let (status, line) = match first_difference(product, run, &mut scratch) {
        Some((frame, output)) => (1, differs_line(alloc, frame, output)?),
        None => (0, agrees_line(alloc, run.inputs.len())?),
    };
    let text = Vec::from_slice(alloc, line.as_bytes())?;
    Ok(Reply {
        status,
        text,
        file: Vec::new(alloc),
        journal: None,
    })
}

// What the bytes of a trace show.
fn replay_bytes(alloc: Global, product: &Product, bytes: &[u8]) -> Result<Reply, Refusal>
    requires { length bytes.now ≤ longest_third }
    ensures replayed { IsReplayedAs product.now bytes.now result }
    ensures status { IfOk result (λ a. a.status ≤ 2) }
    ensures journal { IfOk result (λ a. a.journal ≡ None) }
    ensures no_pair { IsOfPair result }
    ensures loaded { IsLoadEnding result → ⊥ }
{
    let trace = read_trace(alloc, product, bytes)?;
    Ok(answer_of(alloc, product, &trace.run)?)
}

/// How the replay of a trace's file on a pair ends.
pub(crate) fn replay<S: Shelf>(
    alloc: Global,
    shelf: &mut S,
    product: &Product,
    name: &str,
) -> Result<Reply, Refusal>
    ensures replayed { IsTrue S.tells → IsReplayed product.now (S.file shelf.old name.now) result }
    ensures status { IfOk result (λ a. a.status ≤ 2) }
    ensures journal { IfOk result (λ a. a.journal ≡ None) }
    ensures failed { IsLoadEnding result → Rose (S.load_faults shelf.old) (S.load_faults shelf.new) }
    ensures no_pair { IsOfPair result }
    ensures files { S.file shelf.new ≡ S.file shelf.old }
    ensures names { S.failed shelf.new ≡ appended (S.failed shelf.old) (failed_third name.now result) }
    ensures load_count { S.load_faults shelf.old ≤ S.load_faults shelf.new }
    ensures store_count { S.store_faults shelf.new ≡ S.store_faults shelf.old }
{
    let bytes = load_third(alloc, shelf, name)?;
    replay_bytes(alloc, product, bytes.as_slice())
}
