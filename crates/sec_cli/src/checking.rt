//! The answer of `check`: the verdict of a pair, and its text.
ghost use Rattle.std.specs.Prelude.{◌≡◌, ◌≢◌, ◌≤◌, ◌<◌, ◌++◌, ℕ, List, [], length, is_some, IfOk, IfSome, None, OnOk};
ghost use Rattle.circ_model.specs.Meaning.{IsSoundPair, places_of, outputs_of};
ghost use Rattle.circ_model.specs.Verdict.{AgreeBelow};
ghost use Rattle.class_partition.specs.Classes.{ArePartition, AreOfGreatest};
ghost use Rattle.class_partition.specs.Laws.{PairOutput};
ghost use Rattle.induction_base.specs.Least.{IsLeastOrNone, IsShown};
ghost use Rattle.command_line.specs.Asked.{options_asked, IsCheckWithin};
ghost use Rattle.pair_pool.specs.Unpaired.{AreLeftOut};
ghost use Rattle.prover_table.specs.Tables.{IsMemoryFor};
ghost use Rattle.split_workers.specs.Refined.{IsRefined};
ghost use Rattle.sec_cli.specs.Answers.{AreClassLines, IsCertOf, IsCheckAnswer, IsJournalOf, IsRefinedText, IsShownAs, is_refined, stats_lines};
ghost use Rattle.sec_cli.specs.Climbs.{IsReached};

use crate::counting::{stats_line, stats_of};
use crate::ending::Reply;
use cert_writer::write_cert;
use class_partition::Classes;
use class_text::push_class_lines;
use command_line::CheckOptions;
use induction_base::{Diff, least_difference, least_difference_beyond, least_run};
use pair_pool::left_out;
use product_machine::Product;
use refine_board::Journal;
use run_texts::{different_line, equivalent_line, push_numbers, undecided_head};
use sec_base::Gate;
use split_workers::{Earlier, Refined, Task, refine_known};
use std::alloc::{AllocError, Global};
use std::sync::Wait;
use std::thread::Threads;
use trace_witness::write_trace;
use verdict_stamp::Version;

// Adds the class lines where they are asked for.
fn push_classes(
    alloc: Global,
    product: &Product,
    c: &CheckOptions,
    classes: &Classes,
    text: &mut Vec<u8>,
) -> Result<(), AllocError>
    requires partition { ArePartition (places_of product.now) classes.now }
    requires greatest { AreOfGreatest product.now c.now.k classes.now }
    ensures { OnOk result ((lines : List ℕ) × AreClassLines product.now (options_asked c.now) lines × (text.new.items ≡ text.old.items ++ lines)) }
{
    if c.classes {
        push_class_lines(alloc, product, classes, text)?;
    }
    Ok(())
}

// Adds the line of the journal's numbers where it is asked for.
fn push_stats(
    alloc: Global,
    c: &CheckOptions,
    journal: &Journal,
    text: &mut Vec<u8>,
) -> Result<(), AllocError>
    ensures { OnOk result (text.new.items ≡ text.old.items ++ stats_lines (options_asked c.now) journal.now.entries) }
{
    if c.stats {
        let line = stats_line(alloc, stats_of(journal))?;
        text.extend_from_slice(line.as_bytes())?;
    }
    Ok(())
}

// Adds the lines that follow the verdict's line: those of the classes, and then that of the journal.
fn push_lines(
    alloc: Global,
    product: &Product,
    c: &CheckOptions,
    classes: &Classes,
    journal: &Journal,
    text: &mut Vec<u8>,
) -> Result<(), AllocError>
    requires partition { ArePartition (places_of product.now) classes.now }
    requires greatest { AreOfGreatest product.now c.now.k classes.now }
    requires journal { IsJournalOf product.now (options_asked c.now) journal.now.entries }
    ensures { OnOk result (IsRefinedText product.now (options_asked c.now) journal.now.entries text.old.items text.new.items) }
{
    push_classes(alloc, product, c, classes, text)?;
    push_stats(alloc, c, journal, text)
}

// The least difference below the depth, where the outputs agree in the first frames. Those that the classes pair agree for ever,
// so only the others are asked for.
fn deeper_difference(
    alloc: Global,
    product: &Product,
    c: &CheckOptions,
    classes: &Classes,
    agreed: u32,
) -> Result<Option<Diff>, AllocError>
    requires sound { IsSoundPair product.now }
    requires partition { ArePartition (places_of product.now) classes.now }
    requires greatest { AreOfGreatest product.now c.now.k classes.now }
    requires agree { AgreeBelow product.now agreed }
    requires within { IsCheckWithin (options_asked c.now) }
    ensures { IfOk result (IsLeastOrNone product.now c.now.depth) }
{
    if c.depth <= agreed {
        return Ok(None);
    }
    least_difference_beyond(alloc, product, classes, agreed, c.depth)
}

// The answer by the classes of the greatest correspondence, where no run differs in the first frames. Where the classes pair all
// outputs no run differs at all, and no deeper search is made.
fn answer_by(
    alloc: Global,
    product: &Product,
    c: &CheckOptions,
    classes: &Classes,
    journal: Journal,
    agreed: u32,
) -> Result<Reply, AllocError>
    requires sound { IsSoundPair product.now }
    requires partition { ArePartition (places_of product.now) classes.now }
    requires greatest { AreOfGreatest product.now c.now.k classes.now }
    requires journal { IsJournalOf product.now (options_asked c.now) journal.entries }
    requires agree { AgreeBelow product.now agreed }
    requires within { IsCheckWithin (options_asked c.now) }
    ensures answer { IfOk result (IsCheckAnswer product.now (options_asked c.now)) }
    ensures status { IfOk result (λ a. a.status ≤ 2) }
    ensures journal { IfOk result (λ a. is_some a.journal ≡ is_refined a.status) }
{
    let _places = classes.len();
    let outputs = left_out(alloc, product, classes)?;
    if outputs.is_empty() {
        return equivalent(alloc, product, c, classes, journal);
    }
    match deeper_difference(alloc, product, c, classes, agreed)? {
        Some(diff) => different(alloc, product, c, diff),
        None => undecided(alloc, product, c, classes, journal, outputs.as_slice()),
    }
}

// The certificate where it is asked for.
fn cert_of(
    alloc: Global,
    product: &Product,
    c: &CheckOptions,
    classes: &Classes,
) -> Result<Vec<u8>, AllocError>
    requires partition { ArePartition (places_of product.now) classes.now }
    requires greatest { AreOfGreatest product.now c.now.k classes.now }
    requires paired { (j : ℕ) → j < outputs_of product.now → PairOutput product.now classes.now j }
    requires some { 0 < c.now.k }
    requires few { c.now.k ≤ 16 }
    ensures { IfOk result (λ file. IsCertOf product.now (options_asked c.now) file.items) }
{
    if c.cert.is_none() {
        return Ok(Vec::new(alloc));
    }
    let file = write_cert(alloc, product, c.k, classes)?;
    Ok(file)
}

// All outputs are paired.
fn equivalent(
    alloc: Global,
    product: &Product,
    c: &CheckOptions,
    classes: &Classes,
    journal: Journal,
) -> Result<Reply, AllocError>
    requires sound { IsSoundPair product.now }
    requires partition { ArePartition (places_of product.now) classes.now }
    requires greatest { AreOfGreatest product.now c.now.k classes.now }
    requires journal { IsJournalOf product.now (options_asked c.now) journal.entries }
    requires paired { (j : ℕ) → j < outputs_of product.now → PairOutput product.now classes.now j }
    requires some { 0 < c.now.k }
    requires few { c.now.k ≤ 16 }
    ensures answer { IfOk result (IsCheckAnswer product.now (options_asked c.now)) }
    ensures status { IfOk result (λ a. a.status ≤ 2) }
    ensures journal { IfOk result (λ a. is_some a.journal ≡ is_refined a.status) }
{
    let line = equivalent_line(alloc, c.k, product.len(), classes.count())?;
    let mut text = Vec::from_slice(alloc, line.as_bytes())?;
    push_lines(alloc, product, c, classes, &journal, &mut text)?;
    let file = cert_of(alloc, product, c, classes)?;
    Ok(Reply {
        status: 0,
        text,
        file,
        journal: Some(journal),
    })
}

// These outputs aren't.
fn undecided(
    alloc: Global,
    product: &Product,
    c: &CheckOptions,
    classes: &Classes,
    journal: Journal,
    outputs: &[u32],
) -> Result<Reply, AllocError>
    requires sound { IsSoundPair product.now }
    requires partition { ArePartition (places_of product.now) classes.now }
    requires greatest { AreOfGreatest product.now c.now.k classes.now }
    requires journal { IsJournalOf product.now (options_asked c.now) journal.entries }
    requires agree { AgreeBelow product.now c.now.depth }
    requires some { outputs.now ≢ [] }
    requires left_out { AreLeftOut product.now classes.now (outputs_of product.now) outputs.now }
    ensures answer { IfOk result (IsCheckAnswer product.now (options_asked c.now)) }
    ensures status { IfOk result (λ a. a.status ≤ 2) }
    ensures journal { IfOk result (λ a. is_some a.journal ≡ is_refined a.status) }
{
    let line = undecided_head(alloc, c.k, product.len(), classes.count())?;
    let mut text = Vec::from_slice(alloc, line.as_bytes())?;
    push_numbers(alloc, &mut text, outputs)?;
    text.push(b'\n')?;
    push_lines(alloc, product, c, classes, &journal, &mut text)?;
    Ok(Reply {
        status: 2,
        text,
        file: Vec::new(alloc),
        journal: Some(journal),
    })
}

// The difference, with its least run where that is asked for.
fn run_asked_for(
    alloc: Global,
    product: &Product,
    c: &CheckOptions,
    diff: Diff,
) -> Result<Diff, AllocError>
    requires shown { IsShown product.now c.now.depth diff }
    requires within { IsCheckWithin (options_asked c.now) }
    ensures { IfOk result (IsShownAs product.now (options_asked c.now)) }
{
    let _cells = product.cells();
    if c.least {
        return least_run(alloc, product, &diff);
    }
    Ok(diff)
}

/// The answer that a run differs.
pub(crate) fn different(
    alloc: Global,
    product: &Product,
    c: &CheckOptions,
    diff: Diff,
) -> Result<Reply, AllocError>
    requires shown { IsShown product.now c.now.depth diff }
    requires within { IsCheckWithin (options_asked c.now) }
    ensures answer { IfOk result (IsCheckAnswer product.now (options_asked c.now)) }
    ensures status { IfOk result (λ a. a.status ≡ 1) }
    ensures journal { IfOk result (λ a. is_some a.journal ≡ is_refined a.status) }
{
    let diff = run_asked_for(alloc, product, c, diff)?;
    let line = different_line(alloc, c.k, diff.frame as u64, diff.output)?;
    let mut text = Vec::from_slice(alloc, line.as_bytes())?;
    let trace = write_trace(alloc, product, diff.output, &diff.run)?;
    text.extend_from_slice(trace.as_slice())?;
    Ok(Reply {
        status: 1,
        text,
        file: trace,
        journal: None,
    })
}

/// What is known of a pair before a check: in how many frames the outputs agree on every run, and what checks with a smaller k left.
#[derive(Drop)]
pub(crate) struct Reached<'p> {
    pub(crate) agreed: u32,
    pub(crate) earlier: Earlier<'p>,
}

impl<'p> Reached<'p> {
    // That the outputs agree in the first frame, and no more.
    fn first() -> Reached<'p>
        ensures { result ≡ record { agreed = 1; earlier = record { known = None; memory = None } } }
    {
        Reached {
            agreed: 1,
            earlier: Earlier::nothing(),
        }
    }
}

// The verdict after a refinement, and the version that it ended with.
fn concluded<'p>(
    alloc: Global,
    product: &'p Product,
    c: &CheckOptions,
    refined: Refined<'p>,
    agreed: u32,
) -> Result<(Reply, Version<'p>), AllocError>
    requires sound { IsSoundPair product.now }
    requires refined { IsRefined product.now c.now.k c.now.workers refined.version refined.journal.entries }
    requires agree { AgreeBelow product.now agreed }
    requires within { IsCheckWithin (options_asked c.now) }
    ensures answer { IfOk result (λ r. IsCheckAnswer product.entry.now (options_asked c.now) r.0) }
    ensures status { IfOk result (λ r. r.0.status ≤ 2) }
    ensures journal { IfOk result (λ r. is_some r.0.journal ≡ is_refined r.0.status) }
    ensures pair { IfOk result (λ r. r.1.pair ≡ product.entry.now) }
    ensures k { IfOk result (λ r. r.1.k ≡ c.now.k) }
    ensures greatest { IfOk result (λ r. AreOfGreatest product.entry.now c.now.k r.1.classes) }
{
    let Refined {
        version,
        journal,
        ..
    } = refined;
    let answer = answer_by(alloc, product, c, version.classes(), journal, agreed)?;
    Ok((answer, version))
}

/// The verdict of a pair of which this is known, as it is printed, and the version whose classes are those of the greatest
/// correspondence. What was proved goes into what is known.
pub(crate) fn check_beyond<'p, R: Threads + Wait + Sync, G: Gate>(
    rt: &R,
    alloc: Global,
    product: &'p Product,
    c: &CheckOptions,
    reached: &mut Reached<'p>,
    gate: &G,
) -> Result<(Reply, Version<'p>), AllocError>
    requires within { IsCheckWithin (options_asked c.now) }
    requires reached { IsReached product.now c.now.k reached.old }
    ensures answer { IfOk result (λ r. IsCheckAnswer product.entry.now (options_asked c.now) r.0) }
    ensures status { IfOk result (λ r. r.0.status ≤ 2) }
    ensures journal { IfOk result (λ r. is_some r.0.journal ≡ is_refined r.0.status) }
    ensures pair { IfOk result (λ r. r.1.pair ≡ product.entry.now) }
    ensures k { IfOk result (λ r. r.1.k ≡ c.now.k) }
    ensures greatest { IfOk result (λ r. AreOfGreatest product.entry.now c.now.k r.1.classes) }
    ensures memory { IfSome reached.new.earlier.memory (IsMemoryFor product.entry.now c.now.k) }
{
    let _sound = product.cells();
    let agreed = reached.agreed;
    let earlier = &mut reached.earlier;
    let task = Task {
        product,
        k: c.k,
        workers: c.workers,
    };
    let refined = refine_known(rt, alloc, task, gate, earlier)?;
    concluded(alloc, product, c, refined, agreed)
}

// The verdict of a pair whose outputs agree in the first frame of every run.
fn check_agreed<'p, R: Threads + Wait + Sync, G: Gate>(
    rt: &R,
    alloc: Global,
    product: &'p Product,
    c: &CheckOptions,
    gate: &G,
) -> Result<(Reply, Version<'p>), AllocError>
    requires within { IsCheckWithin (options_asked c.now) }
    requires agree { AgreeBelow product.now 1 }
    ensures answer { IfOk result (λ r. IsCheckAnswer product.entry.now (options_asked c.now) r.0) }
    ensures status { IfOk result (λ r. r.0.status ≤ 2) }
    ensures journal { IfOk result (λ r. is_some r.0.journal ≡ is_refined r.0.status) }
{
    let mut reached = Reached::first();
    let found = check_beyond(rt, alloc, product, c, &mut reached, gate);
    drop(reached);
    found
}

/// The verdict of a pair, as it is printed.
pub(crate) fn check_pair<R: Threads + Wait + Sync, G: Gate>(
    rt: &R,
    alloc: Global,
    product: &Product,
    c: &CheckOptions,
    gate: &G,
) -> Result<Reply, AllocError>
    requires { IsCheckWithin (options_asked c.now) }
    ensures answer { IfOk result (IsCheckAnswer product.now (options_asked c.now)) }
    ensures status { IfOk result (λ a. a.status ≤ 2) }
    ensures journal { IfOk result (λ a. is_some a.journal ≡ is_refined a.status) }
{
    if let Some(diff) = least_difference(alloc, product, 1)? {
        return different(alloc, product, c, diff);
    }
    let (answer, version) = check_agreed(rt, alloc, product, c, gate)?;
    drop(version);
    Ok(answer)
}
