//! The least difference, frame by frame: a frame is mapped onto a hashed graph when it is reached, and its outputs are asked for one
//! after another. All frames before it agree on every run, and so do the outputs before one of its own, so the first run on which an
//! output differs shows the least difference.
ghost use Rattle.std.specs.Prelude.{◌≡◌, ◌<◌, ◌≤◌, ◌+◌, ◌/◌, ℕ, IfOk, IfSome, IsTrue, OnOk};
ghost use Rattle.circ_model.specs.Meaning.{outputs_of};
ghost use Rattle.circ_model.specs.Verdict.{AgreeBelow};
ghost use Rattle.frame_graph.specs.Maps.{IsResetMap};
ghost use Rattle.induction_base.specs.Least.{IsLeastOrNone};
ghost use Rattle.induction_base.specs.Search.{AgreesAt, HoldOutputs, IsApartOrNone, IsLeastIn};
ghost use Rattle.product_machine.specs.States.{output_pair};

use crate::pattern_runs::{differs_at_end, run_of};
use crate::whole_frames::WholeFrames;
use and_graph::{Asker, Graph};
use circ_model::Lit;
use class_partition::Classes;
use frame_graph::FrameMap;
use product_machine::{Path, Product};
use std::alloc::{AllocError, Global};

/// The least difference below a depth: the frame, the output, and a run of frame + 1 rows whose first difference it is.
#[derive(Drop)]
pub struct Diff {
    pub frame: u32,
    pub output: u32,
    pub run: Path,
}

/// The least frame below k, and then the least output, in which the sides of the pair differ on some run. None where all
/// outputs agree in the first k frames of every run. It errs for want of memory alone.
pub fn least_difference(
    alloc: Global,
    product: &Product,
    k: u32,
) -> Result<Option<Diff>, AllocError>
    requires some { 0 < k }
    requires few { k ≤ 64 }
    ensures { IfOk result (IsLeastOrNone product.now k) }
{
    search(alloc, product, None, 0, k)
}

/// The same where it is known of outputs that classes pair that they agree in every frame of every run, as those of a signal
/// correspondence do, and of all outputs that they agree in the frames before one: only the others are asked for, from that
/// frame on.
pub fn least_difference_beyond(
    alloc: Global,
    product: &Product,
    classes: &Classes,
    from: u32,
    k: u32,
) -> Result<Option<Diff>, AllocError>
    requires some { 0 < k }
    requires few { k ≤ 64 }
    requires hold { HoldOutputs product.now classes.now }
    requires agree { AgreeBelow product.now from }
    ensures { IfOk result (IsLeastOrNone product.now k) }
{
    search(alloc, product, Some(classes), from, k)
}

// The least difference from a frame on, on a graph of its own.
fn search(
    alloc: Global,
    product: &Product,
    held: Option<&Classes>,
    from: u32,
    k: u32,
) -> Result<Option<Diff>, AllocError>
    requires few { k ≤ 64 }
    requires agree { AgreeBelow product.now from }
    requires held { IfSome held (λ c. HoldOutputs product.now c.now) }
    ensures { IfOk result (IsLeastOrNone product.now k) }
{
    let mut asking = FrameSearch::new(alloc, product)?;
    let found = asking.in_frames(alloc, product, held, from, k);
    drop(asking);
    found
}

// Whether an output is known to agree in every frame of every run.
fn is_held(product: &Product, held: Option<&Classes>, j: u32) -> bool
    requires output { j < outputs_of product.now }
    requires held { IfSome held (λ c. HoldOutputs product.now c.now) }
    ensures { IsTrue result → (t : ℕ) → AgreesAt product.now t j }
{
    let _cells = product.cells();
    let (a, b) = product.output(j);
    match held {
        Some(classes) => classes.paired(a, b),
        None => false,
    }
}

// What a frame is asked with: the hashed graph that it is mapped onto, what asks of it, and whole frames where it leaves one open.
#[derive(Drop)]
struct FrameSearch<'p> {
    graph: Graph,
    asker: Asker,
    whole: WholeFrames<'p>,
}

impl<'p> FrameSearch<'p> {
    // Nothing is mapped yet.
    fn new(alloc: Global, product: &'p Product) -> Result<FrameSearch<'p>, AllocError>
        ensures { IfOk result (λ s. s.whole ≡ product.entry.now) }
    {
        let graph = Graph::new(alloc, 1023)?;
        let Ok(asker) = Asker::new(alloc) else {
            drop(graph);
            return Err(AllocError);
        };
        Ok(FrameSearch {
            graph,
            asker,
            whole: WholeFrames::new(product),
        })
    }
}

impl FrameSearch<'_> {
    // Whether an output differs in the last frame that is mapped: a run that shows it, or none.
    fn apart(
        &mut self,
        alloc: Global,
        product: &Product,
        map: &FrameMap<'_>,
        t: u32,
        j: u32,
    ) -> Result<Option<Path>, AllocError>
        requires output { j < outputs_of product.now }
        requires few { t < 64 }
        requires pair { map.now.leaves.pair ≡ product.now }
        requires depth { map.now.depth ≡ t + 1 }
        requires map { IsResetMap self.old.graph map.now }
        requires whole { self.old.whole ≡ product.now }
        ensures map { IsResetMap self.new.graph map.now }
        ensures whole { self.new.whole ≡ product.now }
        ensures found { IfOk result (IsApartOrNone product.now t (output_pair product.now j).0 (output_pair product.now j).1) }
    {
        let _cells = product.cells();
        let (a, b) = product.output(j);
        match map.settle_literals(alloc, &mut self.graph, &mut self.asker, t, a, b)? {
            None => Ok(None),
            Some(pattern) => {
                if let Some(run) = run_of(alloc, product, map, &pattern, t)? {
                    if differs_at_end(alloc, product, &run, t, a, b)? {
                        return Ok(Some(run));
                    }
                }
                self.whole.find(alloc, a, b, t)
            }
        }
    }

    // The least output that differs in the last frame that is mapped, with a run that shows it.
    fn in_frame(
        &mut self,
        alloc: Global,
        product: &Product,
        held: Option<&Classes>,
        map: &FrameMap<'_>,
        t: u32,
    ) -> Result<Option<Diff>, AllocError>
        requires few { t < 64 }
        requires pair { map.now.leaves.pair ≡ product.now }
        requires depth { map.now.depth ≡ t + 1 }
        requires map { IsResetMap self.old.graph map.now }
        requires whole { self.old.whole ≡ product.now }
        requires held { IfSome held (λ c. HoldOutputs product.now c.now) }
        ensures map { IsResetMap self.new.graph map.now }
        ensures whole { self.new.whole ≡ product.now }
        ensures found { IfOk result (IsLeastIn product.now t) }
    {
        let _cells = product.cells();
        for j in 0..product.outputs() {
            if is_held(product, held, j) {
                continue;
            }
            if let Some(run) = self.apart(alloc, product, map, t, j)? {
                return Ok(Some(Diff {
                    frame: t,
                    output: j,
                    run,
                }));
            }
        }
        Ok(None)
    }

    // The least difference below k, frame by frame. In the frames before `from` all outputs agree, so nothing is asked there.
    fn in_frames(
        &mut self,
        alloc: Global,
        product: &Product,
        held: Option<&Classes>,
        from: u32,
        k: u32,
    ) -> Result<Option<Diff>, AllocError>
        requires few { k ≤ 64 }
        requires agree { AgreeBelow product.now from }
        requires whole { self.old.whole ≡ product.now }
        requires held { IfSome held (λ c. HoldOutputs product.now c.now) }
        ensures { IfOk result (IsLeastOrNone product.now k) }
    {
        let mut map = FrameMap::new(alloc, product, &mut self.graph, k)?;
        map.map_reset(&mut self.graph, 0)?;
        for t in 0..k {
            map.next_reset(&mut self.graph)?;
            if t < from {
                continue;
            }
            if let Some(found) = self.in_frame(alloc, product, held, &map, t)? {
                return Ok(Some(found));
            }
        }
        Ok(None)
    }
}
