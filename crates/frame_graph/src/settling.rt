//! Whether needed pairs pass, asked of the solver where hashing doesn't tell. What is found equal is merged into the graph, for
//! ever and for each map over it: so a later pair costs less. (SAT sweeping: A. Kuehlmann, F. Krohm, DAC 1997.)
ghost use Rattle.std.specs.Prelude.{◌≡◌, ◌<◌, ◌+◌, ◌*◌, ◌/◌, ℕ, IfErr, IfNone, IfOk, length};
ghost use Rattle.and_graph.specs.Askers.{IsHalted};
ghost use Rattle.circ_model.specs.Correspondence.{IsLiteral};
ghost use Rattle.circ_model.specs.Meaning.{places_of};
ghost use Rattle.and_graph.specs.Graphs.{AreEqual};
ghost use Rattle.frame_graph.specs.Inductions.{BasePasses, HoldsInFrame, LiteralsHoldInFrame, StepPasses};
ghost use Rattle.frame_graph.specs.Laws.{IsMerged};
ghost use Rattle.frame_graph.specs.Maps.{IsResetMap, IsStepMap, induction_of};

use crate::map::FrameMap;
use and_graph::{Asker, Graph, Halt, Pattern};
use circ_model::Lit;
use class_partition::Classes;
use std::alloc::{AllocError, Global};

// Merges two literals, unless values of leaves were found under which they differ.
#[tactic(auto, using(crate::proofs::Merges::nothing_merged, crate::proofs::Merges::merged_by))]
fn merge_unless(graph: &mut Graph, a: Lit, b: Lit, found: &Option<Pattern>)
    requires left { a / 2 < length graph.old }
    requires right { b / 2 < length graph.old }
    requires equal { IfNone found.now (AreEqual graph.old a b) }
    ensures merged { IsMerged graph.old graph.new }
{
    if found.is_none() {
        graph.merge_equal(a, b);
    }
}

// Whether two literals can differ: none if not, and then they are one from now on; or else values of leaves under which they do.
#[tactic(auto, using(crate::proofs::Merges::nothing_merged))]
pub(crate) fn settle(
    alloc: Global,
    graph: &mut Graph,
    asker: &mut Asker,
    a: Lit,
    b: Lit,
) -> Result<Option<Pattern>, AllocError>
    requires left { a / 2 < length graph.old }
    requires right { b / 2 < length graph.old }
    ensures merged { IsMerged graph.old graph.new }
    ensures equal { IfOk result (λ found. IfNone found (AreEqual graph.old a b)) }
    ensures most { asker.new.most ≡ asker.old.most }
{
    if graph.same(a, b) {
        return Ok(None);
    }
    let found = graph.difference(alloc, asker, a, b)?;
    merge_unless(graph, a, b, &found);
    Ok(found)
}

// Settles two literals, as above, where the question may be put aside.
#[tactic(auto, using(crate::proofs::Merges::nothing_merged))]
fn settle_or_pose(
    alloc: Global,
    graph: &mut Graph,
    asker: &mut Asker,
    a: Lit,
    b: Lit,
) -> Result<Option<Pattern>, Halt>
    requires left { a / 2 < length graph.old }
    requires right { b / 2 < length graph.old }
    ensures merged { IsMerged graph.old graph.new }
    ensures equal { IfOk result (λ found. IfNone found (AreEqual graph.old a b)) }
    ensures most { asker.new.most ≡ asker.old.most }
    ensures halt { IfErr result (IsHalted asker.old asker.new) }
{
    if graph.same(a, b) {
        return Ok(None);
    }
    let found = graph.difference_or_pose(alloc, asker, a, b)?;
    merge_unless(graph, a, b, &found);
    Ok(found)
}

impl<'p> FrameMap<'p> {
    /// Whether two literals of the pair are equal in one frame from reset: none if so, on each run of so many frames as are mapped;
    /// or else values of leaves under which they differ there, a hint that is to be simulated. What is found equal is merged. It
    /// errs for want of memory.
    pub fn settle_literals(
        &self,
        alloc: Global,
        graph: &mut Graph,
        asker: &mut Asker,
        frame: u32,
        a: Lit,
        b: Lit,
    ) -> Result<Option<Pattern>, AllocError>
        requires left { IsLiteral self.now.leaves.pair a }
        requires right { IsLiteral self.now.leaves.pair b }
        requires frame { frame < self.now.depth }
        requires map { IsResetMap graph.old self.now }
        ensures merged { IsMerged graph.old graph.new }
        ensures holds { IfOk result (λ found. IfNone found (LiteralsHoldInFrame self.now.leaves.pair self.now.depth frame a b)) }
        ensures most { asker.new.most ≡ asker.old.most }
    {
        let _nodes = graph.len();
        let left = self.reset_literal(frame, a);
        let right = self.reset_literal(frame, b);
        settle(alloc, graph, asker, left, right)
    }

    /// Whether a needed pair holds in one frame from reset: none if so, on each run; or else values of leaves under which it differs
    /// there, a hint that is to be simulated. What is found equal is merged. The question may be put aside.
    pub fn settle_base_in(
        &self,
        alloc: Global,
        graph: &mut Graph,
        asker: &mut Asker,
        classes: &Classes,
        frame: u32,
        member: u32,
    ) -> Result<Option<Pattern>, Halt>
        requires place { member < places_of self.now.leaves.pair }
        requires classes { length classes.now.least ≡ places_of self.now.leaves.pair }
        requires frame { frame < self.now.depth }
        requires map { IsResetMap graph.old self.now }
        ensures merged { IsMerged graph.old graph.new }
        ensures passes { IfOk result (λ found. IfNone found (HoldsInFrame (induction_of self.now classes.now) frame member)) }
        ensures most { asker.new.most ≡ asker.old.most }
        ensures halt { IfErr result (IsHalted asker.old asker.new) }
    {
        let _nodes = graph.len();
        let (least, other) = self.base_pair(classes, frame, member);
        settle_or_pose(alloc, graph, asker, least, other)
    }

    /// Whether a needed pair holds in each frame from reset: none if so, on each run; or else values of leaves under which it
    /// differs in some frame, a hint that is to be simulated. What is found equal is merged. A question may be put aside.
    pub fn settle_base(
        &self,
        alloc: Global,
        graph: &mut Graph,
        asker: &mut Asker,
        classes: &Classes,
        member: u32,
    ) -> Result<Option<Pattern>, Halt>
        requires place { member < places_of self.now.leaves.pair }
        requires classes { length classes.now.least ≡ places_of self.now.leaves.pair }
        requires map { IsResetMap graph.old self.now }
        ensures merged { IsMerged graph.old graph.new }
        ensures passes { IfOk result (λ found. IfNone found (BasePasses (induction_of self.now classes.now) member)) }
        ensures most { asker.new.most ≡ asker.old.most }
        ensures halt { IfErr result (IsHalted asker.old asker.new) }
    {
        for frame in 0..self.depth() {
            match self.settle_base_in(alloc, graph, asker, classes, frame, member)? {
                Some(found) => return Ok(Some(found)),
                None => {}
            }
        }
        Ok(None)
    }

    /// Whether a needed pair holds in the last frame of the step: none if so, on each of its paths; or else values of leaves
    /// under which it differs there, a hint: they may be those of a path on which the classes don't hold. What is found equal is
    /// merged. The question may be put aside.
    pub fn settle_step(
        &self,
        alloc: Global,
        graph: &mut Graph,
        asker: &mut Asker,
        classes: &Classes,
        member: u32,
    ) -> Result<Option<Pattern>, Halt>
        requires place { member < places_of self.now.leaves.pair }
        requires classes { length classes.now.least ≡ places_of self.now.leaves.pair }
        requires reached { self.now.depth * places_of self.now.leaves.pair + member < length self.now.literals }
        requires map { IsStepMap graph.old self.now classes.now }
        ensures merged { IsMerged graph.old graph.new }
        ensures passes { IfOk result (λ found. IfNone found (StepPasses (induction_of self.now classes.now) member)) }
        ensures most { asker.new.most ≡ asker.old.most }
        ensures halt { IfErr result (IsHalted asker.old asker.new) }
    {
        let _nodes = graph.len();
        let (least, other) = self.step_pair(classes, member);
        settle_or_pose(alloc, graph, asker, least, other)
    }
}
