//! The frames of a pair as literals of a graph.
//!
//! The leaves stay, and so do nodes and merges: for another version of the classes only the literals are made anew, in one
//! pass over the places, into the memory that is there.
ghost use Rattle.std.specs.Prelude.{All, ◌≡◌, ◌<◌, ◌≤◌, ◌+◌, ◌*◌, ◌/◌, ◌^◌, ℕ, List, Bool, [], false, IsTrue, IfOk, OnOk, length, slice_index};
ghost use Rattle.circ_model.specs.Correspondence.{IsLiteral};
ghost use Rattle.circ_model.specs.Meaning.{Path, literal_value, places_of, row_at, value_in};
ghost use Rattle.class_partition.specs.Classes.{Classes as AnyClasses};
ghost use Rattle.and_graph.specs.declared.node.Node.{Node};
ghost use Rattle.and_graph.specs.Graphs.{AreEqual, AreEqualWhere, GrowsTo, IsGraph, IsLeaf, node_at};
ghost use Rattle.frame_graph.specs.Decoded.{IsInputOf, StandsFor};
ghost use Rattle.frame_graph.specs.Frames.{frame_of};
ghost use Rattle.frame_graph.specs.Inductions.{HoldsInFrame, StepPasses};
ghost use Rattle.frame_graph.specs.Leaves.{AreLeaves, leaf_count};
ghost use Rattle.frame_graph.specs.Maps.{AreWithin, IsResetMap, IsStepMap, Shows, induction_of};
ghost use Rattle.frame_graph.specs.Owed.{IsOwed};

use crate::frame::{Frame, LeafRange};
use crate::frames::{push_reset_frame, push_reset_frames, push_step_frames};
use crate::leaf::Leaf;
use crate::literals::{class_literal, literal_from, needed_literals};
use crate::own_literals::own_literal_again;
use crate::places::push_own_places;
use and_graph::Graph;
use circ_model::Lit;
use class_partition::Classes;
use product_machine::Product;
use std::alloc::{AllocError, Global};
use std::marker::Model;

/// Leaves of a graph for the free bits of a pair's paths, and a literal of the graph for each place of the frames that are
/// mapped. Contracts see where the leaves begin, over how many frames the induction goes, and the literals.
#[derive(Drop)]
pub struct FrameMap<'p> {
    product: &'p Product,
    frames: u32,
    first: u32,
    depth: u32,
    literals: Vec<Lit>,
}

impl<'p> Model for FrameMap<'p> {
    ghost use Rattle.frame_graph.specs.Maps.{Mapping};

    ghost Value = { Mapping };

    ghost view = { λ m. record { leaves = record { pair = m.product.now; frames = m.frames; first = m.first }; depth = m.depth; literals = m.literals.items } };
}

// So many leaves.
fn add_leaves(graph: &mut Graph, count: u32) -> Result<(), AllocError>
    ensures on { GrowsTo graph.old graph.new }
    ensures size { OnOk result (length graph.new ≡ length graph.old + count) }
    ensures leaves { (j : ℕ) → length graph.old + j < length graph.new → IsLeaf (length graph.old + j) (node_at graph.new (length graph.old + j)) }
{
    for _ in 0..count {
        graph.leaf()?;
    }
    Ok(())
}

// The input at a position among those of so many frames.
fn input_leaf(k: u32, inputs: u32, frames: u32) -> Option<Leaf>
    ensures { IsInputOf inputs frames k result }
{
    if inputs == 0 || k / inputs >= frames {
        return None;
    }
    Some(Leaf::Input(k / inputs, k % inputs))
}

impl<'p> FrameMap<'p> {
    /// Adds leaves for so many frames: one for each latch, and one for each input of each frame. No frame is mapped yet.
    pub fn new(
        alloc: Global,
        product: &'p Product,
        graph: &mut Graph,
        frames: u32,
    ) -> Result<FrameMap<'p>, AllocError>
        requires few { frames ≤ 64 }
        ensures on { GrowsTo graph.old graph.new }
        ensures pair { IfOk result (λ m. m.leaves.pair ≡ product.entry.now) }
        ensures frames { IfOk result (λ m. m.leaves.frames ≡ frames) }
        ensures leaves { IfOk result (λ m. AreLeaves graph.new m.leaves) }
        ensures none { IfOk result (λ m. m.literals ≡ []) }
    {
        let _cells = product.cells();
        let first = graph.len();
        let count = product.latches() + frames * product.inputs();
        add_leaves(graph, count)?;
        Ok(FrameMap {
            product,
            frames,
            first,
            depth: 0,
            literals: Vec::new(alloc),
        })
    }

    /// Another map over the same leaves, of which no frame is mapped yet.
    pub fn beside(&self, alloc: Global) -> FrameMap<'p>
        ensures leaves { result.leaves ≡ self.now.leaves }
        ensures none { result.literals ≡ [] }
    {
        FrameMap {
            product: self.product,
            frames: self.frames,
            first: self.first,
            depth: 0,
            literals: Vec::new(alloc),
        }
    }

    /// The pair of netlists.
    pub fn product(&self) -> &'p Product
        ensures { result.now ≡ self.now.leaves.pair }
    {
        self.product
    }

    /// For how many frames there are leaves.
    pub fn frames(&self) -> u32
        ensures { result ≡ self.now.leaves.frames }
    {
        self.frames
    }

    /// Over how many frames the induction goes for which the places are mapped.
    pub fn depth(&self) -> u32
        ensures { result ≡ self.now.depth }
    {
        self.depth
    }

    /// What a node stands for among the leaves: a latch of the first frame, or an input of a frame.
    pub fn leaf(&self, node: u32) -> Option<Leaf>
        ensures { StandsFor self.now.leaves node result }
    {
        let latches = self.product.latches();
        let inputs = self.product.inputs();
        if node < self.first {
            return None;
        }
        let j = node - self.first;
        if j < latches {
            return Some(Leaf::Latch(j));
        }
        input_leaf(j - latches, inputs, self.frames)
    }

    /// Maps the first k frames from reset. What was mapped before is forgotten.
    pub fn map_reset(&mut self, graph: &mut Graph, k: u32) -> Result<(), AllocError>
        requires leaves { AreLeaves graph.old self.old.leaves }
        requires depth { k ≤ self.old.leaves.frames }
        ensures on { GrowsTo graph.old graph.new }
        ensures leaves { self.new.leaves ≡ self.old.leaves }
        ensures depth { self.new.depth ≡ k }
        ensures map { OnOk result (IsResetMap graph.new self.new) }
    {
        self.literals.clear();
        self.depth = k;
        let leaves = LeafRange {
            product: self.product,
            frames: self.frames,
            first: self.first,
        };
        push_reset_frames(&leaves, graph, &mut self.literals, k)?;
        Ok(())
    }

    /// Maps one frame from reset more, after those that are mapped. After an `Err` the map is of no more use.
    pub fn next_reset(&mut self, graph: &mut Graph) -> Result<(), AllocError>
        requires map { IsResetMap graph.old self.old }
        requires frame { self.old.depth < self.old.leaves.frames }
        ensures on { GrowsTo graph.old graph.new }
        ensures leaves { self.new.leaves ≡ self.old.leaves }
        ensures depth { OnOk result (self.new.depth ≡ self.old.depth + 1) }
        ensures map { OnOk result (IsResetMap graph.new self.new) }
    {
        let leaves = LeafRange {
            product: self.product,
            frames: self.frames,
            first: self.first,
        };
        push_reset_frame(&leaves, graph, &mut self.literals, self.depth)?;
        self.depth += 1;
        Ok(())
    }

    /// Maps the first k frames of the paths on which the classes hold in these frames: a place by the least place of its class.
    /// Of the frame after them no place is mapped yet. What was mapped before is forgotten.
    pub fn map_step(
        &mut self,
        graph: &mut Graph,
        classes: &Classes,
        k: u32,
    ) -> Result<(), AllocError>
        requires leaves { AreLeaves graph.old self.old.leaves }
        requires depth { k < self.old.leaves.frames }
        requires classes { length classes.now.least ≡ places_of self.old.leaves.pair }
        ensures on { GrowsTo graph.old graph.new }
        ensures leaves { self.new.leaves ≡ self.old.leaves }
        ensures depth { self.new.depth ≡ k }
        ensures size { OnOk result (length self.new.literals ≡ k * places_of self.new.leaves.pair) }
        ensures map { OnOk result (IsStepMap graph.new self.new classes.now) }
    {
        self.literals.clear();
        self.depth = k;
        let leaves = LeafRange {
            product: self.product,
            frames: self.frames,
            first: self.first,
        };
        push_step_frames(&leaves, graph, classes, &mut self.literals, k)?;
        Ok(())
    }

    // A frame of a step.
    fn frame_at(&self, number: u32) -> Frame<'p>
        requires frame { number < self.now.leaves.frames }
        requires room { self.now.leaves.first + leaf_count self.now.leaves < 2 ^ 31 }
        ensures { frame_of result ≡ record { leaves = self.now.leaves; from_reset = false; number = number } }
    {
        Frame {
            product: self.product,
            frames: self.frames,
            first: self.first,
            from_reset: false,
            number,
            begin: number as usize * self.product.len() as usize,
        }
    }

    /// Maps the places of the last frame of the step that are not mapped yet, up to one, each by what stands there.
    pub fn reach(&mut self, graph: &mut Graph, end: u32) -> Result<(), AllocError>
        requires leaves { AreLeaves graph.old self.old.leaves }
        requires last { self.old.depth < self.old.leaves.frames }
        requires before { self.old.depth * places_of self.old.leaves.pair ≤ length self.old.literals }
        requires part { length self.old.literals ≤ self.old.depth * places_of self.old.leaves.pair + places_of self.old.leaves.pair }
        requires within { AreWithin graph.old self.old.literals }
        requires end { end ≤ places_of self.old.leaves.pair }
        ensures on { GrowsTo graph.old graph.new }
        ensures leaves { self.new.leaves ≡ self.old.leaves }
        ensures depth { self.new.depth ≡ self.old.depth }
        ensures reached { OnOk result (self.old.depth * places_of self.old.leaves.pair + end ≤ length self.new.literals) }
        ensures map { (classes : AnyClasses) → IsStepMap graph.old self.old classes → IsStepMap graph.new self.new classes }
    {
        let _nodes = graph.len();
        let frame = self.frame_at(self.depth);
        push_own_places(&frame, graph, &mut self.literals, end)
    }

    /// Whether a place of the last frame of the step is mapped.
    pub fn has_reached(&self, place: u32) -> bool
        ensures { IsTrue result → self.now.depth * places_of self.now.leaves.pair + place < length self.now.literals }
    {
        let begin = self.depth as usize * self.product.len() as usize;
        begin + (place as usize) < self.literals.len()
    }

    /// What a place owes in a frame in which the classes hold: its literal, and what stands there. On each path of the step they
    /// are equal, and a question about the last frame that assumes so of all places is exact.
    pub fn owed(&self, graph: &mut Graph, frame: u32, place: u32) -> Result<(Lit, Lit), AllocError>
        requires leaves { AreLeaves graph.old self.now.leaves }
        requires last { self.now.depth < self.now.leaves.frames }
        requires before { self.now.depth * places_of self.now.leaves.pair ≤ length self.now.literals }
        requires within { AreWithin graph.old self.now.literals }
        requires frame { frame < self.now.depth }
        requires place { place < places_of self.now.leaves.pair }
        ensures on { GrowsTo graph.old graph.new }
        ensures within { IfOk result (λ p. (p.0 / 2 < length graph.new) × (p.1 / 2 < length graph.new)) }
        ensures owed { IfOk result (λ p. (classes : AnyClasses) → IsStepMap graph.old self.now classes → IsOwed graph.new self.now classes p) }
    {
        let _nodes = graph.len();
        let site = self.frame_at(frame);
        let own = own_literal_again(&site, graph, self.literals.as_slice(), place)?;
        Ok((self.literals[site.begin + place as usize], own))
    }

    // The literal that a literal of the pair has in one frame from reset.
    pub(crate) fn reset_literal(&self, frame: u32, lit: Lit) -> Lit
        requires literal { IsLiteral self.now.leaves.pair lit }
        requires frame { frame < self.now.depth }
        requires size { length self.now.literals ≡ self.now.depth * places_of self.now.leaves.pair }
        ensures within { (nodes : List Node) → AreWithin nodes self.now.literals → result / 2 < length nodes }
        ensures value { (run : Path) (v : ℕ → Bool) → Shows self.now.leaves.pair self.now.literals run v → literal_value v result ≡ value_in (row_at self.now.leaves.pair run frame) lit }
    {
        let begin = frame as usize * self.product.len() as usize;
        literal_from(self.literals.as_slice(), begin, lit)
    }

    /// The literals of a place and its class's least place in one frame from reset, at their relative phase: where they are
    /// equal, the pair holds there on each run.
    pub fn base_pair(&self, classes: &Classes, frame: u32, member: u32) -> (Lit, Lit)
        requires place { member < places_of self.now.leaves.pair }
        requires classes { length classes.now.least ≡ places_of self.now.leaves.pair }
        requires frame { frame < self.now.depth }
        requires size { length self.now.literals ≡ self.now.depth * places_of self.now.leaves.pair }
        ensures within { (nodes : List Node) → AreWithin nodes self.now.literals → (result.0 / 2 < length nodes) × (result.1 / 2 < length nodes) }
        ensures equal { (nodes : List Node) → IsGraph nodes → IsResetMap nodes self.now → AreEqual nodes result.0 result.1 → HoldsInFrame (induction_of self.now classes.now) frame member }
    {
        let begin = frame as usize * self.product.len() as usize;
        needed_literals(classes, self.literals.as_slice(), begin, member)
    }

    /// The literals of a place and its class's least place in the last frame of the step, at their relative phase: where they
    /// are equal, the pair holds there on each path of the step.
    pub fn step_pair(&self, classes: &Classes, member: u32) -> (Lit, Lit)
        requires place { member < places_of self.now.leaves.pair }
        requires classes { length classes.now.least ≡ places_of self.now.leaves.pair }
        requires reached { self.now.depth * places_of self.now.leaves.pair + member < length self.now.literals }
        ensures within { (nodes : List Node) → AreWithin nodes self.now.literals → (result.0 / 2 < length nodes) × (result.1 / 2 < length nodes) }
        ensures equal { (nodes : List Node) → IsGraph nodes → IsStepMap nodes self.now classes.now → AreEqual nodes result.0 result.1 → StepPasses (induction_of self.now classes.now) member }
        ensures equal_where { (nodes : List Node) (owed : List (ℕ × ℕ)) → IsGraph nodes → IsStepMap nodes self.now classes.now → All (IsOwed nodes self.now classes.now) owed → AreEqualWhere nodes owed result.0 result.1
            → StepPasses (induction_of self.now classes.now) member }
    {
        let begin = self.depth as usize * self.product.len() as usize;
        needed_literals(classes, self.literals.as_slice(), begin, member)
    }

    /// Takes in that a pair holds on each path of the step: in the last frame the place has its class's least place's literal
    /// from now on, and so has what is mapped over it.
    pub fn pass(&mut self, classes: &Classes, member: u32)
        requires place { member < places_of self.old.leaves.pair }
        requires classes { length classes.now.least ≡ places_of self.old.leaves.pair }
        requires reached { self.old.depth * places_of self.old.leaves.pair + member < length self.old.literals }
        requires passes { StepPasses (induction_of self.old classes.now) member }
        ensures leaves { self.new.leaves ≡ self.old.leaves }
        ensures depth { self.new.depth ≡ self.old.depth }
        ensures size { length self.new.literals ≡ length self.old.literals }
        ensures map { (nodes : List Node) → IsStepMap nodes self.old classes.now → IsStepMap nodes self.new classes.now }
    {
        let _places = classes.len();
        let begin = self.depth as usize * self.product.len() as usize;
        let lit = class_literal(classes, self.literals.as_slice(), begin, member);
        self.literals[begin + member as usize] = lit;
    }
}
