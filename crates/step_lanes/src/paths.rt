//! 64 paths at once that begin in given states: on those on which the classes held in the first k frames, each later row may
//! split.
ghost use Rattle.std.specs.Prelude.{◌≡◌, ◌<◌, ◌≤◌, ◌+◌, ◌^◌, ℕ, IsTrue, IfOk, length};
ghost use Rattle.circ_model.specs.Meaning.{latches_of, next_state, places_of, row};
ghost use Rattle.circ_model.specs.Correspondence.{MaySplit};
ghost use Rattle.class_partition.specs.Classes.{KeepsGreatest};
ghost use Rattle.sim_words.specs.Lanes.{lane, lane_bit};
ghost use Rattle.step_lanes.specs.Paths.{AreLanes};

use crate::holding::kept_lanes;
use class_partition::Classes;
use product_machine::Product;
use sim_words::{frame_words, next_words};
use std::alloc::{AllocError, Global};
use std::marker::Model;

/// 64 paths, frame by frame, one in each lane: bit b of every word belongs to path b. A mask has the lanes on which the classes
/// held in the first k frames.
#[derive(Drop)]
pub struct StepLanes<'c, 'p> {
    product: &'p Product,
    depth: u32,
    partition: &'c Classes,
    frames: u32,
    mask: u64,
    words: Vec<u64>,
    state: Vec<u64>,
}

impl<'c, 'p> Model for StepLanes<'c, 'p> {
    ghost use Rattle.step_lanes.specs.Paths.{AreLanes, LaneFrames};

    ghost Value = { LaneFrames };

    ghost view = { λ s. record { pair = s.product.now; k = s.depth; classes = s.partition.now; frames = s.frames; mask = s.mask; words = s.words.items; state = s.state.items } };

    ghost invariant = { λ s. AreLanes (record { pair = s.product.now; k = s.depth; classes = s.partition.now; frames = s.frames; mask = s.mask; words = s.words.items; state = s.state.items }) };
}

impl<'c, 'p> StepLanes<'c, 'p> {
    /// Before the first frame, in these states: a word for each latch, the left's first. Any states may be given.
    pub fn new(
        alloc: Global,
        product: &'p Product,
        k: u32,
        classes: &'c Classes,
        start: &[u64],
    ) -> Result<StepLanes<'c, 'p>, AllocError>
        requires places { length classes.now.least ≡ places_of product.now }
        requires start { length start.now ≡ latches_of product.now }
        ensures pair { IfOk result (λ s. s.pair ≡ product.entry.now) }
        ensures k { IfOk result (λ s. s.k ≡ k) }
        ensures classes { IfOk result (λ s. s.classes ≡ classes.entry.now) }
        ensures frames { IfOk result (λ s. s.frames ≡ 0) }
        ensures state { IfOk result (λ s. s.state ≡ start.now) }
    {
        let _cells = product.cells();
        let _places = classes.len();
        let words = vec![in alloc; 0u64; product.len() as usize]?;
        let state = Vec::from_slice(alloc, start)?;
        Ok(StepLanes {
            product,
            depth: k,
            partition: classes,
            frames: 0,
            mask: !0,
            words,
            state,
        })
    }

    /// Goes to the next frame. The words are for the inputs, in their order. It takes no memory.
    pub fn step(&mut self, inputs: &[u64])
        requires inputs { length inputs.now ≡ length self.old.pair.left.inputs }
        requires room { self.old.frames + 1 < 2 ^ 32 }
        ensures pair { self.new.pair ≡ self.old.pair }
        ensures k { self.new.k ≡ self.old.k }
        ensures classes { self.new.classes ≡ self.old.classes }
        ensures frames { self.new.frames ≡ self.old.frames + 1 }
        ensures words { (b : ℕ) → b < 64 → lane b self.new.words ≡ row self.old.pair (lane b self.old.state) (lane b inputs.now) }
        ensures state { (b : ℕ) → b < 64 → lane b self.new.state ≡ next_state self.old.pair (lane b self.old.state) (lane b inputs.now) }
    {
        let StepLanes {
            product,
            depth,
            partition,
            frames,
            mask,
            words,
            state,
        } = self;
        *mask = kept_lanes(partition, words.as_slice(), *mask, *frames, *depth);
        frame_words(product, state.as_slice(), inputs, words.as_mut_slice());
        next_words(product, words.as_slice(), state.as_mut_slice());
        *frames += 1;
    }

    /// After more than k frames, at frame k or any later one: the lanes on which the classes held in the first k. Each of their
    /// rows may split, if the classes separate no pair of the greatest correspondence.
    pub fn lanes(&self) -> u64
        requires { self.now.k < self.now.frames }
        ensures mask { result ≡ self.now.mask }
        ensures lanes { AreLanes self.now }
        ensures split { KeepsGreatest self.now.pair self.now.k self.now.classes → (b : ℕ) → b < 64 → IsTrue (lane_bit b result) → MaySplit self.now.pair self.now.k (lane b self.now.words) }
    {
        self.mask
    }

    /// The words of all places in the last frame.
    pub fn words(&self) -> &[u64]
        ensures words { result.now ≡ self.entry.now.words }
        ensures size { length result.now ≡ places_of self.entry.now.pair }
    {
        self.words.as_slice()
    }

    /// The pair of netlists.
    pub fn product(&self) -> &'p Product
        ensures pair { result.now ≡ self.now.pair }
    {
        self.product
    }

    /// In how many frames from the first the classes have to hold.
    pub fn k(&self) -> u32
        ensures { result ≡ self.now.k }
    {
        self.depth
    }
}
