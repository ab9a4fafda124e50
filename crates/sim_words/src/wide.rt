//! 512 runs at once: eight words of 64 for each place.
ghost use Rattle.std.specs.Prelude.{◌≡◌, ◌<◌, ◌*◌, ℕ, length, map, IfOk, Some, None, slice_index};
ghost use Rattle.circ_model.specs.Meaning.{next_state, places_of, resets, row};
ghost use Rattle.circ_model.specs.Runs.{first_bit};
ghost use Rattle.sim_words.specs.Lanes.{lane};
ghost use Rattle.sim_words.specs.Simulation.{HasFrame, HasNext, IsLastFrame, IsStart, free_count, next_frame};
ghost use Rattle.sim_words.specs.Wide.{narrow, stripe};

use crate::start::{count_free, write_wide_start};
use crate::wide_kernel::{wide_frame, wide_next};
use product_machine::Product;
use std::alloc::{AllocError, Global};
use std::marker::Model;

/// 512 runs of a pair of netlists: eight words for each place, and bit b of word j belongs to run 64 * j + b. What stands in the
/// words of one number is what a `SimState` has that was given those. After a reset there is no frame yet; the first step gives
/// frame 0, and each later one the next frame.
#[derive(Drop)]
pub struct WideState<'p> {
    product: &'p Product,
    frame: Option<u64>,
    words: Vec<u64>,
    state: Vec<u64>,
}

impl<'p> Model for WideState<'p> {
    ghost use Rattle.sim_words.specs.Wide.{WideSimulation, IsWide};

    ghost Value = { WideSimulation };

    ghost view = { λ s. record { pair = s.product.now; frame = s.frame; words = s.words.items; state = s.state.items } };

    ghost invariant = { λ s. IsWide (record { pair = s.product.now; frame = s.frame; words = s.words.items; state = s.state.items }) };
}

impl<'p> WideState<'p> {
    /// The state after a reset in which all free latches are 0 in all runs.
    pub fn new(alloc: Global, product: &'p Product) -> Result<WideState<'p>, AllocError>
        ensures pair { IfOk result (λ s. s.pair ≡ product.now) }
        ensures frame { IfOk result (λ s. s.frame ≡ None) }
        ensures lanes { IfOk result (λ s. (j b : ℕ) → j < 8 → b < 64 → lane b (narrow s j).state ≡ map first_bit (resets product.now)) }
    {
        let words = vec![in alloc; 0u64; 8 * product.len() as usize]?;
        let mut state = vec![in alloc; 0u64; 8 * product.latches() as usize]?;
        write_wide_start(product, words.as_slice(), state.as_mut_slice());
        Ok(WideState {
            product,
            frame: None,
            words,
            state,
        })
    }

    /// How many times eight words a reset takes: once for each free latch, in a tied pair for those of the left netlist alone.
    pub fn free_latches(&self) -> u32
        ensures { result ≡ free_count self.now.pair }
    {
        count_free(self.product)
    }

    /// Goes back before frame 0. There are eight words for each free latch, in the order of the state; in a tied pair for each of
    /// the left netlist's, and a partner starts with the same. A latch that is reset to 0 or to 1 starts so in all runs.
    pub fn reset(&mut self, free: &[u64])
        requires free { length free.now ≡ 8 * free_count self.old.pair }
        ensures pair { self.new.pair ≡ self.old.pair }
        ensures frame { self.new.frame ≡ None }
        ensures lanes { (j b : ℕ) → j < 8 → b < 64 → IsStart self.old.pair (lane b (stripe (free_count self.old.pair) j free.now)) (lane b (narrow self.new j).state) }
    {
        self.frame = None;
        write_wide_start(self.product, free, self.state.as_mut_slice());
    }

    /// Goes to the next frame. There are eight words for each input, in their order.
    pub fn step(&mut self, inputs: &[u64])
        requires inputs { length inputs.now ≡ 8 * length self.old.pair.left.inputs }
        requires frame { HasNext self.old.frame }
        ensures pair { self.new.pair ≡ self.old.pair }
        ensures frame { self.new.frame ≡ Some (next_frame self.old.frame) }
        ensures words { (j b : ℕ) → j < 8 → b < 64 → lane b (narrow self.new j).words
            ≡ row self.old.pair (lane b (narrow self.old j).state) (lane b (stripe (length self.old.pair.left.inputs) j inputs.now)) }
        ensures state { (j b : ℕ) → j < 8 → b < 64 → lane b (narrow self.new j).state
            ≡ next_state self.old.pair (lane b (narrow self.old j).state) (lane b (stripe (length self.old.pair.left.inputs) j inputs.now)) }
    {
        let next = match self.frame {
            None => 0,
            Some(t) => t + 1,
        };
        self.frame = Some(next);
        wide_frame(
            self.product,
            self.state.as_slice(),
            inputs,
            self.words.as_mut_slice(),
        );
        wide_next(
            self.product,
            self.words.as_slice(),
            self.state.as_mut_slice(),
        );
    }

    /// The number of the frame. Each run is in that frame.
    pub fn frame(&self) -> u64
        requires { HasFrame self.now.frame }
        ensures frame { self.now.frame ≡ Some result }
        ensures runs { (j b : ℕ) → j < 8 → b < 64 → IsLastFrame self.now.pair result (lane b (narrow self.now j).state) (lane b (narrow self.now j).words) }
    {
        match self.frame {
            None => 0,
            Some(t) => t,
        }
    }

    /// Word j of a place.
    pub fn word(&self, place: u32, j: u32) -> u64
        requires frame { HasFrame self.now.frame }
        requires place { place < places_of self.now.pair }
        requires number { j < 8 }
        ensures { result ≡ slice_index (narrow self.now j).words place }
    {
        self.words[8 * place as usize + j as usize]
    }

    /// Writes the words j of all places.
    pub fn write_words(&self, j: u32, into: &mut [u64])
        requires frame { HasFrame self.now.frame }
        requires number { j < 8 }
        requires size { length into.old ≡ places_of self.now.pair }
        ensures { into.new ≡ (narrow self.now j).words }
    {
        for p in 0..into.len() {
            into[p] = self.words[8 * p + j as usize];
        }
    }
}
