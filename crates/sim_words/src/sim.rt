//! The words of a frame, and the way from frame to frame.
ghost use Rattle.std.specs.Prelude.{◌≡◌, ◌==◌, ◌<◌, ℕ, length, map, IfOk, Some, None, slice_index};
ghost use Rattle.circ_model.specs.Meaning.{next_state, places_of, resets, row};
ghost use Rattle.circ_model.specs.Runs.{first_bit};
ghost use Rattle.sim_words.specs.Lanes.{lane, lane_bit};
ghost use Rattle.sim_words.specs.Simulation.{HasFrame, HasNext, IsLastFrame, IsStart, free_count, next_frame};

use crate::kernel::{frame_words, next_words};
use crate::start::{count_free, write_start};
use bit_rows::BitRow;
use product_machine::Product;
use std::alloc::{AllocError, Global};
use std::marker::Model;

/// 64 runs of a pair of netlists, one in each lane: bit b of every word belongs to run b. After a reset there is no frame
/// yet; the first step gives frame 0, and each later one the next frame.
#[derive(Drop)]
pub struct SimState<'p> {
    product: &'p Product,
    frame: Option<u64>,
    words: Vec<u64>,
    state: Vec<u64>,
}

impl<'p> Model for SimState<'p> {
    ghost use Rattle.sim_words.specs.Simulation.{Simulation, IsSimulation};

    ghost Value = { Simulation };

    ghost view = { λ s. record { pair = s.product.now; frame = s.frame; words = s.words.items; state = s.state.items } };

    ghost invariant = { λ s. IsSimulation (record { pair = s.product.now; frame = s.frame; words = s.words.items; state = s.state.items }) };
}

impl<'p> SimState<'p> {
    /// The state after a reset in which all free latches are 0 in all lanes.
    pub fn new(alloc: Global, product: &'p Product) -> Result<SimState<'p>, AllocError>
        ensures pair { IfOk result (λ s. s.pair ≡ product.now) }
        ensures frame { IfOk result (λ s. s.frame ≡ None) }
        ensures lanes { IfOk result (λ s. (b : ℕ) → b < 64 → lane b s.state ≡ map first_bit (resets product.now)) }
    {
        let words = vec![in alloc; 0u64; product.len() as usize]?;
        let mut state = vec![in alloc; 0u64; product.latches() as usize]?;
        write_start(product, words.as_slice(), state.as_mut_slice());
        Ok(SimState {
            product,
            frame: None,
            words,
            state,
        })
    }

    /// The number of words that a reset takes: one for each free latch, in a tied pair for those of the left netlist alone.
    pub fn free_latches(&self) -> u32
        ensures { result ≡ free_count self.now.pair }
    {
        count_free(self.product)
    }

    /// Goes back before frame 0. The words are for the free latches, in the order of the state; in a tied pair they are for
    /// the left netlist's, and a partner starts with the same word. A latch that is reset to 0 or to 1 starts so in all lanes.
    pub fn reset(&mut self, free: &[u64])
        requires free { length free.now ≡ free_count self.old.pair }
        ensures pair { self.new.pair ≡ self.old.pair }
        ensures frame { self.new.frame ≡ None }
        ensures lanes { (b : ℕ) → b < 64 → IsStart self.old.pair (lane b free.now) (lane b self.new.state) }
    {
        self.frame = None;
        write_start(self.product, free, self.state.as_mut_slice());
    }

    /// Goes to the next frame. The words are for the inputs, in their order.
    pub fn step(&mut self, inputs: &[u64])
        requires inputs { length inputs.now ≡ length self.old.pair.left.inputs }
        requires frame { HasNext self.old.frame }
        ensures pair { self.new.pair ≡ self.old.pair }
        ensures frame { self.new.frame ≡ Some (next_frame self.old.frame) }
        ensures words { (b : ℕ) → b < 64 → lane b self.new.words ≡ row self.old.pair (lane b self.old.state) (lane b inputs.now) }
        ensures state { (b : ℕ) → b < 64 → lane b self.new.state ≡ next_state self.old.pair (lane b self.old.state) (lane b inputs.now) }
    {
        let next = match self.frame {
            None => 0,
            Some(t) => t + 1,
        };
        self.frame = Some(next);
        frame_words(
            self.product,
            self.state.as_slice(),
            inputs,
            self.words.as_mut_slice(),
        );
        next_words(
            self.product,
            self.words.as_slice(),
            self.state.as_mut_slice(),
        );
    }

    /// The number of the frame. Each lane is that frame of a run.
    pub fn frame(&self) -> u64
        requires { HasFrame self.now.frame }
        ensures frame { self.now.frame ≡ Some result }
        ensures runs { (b : ℕ) → b < 64 → IsLastFrame self.now.pair result (lane b self.now.state) (lane b self.now.words) }
    {
        match self.frame {
            None => 0,
            Some(t) => t,
        }
    }

    /// The word of a place.
    pub fn word(&self, place: u32) -> u64
        requires frame { HasFrame self.now.frame }
        requires place { place < places_of self.now.pair }
        ensures { result ≡ slice_index self.now.words place }
    {
        self.words[place as usize]
    }

    /// The words of all places.
    pub fn words(&self) -> &[u64]
        requires { HasFrame self.now.frame }
        ensures words { result.now ≡ self.entry.now.words }
        ensures size { length result.now ≡ places_of self.entry.now.pair }
    {
        self.words.as_slice()
    }

    /// Writes lane `run` of the words: the row of that run's frame.
    pub fn column(&self, run: u32, into: &mut BitRow)
        requires frame { HasFrame self.now.frame }
        requires run { run < 64 }
        requires row { length into.old ≡ places_of self.now.pair }
        ensures { into.new ≡ lane run self.now.words }
    {
        for p in 0..into.len() {
            into.set(p, has_bit(self.words[p as usize], run));
        }
    }
}

// Whether a bit of a word is set.
fn has_bit(word: u64, b: u32) -> bool
    requires { b < 64 }
    ensures { result ≡ lane_bit b word }
{
    (word >> b) & 1 == 1
}
