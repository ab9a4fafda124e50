//! From frame to frame of a path: whether a path is a run, and the values of a frame.
ghost use Rattle.std.specs.Prelude.{◌≡◌, ◌<◌, ◌≤◌, ◌+◌, ◌*◌, ◌/◌, ℕ, List, Bool, true, false, IsTrue, IfOk, ◌↔◌, length, replicate, slice_index_or};
ghost use Rattle.circ_model.specs.declared.netlist.Reset.TheVariants.{Zero, One, Free};
ghost use Rattle.circ_model.specs.Meaning.{bit, latches_of, places_of, resets, IsPath, IsRun, MayStartAt, next_state, row, row_at};
ghost use Rattle.product_machine.specs.States.{MayStart, StartsLike};
ghost use Rattle.product_machine.specs.Walk.{FitsPair};

use crate::path::Path;
use crate::product::Product;
use bit_rows::BitRow;
use circ_model::Reset;
use std::alloc::{AllocError, Global};
use std::marker::Model;

/// Rows that a walk along a path writes: the state of a frame, and its values. It serves the pair of netlists for which it was made.
#[derive(Drop)]
pub struct Scratch {
    state: BitRow,
    values: BitRow,
}

impl Model for Scratch {
    ghost use Rattle.product_machine.specs.Walk.{Frame};

    ghost Value = { Frame };

    ghost view = { λ s. record { state = s.state; values = s.values } };
}

impl Scratch {
    /// Rows for one pair of netlists.
    pub fn for_product(alloc: Global, product: &Product) -> Result<Scratch, AllocError>
        ensures { IfOk result (FitsPair product.now) }
    {
        let state = BitRow::with_len(alloc, product.latches())?;
        let values = BitRow::with_len(alloc, product.len())?;
        Ok(Scratch { state, values })
    }

    /// The values of the frame to which the last walk went.
    pub fn values(&self) -> &BitRow
        ensures { result.now ≡ self.entry.now.values }
    {
        &self.values
    }
}

impl Product {
    /// Whether a path has the pair's widths: what the calls below ask for.
    pub fn is_path(&self, path: &Path) -> bool
        ensures { IsTrue result ↔ IsPath self.now path.now }
    {
        if path.start.len() != self.latches() {
            return false;
        }
        for t in 0..path.inputs.len() {
            if path.inputs.row(t).len() != self.inputs() {
                return false;
            }
        }
        true
    }

    /// Whether a path starts as the resets say, and in a tied pair each free latch as its partner.
    pub fn is_run(&self, path: &Path) -> bool
        requires { IsPath self.now path.now }
        ensures { IsTrue result ↔ IsRun self.now path.now }
    {
        for i in 0..self.latches() {
            if !self.may_start(path, i) {
                return false;
            }
        }
        true
    }

    // Whether latch i starts as its reset and its partner say.
    fn may_start(&self, path: &Path, i: u32) -> bool
        requires path { IsPath self.now path.now }
        requires latch { i < latches_of self.now }
        ensures { IsTrue result ↔ MayStart self.now path.now i }
    {
        self.reset(i).allows(path.start.get(i)) && self.starts_tied(path, i)
    }

    // Whether latch i starts as its partner, where it has one.
    fn starts_tied(&self, path: &Path, i: u32) -> bool
        requires path { IsPath self.now path.now }
        requires latch { i < latches_of self.now }
        ensures { IsTrue result ↔ StartsLike self.now path.now i }
    {
        match self.tie(i) {
            None => true,
            Some(partner) => path.start.get(i) == path.start.get(partner),
        }
    }

    /// Writes the values of frame t of a path, counted from 0, by a walk through the frames before it.
    pub fn values_at(&self, path: &Path, t: u64, scratch: &mut Scratch)
        requires path { IsPath self.now path.now }
        requires frame { t < length path.now.inputs }
        requires scratch { FitsPair self.now scratch.old }
        ensures values { scratch.new.values ≡ row_at self.now path.now t }
        ensures scratch { FitsPair self.now scratch.new }
    {
        self.walk(path, t, &mut scratch.state, &mut scratch.values);
    }

    /// Goes to a state, as that in which a path starts: `step` writes the values of the frames from there on, one after another.
    pub fn start(&self, state: &BitRow, scratch: &mut Scratch)
        requires state { length state.now ≡ latches_of self.now }
        requires scratch { FitsPair self.now scratch.old }
        ensures state { scratch.new.state ≡ state.now }
        ensures scratch { FitsPair self.now scratch.new }
    {
        scratch.state.copy_from(state);
    }

    /// Writes the values of the frame with these inputs, and goes to the state of the next frame.
    pub fn step(&self, inputs: &BitRow, scratch: &mut Scratch)
        requires inputs { length inputs.now ≡ length self.now.left.inputs }
        requires scratch { FitsPair self.now scratch.old }
        ensures values { scratch.new.values ≡ row self.now scratch.old.state inputs.now }
        ensures state { scratch.new.state ≡ next_state self.now scratch.old.state inputs.now }
        ensures scratch { FitsPair self.now scratch.new }
    {
        self.eval(&scratch.state, inputs, &mut scratch.values);
        self.next_state(&scratch.values, &mut scratch.state);
    }

    // Writes the state and the values of frame t.
    fn walk(&self, path: &Path, t: u64, state: &mut BitRow, values: &mut BitRow)
        requires path { IsPath self.now path.now }
        requires frame { t < length path.now.inputs }
        requires state { length state.old ≡ latches_of self.now }
        requires values { length values.old ≡ places_of self.now }
        ensures row { values.new ≡ row_at self.now path.now t }
        ensures state { length state.new ≡ latches_of self.now }
        ensures values { length values.new ≡ places_of self.now }
    {
        let _cells = self.cells();
        state.copy_from(&path.start);
        for s in 0..t {
            self.eval(state, path.inputs.row(s), values);
            self.next_state(values, state);
        }
        self.eval(state, path.inputs.row(t), values);
    }
}
