//! One frame of 512 runs, over flat arrays: eight words for each place, one after another, so that a gate is two loads, an and and a
//! store of eight words. They lie in one line of a cache, so a frame of 512 runs waits for memory as often as one of 64.
ghost use Rattle.std.specs.Prelude.{◌≡◌, ◌<◌, ◌≤◌, ◌+◌, ◌*◌, ◌/◌, ◌&&◌, ℕ, List, Bool, false, length, map, slice_index_or};
ghost use Rattle.circ_model.specs.Meaning.{latches_of, literal_value, next_state, places_of, row, value_in};
ghost use Rattle.product_machine.specs.Cells.{cells, EachAt};
ghost use Rattle.product_machine.specs.Eval.{IsFrame, Ready};
ghost use Rattle.product_machine.specs.States.{nexts};
ghost use Rattle.sim_words.specs.Lanes.{lane, lane_bit};
ghost use Rattle.sim_words.specs.Wide.{stripe, wide_bit};

use crate::kernel::{copy_words, mask_of};
use circ_model::Lit;
use product_machine::{Cell, Product};
use std::simd::u64x8;

// The eight words of a literal.
fn literal_words(words: &[u64], lit: Lit) -> u64x8
    requires { 8 * (lit / 2) + 8 ≤ length words.now }
    ensures size { length result ≡ 8 }
    ensures value { (j b : ℕ) → j < 8 → b < 64 → lane_bit b (slice_index_or result j 0) ≡ literal_value (wide_bit words.now j b) lit }
{
    let at = 8 * lit.var() as usize;
    u64x8::from_slice(&words[at..]) ^ u64x8::splat(mask_of(lit))
}

// The eight words of a gate.
fn gate_words(words: &[u64], left: Lit, right: Lit) -> u64x8
    requires left { 8 * (left / 2) + 8 ≤ length words.now }
    requires right { 8 * (right / 2) + 8 ≤ length words.now }
    ensures size { length result ≡ 8 }
    ensures value { (j b : ℕ) → j < 8 → b < 64 → lane_bit b (slice_index_or result j 0) ≡ (literal_value (wide_bit words.now j b) left && literal_value (wide_bit words.now j b) right) }
{
    literal_words(words, left) & literal_words(words, right)
}

/// Writes eight words at a place.
pub(crate) fn write_eight(words: &mut [u64], place: usize, eight: u64x8)
    requires place { 8 * place + 8 ≤ length words.old }
    requires eight { length eight ≡ 8 }
    ensures size { length words.new ≡ length words.old }
    ensures written { (j : ℕ) → j < 8 → slice_index_or words.new (8 * place + j) 0 ≡ slice_index_or eight j 0 }
    ensures below { (k : ℕ) → k < 8 * place → slice_index_or words.new k 0 ≡ slice_index_or words.old k 0 }
    ensures above { (k : ℕ) → 8 * place + 8 ≤ k → slice_index_or words.new k 0 ≡ slice_index_or words.old k 0 }
{
    eight.copy_to_slice(&mut words[8 * place..]);
}

// Writes the words of inputs and latches at their places.
fn place_leaves(product: &Product, state: &[u64], inputs: &[u64], words: &mut [u64])
    requires state { length state.now ≡ 8 * latches_of product.now }
    requires inputs { length inputs.now ≡ 8 * length product.now.left.inputs }
    requires size { length words.old ≡ 8 * places_of product.now }
    ensures size { length words.new ≡ 8 * places_of product.now }
    ensures ready { (j b : ℕ) → j < 8 → EachAt (Ready (lane b (stripe (places_of product.now) j words.new)) (row product.now (lane b (stripe (latches_of product.now) j state.now)) (lane b (stripe (length product.now.left.inputs) j inputs.now)))) 0 (cells product.now) }
{
    let _cells = product.cells();
    let given = inputs.len();
    let lefts = 8 * product.left().latches().len();
    let gates = 8 * product.left().gates().len();
    let rights = 8 * product.right().latches().len();
    copy_words(inputs, 0, words, 8, given);
    copy_words(state, 0, words, 8 + given, lefts);
    copy_words(state, lefts, words, 8 + given + lefts + gates, rights);
}

// Writes the words of the constant and of the gates.
fn fill(product: &Product, words: &mut [u64])
    requires size { length words.old ≡ 8 * places_of product.now }
    ensures size { length words.new ≡ 8 * places_of product.now }
    ensures lanes { (j b : ℕ) → j < 8 → b < 64 → (state inputs : List Bool) → IsFrame product.now state inputs
        → EachAt (Ready (lane b (stripe (places_of product.now) j words.old)) (row product.now state inputs)) 0 (cells product.now)
        → lane b (stripe (places_of product.now) j words.new) ≡ row product.now state inputs }
{
    let cells = product.cells();
    for p in 0..cells.len() {
        match cells[p] {
            Cell::Low => write_eight(words, p, u64x8::splat(0)),
            Cell::Product(left, right) => {
                let gate = gate_words(words, left, right);
                write_eight(words, p, gate);
            }
            Cell::Given => {}
            Cell::Held(_, _) => {}
        }
    }
}

/// Writes the words of all places in a frame with this state and these inputs: eight words for each latch, the left's first, and
/// eight for each input. Each lane of the words of one number is the row of that lane's state and inputs.
pub(crate) fn wide_frame(product: &Product, state: &[u64], inputs: &[u64], words: &mut [u64])
    requires state { length state.now ≡ 8 * latches_of product.now }
    requires inputs { length inputs.now ≡ 8 * length product.now.left.inputs }
    requires size { length words.old ≡ 8 * places_of product.now }
    ensures size { length words.new ≡ 8 * places_of product.now }
    ensures lanes { (j b : ℕ) → j < 8 → b < 64 → lane b (stripe (places_of product.now) j words.new)
        ≡ row product.now (lane b (stripe (latches_of product.now) j state.now)) (lane b (stripe (length product.now.left.inputs) j inputs.now)) }
{
    place_leaves(product, state, inputs, words);
    fill(product, words);
}

/// Writes the state after a frame, where the words are those of all places in it: each latch gets its next literal's eight.
pub(crate) fn wide_next(product: &Product, words: &[u64], state: &mut [u64])
    requires words { length words.now ≡ 8 * places_of product.now }
    requires state { length state.old ≡ 8 * latches_of product.now }
    ensures size { length state.new ≡ 8 * latches_of product.now }
    ensures lanes { (j b : ℕ) → j < 8 → b < 64 → lane b (stripe (latches_of product.now) j state.new) ≡ map (value_in (lane b (stripe (places_of product.now) j words.now))) (nexts product.now) }
    ensures next { (j b : ℕ) → j < 8 → b < 64 → (before inputs : List Bool) → IsFrame product.now before inputs
        → lane b (stripe (places_of product.now) j words.now) ≡ row product.now before inputs
        → lane b (stripe (latches_of product.now) j state.new) ≡ next_state product.now before inputs }
{
    let _cells = product.cells();
    for i in 0..product.latches() {
        let next = literal_words(words, product.next(i));
        write_eight(state, i as usize, next);
    }
}
