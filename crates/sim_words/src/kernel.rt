//! One frame of 64 runs, over flat arrays: a word for each place, two loads, an and and a store for each gate.
ghost use Rattle.std.specs.Prelude.{◌≡◌, ◌<◌, ◌≤◌, ◌+◌, ◌/◌, ◌&&◌, ℕ, List, Bool, length, map, slice_index_or};
ghost use Rattle.circ_model.specs.Meaning.{bit, is_odd, literal_value, latches_of, left_from, next_state, places_of, right_from, row, value_in};
ghost use Rattle.product_machine.specs.Cells.{cells, EachAt};
ghost use Rattle.product_machine.specs.Eval.{IsFrame, Ready};
ghost use Rattle.product_machine.specs.States.{nexts};
ghost use Rattle.sim_words.specs.Lanes.{lane, lane_bit};

use circ_model::Lit;
use product_machine::{Cell, Product};

/// All ones where a literal is complemented, else zeros.
pub(crate) fn mask_of(lit: Lit) -> u64
    ensures { (b : ℕ) → b < 64 → lane_bit b result ≡ is_odd lit }
{
    if lit.complement() { !0 } else { 0 }
}

// The word of a literal.
fn literal_word(words: &[u64], lit: Lit) -> u64
    requires { lit / 2 < length words.now }
    ensures { (b : ℕ) → b < 64 → lane_bit b result ≡ literal_value (bit (lane b words.now)) lit }
{
    words[lit.var() as usize] ^ mask_of(lit)
}

// The word of a gate.
fn gate_word(words: &[u64], left: Lit, right: Lit) -> u64
    requires left { left / 2 < length words.now }
    requires right { right / 2 < length words.now }
    ensures { (b : ℕ) → b < 64 → lane_bit b result ≡ (literal_value (bit (lane b words.now)) left && literal_value (bit (lane b words.now)) right) }
{
    literal_word(words, left) & literal_word(words, right)
}

/// Copies so many words from one list into another.
pub(crate) fn copy_words(from: &[u64], at: usize, to: &mut [u64], start: usize, count: usize)
    requires source { at + count ≤ length from.now }
    requires target { start + count ≤ length to.old }
    ensures size { length to.new ≡ length to.old }
    ensures copied { (k : ℕ) → k < count → slice_index_or to.new (start + k) 0 ≡ slice_index_or from.now (at + k) 0 }
    ensures below { (k : ℕ) → k < start → slice_index_or to.new k 0 ≡ slice_index_or to.old k 0 }
{
    for k in 0..count {
        to[start + k] = from[at + k];
    }
}

// Writes the words of inputs and latches at their places.
fn place_leaves(product: &Product, state: &[u64], inputs: &[u64], words: &mut [u64])
    requires state { length state.now ≡ latches_of product.now }
    requires inputs { length inputs.now ≡ length product.now.left.inputs }
    requires size { length words.old ≡ places_of product.now }
    ensures size { length words.new ≡ places_of product.now }
    ensures ready { (b : ℕ) → EachAt (Ready (lane b words.new) (row product.now (lane b state.now) (lane b inputs.now))) 0 (cells product.now) }
{
    let _cells = product.cells();
    let given = inputs.len();
    let lefts = product.left().latches().len();
    let gates = product.left().gates().len();
    let rights = product.right().latches().len();
    copy_words(inputs, 0, words, 1, given);
    copy_words(state, 0, words, 1 + given, lefts);
    copy_words(state, lefts, words, 1 + given + lefts + gates, rights);
}

// Writes the words of the constant and of the gates.
fn fill(product: &Product, words: &mut [u64])
    requires size { length words.old ≡ places_of product.now }
    ensures size { length words.new ≡ places_of product.now }
    ensures lanes { (b : ℕ) → b < 64 → (state inputs : List Bool) → IsFrame product.now state inputs
        → EachAt (Ready (lane b words.old) (row product.now state inputs)) 0 (cells product.now) → lane b words.new ≡ row product.now state inputs }
{
    let cells = product.cells();
    for p in 0..cells.len() {
        match cells[p] {
            Cell::Low => words[p] = 0,
            Cell::Product(left, right) => {
                let word = gate_word(words, left, right);
                words[p] = word;
            }
            Cell::Given => {}
            Cell::Held(_, _) => {}
        }
    }
}

/// Writes the words of all places in a frame with this state and these inputs: a word for each latch, the left's first, and
/// one for each input. Each lane of the words is the row of that lane's state and inputs, whatever state it is. It takes time
/// linear in the number of places, and no memory.
pub fn frame_words(product: &Product, state: &[u64], inputs: &[u64], words: &mut [u64])
    requires state { length state.now ≡ latches_of product.now }
    requires inputs { length inputs.now ≡ length product.now.left.inputs }
    requires size { length words.old ≡ places_of product.now }
    ensures size { length words.new ≡ places_of product.now }
    ensures lanes { (b : ℕ) → b < 64 → lane b words.new ≡ row product.now (lane b state.now) (lane b inputs.now) }
{
    place_leaves(product, state, inputs, words);
    fill(product, words);
}

/// Writes the state after a frame, where the words are those of all places in it: each latch gets its next literal's word. It
/// takes time linear in the number of latches, and no memory.
pub fn next_words(product: &Product, words: &[u64], state: &mut [u64])
    requires words { length words.now ≡ places_of product.now }
    requires state { length state.old ≡ latches_of product.now }
    ensures size { length state.new ≡ latches_of product.now }
    ensures lanes { (b : ℕ) → b < 64 → lane b state.new ≡ map (value_in (lane b words.now)) (nexts product.now) }
    ensures next { (b : ℕ) → b < 64 → (before inputs : List Bool) → IsFrame product.now before inputs → lane b words.now ≡ row product.now before inputs
        → lane b state.new ≡ next_state product.now before inputs }
{
    let _cells = product.cells();
    for i in 0..product.latches() {
        state[i as usize] = literal_word(words, product.next(i));
    }
}
