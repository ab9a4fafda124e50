//! The state after a reset: what each latch starts with in each lane.
ghost use Rattle.std.specs.Prelude.{◌≡◌, ◌<◌, ◌≤◌, ◌+◌, ◌*◌, ℕ, length, take, count_by, if◌then◌else◌, slice_index_or};
ghost use Rattle.circ_model.specs.declared.netlist.Reset.TheVariants.{Free};
ghost use Rattle.circ_model.specs.Meaning.{bit, is_free, latches_of, resets};
ghost use Rattle.sim_words.specs.Lanes.{lane, lane_bit};
ghost use Rattle.sim_words.specs.Wide.{stripe, wide_bit};
ghost use Rattle.sim_words.specs.Simulation.{IsStart, free_count, free_before, counted_before, start_bit};

use crate::wide_kernel::write_eight;
use circ_model::Reset;
use product_machine::Product;
use std::simd::u64x8;

// The word of a latch with this reset: of a free one it is the next that was given.
fn start_word(reset: Reset, free: &[u64], used: usize) -> u64
    requires { reset ≡ Free → used < length free.now }
    ensures { (b : ℕ) → b < 64 → lane_bit b result ≡ start_bit reset (bit (lane b free.now) used) }
{
    match reset {
        Reset::Zero => 0,
        Reset::One => !0,
        Reset::Free => free[used],
    }
}

// How many words it takes.
fn taken(reset: Reset) -> usize
    ensures { result ≡ (if is_free reset then 1 else 0) }
{
    match reset {
        Reset::Zero => 0,
        Reset::One => 0,
        Reset::Free => 1,
    }
}

// The number of words that a reset takes.
pub(crate) fn count_free(product: &Product) -> u32
    ensures { result ≡ free_count product.now }
{
    let _cells = product.cells();
    let end = if product.is_tied() {
        product.left().latches().len() as u32
    } else {
        product.latches()
    };
    free_below(product, end)
}

// How many of the first latches are free.
fn free_below(product: &Product, end: u32) -> u32
    requires { end ≤ latches_of product.now }
    ensures { result ≡ count_by is_free (take end (resets product.now)) }
{
    let mut count = 0;
    for i in 0..end {
        count += taken(product.reset(i)) as u32;
    }
    count
}

// The number of a latch's word, where so many are counted on the way to it: in a tied pair the right side begins anew.
fn word_number(product: &Product, i: u32, counted: usize) -> usize
    requires { counted ≡ counted_before product.now i }
    ensures { result ≡ free_before product.now i }
{
    if product.is_tied() && i as usize == product.left().latches().len() {
        0
    } else {
        counted
    }
}

// Writes the state after a reset.
pub(crate) fn write_start(product: &Product, free: &[u64], state: &mut [u64])
    requires free { free_count product.now ≤ length free.now }
    requires state { length state.old ≡ latches_of product.now }
    ensures size { length state.new ≡ latches_of product.now }
    ensures lanes { (b : ℕ) → b < 64 → IsStart product.now (lane b free.now) (lane b state.new) }
{
    let _cells = product.cells();
    let mut counted = 0;
    for i in 0..product.latches() {
        let reset = product.reset(i);
        let used = word_number(product, i, counted);
        state[i as usize] = start_word(reset, free, used);
        counted = used + taken(reset);
    }
}

// The eight words of a latch with this reset: of a free one those with this number that were given.
fn start_words(reset: Reset, free: &[u64], used: usize) -> u64x8
    requires { reset ≡ Free → 8 * used + 8 ≤ length free.now }
    ensures size { length result ≡ 8 }
    ensures value { (j b : ℕ) → j < 8 → b < 64 → lane_bit b (slice_index_or result j 0) ≡ start_bit reset (wide_bit free.now j b used) }
{
    match reset {
        Reset::Zero => u64x8::splat(0),
        Reset::One => u64x8::splat(!0),
        Reset::Free => u64x8::from_slice(&free[8 * used..]),
    }
}

// Writes the state after a reset, eight words for each latch.
pub(crate) fn write_wide_start(product: &Product, free: &[u64], state: &mut [u64])
    requires free { 8 * free_count product.now ≤ length free.now }
    requires state { length state.old ≡ 8 * latches_of product.now }
    ensures size { length state.new ≡ 8 * latches_of product.now }
    ensures lanes { (j b : ℕ) → j < 8 → b < 64 → IsStart product.now (lane b (stripe (free_count product.now) j free.now)) (lane b (stripe (latches_of product.now) j state.new)) }
{
    let _cells = product.cells();
    let mut counted = 0;
    for i in 0..product.latches() {
        let reset = product.reset(i);
        let used = word_number(product, i, counted);
        let start = start_words(reset, free, used);
        write_eight(state, i as usize, start);
        counted = used + taken(reset);
    }
}
