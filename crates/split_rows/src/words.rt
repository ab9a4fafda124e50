//! Words of blocks and of paths. No fact rests on which bits are drawn.
ghost use Rattle.std.specs.Prelude.{◌≡◌, ◌<◌, ◌+◌, length};
ghost use Rattle.split_rows.specs.Rows.{AllBroken};

use circ_model::Lit;
use class_partition::Classes;
use frame_graph::Leaf;
use pair_sweep::FreeBit;
use product_machine::{Cell, Product, Start};
use std::alloc::{AllocError, Global};

// So many places that break the classes are told of a model at most.
const MOST: usize = 64;

// Half of the lanes.
const LOW: u64 = 0xffff_ffff;

// The word of a bit that all lanes have.
fn word_of(bit: bool) -> u64 {
    if bit { !0 } else { 0 }
}

// Has the free bits of a model stand in all lanes: of the state, and of so many inputs of each frame.
pub(crate) fn lay(bits: &[FreeBit], start: &mut [u64], inputs: &mut [u64], each: usize)
    ensures start { length start.new ≡ length start.old }
    ensures inputs { length inputs.new ≡ length inputs.old }
{
    for bit in bits {
        let word = word_of(bit.value);
        match bit.leaf {
            Leaf::Latch(j) => {
                if (j as usize) < start.len() {
                    start[j as usize] = word;
                }
            }
            Leaf::Input(t, i) => {
                let at = (t as usize).saturating_mul(each).saturating_add(i as usize);
                if at < inputs.len() {
                    inputs[at] = word;
                }
            }
        }
    }
}

// The words that latches have in the frame of a simulation, in the order of the state.
pub(crate) fn latch_words(
    alloc: Global,
    product: &Product,
    words: &[u64],
) -> Result<Vec<u64>, AllocError> {
    let mut found = Vec::new(alloc);
    let cells = product.cells();
    for p in 0..cells.len().min(words.len()) {
        if let Cell::Held(_, _) = cells[p] {
            found.push(words[p])?;
        }
    }
    Ok(found)
}

// Takes the words of a reset's free latches from those of a state.
pub(crate) fn free_among(product: &Product, start: &[u64], free: &mut [u64])
    ensures { length free.new ≡ length free.old }
{
    let cells = product.cells();
    let mut held: usize = 0;
    let mut counted: usize = 0;
    for p in 0..cells.len() {
        if let Cell::Held(first, _) = cells[p] {
            if first == Start::Free && counted < free.len() {
                free[counted] = word_at(start, held);
                counted += 1;
            }
            held = held.saturating_add(1);
        }
    }
}

// Has half of the lanes stand in states that were reached.
pub(crate) fn drawn_among(reached: &[u64], start: &mut [u64])
    ensures { length start.new ≡ length start.old }
{
    for j in 0..start.len().min(reached.len()) {
        start[j] = (reached[j] & LOW) | (start[j] & !LOW);
    }
}

// The word at a position; past the end zeros.
pub(crate) fn word_at(words: &[u64], at: usize) -> u64 {
    if at < words.len() { words[at] } else { 0 }
}

// The word of a literal.
fn literal_word(words: &[u64], lit: Lit) -> u64 {
    let word = word_at(words, lit.var() as usize);
    if lit.complement() { !word } else { word }
}

// The word with which a latch starts: that of its class's least place, at their relative phase, where that is an earlier one, and
// else its own.
fn start_word(classes: &Classes, words: &[u64], place: usize, own: u64) -> u64 {
    if place >= classes.len() as usize {
        return own;
    }
    let p = place as u32;
    let rep = classes.rep(p);
    if rep >= p {
        return own;
    }
    let word = word_at(words, rep as usize);
    if classes.phase(rep) == classes.phase(p) {
        word
    } else {
        !word
    }
}

// Has each latch start as its class's least place, as the frames are mapped that a model is of: a word for each place of the first
// frame is made in the order of the places.
pub(crate) fn agree(
    alloc: Global,
    product: &Product,
    classes: &Classes,
    inputs: &[u64],
    start: &mut [u64],
) -> Result<(), AllocError>
    ensures { length start.new ≡ length start.old }
{
    let cells = product.cells();
    let mut words = Vec::with_capacity(alloc, cells.len())?;
    let mut given: usize = 0;
    let mut held: usize = 0;
    for p in 0..cells.len() {
        let word = match cells[p] {
            Cell::Low => 0,
            Cell::Given => {
                given = given.saturating_add(1);
                word_at(inputs, given - 1)
            }
            Cell::Held(_, _) => {
                let word = start_word(classes, words.as_slice(), p, word_at(start, held));
                if held < start.len() {
                    start[held] = word;
                    held += 1;
                }
                word
            }
            Cell::Product(left, right) => {
                literal_word(words.as_slice(), left) & literal_word(words.as_slice(), right)
            }
        };
        words.push(word)?;
    }
    Ok(())
}

// Whether a place and its class's least place differ in the first lane, each with its phase.
fn is_broken(classes: &Classes, words: &[u64], p: u32) -> bool
    requires { p < length classes.now.least }
{
    let _places = classes.len();
    let rep = classes.rep(p);
    let apart = word_at(words, rep as usize) ^ word_at(words, p as usize);
    let turned = classes.phase(rep) != classes.phase(p);
    (apart & 1 == 1) != turned
}

// Adds the places that break the classes in the first lane of a frame, as long as there are few.
pub(crate) fn add_broken(
    classes: &Classes,
    words: &[u64],
    frame: u32,
    broken: &mut Vec<(u32, u32)>,
) -> Result<(), AllocError>
    requires { AllBroken (frame + 1) (length classes.now.least) broken.old.items }
    ensures { AllBroken (frame + 1) (length classes.now.least) broken.new.items }
{
    let _places = classes.len();
    for p in 0..classes.len() {
        if broken.len() < MOST && is_broken(classes, words, p) {
            broken.push((frame, p))?;
        }
    }
    Ok(())
}
