//! The bits that spell a path: where each of them stands.
ghost use Rattle.std.specs.Prelude.{◌≡◌, ◌<◌, ◌≤◌, ◌+◌, ◌*◌, ℕ, length};
ghost use Rattle.circ_model.specs.Meaning.{IsPath, Path as Steps, bit, latches_of, places_of, row_at};
ghost use Rattle.induction_base.specs.Fixing.{IsZeroAt};
ghost use Rattle.induction_base.specs.Spelling.{spelled};

use circ_model::Lit;
use product_machine::{Path, Product};

// The place of a latch, by its position in the state.
fn latch_place(product: &Product, j: u32) -> u32
    requires { j < latches_of product.now }
    ensures place { result < places_of product.now }
    ensures few { result ≤ 2000001 }
    ensures bits { (path : Steps) → IsPath product.now path → 0 < length path.inputs → bit (row_at product.now path 0) result ≡ bit path.start j }
{
    let _cells = product.cells();
    let _places = product.len();
    let from = 1 + product.inputs();
    let lefts = product.left().latches().len() as u32;
    if j < lefts {
        return from + j;
    }
    from + product.left().gates().len() as u32 + j
}

// The frame of an input, and its position there, by its position among those of so many frames.
fn input_position(at: u32, rows: u32, inputs: u32) -> (u32, u32)
    requires { at < rows * inputs }
    ensures frame { result.0 < rows }
    ensures input { result.1 < inputs }
    ensures same { at ≡ result.0 * inputs + result.1 }
{
    (at / inputs, at % inputs)
}

// Where a path with so many rows has bit i, as the literal that is true in its frame where the bit is 0.
pub(crate) fn zero_at(product: &Product, rows: u32, i: u32) -> (u32, Lit)
    requires some { 0 < rows }
    requires bit { i < latches_of product.now + rows * length product.now.left.inputs }
    ensures { IsZeroAt product.now rows i result }
{
    let _cells = product.cells();
    let _places = product.len();
    let latches = product.latches();
    if i < latches {
        return (0, Lit::of(latch_place(product, i), true));
    }
    let (frame, input) = input_position(i - latches, rows, product.inputs());
    (frame, Lit::of(1 + input, true))
}

// Bit i of a path with so many rows.
pub(crate) fn bit_of(product: &Product, path: &Path, rows: u32, i: u32) -> bool
    requires path { IsPath product.now path.now }
    requires rows { length path.now.inputs ≡ rows }
    requires bit { i < latches_of product.now + rows * length product.now.left.inputs }
    ensures { result ≡ bit (spelled path.now) i }
{
    let latches = product.latches();
    if i < latches {
        return path.start.get(i);
    }
    let (frame, input) = input_position(i - latches, rows, product.inputs());
    path.inputs.row(frame as u64).get(input)
}
