//! What stands at a place, and which of the free bits of a path an input or a latch is.
ghost use Rattle.std.specs.Prelude.{◌≡◌, ◌<◌, ◌≤◌, ◌+◌, ◌-◌, ◌*◌, ◌/◌, ℕ, length};
ghost use Rattle.circ_model.specs.Meaning.{IsPath, IsSoundPair, Path, bit, inputs_at, latches_of, places_of, row_at};
ghost use Rattle.product_machine.specs.Cells.{Rests};
ghost use Rattle.product_machine.specs.Signals.{cell_at};
ghost use Rattle.frame_graph.specs.Cells.{IsInput, IsLatch};

use product_machine::{Cell, Product};

// What stands at a place.
pub(crate) fn cell_of(product: &Product, p: u32) -> Cell
    requires { p < places_of product.now }
    ensures is { result ≡ cell_at product.now p }
    ensures pair { IsSoundPair product.now }
    ensures rests { Rests (places_of product.now) p result }
{
    let _places = product.len();
    product.cells()[p as usize]
}

// The position of an input among those of a frame.
pub(crate) fn input_position(product: &Product, p: u32) -> u32
    requires place { p < places_of product.now }
    requires input { IsInput (cell_at product.now p) }
    ensures within { result < length product.now.left.inputs }
    ensures bits { (path : Path) (t : ℕ) → IsPath product.now path → t < length path.inputs → bit (row_at product.now path t) p ≡ bit (inputs_at path t) result }
{
    let _cells = product.cells();
    p - 1
}

// The position of a latch in the state.
pub(crate) fn latch_position(product: &Product, p: u32) -> u32
    requires place { p < places_of product.now }
    requires latch { IsLatch (cell_at product.now p) }
    ensures within { result < latches_of product.now }
    ensures bits { (path : Path) → IsPath product.now path → 0 < length path.inputs → bit (row_at product.now path 0) p ≡ bit path.start result }
{
    let _cells = product.cells();
    let _places = product.len();
    let lefts = product.left().latches().len() as u32;
    let q = p - 1 - product.inputs();
    if q < lefts {
        return q;
    }
    q - product.left().gates().len() as u32
}
