//! A frame of a pair, as its places are mapped.
ghost use Rattle.std.specs.Prelude.{◌≡◌, ◌<◌, ◌+◌, ◌*◌, ◌^◌, length};
ghost use Rattle.circ_model.specs.Meaning.{latches_of, places_of};

use product_machine::Product;

// Leaves of a graph, from a node on, for so many frames of a pair.
#[derive(Drop)]
pub(crate) struct LeafRange<'p> {
    pub product: &'p Product,
    pub frames: u32,
    pub first: u32,
}

// A frame by its number, of paths from reset or from any state, where a graph has leaves for so many frames from a node on. Its
// literals begin at its number times the places.
#[derive(Drop)]
pub(crate) struct Frame<'p> {
    pub product: &'p Product,
    pub frames: u32,
    pub first: u32,
    pub from_reset: bool,
    pub number: u32,
    pub begin: usize,
    ghost begins: { begin ≡ number * places_of product.now },
    ghost frame: { number < frames },
    ghost room: { first + (latches_of product.now + frames * length product.now.left.inputs) < 2 ^ 31 },
}
