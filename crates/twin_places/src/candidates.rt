//! Which places seem to be equal: each goes with the first that has its literal where every latch and input is free. A hint, which
//! is looked at before it is believed.
ghost use Rattle.std.specs.Prelude.{◌≡◌, ◌<◌, ◌≤◌, IfOk, length};
ghost use Rattle.circ_model.specs.Meaning.{places_of};

use and_graph::Graph;
use circ_model::Lit;
use class_partition::Classes;
use frame_graph::FrameMap;
use product_machine::Product;
use std::alloc::{AllocError, Global};

// No place.
const NONE: u32 = u32::MAX;

// The first place that came with this literal, which is the place itself where none did.
fn first_with(firsts: &mut [u32], lit: Lit, place: u32) -> u32 {
    let at = 2 * lit.var() as usize + lit.complement() as usize;
    if at >= firsts.len() {
        return place;
    }
    if firsts[at] == NONE {
        firsts[at] = place;
    }
    firsts[at]
}

// By place the first with its literal in the last frame of a map, at the phases of classes.
fn firsts_of(
    alloc: Global,
    graph: &Graph,
    map: &FrameMap<'_>,
    classes: &Classes,
) -> Result<Vec<u32>, AllocError>
    requires classes { length classes.now.least ≡ places_of map.now.leaves.pair }
    requires depth { map.now.depth ≡ 0 }
    requires reached { places_of map.now.leaves.pair ≤ length map.now.literals }
    ensures { IfOk result (λ v. length v.items ≡ length classes.now.least) }
{
    let mut firsts = vec![in alloc; NONE; 2 * graph.len() as usize]?;
    let mut least = Vec::new(alloc);
    for place in 0..classes.len() {
        let (_, lit) = map.step_pair(classes, place);
        least.push(first_with(firsts.as_mut_slice(), lit, place))?;
    }
    Ok(least)
}

/// By place the first with its literal in one frame from any state, at the phases of classes.
pub(crate) fn first_places(
    alloc: Global,
    product: &Product,
    classes: &Classes,
) -> Result<Vec<u32>, AllocError>
    requires classes { length classes.now.least ≡ places_of product.now }
    ensures { IfOk result (λ v. length v.items ≡ length classes.now.least) }
{
    let mut graph = Graph::new(alloc, 1023)?;
    let mut map = FrameMap::new(alloc, product, &mut graph, 1)?;
    map.map_step(&mut graph, classes, 0)?;
    map.reach(&mut graph, product.len())?;
    firsts_of(alloc, &graph, &map, classes)
}
