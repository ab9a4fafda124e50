//! Several frames, mapped one after another.
ghost use Rattle.std.specs.Prelude.{◌≡◌, ◌<◌, ◌≤◌, ◌+◌, ◌*◌, ℕ, Bool, true, OnOk, length};
ghost use Rattle.circ_model.specs.Meaning.{Path, places_of};
ghost use Rattle.and_graph.specs.Graphs.{GrowsTo, Obeys};
ghost use Rattle.frame_graph.specs.Frames.{GoesOn, leaves_of};
ghost use Rattle.frame_graph.specs.Inductions.{IsRunTo, IsStepPath};
ghost use Rattle.frame_graph.specs.Leaves.{Reads, leaf_count};
ghost use Rattle.frame_graph.specs.Maps.{AreWithin, Shows};

use crate::frame::{Frame, LeafRange};
use crate::places::{push_own_places, push_places};
use and_graph::Graph;
use circ_model::Lit;
use class_partition::Classes;
use std::alloc::AllocError;

// Maps a frame of the runs from reset, after those before it.
pub(crate) fn push_reset_frame(
    leaves: &LeafRange<'_>,
    graph: &mut Graph,
    literals: &mut Vec<Lit>,
    number: u32,
) -> Result<(), AllocError>
    requires frame { number < leaves.now.frames }
    requires size { length literals.old.items ≡ number * places_of leaves.now.product.now }
    requires room { leaves.now.first + leaf_count (leaves_of leaves.now) ≤ length graph.old }
    requires within { AreWithin graph.old literals.old.items }
    ensures on { GrowsTo graph.old graph.new }
    ensures size { OnOk result (length literals.new.items ≡ (number + 1) * places_of leaves.now.product.now) }
    ensures within { AreWithin graph.new literals.new.items }
    ensures goes { GoesOn (record { leaves = leaves_of leaves.now; from_reset = true; number = number }) graph.new literals.old.items literals.new.items }
{
    let places = leaves.product.len();
    let _nodes = graph.len();
    let frame = Frame {
        product: leaves.product,
        frames: leaves.frames,
        first: leaves.first,
        from_reset: true,
        number,
        begin: literals.len(),
    };
    push_own_places(&frame, graph, literals, places)
}

// Maps the first k frames of the runs from reset.
pub(crate) fn push_reset_frames(
    leaves: &LeafRange<'_>,
    graph: &mut Graph,
    literals: &mut Vec<Lit>,
    k: u32,
) -> Result<(), AllocError>
    requires none { length literals.old.items ≡ 0 }
    requires depth { k ≤ leaves.now.frames }
    requires room { leaves.now.first + leaf_count (leaves_of leaves.now) ≤ length graph.old }
    ensures on { GrowsTo graph.old graph.new }
    ensures size { OnOk result (length literals.new.items ≡ k * places_of leaves.now.product.now) }
    ensures within { AreWithin graph.new literals.new.items }
    ensures shows { OnOk result ((run : Path) (v : ℕ → Bool) → IsRunTo leaves.now.product.now k run → Obeys graph.new v → Reads (leaves_of leaves.now) run v → Shows leaves.now.product.now literals.new.items run v) }
{
    let _nodes = graph.len();
    for number in 0..k {
        push_reset_frame(leaves, graph, literals, number)?;
    }
    Ok(())
}

// Maps the first k frames of paths on which the classes hold in these frames.
pub(crate) fn push_step_frames(
    leaves: &LeafRange<'_>,
    graph: &mut Graph,
    classes: &Classes,
    literals: &mut Vec<Lit>,
    k: u32,
) -> Result<(), AllocError>
    requires none { length literals.old.items ≡ 0 }
    requires depth { k < leaves.now.frames }
    requires classes { length classes.now.least ≡ places_of leaves.now.product.now }
    requires room { leaves.now.first + leaf_count (leaves_of leaves.now) ≤ length graph.old }
    ensures on { GrowsTo graph.old graph.new }
    ensures size { OnOk result (length literals.new.items ≡ k * places_of leaves.now.product.now) }
    ensures within { AreWithin graph.new literals.new.items }
    ensures shows { OnOk result ((path : Path) (v : ℕ → Bool) → IsStepPath (record { pair = leaves.now.product.now; k = k; classes = classes.now }) path → Obeys graph.new v → Reads (leaves_of leaves.now) path v
        → Shows leaves.now.product.now literals.new.items path v) }
{
    let _places = leaves.product.len();
    let _nodes = graph.len();
    for number in 0..k {
        let frame = Frame {
            product: leaves.product,
            frames: leaves.frames,
            first: leaves.first,
            from_reset: false,
            number,
            begin: literals.len(),
        };
        push_places(&frame, graph, classes, literals)?;
    }
    Ok(())
}
