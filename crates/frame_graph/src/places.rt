//! Frames, mapped place by place: each by what stands there, or by the least place of its class.
ghost use Rattle.std.specs.Prelude.{◌≡◌, ◌<◌, ◌≤◌, ◌+◌, ◌*◌, ℕ, List, Bool, OnErr, OnOk, length};
ghost use Rattle.circ_model.specs.Meaning.{Path, places_of};
ghost use Rattle.class_partition.specs.Classes.{least_of};
ghost use Rattle.and_graph.specs.declared.node.Node.{Node};
ghost use Rattle.and_graph.specs.Graphs.{GrowsTo, Obeys};
ghost use Rattle.frame_graph.specs.Frames.{GoesOn, GoesOnWith, frame_of};
ghost use Rattle.frame_graph.specs.Inductions.{IsBaseRun, IsStepPath};
ghost use Rattle.frame_graph.specs.Leaves.{Reads, leaf_count};
ghost use Rattle.frame_graph.specs.Maps.{AreWithin, Shows};

use crate::frame::Frame;
use crate::literals::class_literal;
use crate::own_literals::own_literal;
use and_graph::Graph;
use circ_model::Lit;
use class_partition::Classes;
use product_machine::Product;
use std::alloc::AllocError;

// Maps the next place by what stands there.
fn push_own(
    frame: &Frame,
    graph: &mut Graph,
    literals: &mut Vec<Lit>,
    p: u32,
) -> Result<(), AllocError>
    requires place { p < places_of frame.now.product.now }
    requires literals { length literals.old.items ≡ frame.now.number * places_of frame.now.product.now + p }
    requires leaves { frame.now.first + leaf_count (frame_of frame.now).leaves ≤ length graph.old }
    requires within { AreWithin graph.old literals.old.items }
    ensures on { GrowsTo graph.old graph.new }
    ensures size { OnOk result (length literals.new.items ≡ length literals.old.items + 1) }
    ensures within { AreWithin graph.new literals.new.items }
    ensures goes { GoesOn (frame_of frame.now) graph.new literals.old.items literals.new.items }
    ensures unchanged { OnErr result (literals.new.items ≡ literals.old.items) }
{
    let lit = own_literal(frame, graph, literals.as_slice(), p)?;
    literals.push(lit)?;
    Ok(())
}

// Maps the next place by the least place of its class, which comes before it.
fn push_member(
    frame: &Frame,
    classes: &Classes,
    literals: &mut Vec<Lit>,
    p: u32,
) -> Result<(), AllocError>
    requires place { p < places_of frame.now.product.now }
    requires classes { length classes.now.least ≡ places_of frame.now.product.now }
    requires literals { length literals.old.items ≡ frame.now.number * places_of frame.now.product.now + p }
    requires member { least_of classes.now p < p }
    ensures size { OnOk result (length literals.new.items ≡ length literals.old.items + 1) }
    ensures within { (nodes : List Node) → AreWithin nodes literals.old.items → AreWithin nodes literals.new.items }
    ensures goes { (nodes : List Node) → GoesOnWith (frame_of frame.now) classes.now nodes literals.old.items literals.new.items }
    ensures unchanged { OnErr result (literals.new.items ≡ literals.old.items) }
{
    let lit = class_literal(classes, literals.as_slice(), frame.begin, p);
    literals.push(lit)?;
    Ok(())
}

// Maps the next place: by the least place of its class, or the least itself by what stands there.
fn push_place(
    frame: &Frame,
    graph: &mut Graph,
    classes: &Classes,
    literals: &mut Vec<Lit>,
    p: u32,
) -> Result<(), AllocError>
    requires place { p < places_of frame.now.product.now }
    requires classes { length classes.now.least ≡ places_of frame.now.product.now }
    requires literals { length literals.old.items ≡ frame.now.number * places_of frame.now.product.now + p }
    requires leaves { frame.now.first + leaf_count (frame_of frame.now).leaves ≤ length graph.old }
    requires within { AreWithin graph.old literals.old.items }
    ensures on { GrowsTo graph.old graph.new }
    ensures size { OnOk result (length literals.new.items ≡ length literals.old.items + 1) }
    ensures within { AreWithin graph.new literals.new.items }
    ensures goes { GoesOnWith (frame_of frame.now) classes.now graph.new literals.old.items literals.new.items }
{
    let _places = classes.len();
    if classes.rep(p) == p {
        push_own(frame, graph, literals, p)
    } else {
        push_member(frame, classes, literals, p)
    }
}

// Maps the places of a frame that are not mapped yet, up to one, each by what stands there.
pub(crate) fn push_own_places(
    frame: &Frame,
    graph: &mut Graph,
    literals: &mut Vec<Lit>,
    end: u32,
) -> Result<(), AllocError>
    requires end { end ≤ places_of frame.now.product.now }
    requires begun { frame.now.number * places_of frame.now.product.now ≤ length literals.old.items }
    requires part { length literals.old.items ≤ frame.now.number * places_of frame.now.product.now + places_of frame.now.product.now }
    requires leaves { frame.now.first + leaf_count (frame_of frame.now).leaves ≤ length graph.old }
    requires within { AreWithin graph.old literals.old.items }
    ensures on { GrowsTo graph.old graph.new }
    ensures begun { length literals.old.items ≤ length literals.new.items }
    ensures part { length literals.new.items ≤ frame.now.number * places_of frame.now.product.now + places_of frame.now.product.now }
    ensures reached { OnOk result (frame.now.number * places_of frame.now.product.now + end ≤ length literals.new.items) }
    ensures within { AreWithin graph.new literals.new.items }
    ensures goes { GoesOn (frame_of frame.now) graph.new literals.old.items literals.new.items }
{
    let _places = frame.product.len();
    let start = (literals.len() - frame.begin) as u32;
    for p in start..end {
        push_own(frame, graph, literals, p)?;
    }
    Ok(())
}

// Maps a frame in which the classes hold.
pub(crate) fn push_places(
    frame: &Frame,
    graph: &mut Graph,
    classes: &Classes,
    literals: &mut Vec<Lit>,
) -> Result<(), AllocError>
    requires classes { length classes.now.least ≡ places_of frame.now.product.now }
    requires literals { length literals.old.items ≡ frame.now.number * places_of frame.now.product.now }
    requires leaves { frame.now.first + leaf_count (frame_of frame.now).leaves ≤ length graph.old }
    requires within { AreWithin graph.old literals.old.items }
    ensures on { GrowsTo graph.old graph.new }
    ensures size { OnOk result (length literals.new.items ≡ frame.now.number * places_of frame.now.product.now + places_of frame.now.product.now) }
    ensures within { AreWithin graph.new literals.new.items }
    ensures goes { GoesOnWith (frame_of frame.now) classes.now graph.new literals.old.items literals.new.items }
{
    for p in 0..frame.product.len() {
        push_place(frame, graph, classes, literals, p)?;
    }
    Ok(())
}
