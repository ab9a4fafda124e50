//! What the places of a frame are by what stands there, over the literals of the places before them.
ghost use Rattle.std.specs.Prelude.{◌≡◌, ◌<◌, ◌≤◌, ◌+◌, ◌*◌, ◌/◌, ℕ, List, Bool, IfOk, length};
ghost use Rattle.circ_model.specs.Meaning.{Path, bit, literal_value, places_of, row_at};
ghost use Rattle.product_machine.specs.declared.cell.Cell.TheVariants.{Held, Product as ProductOf};
ghost use Rattle.product_machine.specs.Signals.{cell_at};
ghost use Rattle.and_graph.specs.declared.node.Node.{Node};
ghost use Rattle.and_graph.specs.Graphs.{GrowsTo, Obeys};
ghost use Rattle.frame_graph.specs.Cells.{IsInput, IsLatch};
ghost use Rattle.frame_graph.specs.Frames.{Stands, frame_of};
ghost use Rattle.frame_graph.specs.Leaves.{leaf_count};
ghost use Rattle.frame_graph.specs.Maps.{AreWithin};

use crate::cells::{cell_of, input_position, latch_position};
use crate::frame::Frame;
use crate::literals::literal_from;
use and_graph::Graph;
use circ_model::Lit;
use product_machine::{Cell, Start};
use std::alloc::AllocError;

// The leaf of an input.
fn input_literal(frame: &Frame, p: u32) -> Lit
    requires place { p < places_of frame.now.product.now }
    requires input { IsInput (cell_at frame.now.product.now p) }
    ensures within { result / 2 < frame.now.first + leaf_count (frame_of frame.now).leaves }
    ensures value { (literals : List ℕ) (path : Path) (v : ℕ → Bool) → Stands (frame_of frame.now) literals path v → literal_value v result ≡ bit (row_at frame.now.product.now path frame.now.number) p }
{
    let i = input_position(frame.product, p);
    let latches = frame.product.latches();
    let before = frame.number * frame.product.inputs();
    Lit::of(frame.first + (latches + (before + i)), false)
}

// The leaf of a latch, or the constant that it starts as.
fn start_literal(frame: &Frame, p: u32, start: Start) -> Lit
    requires place { p < places_of frame.now.product.now }
    requires latch { IsLatch (cell_at frame.now.product.now p) }
    ensures within { result / 2 < frame.now.first + leaf_count (frame_of frame.now).leaves }
    ensures value { (literals : List ℕ) (path : Path) (v : ℕ → Bool) (next : ℕ) → cell_at frame.now.product.now p ≡ Held start next → frame.now.number ≡ 0 → Stands (frame_of frame.now) literals path v → literal_value v result ≡ bit (row_at frame.now.product.now path frame.now.number) p }
{
    let _cells = frame.product.cells();
    let leaf = Lit::of(frame.first + latch_position(frame.product, p), false);
    if !frame.from_reset {
        return leaf;
    }
    match start {
        Start::Zero => Lit::of(0, false),
        Start::One => Lit::of(0, true),
        Start::Free => leaf,
        Start::Like(_) => leaf,
    }
}

// The literal of a latch: in a later frame that of its next literal in the frame before, and from reset in the first frame that of
// the place as which it starts.
fn latch_literal(frame: &Frame, literals: &[Lit], p: u32, start: Start, next: Lit) -> Lit
    requires place { p < places_of frame.now.product.now }
    requires latch { cell_at frame.now.product.now p ≡ Held start next }
    requires literals { length literals.now ≡ frame.now.number * places_of frame.now.product.now + p }
    ensures within { (nodes : List Node) → frame.now.first + leaf_count (frame_of frame.now).leaves ≤ length nodes → AreWithin nodes literals.now → result / 2 < length nodes }
    ensures value { (path : Path) (v : ℕ → Bool) → Stands (frame_of frame.now) literals.now path v → literal_value v result ≡ bit (row_at frame.now.product.now path frame.now.number) p }
{
    let _cells = frame.product.cells();
    if frame.number == 0 {
        if frame.from_reset {
            if let Start::Like(q) = start {
                return literals[q as usize];
            }
        }
        return start_literal(frame, p, start);
    }
    literal_from(literals, frame.begin - frame.product.len() as usize, next)
}

// The literal of a gate: the product of its operands' literals.
fn gate_literal(
    frame: &Frame,
    graph: &mut Graph,
    literals: &[Lit],
    p: u32,
    left: Lit,
    right: Lit,
) -> Result<Lit, AllocError>
    requires place { p < places_of frame.now.product.now }
    requires gate { cell_at frame.now.product.now p ≡ ProductOf left right }
    requires literals { length literals.now ≡ frame.now.number * places_of frame.now.product.now + p }
    requires within { AreWithin graph.old literals.now }
    ensures on { GrowsTo graph.old graph.new }
    ensures within { IfOk result (λ lit. lit / 2 < length graph.new) }
    ensures value { IfOk result (λ lit. (path : Path) (v : ℕ → Bool) → Obeys graph.new v → Stands (frame_of frame.now) literals.now path v → literal_value v lit ≡ bit (row_at frame.now.product.now path frame.now.number) p) }
{
    let _cells = frame.product.cells();
    let a = literal_from(literals, frame.begin, left);
    let b = literal_from(literals, frame.begin, right);
    graph.and(a, b)
}

// The literal of a place by what stands there.
pub(crate) fn own_literal(
    frame: &Frame,
    graph: &mut Graph,
    literals: &[Lit],
    p: u32,
) -> Result<Lit, AllocError>
    requires place { p < places_of frame.now.product.now }
    requires literals { length literals.now ≡ frame.now.number * places_of frame.now.product.now + p }
    requires leaves { frame.now.first + leaf_count (frame_of frame.now).leaves ≤ length graph.old }
    requires within { AreWithin graph.old literals.now }
    ensures on { GrowsTo graph.old graph.new }
    ensures within { IfOk result (λ lit. lit / 2 < length graph.new) }
    ensures value { IfOk result (λ lit. (path : Path) (v : ℕ → Bool) → Obeys graph.new v → Stands (frame_of frame.now) literals.now path v → literal_value v lit ≡ bit (row_at frame.now.product.now path frame.now.number) p) }
{
    let _nodes = graph.len();
    match cell_of(frame.product, p) {
        Cell::Low => Ok(Lit::of(0, false)),
        Cell::Given => Ok(input_literal(frame, p)),
        Cell::Held(start, next) => Ok(latch_literal(frame, literals, p, start, next)),
        Cell::Product(left, right) => gate_literal(frame, graph, literals, p, left, right),
    }
}

// The literal of a place by what stands there, where it is mapped already.
pub(crate) fn own_literal_again(
    frame: &Frame,
    graph: &mut Graph,
    literals: &[Lit],
    p: u32,
) -> Result<Lit, AllocError>
    requires place { p < places_of frame.now.product.now }
    requires mapped { frame.now.number * places_of frame.now.product.now + p < length literals.now }
    requires leaves { frame.now.first + leaf_count (frame_of frame.now).leaves ≤ length graph.old }
    requires within { AreWithin graph.old literals.now }
    ensures on { GrowsTo graph.old graph.new }
    ensures within { IfOk result (λ lit. lit / 2 < length graph.new) }
    ensures value { IfOk result (λ lit. (path : Path) (v : ℕ → Bool) → Obeys graph.new v → Stands (frame_of frame.now) literals.now path v → literal_value v lit ≡ bit (row_at frame.now.product.now path frame.now.number) p) }
{
    let before = &literals[..frame.begin + p as usize];
    own_literal(frame, graph, before, p)
}
