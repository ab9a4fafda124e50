//! Runs that a pattern of the graph's leaves gives, and whether two literals differ on them: a model of the solver is a hint, so it
//! is made into a run and looked at.
ghost use Rattle.std.specs.Prelude.{◌≡◌, ◌<◌, ◌+◌, ◌/◌, IfOk, IfSome, IsTrue, length};
ghost use Rattle.circ_model.specs.Correspondence.{IsLiteral};
ghost use Rattle.circ_model.specs.Meaning.{IsRun, latches_of};
ghost use Rattle.induction_base.specs.Search.{ApartAtEnd};

use aig_graph::literal_bit;
use and_graph::{LeafValue, Pattern};
use bit_rows::{BitRow, Rows};
use circ_model::Lit;
use frame_graph::{FrameMap, Leaf};
use product_machine::{Path, Product, Scratch};
use std::alloc::{AllocError, Global};

// The start bits in which all free latches are 0.
fn quiet_start(alloc: Global, product: &Product) -> Result<BitRow, AllocError>
    ensures { IfOk result (λ s. length s ≡ latches_of product.now) }
{
    let mut start = BitRow::with_len(alloc, product.latches())?;
    for i in 0..product.latches() {
        start.set(i, product.reset(i).first_bit());
    }
    Ok(start)
}

// Takes the bits of a pattern's latches.
fn take_latches(map: &FrameMap<'_>, leaves: &[LeafValue], start: &mut BitRow)
    ensures { length start.new ≡ length start.old }
{
    for at in leaves {
        match map.leaf(at.leaf) {
            Some(Leaf::Latch(j)) => {
                if j < start.len() {
                    start.set(j, at.value);
                }
            }
            _ => {}
        }
    }
}

// Takes the bits of a pattern's inputs in a frame.
fn take_inputs(map: &FrameMap<'_>, leaves: &[LeafValue], frame: u32, row: &mut BitRow)
    ensures { length row.new ≡ length row.old }
{
    for at in leaves {
        match map.leaf(at.leaf) {
            Some(Leaf::Input(t, i)) => {
                if t == frame && i < row.len() {
                    row.set(i, at.value);
                }
            }
            _ => {}
        }
    }
}

// The input rows up to a frame, with zeros where the pattern has nothing.
fn rows_of(
    alloc: Global,
    product: &Product,
    map: &FrameMap<'_>,
    leaves: &[LeafValue],
    t: u32,
) -> Result<Rows, AllocError>
    requires few { t < 64 }
    ensures { IfOk result (λ rows. length rows ≡ t + 1) }
{
    let mut rows = Rows::new(alloc);
    for frame in 0..t + 1 {
        let mut row = BitRow::with_len(alloc, product.inputs())?;
        take_inputs(map, leaves, frame, &mut row);
        rows.push(row)?;
    }
    Ok(rows)
}

// The run that a pattern gives, up to a frame; none where that is no run.
pub(crate) fn run_of(
    alloc: Global,
    product: &Product,
    map: &FrameMap<'_>,
    pattern: &Pattern,
    t: u32,
) -> Result<Option<Path>, AllocError>
    requires few { t < 64 }
    ensures run { IfOk result (λ r. IfSome r (IsRun product.now)) }
    ensures rows { IfOk result (λ r. IfSome r (λ run. length run.inputs ≡ t + 1)) }
{
    let leaves = pattern.leaves.as_slice();
    let mut start = quiet_start(alloc, product)?;
    take_latches(map, leaves, &mut start);
    let inputs = rows_of(alloc, product, map, leaves, t)?;
    let run = Path { start, inputs };
    if product.is_path(&run) && product.is_run(&run) {
        Ok(Some(run))
    } else {
        Ok(None)
    }
}

// Whether two literals differ in the last frame of a run.
pub(crate) fn differs_at_end(
    alloc: Global,
    product: &Product,
    run: &Path,
    t: u32,
    a: Lit,
    b: Lit,
) -> Result<bool, AllocError>
    requires run { IsRun product.now run.now }
    requires rows { length run.now.inputs ≡ t + 1 }
    requires left { IsLiteral product.now a }
    requires right { IsLiteral product.now b }
    ensures { IfOk result (λ yes. IsTrue yes → ApartAtEnd product.now t a b run.now) }
{
    let mut scratch = Scratch::for_product(alloc, product)?;
    product.values_at(run, t as u64, &mut scratch);
    Ok(literal_bit(scratch.values(), a) != literal_bit(scratch.values(), b))
}
