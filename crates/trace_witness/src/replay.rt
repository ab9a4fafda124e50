//! Replay: the first frame and output in which the two sides of a path differ.
ghost use Rattle.std.specs.Prelude.{◌≡◌, length};
ghost use Rattle.circ_model.specs.Meaning.{places_of, IsPath};
ghost use Rattle.circ_model.specs.Verdict.{FirstDifference};
ghost use Rattle.product_machine.specs.Walk.{FitsPair};
ghost use Rattle.trace_witness.specs.Replay.{FirstInRow};

use aig_graph::literal_bit;
use bit_rows::BitRow;
use product_machine::{Path, Product, Scratch};

// The first output that differs in a row of values.
fn first_in_row(product: &Product, row: &BitRow) -> Option<u32>
    requires { length row.now ≡ places_of product.now }
    ensures { FirstInRow product.now row.now result }
{
    let _cells = product.cells();
    for j in 0..product.outputs() {
        let (left, right) = product.output(j);
        if literal_bit(row, left) != literal_bit(row, right) {
            return Some(j);
        }
    }
    None
}

/// The first difference of a path: the least frame, then the least output, in which both sides' values differ.
pub fn first_difference(product: &Product, path: &Path, scratch: &mut Scratch) -> Option<(u64, u32)>
    requires path { IsPath product.now path.now }
    requires scratch { FitsPair product.now scratch.old }
    ensures first { FirstDifference product.now path.now result }
    ensures scratch { FitsPair product.now scratch.new }
{
    let _cells = product.cells();
    product.start(&path.start, scratch);
    for t in 0..path.inputs.len() {
        product.step(path.inputs.row(t), scratch);
        if let Some(j) = first_in_row(product, scratch.values()) {
            return Some((t, j));
        }
    }
    None
}
