//! The path that stands in a row: its start among the values of frame 0, and the input row of each frame.
ghost use Rattle.std.specs.Prelude.{◌≡◌, ◌<◌, ◌≤◌, ◌+◌, ◌-◌, ◌*◌, ◌/◌, ℕ, List, Bool, [], length, IfOk, All, slice_index_or};
ghost use Rattle.circ_model.specs.Meaning.{bit, places_of, IsSoundPair};
ghost use Rattle.product_machine.specs.Cells.{ReadsFrom};
ghost use Rattle.frame_unroll.specs.Frames.{values};

use bit_rows::{BitRow, Rows};
use product_machine::{Path, Product};
use std::alloc::{AllocError, Global};

// The path whose start and inputs stand in the row.
pub(crate) fn read_path(
    alloc: Global,
    product: &Product,
    row: &BitRow,
    frames: u32,
) -> Result<Path, AllocError>
    requires size { frames * places_of product.now ≤ length row.now }
    requires some { 0 < frames }
    requires few { frames ≤ 64 }
    ensures { IfOk result (λ path. ReadsFrom product.now frames (values row.now (places_of product.now)) path) }
{
    let n = product.cells().len() as u32;
    let inputs = product.left().inputs().len() as u32;
    let lefts = product.left().latches().len() as u32;
    let gates = product.left().gates().len() as u32;
    let rights = product.right().latches().len() as u32;
    let start = read_start(alloc, row, inputs, lefts, gates, rights)?;
    let inputs = input_rows(alloc, row, n, inputs, frames)?;
    Ok(Path { start, inputs })
}

// The bits of the latches in frame 0.
fn read_start(
    alloc: Global,
    row: &BitRow,
    inputs: u32,
    lefts: u32,
    gates: u32,
    rights: u32,
) -> Result<BitRow, AllocError>
    requires size { 1 + inputs + lefts + gates + rights ≤ length row.now }
    requires room { 1 + inputs + lefts + gates + rights < 4294967296 }
    ensures size { IfOk result (λ s. length s ≡ lefts + rights) }
    ensures left { IfOk result (λ s. (k : ℕ) → k < lefts → bit s k ≡ bit row.now (1 + inputs + k)) }
    ensures right { IfOk result (λ s. (k : ℕ) → k < rights → bit s (lefts + k) ≡ bit row.now (1 + inputs + (lefts + gates) + k)) }
{
    let mut start = BitRow::with_len(alloc, lefts + rights)?;
    start.copy_bits(0, row, 1 + inputs, lefts);
    start.copy_bits(lefts, row, 1 + inputs + lefts + gates, rights);
    Ok(start)
}

// The rows of inputs of so many frames with n places each.
fn input_rows(
    alloc: Global,
    from: &BitRow,
    n: u32,
    inputs: u32,
    frames: u32,
) -> Result<Rows, AllocError>
    requires source { frames * n ≤ length from.now }
    requires room { frames * n < 4294967296 }
    requires within { 1 + inputs ≤ n }
    ensures size { IfOk result (λ rows. length rows ≡ frames) }
    ensures sizes { IfOk result (λ rows. All (λ r. length r ≡ inputs) rows) }
    ensures bits { IfOk result (λ rows. (t i : ℕ) → t < frames → i < inputs → bit (slice_index_or rows t []) i ≡ bit from.now (t * n + (1 + i))) }
{
    let mut rows = Rows::new(alloc);
    for t in 0..frames {
        rows.push(part_of(alloc, from, t * n + 1, inputs)?)?;
    }
    Ok(rows)
}

// A row of so many bits of another.
pub(crate) fn part_of(
    alloc: Global,
    from: &BitRow,
    at: u32,
    count: u32,
) -> Result<BitRow, AllocError>
    requires source { at + count ≤ length from.now }
    requires room { at + count < 4294967296 }
    ensures size { IfOk result (λ r. length r ≡ count) }
    ensures copied { IfOk result (λ r. (k : ℕ) → k < count → bit r k ≡ bit from.now (at + k)) }
{
    let mut row = BitRow::with_len(alloc, count)?;
    row.copy_bits(0, from, at, count);
    Ok(row)
}
