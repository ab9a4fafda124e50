//! A table of what stands at each place of a pair, with which rows are packed to the bits of their leaves and made from them.
ghost use Rattle.std.specs.Prelude.{◌≡◌, ◌<◌, ◌≤◌, IfOk, IsTrue, length};
ghost use Rattle.circ_model.specs.Meaning.{bit};
ghost use Rattle.leaf_rows.specs.Rows.{cell_value, is_leaf, leaf_count, leaf_places, leaves_in, row_by, IsRowOf};
ghost use Rattle.product_machine.specs.Cells.{cells, Rests};

use aig_graph::literal_bit;
use bit_rows::BitRow;
use product_machine::{Cell, Product};
use std::alloc::{AllocError, Global};
use std::marker::Model;

/// What stands at each place of a pair, by which a row is told from the bits of its leaves: its inputs and latches. It is a copy, so
/// that it may outlive the pair.
#[derive(Drop)]
pub struct LeafTable {
    cells: Vec<Cell>,
    places: Vec<u32>,
}

impl Model for LeafTable {
    ghost use Rattle.std.specs.Prelude.{◌≡◌, ◌≤◌, List, length};
    ghost use Rattle.leaf_rows.specs.Rows.{leaf_places};
    ghost use Rattle.product_machine.specs.declared.cell.Cell.{Cell};
    ghost use Rattle.product_machine.specs.Cells.{IsArranged};

    ghost Value = { List Cell };

    ghost view = { λ t. t.cells.items };

    ghost invariant = { λ t. IsArranged t.cells.items × (t.places.items ≡ leaf_places 0 t.cells.items) × (length t.cells.items ≤ 2000001) };
}

// Whether a cell is an input or a latch.
fn is_leaf(cell: &Cell) -> bool
    ensures { result ≡ is_leaf cell.now }
{
    match *cell {
        Cell::Given | Cell::Held(_, _) => true,
        Cell::Low | Cell::Product(_, _) => false,
    }
}

// The places of the leaves among these cells.
fn find_leaves(alloc: Global, cells: &[Cell]) -> Result<Vec<u32>, AllocError>
    requires { length cells.now ≤ 2000001 }
    ensures { IfOk result (λ ps. ps.items ≡ leaf_places 0 cells.now) }
{
    let mut places = Vec::new(alloc);
    for p in 0..cells.len() as u32 {
        if is_leaf(&cells[p as usize]) {
            places.push(p)?;
        }
    }
    Ok(places)
}

// The bit of a cell: a leaf's is bit `at` of the leaves, and a gate's comes from the row so far.
fn cell_bit(cell: &Cell, row: &BitRow, leaves: &BitRow, at: u32) -> bool
    requires rests { Rests (length row.now) (length row.now) cell.now }
    requires leaf { IsTrue (is_leaf cell.now) → at < length leaves.now }
    ensures { result ≡ cell_value row.now (bit leaves.now at) cell.now }
{
    match *cell {
        Cell::Low => false,
        Cell::Given | Cell::Held(_, _) => leaves.get(at),
        Cell::Product(left, right) => literal_bit(row, left) && literal_bit(row, right),
    }
}

impl LeafTable {
    /// That of a pair. An `Err` is want of memory.
    pub fn of(alloc: Global, product: &Product) -> Result<LeafTable, AllocError>
        ensures { IfOk result (λ t. t ≡ cells product.now) }
    {
        let _places = product.len();
        let cells = Vec::from_slice(alloc, product.cells())?;
        let places = find_leaves(alloc, cells.as_slice())?;
        Ok(LeafTable { cells, places })
    }

    /// How many leaves a row has.
    pub fn leaves(&self) -> u32
        ensures { result ≡ leaf_count self.now }
    {
        self.places.len() as u32
    }

    /// How many places a row has.
    pub fn len(&self) -> u32
        ensures { result ≡ length self.now }
    {
        self.cells.len() as u32
    }

    /// Writes the bits of a row's leaves, in the order of their places; a row that obeys the cells is the one that they determine. It
    /// takes no memory.
    pub fn pack(&self, row: &BitRow, leaves: &mut BitRow)
        requires row { length row.now ≡ length self.now }
        requires leaves { length leaves.old ≡ leaf_count self.now }
        ensures leaves { leaves.new ≡ leaves_in self.now row.now }
        ensures size { length leaves.new ≡ leaf_count self.now }
        ensures row { IsRowOf self.now row.now → row_by self.now leaves.new ≡ row.now }
    {
        for at in 0..self.leaves() {
            leaves.set(at, row.get(self.places[at as usize]));
        }
    }

    /// The row that these leaves determine. An `Err` is want of memory.
    pub fn unpack(&self, alloc: Global, leaves: &BitRow) -> Result<BitRow, AllocError>
        requires { length leaves.now ≡ leaf_count self.now }
        ensures { IfOk result (λ r. r ≡ row_by self.now leaves.now) }
    {
        let mut row = BitRow::with_len(alloc, self.len())?;
        self.fill(leaves, &mut row);
        Ok(row)
    }

    // Writes the row that these leaves determine.
    fn fill(&self, leaves: &BitRow, row: &mut BitRow)
        requires leaves { length leaves.now ≡ leaf_count self.now }
        requires row { length row.old ≡ length self.now }
        ensures { row.new ≡ row_by self.now leaves.now }
    {
        let mut at = 0;
        for p in 0..self.len() {
            let cell = &self.cells[p as usize];
            let bit = cell_bit(cell, row, leaves, at);
            row.set(p, bit);
            if is_leaf(cell) {
                at += 1;
            }
        }
    }
}
