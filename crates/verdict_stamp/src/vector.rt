//! A vector: values of all places that separate no pair of the greatest correspondence. It outlives the version under which
//! it was found, and may split any other of the same product and k.
ghost use Rattle.std.specs.Prelude.{◌≡◌, ◌<◌, length, IfOk};
ghost use Rattle.circ_model.specs.Meaning.{IsRun, places_of, row_at};
ghost use Rattle.circ_model.specs.Correspondence.{MaySplit};
ghost use Rattle.sim_words.specs.Lanes.{lane};
ghost use Rattle.sim_words.specs.Simulation.{HasFrame};
ghost use Rattle.verdict_stamp.specs.Versions.{IsVector};

use bit_rows::BitRow;
use product_machine::{Path, Product, Scratch};
use sim_words::SimState;
use std::alloc::{AllocError, Global};
use std::marker::Model;

/// Values of all places in a frame in which the greatest correspondence holds.
#[derive(Drop)]
pub struct Vector<'p> {
    product: &'p Product,
    depth: u32,
    row: BitRow,
}

impl<'p> Model for Vector<'p> {
    ghost use Rattle.verdict_stamp.specs.Versions.{Split, IsVector};

    ghost Value = { Split };

    ghost view = { λ v. record { pair = v.product.now; k = v.depth; bits = v.row } };

    ghost invariant = { λ v. IsVector (record { pair = v.product.now; k = v.depth; bits = v.row }) };
}

impl<'p> Vector<'p> {
    pub(crate) fn of(product: &'p Product, k: u32, row: BitRow) -> Vector<'p>
        requires size { length row ≡ places_of product.now }
        requires may { MaySplit product.now k row }
        ensures { result ≡ record { pair = product.entry.now; k = k; bits = row } }
    {
        Vector {
            product,
            depth: k,
            row,
        }
    }

    /// The values in frame t of a run, counted from 0.
    pub fn from_run(
        alloc: Global,
        product: &'p Product,
        k: u32,
        run: &Path,
        t: u64,
    ) -> Result<Vector<'p>, AllocError>
        requires run { IsRun product.now run.now }
        requires frame { t < length run.now.inputs }
        ensures { IfOk result (λ v. v ≡ record { pair = product.entry.now; k = k; bits = row_at product.entry.now run.entry.now t }) }
    {
        let mut scratch = Scratch::for_product(alloc, product)?;
        product.values_at(run, t, &mut scratch);
        let mut row = BitRow::with_len(alloc, product.len())?;
        row.copy_from(scratch.values());
        Ok(Vector::of(product, k, row))
    }

    /// The values of a lane of a simulation that has a frame: that frame of a run.
    pub fn of_lane(
        alloc: Global,
        product: &'p Product,
        k: u32,
        sim: &SimState<'_>,
        run: u32,
    ) -> Result<Vector<'p>, AllocError>
        requires pair { sim.now.pair ≡ product.now }
        requires frame { HasFrame sim.now.frame }
        requires run { run < 64 }
        ensures { IfOk result (λ v. v ≡ record { pair = product.entry.now; k = k; bits = lane run sim.now.words }) }
    {
        let _frame = sim.frame();
        let mut row = BitRow::with_len(alloc, product.len())?;
        sim.column(run, &mut row);
        Ok(Vector::of(product, k, row))
    }

    /// An equal vector.
    pub fn copy(&self, alloc: Global) -> Result<Vector<'p>, AllocError>
        ensures { IfOk result (λ v. v ≡ self.now) }
    {
        let bits = self.bits();
        let mut row = BitRow::with_len(alloc, bits.len())?;
        row.copy_from(bits);
        Ok(Vector::of(self.product, self.depth, row))
    }

    /// The values, which may split the classes of any version of the same product and k.
    pub fn bits(&self) -> &BitRow
        ensures bits { result.now ≡ self.entry.now.bits }
        ensures may { IsVector self.entry.now }
    {
        &self.row
    }

    /// The pair of netlists.
    pub fn product(&self) -> &'p Product
        ensures pair { result.now ≡ self.now.pair }
    {
        self.product
    }

    /// Over how many frames it was found.
    pub fn k(&self) -> u32
        ensures { result ≡ self.now.k }
    {
        self.depth
    }

    /// The values alone.
    pub fn into_bits(self) -> BitRow
        ensures bits { result ≡ self.entry.bits }
        ensures may { IsVector self.entry }
    {
        self.row
    }
}
