//! A version: classes on the way to those of the greatest correspondence. It is plain data; a split takes no memory.
ghost use Rattle.std.specs.Prelude.{◌≡◌, ◌<◌, ◌≤◌, ◌+◌, ℕ, List, Bool, IfOk, OnOk, OnErr, length, map};
ghost use Rattle.circ_model.specs.Meaning.{latches_of, places_of, resets};
ghost use Rattle.circ_model.specs.Runs.{first_bit, phases};
ghost use Rattle.class_partition.specs.Classes.{HoldIn, class_count, split_of};
ghost use Rattle.class_partition.specs.Words.{rows_of, splits_of};
ghost use Rattle.sim_words.specs.Lanes.{lane};
ghost use Rattle.sim_words.specs.Simulation.{HasFrame};
ghost use Rattle.sim_words.specs.Wide.{narrow};
ghost use Rattle.verdict_stamp.specs.Versions.{IsVersion, first_version};
ghost use Rattle.verdict_stamp.specs.WideSplits.{wide_splits};

use crate::vector::Vector;
use bit_rows::BitRow;
use class_partition::Classes;
use product_machine::Product;
use sim_words::WideState;
use std::alloc::{AllocError, Global};
use std::marker::Model;

/// Classes of a pair's places that separate no pair of its greatest correspondence, for induction over k frames. The number
/// counts the splits that led to them.
#[derive(Drop)]
pub struct Version<'p> {
    product: &'p Product,
    depth: u32,
    partition: Classes,
    splits: u32,
}

impl<'p> Model for Version<'p> {
    ghost use Rattle.verdict_stamp.specs.Versions.{Standing, IsVersion};

    ghost Value = { Standing };

    ghost view = { λ v. record { pair = v.product.now; k = v.depth; classes = v.partition; number = v.splits } };

    ghost invariant = { λ v. IsVersion (record { pair = v.product.now; k = v.depth; classes = v.partition; number = v.splits }) };
}

// The state of the run with all free latches 0.
fn write_first_state(product: &Product, state: &mut BitRow)
    requires { length state.old ≡ latches_of product.now }
    ensures { state.new ≡ map first_bit (resets product.now) }
{
    for i in 0..state.len() {
        state.set(i, product.reset(i).first_bit());
    }
}

// The values in frame 0 of the run with all inputs and all free latches 0.
fn phases_of(alloc: Global, product: &Product) -> Result<BitRow, AllocError>
    ensures { IfOk result (λ row. row ≡ phases product.now) }
{
    let mut state = BitRow::with_len(alloc, product.latches())?;
    let inputs = BitRow::with_len(alloc, product.inputs())?;
    let mut values = BitRow::with_len(alloc, product.len())?;
    write_first_state(product, &mut state);
    product.eval(&state, &inputs, &mut values);
    Ok(values)
}

// One where classes were added.
fn one_of(added: u32) -> u32
    ensures none { added ≡ 0 → result ≡ 0 }
    ensures some { 0 < added → result ≡ 1 }
    ensures within { result ≤ added }
{
    if added == 0 { 0 } else { 1 }
}

impl<'p> Version<'p> {
    /// One class of all places, each with its value in frame 0 of the run with all inputs and all free latches 0 as its
    /// phase.
    pub fn first(alloc: Global, product: &'p Product, k: u32) -> Result<Version<'p>, AllocError>
        requires some { 0 < k }
        requires few { k ≤ 16 }
        ensures { IfOk result (λ v. v ≡ first_version product.entry.now k) }
    {
        let phases = phases_of(alloc, product)?;
        let partition = Classes::one_class(alloc, &phases)?;
        let _places = partition.len();
        Ok(Version {
            product,
            depth: k,
            partition,
            splits: 0,
        })
    }

    /// An equal version.
    pub fn copy(&self, alloc: Global) -> Result<Version<'p>, AllocError>
        ensures { IfOk result (λ v. v ≡ self.now) }
    {
        let partition = self.partition.copy(alloc)?;
        Ok(Version {
            product: self.product,
            depth: self.depth,
            partition,
            splits: self.splits,
        })
    }

    /// The pair of netlists.
    pub fn product(&self) -> &'p Product
        ensures pair { result.now ≡ self.now.pair }
        ensures kept { IsVersion self.now }
    {
        self.product
    }

    /// In how many frames the classes are assumed.
    pub fn k(&self) -> u32
        ensures { result ≡ self.now.k }
    {
        self.depth
    }

    /// The classes.
    pub fn classes(&self) -> &Classes
        ensures classes { result.now ≡ self.entry.now.classes }
        ensures kept { IsVersion self.entry.now }
    {
        &self.partition
    }

    /// How many splits led here.
    pub fn number(&self) -> u32
        ensures { result ≡ self.now.number }
    {
        self.splits
    }

    /// Splits the classes by a vector of the same product and k, and answers how many classes that adds. The number rises
    /// by one exactly where that is some.
    pub fn split_by(&mut self, vector: &Vector<'_>) -> u32
        requires product { vector.now.pair ≡ self.old.pair }
        requires k { vector.now.k ≡ self.old.k }
        ensures product { self.new.pair ≡ self.old.pair }
        ensures k { self.new.k ≡ self.old.k }
        ensures split { self.new.classes ≡ split_of (places_of self.old.pair) self.old.classes vector.now.bits }
        ensures count { class_count (places_of self.old.pair) self.new.classes ≡ class_count (places_of self.old.pair) self.old.classes + result }
        ensures number { 0 < result → self.new.number ≡ self.old.number + 1 }
        ensures none { result ≡ 0 → (self.new ≡ self.old) × HoldIn (places_of self.old.pair) self.old.classes vector.now.bits }
    {
        let bits = vector.bits();
        let _places = self.product.len();
        let added = self.partition.split_by(bits);
        self.splits += one_of(added);
        added
    }

    // Splits the classes by word j of each place's eight, and answers how many classes that adds. The number stays, and the
    // buffer holds the words.
    fn split_by_part(
        &mut self,
        alloc: Global,
        sim: &WideState<'_>,
        j: u32,
        words: &mut [u64],
    ) -> Result<u32, AllocError>
        requires pair { sim.now.pair ≡ self.old.pair }
        requires frame { HasFrame sim.now.frame }
        requires part { j < 8 }
        requires size { length words.old ≡ places_of self.old.pair }
        ensures size { length words.new ≡ places_of self.old.pair }
        ensures product { self.new.pair ≡ self.old.pair }
        ensures k { self.new.k ≡ self.old.k }
        ensures number { self.new.number ≡ self.old.number }
        ensures rows { OnOk result (self.new.classes ≡ splits_of (places_of self.old.pair) self.old.classes (rows_of (narrow sim.now j).words)) }
        ensures count { IfOk result (λ added. class_count (places_of self.old.pair) self.new.classes ≡ class_count (places_of self.old.pair) self.old.classes + added) }
        ensures none { IfOk result (λ added. added ≡ 0 → (self.new ≡ self.old) × ((b : ℕ) → b < 64 → HoldIn (places_of self.old.pair) self.old.classes (lane b (narrow sim.now j).words))) }
    {
        let _frame = sim.frame();
        let _places = self.product.len();
        sim.write_words(j, words);
        let added = self.partition.split_by_words(alloc, words)?;
        Ok(added)
    }

    // Splits the classes by the eight numbers of words in turn. The number of splits stays.
    fn split_by_parts(&mut self, alloc: Global, sim: &WideState<'_>) -> Result<(), AllocError>
        requires pair { sim.now.pair ≡ self.old.pair }
        requires frame { HasFrame sim.now.frame }
        ensures product { self.new.pair ≡ self.old.pair }
        ensures k { self.new.k ≡ self.old.k }
        ensures number { self.new.number ≡ self.old.number }
        ensures split { OnOk result (self.new.classes ≡ wide_splits 8 (places_of self.old.pair) self.old.classes sim.now.words) }
        ensures more { OnOk result (class_count (places_of self.old.pair) self.old.classes ≤ class_count (places_of self.old.pair) self.new.classes) }
        ensures none { OnOk result (class_count (places_of self.old.pair) self.new.classes ≡ class_count (places_of self.old.pair) self.old.classes → (self.new ≡ self.old) × ((j b : ℕ) → j < 8 → b < 64 → HoldIn (places_of self.old.pair) self.old.classes (lane b (narrow sim.now j).words))) }
    {
        let places = self.product().len();
        let mut words = vec![in alloc; 0u64; places as usize]?;
        for j in 0..8u32 {
            self.split_by_part(alloc, sim, j, words.as_mut_slice())?;
        }
        Ok(())
    }

    /// Splits the classes by the 512 runs of a simulation of the same pair that has a frame, each of which is that frame of a
    /// run, and answers how many classes that adds. The number rises by one exactly where that is some. After an error the
    /// classes may be split by some of the runs, and the number is as before.
    pub fn split_by_wide(&mut self, alloc: Global, sim: &WideState<'_>) -> Result<u32, AllocError>
        requires pair { sim.now.pair ≡ self.old.pair }
        requires frame { HasFrame sim.now.frame }
        ensures product { self.new.pair ≡ self.old.pair }
        ensures k { self.new.k ≡ self.old.k }
        ensures split { OnOk result (self.new.classes ≡ wide_splits 8 (places_of self.old.pair) self.old.classes sim.now.words) }
        ensures count { IfOk result (λ added. class_count (places_of self.old.pair) self.new.classes ≡ class_count (places_of self.old.pair) self.old.classes + added) }
        ensures number { IfOk result (λ added. 0 < added → self.new.number ≡ self.old.number + 1) }
        ensures none { IfOk result (λ added. added ≡ 0 → (self.new ≡ self.old) × ((j b : ℕ) → j < 8 → b < 64 → HoldIn (places_of self.old.pair) self.old.classes (lane b (narrow sim.now j).words))) }
        ensures err { OnErr result (self.new.number ≡ self.old.number) }
    {
        let before = self.classes().count();
        self.split_by_parts(alloc, sim)?;
        let more = self.classes().count() - before;
        self.splits += one_of(more);
        Ok(more)
    }
}
