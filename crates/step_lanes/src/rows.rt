//! Rows that may split, 64 at once, kept beyond the classes that they were found under: a pair of any later version is tried on
//! them in a few operations on words before anything is asked.
ghost use Rattle.std.specs.Prelude.{◌≡◌, ◌≢◌, ◌<◌, ◌≤◌, ◌-◌, ◌^◌, ◌==◌, ℕ, Some, None, IsTrue, IfOk, length, slice_index, if◌then◌else◌};
ghost use Rattle.bit_rows.specs.Words.{row_bits, AreWordsFor};
ghost use Rattle.circ_model.specs.Meaning.{places_of};
ghost use Rattle.circ_model.specs.Correspondence.{MaySplit};
ghost use Rattle.class_partition.specs.Classes.{KeepsGreatest, least_of};
ghost use Rattle.sim_words.specs.Lanes.{lane, lane_bit};
ghost use Rattle.sim_words.specs.Simulation.{HasFrame};
ghost use Rattle.step_lanes.specs.Rows.{IsFirstApart, IsFirstLane};

use crate::holding::{apart_lanes, phased_word};
use crate::paths::StepLanes;
use bit_rows::BitRow;
use class_partition::{Classes, Needed};
use product_machine::Product;
use sim_words::SimState;
use std::alloc::{AllocError, Global};
use std::marker::Model;

/// 64 rows of a pair's places, one in each lane, and a mask: the rows in its lanes may split.
#[derive(Drop)]
pub struct LaneRows<'p> {
    product: &'p Product,
    depth: u32,
    mask: u64,
    words: Vec<u64>,
}

impl<'p> Model for LaneRows<'p> {
    ghost use Rattle.step_lanes.specs.Rows.{AreLaneRows, MaskedRows};

    ghost Value = { MaskedRows };

    ghost view = { λ r. record { pair = r.product.now; k = r.depth; mask = r.mask; words = r.words.items } };

    ghost invariant = { λ r. AreLaneRows (record { pair = r.product.now; k = r.depth; mask = r.mask; words = r.words.items }) };
}

impl<'p> LaneRows<'p> {
    /// The rows of the frame at which paths stand, frame k or a later one, in the lanes on which the classes held in the first
    /// k; none if there is no such lane.
    pub fn of_step(
        alloc: Global,
        paths: &StepLanes<'_, 'p>,
    ) -> Result<Option<LaneRows<'p>>, AllocError>
        requires frame { paths.now.k < paths.now.frames }
        requires keeps { KeepsGreatest paths.now.pair paths.now.k paths.now.classes }
        ensures rows { IfOk result (λ found. found ≡ (if paths.now.mask == 0 then None else Some (record { pair = paths.now.pair; k = paths.now.k; mask = paths.now.mask; words = paths.now.words }))) }
    {
        let mask = paths.lanes();
        if mask == 0 {
            return Ok(None);
        }
        let words = Vec::from_slice(alloc, paths.words())?;
        Ok(Some(LaneRows {
            product: paths.product(),
            depth: paths.k(),
            mask,
            words,
        }))
    }

    /// The rows of a simulation that has a frame, in all lanes: each is that frame of a run.
    pub fn of_runs(
        alloc: Global,
        product: &'p Product,
        k: u32,
        sim: &SimState<'_>,
    ) -> Result<LaneRows<'p>, AllocError>
        requires pair { sim.now.pair ≡ product.now }
        requires frame { HasFrame sim.now.frame }
        ensures rows { IfOk result (λ r. r ≡ record { pair = product.entry.now; k = k; mask = 2 ^ 64 - 1; words = sim.now.words }) }
    {
        let _frame = sim.frame();
        let words = Vec::from_slice(alloc, sim.words())?;
        Ok(LaneRows {
            product,
            depth: k,
            mask: !0,
            words,
        })
    }

    /// No rows: the mask has no lane.
    pub fn new(alloc: Global, product: &'p Product, k: u32) -> Result<LaneRows<'p>, AllocError>
        ensures pair { IfOk result (λ r. r.pair ≡ product.entry.now) }
        ensures k { IfOk result (λ r. r.k ≡ k) }
        ensures none { IfOk result (λ r. r.mask ≡ 0) }
    {
        let words = vec![in alloc; 0u64; product.len() as usize]?;
        Ok(LaneRows {
            product,
            depth: k,
            mask: 0,
            words,
        })
    }

    /// Has a lane hold what other rows of the same pair and k have in a lane of their mask. It takes time linear in the number of
    /// places.
    pub fn put(&mut self, to: u32, rows: &LaneRows<'_>, from: u32)
        requires to { to < 64 }
        requires from { from < 64 }
        requires pair { rows.now.pair ≡ self.old.pair }
        requires k { rows.now.k ≡ self.old.k }
        requires mask { IsTrue (lane_bit from rows.now.mask) }
        ensures pair { self.new.pair ≡ self.old.pair }
        ensures k { self.new.k ≡ self.old.k }
        ensures row { lane to self.new.words ≡ lane from rows.now.words }
        ensures others { (b : ℕ) → b < 64 → b ≢ to → lane b self.new.words ≡ lane b self.old.words }
        ensures mask { IsTrue (lane_bit to self.new.mask) }
        ensures masks { (b : ℕ) → b < 64 → b ≢ to → lane_bit b self.new.mask ≡ lane_bit b self.old.mask }
    {
        let _other = rows.product();
        copy_lane(&mut self.words, to, rows.words.as_slice(), from);
        self.mask = with_lane(self.mask, to, true);
    }

    /// The lowest lane of the mask, among these lanes, whose row separates a needed pair, or none if the pair holds in all of them. It
    /// takes a few operations on words.
    pub fn apart(&self, among: u64, classes: &Classes, pair: Needed) -> Option<u32>
        requires places { length classes.now.least ≡ places_of self.now.pair }
        requires member { pair.member < places_of self.now.pair }
        requires rep { pair.rep ≡ least_of classes.now pair.member }
        ensures { IsFirstApart self.now among classes.now pair.member result }
    {
        let _places = classes.len();
        let words = self.words.as_slice();
        let least = phased_word(classes, words, pair.rep);
        let member = phased_word(classes, words, pair.member);
        first_lane(apart_lanes(least, member, self.mask & among))
    }

    /// The row of a lane of the mask. It takes time linear in the number of places.
    pub fn row(&self, alloc: Global, index: u32) -> Result<BitRow, AllocError>
        requires lane { index < 64 }
        requires mask { IsTrue (lane_bit index self.now.mask) }
        ensures row { IfOk result (λ r. r ≡ lane index self.now.words) }
        ensures size { IfOk result (λ r. length r ≡ places_of self.now.pair) }
        ensures may { IfOk result (λ r. MaySplit self.now.pair self.now.k r) }
    {
        let packed = packed_lane(alloc, self.words.as_slice(), index)?;
        Ok(BitRow::from_words(packed, self.product.len()))
    }

    /// The pair of netlists.
    pub fn product(&self) -> &'p Product
        ensures pair { result.now ≡ self.now.pair }
    {
        self.product
    }

    /// Over how many frames the rows were found.
    pub fn k(&self) -> u32
        ensures { result ≡ self.now.k }
    {
        self.depth
    }

    /// A word for each place.
    pub fn words(&self) -> &[u64]
        ensures words { result.now ≡ self.entry.now.words }
        ensures size { length result.now ≡ places_of self.entry.now.pair }
    {
        self.words.as_slice()
    }

    /// Whether a lane is one of the mask.
    pub fn has(&self, at: u32) -> bool
        requires { at < 64 }
        ensures { result ≡ lane_bit at self.now.mask }
    {
        has_lane(self.mask, at)
    }

    /// The lanes whose rows may split.
    pub fn mask(&self) -> u64
        ensures mask { result ≡ self.now.mask }
        ensures may { (b : ℕ) → b < 64 → IsTrue (lane_bit b result) → MaySplit self.now.pair self.now.k (lane b self.now.words) }
    {
        self.mask
    }
}

// The lowest of these lanes, or none.
fn first_lane(lanes: u64) -> Option<u32>
    ensures { IsFirstLane lanes result }
{
    if lanes == 0 {
        None
    } else {
        Some(lanes.trailing_zeros())
    }
}

// The word with the bit of a lane written.
fn with_lane(word: u64, at: u32, bit: bool) -> u64
    requires { at < 64 }
    ensures written { lane_bit at result ≡ bit }
    ensures others { (b : ℕ) → b < 64 → b ≢ at → lane_bit b result ≡ lane_bit b word }
{
    if bit {
        word | (1 << at)
    } else {
        word & !(1 << at)
    }
}

// The bit of a lane.
fn has_lane(word: u64, at: u32) -> bool
    requires { at < 64 }
    ensures { result ≡ lane_bit at word }
{
    (word >> at) & 1 == 1
}

// Writes a lane of words, as a lane of others is.
fn copy_lane(words: &mut Vec<u64>, to: u32, others: &[u64], from: u32)
    requires to { to < 64 }
    requires from { from < 64 }
    requires size { length words.old.items ≡ length others.now }
    ensures size { length words.new.items ≡ length words.old.items }
    ensures row { lane to words.new.items ≡ lane from others.now }
    ensures rest { (b : ℕ) → b < 64 → b ≢ to → lane b words.new.items ≡ lane b words.old.items }
{
    for p in 0..words.len() {
        let word = with_lane(words[p], to, has_lane(others[p], from));
        words[p] = word;
    }
}

// The bits of a lane, 64 in each word.
fn packed_lane(alloc: Global, words: &[u64], index: u32) -> Result<Vec<u64>, AllocError>
    requires lane { index < 64 }
    ensures size { IfOk result (λ packed. AreWordsFor packed.items (length words.now)) }
    ensures bits { IfOk result (λ packed. row_bits packed.items (length words.now) ≡ lane index words.now) }
{
    let count = (words.len() + 63) / 64;
    let mut packed = Vec::with_capacity(alloc, count)?;
    for i in 0..count {
        let end = words.len().min(64 * i + 64);
        packed.push(packed_word(&words[64 * i..end], index))?;
    }
    Ok(packed)
}

// The word whose bits are those of a lane of at most 64 words.
fn packed_word(words: &[u64], index: u32) -> u64
    requires lane { index < 64 }
    requires size { length words.now ≤ 64 }
    ensures { (k : ℕ) → k < length words.now → lane_bit k result ≡ lane_bit index (slice_index words.now k) }
{
    let mut packed = 0;
    for k in 0..words.len() {
        packed |= ((words[k] >> index) & 1) << k;
    }
    packed
}
