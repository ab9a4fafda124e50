//! The rows that are held, and what they leave of a version's classes.
ghost use Rattle.std.specs.Prelude.{◌≡◌, ◌<◌, ◌≤◌, IsTrue, IfOk, IfSome, length};
ghost use Rattle.circ_model.specs.Meaning.{places_of};
ghost use Rattle.class_partition.specs.Classes.{KeepsGreatest, least_of};
ghost use Rattle.sim_words.specs.Lanes.{lane_bit};
ghost use Rattle.split_rows.specs.Rows.{IsRowApart};

use crate::left::{Left, lane_word};
use bit_rows::BitRow;
use class_partition::{Classes, Needed};
use product_machine::Product;
use sim_words::Stimulus;
use std::alloc::{AllocError, Global};
use std::marker::Model;
use std::mem;
use step_lanes::LaneRows;

// So many rows of a block are held as rows; more, as the block.
const MANY: u32 = 16;

/// Rows of a pair's places, 64 in a block, each of which may split any classes that separate no pair of the greatest
/// correspondence. A block is held while it splits the classes that are refined.
#[derive(Drop)]
pub struct SplitRows<'p> {
    pub(crate) product: &'p Product,
    pub(crate) k: u32,
    pub(crate) blocks: Vec<LaneRows<'p>>,
    // by block, the lanes whose rows were answered for these classes: a hint
    pub(crate) given: Vec<u64>,
    // what the blocks leave of the classes that are refined: a hint
    pub(crate) left: Option<Left>,
    pub(crate) stimulus: Stimulus,
    // a state of each run, from which models are filled in
    pub(crate) reached: Vec<u64>,
    pub(crate) is_ahead: bool,
    // from which place on rows are looked for that wait: a hint
    pub(crate) next: u32,
}

impl<'p> Model for SplitRows<'p> {
    ghost use Rattle.std.specs.Prelude.{◌≡◌, All};
    ghost use Rattle.pair_sweep.specs.Sweeps.{Extent};
    ghost use Rattle.split_rows.specs.Rows.{AreOf};

    ghost Value = { Extent };

    ghost view = { λ r. record { pair = r.product.now; k = r.k } };

    ghost invariant = { λ r. AreOf r.product.now r.k r.blocks.items };
}

// A row that was found, with its block and its lane.
#[derive(Drop)]
struct FoundRow {
    block: usize,
    lane: u32,
    row: BitRow,
}

// The row of a block that separates a needed pair, among those of some lanes, where one does; and its lane.
fn row_apart(
    alloc: Global,
    block: &LaneRows<'_>,
    among: u64,
    classes: &Classes,
    pair: Needed,
) -> Result<Option<(u32, BitRow)>, AllocError>
    requires places { length classes.now.least ≡ places_of block.now.pair }
    requires place { pair.member < places_of block.now.pair }
    requires rep { pair.rep ≡ least_of classes.now pair.member }
    ensures { IfOk result (λ found. IfSome found (λ f. IsRowApart block.now.pair block.now.k classes.now pair.member f.1)) }
{
    match block.apart(among, classes, pair) {
        Some(lane) => Ok(Some((lane, block.row(alloc, lane)?))),
        None => Ok(None),
    }
}

// Has a lane that is free hold the row of another block's lane, where there is one.
fn add_row(block: &mut LaneRows<'_>, rows: &LaneRows<'_>, from: u32)
    requires pair { rows.now.pair ≡ block.old.pair }
    requires k { rows.now.k ≡ block.old.k }
    requires from { from < 64 }
    requires mask { IsTrue (lane_bit from rows.now.mask) }
    ensures pair { block.new.pair ≡ block.old.pair }
    ensures k { block.new.k ≡ block.old.k }
{
    let lane = block.mask().trailing_ones();
    if lane < 64 {
        block.put(lane, rows, from);
    }
}

impl<'p> SplitRows<'p> {
    /// No rows yet of this pair, for induction over k frames.
    pub fn new(alloc: Global, product: &'p Product, k: u32) -> SplitRows<'p>
        ensures { result ≡ record { pair = product.entry.now; k = k } }
    {
        SplitRows {
            product,
            k,
            blocks: Vec::new(alloc),
            given: Vec::new(alloc),
            left: None,
            stimulus: Stimulus::new(2),
            reached: Vec::new(alloc),
            is_ahead: false,
            next: 0,
        }
    }

    /// Turns to other classes: rows that don't split them go. An `Err`, here and below, is want of memory.
    pub fn turn_to(&mut self, alloc: Global, classes: &Classes) -> Result<(), AllocError>
        ensures { self.new ≡ self.old }
    {
        let left = Left::of(alloc, classes)?;
        self.left = Some(left);
        self.given.clear();
        self.next = 0;
        let mut blocks = mem::replace(&mut self.blocks, Vec::new(alloc));
        while let Some(block) = blocks.pop() {
            self.take(alloc, block)?;
        }
        Ok(())
    }

    // How many places no row that is held separates from the least of their part.
    fn members(&self) -> usize {
        match &self.left {
            Some(left) => left.members(),
            None => 0,
        }
    }

    // Splits what the rows leave by those in the lanes of a mask. Answers the lanes of those that split it.
    pub(crate) fn split_by(&mut self, words: &[u64], mask: u64) -> Result<u64, AllocError>
        ensures { self.new ≡ self.old }
    {
        match &mut self.left {
            Some(left) => left.split_by(words, mask),
            None => Ok(0),
        }
    }

    // Takes a block in, as far as it splits what the others leave. Answers how many parts that adds.
    pub(crate) fn take(&mut self, alloc: Global, block: LaneRows<'p>) -> Result<u32, AllocError>
        requires pair { block.pair ≡ self.old.pair }
        requires k { block.k ≡ self.old.k }
        ensures { self.new ≡ self.old }
    {
        let before = self.members();
        let lanes = self.split_by(block.words(), block.mask())?;
        self.keep(alloc, block, lanes)?;
        Ok(before.saturating_sub(self.members()).min(u32::MAX as usize) as u32)
    }

    // Holds the rows in some lanes of a block: the block, where they are many, and else each in a lane that is free.
    pub(crate) fn keep(
        &mut self,
        alloc: Global,
        block: LaneRows<'p>,
        lanes: u64,
    ) -> Result<(), AllocError>
        requires pair { block.pair ≡ self.old.pair }
        requires k { block.k ≡ self.old.k }
        ensures { self.new ≡ self.old }
    {
        if lanes.count_ones() > MANY {
            self.blocks.push(block)?;
            return Ok(());
        }
        let kept = self.keep_rows(alloc, &block, lanes);
        drop(block);
        kept
    }

    // Holds the rows in some lanes of a block, each in a lane that is free.
    fn keep_rows(
        &mut self,
        alloc: Global,
        block: &LaneRows<'p>,
        lanes: u64,
    ) -> Result<(), AllocError>
        requires pair { block.now.pair ≡ self.old.pair }
        requires k { block.now.k ≡ self.old.k }
        ensures { self.new ≡ self.old }
    {
        for lane in 0..64 {
            if lanes & lane_word(lane) != 0 && block.has(lane) {
                self.keep_row(alloc, block, lane)?;
            }
        }
        Ok(())
    }

    // The last block, where it has a lane that is free.
    fn take_free(&mut self) -> Option<LaneRows<'p>>
        ensures kept { self.new ≡ self.old }
        ensures block { IfSome result (λ b. (b.pair ≡ self.old.pair) × (b.k ≡ self.old.k)) }
    {
        let has_free = match self.blocks.last() {
            Some(block) => block.mask() != !0,
            None => false,
        };
        if has_free {
            return self.blocks.pop();
        }
        None
    }

    // The last block, where it has a lane that is free, or else a new one.
    fn free_block(&mut self, alloc: Global) -> Result<LaneRows<'p>, AllocError>
        ensures kept { self.new ≡ self.old }
        ensures pair { IfOk result (λ b. b.pair ≡ self.old.pair) }
        ensures k { IfOk result (λ b. b.k ≡ self.old.k) }
    {
        match self.take_free() {
            Some(block) => Ok(block),
            None => LaneRows::new(alloc, self.product, self.k),
        }
    }

    // Holds the row of a lane.
    fn keep_row(&mut self, alloc: Global, rows: &LaneRows<'p>, from: u32) -> Result<(), AllocError>
        requires pair { rows.now.pair ≡ self.old.pair }
        requires k { rows.now.k ≡ self.old.k }
        requires from { from < 64 }
        requires mask { IsTrue (lane_bit from rows.now.mask) }
        ensures { self.new ≡ self.old }
    {
        let mut block = self.free_block(alloc)?;
        add_row(&mut block, rows, from);
        self.blocks.push(block)?;
        Ok(())
    }

    /// Whether the rows seem to separate a pair. A hint.
    pub fn is_apart(&self, pair: Needed) -> bool {
        match &self.left {
            Some(left) => left.is_apart(pair.rep, pair.member),
            None => false,
        }
    }

    // The lanes of a block whose rows weren't answered for these classes.
    pub(crate) fn new_lanes(&self, block: usize) -> u64 {
        if block < self.given.len() {
            !self.given[block]
        } else {
            !0
        }
    }

    // Notes that the row of a block's lane was answered.
    fn give(&mut self, block: usize, lane: u32) -> Result<(), AllocError>
        ensures { self.new ≡ self.old }
    {
        if block >= self.given.len() {
            self.given.resize(block.saturating_add(1), 0)?;
        }
        if block < self.given.len() {
            self.given[block] = self.given[block] | lane_word(lane);
        }
        Ok(())
    }

    // A row that separates a needed pair, where one is held: of all, or of those alone that weren't answered for these classes.
    fn find(
        &self,
        alloc: Global,
        classes: &Classes,
        pair: Needed,
        of_all: bool,
    ) -> Result<Option<FoundRow>, AllocError>
        requires places { length classes.now.least ≡ places_of self.now.pair }
        requires place { pair.member < places_of self.now.pair }
        requires rep { pair.rep ≡ least_of classes.now pair.member }
        ensures { IfOk result (λ found. IfSome found (λ f. IsRowApart self.now.pair self.now.k classes.now pair.member f.row)) }
    {
        for block in 0..self.blocks.len() {
            let among = if of_all { !0 } else { self.new_lanes(block) };
            if let Some((lane, row)) = row_apart(
                alloc,
                &self.blocks[block],
                among,
                classes,
                pair,
            )? {
                return Ok(Some(FoundRow { block, lane, row }));
            }
        }
        Ok(None)
    }

    // One of those that weren't answered for these classes, where there is one, and else of all.
    fn find_best(
        &self,
        alloc: Global,
        classes: &Classes,
        pair: Needed,
    ) -> Result<Option<FoundRow>, AllocError>
        requires places { length classes.now.least ≡ places_of self.now.pair }
        requires place { pair.member < places_of self.now.pair }
        requires rep { pair.rep ≡ least_of classes.now pair.member }
        ensures { IfOk result (λ found. IfSome found (λ f. IsRowApart self.now.pair self.now.k classes.now pair.member f.row)) }
    {
        if let Some(found) = self.find(alloc, classes, pair, false)? {
            return Ok(Some(found));
        }
        self.find(alloc, classes, pair, true)
    }

    /// A row that separates a needed pair of the classes, where one is held: one that wasn't answered for these classes, where there is
    /// such a row, since the same row splits them once.
    pub fn apart(
        &mut self,
        alloc: Global,
        classes: &Classes,
        pair: Needed,
    ) -> Result<Option<BitRow>, AllocError>
        requires places { length classes.now.least ≡ places_of self.old.pair }
        requires place { pair.member < places_of self.old.pair }
        requires rep { pair.rep ≡ least_of classes.now pair.member }
        ensures kept { self.new ≡ self.old }
        ensures row { IfOk result (λ row. IfSome row (IsRowApart self.old.pair self.old.k classes.now pair.member)) }
    {
        if !self.is_apart(pair) {
            return Ok(None);
        }
        let Some(FoundRow { block, lane, row }) = self.find_best(alloc, classes, pair)? else {
            return Ok(None);
        };
        self.give(block, lane)?;
        Ok(Some(row))
    }
}
