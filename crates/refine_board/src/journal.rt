//! The journal of a board: one entry for each call, in the order in which the calls were made. Of a split's bits those of the inputs
//! and latches alone are kept, in a place of their own, since they determine the others, few entries have bits, and there are many
//! entries.
ghost use Rattle.std.specs.Prelude.{◌≡◌, ◌<◌, ◌≤◌, ◌+◌, ◌^◌, ◌++◌, ◌∷◌, [], ℕ, List, length, slice_index_or, IfOk, OnOk, All};
ghost use Rattle.std.specs.Arc.{arc_value};
ghost use Rattle.leaf_rows.specs.Rows.{IsRowOf};
ghost use Rattle.product_machine.specs.Cells.{cells};
ghost use Rattle.product_machine.specs.declared.cell.Cell.{Cell};
ghost use Rattle.refine_board.specs.declared.journal.Step.TheVariants.{Already, Split};

use bit_rows::BitRow;
use class_partition::Needed;
use leaf_rows::LeafTable;
use product_machine::Product;
use std::alloc::{AllocError, Global};
use std::marker::Model;
use std::sync::Arc;
use verdict_stamp::Used;

/// A row of bits of a frame, in a place of its own. Contracts see the row.
#[derive(Drop)]
pub struct LaidRow {
    table: Arc<LeafTable>,
    leaves: Box<BitRow>,
}

impl Model for LaidRow {
    ghost use Rattle.std.specs.Prelude.{◌≡◌, length, List, Bool};
    ghost use Rattle.std.specs.Arc.{arc_value};
    ghost use Rattle.leaf_rows.specs.Rows.{leaf_count, row_by};

    ghost Value = { List Bool };

    ghost view = { λ r. row_by (arc_value r.table) r.leaves.value };

    ghost invariant = { λ r. length r.leaves.value ≡ leaf_count (arc_value r.table) };
}

impl LaidRow {
    /// The row. An `Err` is want of memory.
    pub fn row(&self, alloc: Global) -> Result<BitRow, AllocError>
        ensures { IfOk result (λ r. r ≡ self.now) }
    {
        self.table.unpack(alloc, self.leaves.as_ref())
    }
}

// A place for a row of a pair, seen as the cells of that.
#[derive(Drop)]
struct Place {
    table: Arc<LeafTable>,
    leaves: Box<BitRow>,
}

impl Model for Place {
    ghost use Rattle.std.specs.Prelude.{◌≡◌, length, List};
    ghost use Rattle.std.specs.Arc.{arc_value};
    ghost use Rattle.leaf_rows.specs.Rows.{leaf_count};
    ghost use Rattle.product_machine.specs.declared.cell.Cell.{Cell};

    ghost Value = { List Cell };

    ghost view = { λ p. arc_value p.table };

    ghost invariant = { λ p. length p.leaves.value ≡ leaf_count (arc_value p.table) };
}

impl Place {
    // A place for a row of a table.
    fn new(alloc: Global, table: &Arc<LeafTable>) -> Result<Place, AllocError>
        ensures { IfOk result (λ p. p ≡ arc_value table.now) }
    {
        let row = BitRow::with_len(alloc, table.leaves())?;
        let leaves = Box::new(alloc, row)?;
        let table = Arc::try_clone(table)?;
        Ok(Place { table, leaves })
    }

    // The same place with a row in it.
    fn with(self, row: &BitRow) -> LaidRow
        requires { IsRowOf self row.now }
        ensures { result ≡ row.now }
    {
        let Place { table, mut leaves } = self;
        table.pack(row, leaves.as_mut());
        LaidRow { table, leaves }
    }
}

/// What a call came to.
#[derive(Drop)]
pub enum Step {
    /// The party was given this pair, which was open.
    Offered(Needed),
    /// No pair was open, and some was out.
    Idle,
    /// Each pair was counted.
    Done,
    /// The pair was counted, by this.
    Counted(Needed, Used),
    /// The verdict was found under other classes.
    Stale(Needed),
    /// The classes were split by these bits, into so many more.
    Split(LaidRow, u32),
    /// The bits split no class.
    Already(LaidRow),
    /// The vector was of another pair of netlists or another k.
    Foreign,
    /// The party gave its work back.
    Back(Needed),
}

/// A call of a party; a party's calls are counted from 0.
#[derive(Drop)]
pub struct Entry {
    /// The party.
    pub worker: u32,
    /// The number of the call.
    pub call: u64,
    /// What it came to.
    pub step: Step,
}

/// The entries of a board. Contracts see them, how many more there is room for, and the cells of the pair whose rows they have: each has its
/// room, and there is a place for a row for each, should it have bits.
#[derive(Drop)]
pub struct Journal {
    alloc: Global,
    table: Arc<LeafTable>,
    entries: Vec<Entry>,
    places: Vec<Place>,
    room: usize,
}

impl Model for Journal {
    ghost use Rattle.std.specs.Prelude.{◌≡◌, ◌+◌, ◌≤◌, All, List, length, vec_len, vec_capacity};
    ghost use Rattle.std.specs.Arc.{arc_value};
    ghost use Rattle.product_machine.specs.declared.cell.Cell.{Cell};
    ghost use Rattle.refine_board.specs.Running.{Written};

    ghost Value = { Written };

    ghost view = { λ j. record { entries = j.entries.items; room = j.room; cells = arc_value j.table } };

    ghost invariant = { λ j. (vec_len j.entries + j.room ≤ vec_capacity j.entries) × (j.room ≤ length j.places.items)
        × All (λ (p : List Cell). p ≡ arc_value j.table) j.places.items };
}

// Makes places until there are so many.
fn make_places(
    alloc: Global,
    table: &Arc<LeafTable>,
    places: &mut Vec<Place>,
    wanted: usize,
) -> Result<(), AllocError>
    requires own { All (λ (p : List Cell). p ≡ arc_value table.now) places.old.items }
    ensures own { All (λ (p : List Cell). p ≡ arc_value table.now) places.new.items }
    ensures more { length places.old.items ≤ length places.new.items }
    ensures ok { OnOk result (wanted ≤ length places.new.items) }
{
    for _made in places.len()..wanted {
        let place = Place::new(alloc, table)?;
        places.push(place)?;
    }
    Ok(())
}

// Takes one of the places.
fn take_place(places: &mut Vec<Place>, table: &LeafTable) -> Place
    requires some { 0 < length places.old.items }
    requires own { All (λ (p : List Cell). p ≡ table.now) places.old.items }
    ensures place { result ≡ table.now }
    ensures own { All (λ (p : List Cell). p ≡ table.now) places.new.items }
    ensures count { length places.new.items + 1 ≡ length places.old.items }
{
    let Some(place) = places.pop() else {
        unreachable!();
    };
    place
}

impl Journal {
    pub(crate) fn new(alloc: Global, product: &Product) -> Result<Journal, AllocError>
        ensures entries { IfOk result (λ j. j.entries ≡ []) }
        ensures cells { IfOk result (λ j. j.cells ≡ cells product.now) }
    {
        let table = LeafTable::of(alloc, product)?;
        Ok(Journal {
            alloc,
            table: Arc::new(alloc, table)?,
            entries: Vec::new(alloc),
            places: Vec::new(alloc),
            room: 0,
        })
    }

    // Makes room for so many entries more.
    pub(crate) fn reserve(&mut self, more: usize) -> Result<(), AllocError>
        ensures entries { self.new.entries ≡ self.old.entries }
        ensures cells { self.new.cells ≡ self.old.cells }
        ensures room { self.old.room ≤ self.new.room }
        ensures ok { OnOk result (more ≤ self.new.room) }
    {
        if self.room >= more {
            return Ok(());
        }
        self.entries.reserve(more)?;
        make_places(self.alloc, &self.table, &mut self.places, more)?;
        self.room = more;
        Ok(())
    }

    // Appends an entry for which there is room.
    pub(crate) fn push(&mut self, entry: Entry)
        requires room { 0 < self.old.room }
        ensures entries { self.new.entries ≡ self.old.entries ++ entry ∷ [] }
        ensures cells { self.new.cells ≡ self.old.cells }
        ensures room { self.new.room + 1 ≡ self.old.room }
    {
        self.entries.push_reserved(entry);
        self.room -= 1;
    }

    // Appends the entry of a call that split the classes by these bits, into so many more.
    pub(crate) fn push_split(&mut self, worker: u32, call: u64, bits: &BitRow, added: u32)
        requires room { 0 < self.old.room }
        requires row { IsRowOf self.old.cells bits.now }
        ensures entries { self.new.entries ≡ self.old.entries ++ record { worker = worker; call = call; step = Split bits.now added } ∷ [] }
        ensures cells { self.new.cells ≡ self.old.cells }
        ensures room { self.new.room + 1 ≡ self.old.room }
    {
        let laid = take_place(&mut self.places, &self.table).with(bits);
        self.entries.push_reserved(Entry {
            worker,
            call,
            step: Step::Split(laid, added),
        });
        self.room -= 1;
    }

    // Appends the entry of a call whose bits split no class.
    pub(crate) fn push_already(&mut self, worker: u32, call: u64, bits: &BitRow)
        requires room { 0 < self.old.room }
        requires row { IsRowOf self.old.cells bits.now }
        ensures entries { self.new.entries ≡ self.old.entries ++ record { worker = worker; call = call; step = Already bits.now } ∷ [] }
        ensures cells { self.new.cells ≡ self.old.cells }
        ensures room { self.new.room + 1 ≡ self.old.room }
    {
        let laid = take_place(&mut self.places, &self.table).with(bits);
        self.entries.push_reserved(Entry {
            worker,
            call,
            step: Step::Already(laid),
        });
        self.room -= 1;
    }

    /// The number of entries.
    pub fn len(&self) -> u64
        ensures entries { result ≡ length self.now.entries }
        ensures room { result + self.now.room < 2 ^ 64 }
    {
        self.entries.len() as u64
    }

    /// Entry `i`, counted from 0.
    pub fn entry(&self, i: u64) -> &Entry
        requires { i < length self.now.entries }
        ensures { result.now ≡ slice_index_or self.entry.now.entries i result.now }
    {
        &self.entries[i as usize]
    }
}
