//! Lists of items one after another in one row, each cut at its end: no list has memory of its own.

ghost use Rattle.std.specs.Prelude.{◌≡◌, ◌≤◌, ◌<◌, ◌++◌, ◌∷◌, [], ℕ, List, IfOk, OnOk, OnErr, length, take, slice_index_or, slice_range};
ghost use Rattle.cnf_store.specs.Arena.{Rises, pieces, start_at};

use std::alloc::{AllocError, Global};
use std::marker::Model;

/// A list of lists of items. Contracts see it as that.
#[derive(Drop)]
pub struct Arena<T: Copy + Drop> {
    row: Vec<T>,
    ends: Vec<usize>,
}

impl<T: Copy + Drop> Model for Arena<T> {
    ghost use Rattle.std.specs.Prelude.{List, length};
    ghost use Rattle.cnf_store.specs.Arena.{pieces, Rises};

    ghost Value = { List (List T) };

    ghost view = { λ a. pieces a.row.items 0 a.ends.items };

    ghost invariant = { λ a. Rises 0 a.ends.items (length a.row.items) };
}

impl<T: Copy + Drop> Arena<T> {
    /// An arena without lists.
    pub fn new(alloc: Global) -> Arena<T>
        ensures { result ≡ [] }
    {
        Arena {
            row: Vec::new(alloc),
            ends: Vec::new(alloc),
        }
    }

    /// An equal arena.
    pub fn copy(&self, alloc: Global) -> Result<Arena<T>, AllocError>
        ensures { IfOk result (λ a. a ≡ self.now) }
    {
        let row = Vec::from_slice(alloc, self.row.as_slice())?;
        let ends = Vec::from_slice(alloc, self.ends.as_slice())?;
        Ok(Arena { row, ends })
    }

    /// How many lists it has.
    #[tactic(auto, using(crate::proofs::Cutting::length_pieces))]
    pub fn len(&self) -> usize
        ensures { result ≡ length self.now }
    {
        self.ends.len()
    }

    /// Appends a list. An `Err` changes nothing.
    pub fn add(&mut self, items: &[T]) -> Result<(), AllocError>
        ensures ok { OnOk result (self.new ≡ self.old ++ items.now ∷ []) }
        ensures err { OnErr result (self.new ≡ self.old) }
    {
        let Arena { row, ends } = self;
        ends.reserve(1)?;
        row.extend_from_slice(items)?;
        ends.push_reserved(row.len());
        Ok(())
    }

    /// Keeps the first n lists.
    pub fn cut(&mut self, n: usize)
        requires { n ≤ length self.old }
        ensures { self.new ≡ take n self.old }
    {
        let Arena { row, ends } = self;
        let to = start(ends.as_slice(), n);
        ends.truncate(n);
        row.truncate(to);
    }

    /// The list at this place, counted from 0.
    pub fn get(&self, i: usize) -> &[T]
        requires { i < length self.now }
        ensures { result.now ≡ slice_index_or self.now i [] }
    {
        piece(self.row.as_slice(), self.ends.as_slice(), i)
    }
}

// Where piece i begins.
fn start(ends: &[usize], i: usize) -> usize
    requires { i ≤ length ends.now }
    ensures { result ≡ start_at 0 ends.now i }
{
    if i == 0 { 0 } else { ends[i - 1] }
}

// Piece i of the row.
fn piece<'a, T: Copy>(row: &'a [T], ends: &[usize], i: usize) -> &'a [T]
    requires rises { Rises 0 ends.now (length row.now) }
    requires within { i < length ends.now }
    ensures { result.now ≡ slice_index_or (pieces row.entry.now 0 ends.entry.now) i [] }
{
    let from = start(ends, i);
    let to = ends[i];
    part(row, from, to)
}

// The items of a range.
fn part<T: Copy>(row: &[T], from: usize, to: usize) -> &[T]
    requires order { from ≤ to }
    requires within { to ≤ length row.now }
    ensures { result.now ≡ slice_range row.entry.now from to }
{
    &row[from..to]
}
