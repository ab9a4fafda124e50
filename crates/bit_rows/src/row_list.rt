//! A list of rows, as the input rows of a path.
ghost use Rattle.std.specs.Prelude.{◌≡◌, ◌<◌, ◌++◌, ◌∷◌, [], length, slice_index_or, OnOk, OnErr};

use crate::row::BitRow;
use std::alloc::{AllocError, Global};
use std::marker::Model;

/// A list of rows. Contracts see it as the list of their lists of bits.
#[derive(Drop)]
pub struct Rows {
    rows: Vec<BitRow>,
}

impl Model for Rows {
    ghost use Rattle.std.specs.Prelude.{List, Bool};

    ghost Value = { List (List Bool) };

    ghost view = { λ r. r.rows.items };
}

impl Rows {
    /// The list with no rows, which takes no memory.
    pub fn new(alloc: Global) -> Rows
        ensures { result ≡ [] }
    {
        Rows {
            rows: Vec::new(alloc),
        }
    }

    /// Appends a row. Where memory is wanting the list is as before, and the row is dropped.
    pub fn push(&mut self, row: BitRow) -> Result<(), AllocError>
        ensures ok { OnOk result (self.new ≡ self.old ++ row ∷ []) }
        ensures err { OnErr result (self.new ≡ self.old) }
    {
        self.rows.push(row)?;
        Ok(())
    }

    /// The number of rows.
    pub fn len(&self) -> u64
        ensures { result ≡ length self.now }
    {
        self.rows.len() as u64
    }

    /// Row `i`, counted from 0.
    pub fn row(&self, i: u64) -> &BitRow
        requires { i < length self.now }
        ensures { result.now ≡ slice_index_or self.entry.now i [] }
    {
        &self.rows[i as usize]
    }
}
