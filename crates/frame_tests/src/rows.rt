//! Rows from numbers, and numbers beside rows.
ghost use Rattle.std.specs.Prelude.{◌≤◌};

use bit_rows::BitRow;
use std::alloc::{AllocError, Global};

// A row from the bits of a number, lowest first.
pub(crate) fn row_of(alloc: Global, len: u32, bits: u32) -> Result<BitRow, AllocError>
    requires { len ≤ 32 }
{
    let mut row = BitRow::with_len(alloc, len)?;
    for i in 0..len {
        if i < row.len() {
            row.set(i, (bits >> i) & 1 == 1);
        }
    }
    Ok(row)
}

// Whether a row of at most 32 bits is that of a number, lowest first.
pub(crate) fn has_bits(row: &BitRow, bits: u32) -> bool {
    if row.len() > 32 {
        return false;
    }
    for i in 0..row.len() {
        if row.get(i) != ((bits >> i) & 1 == 1) {
            return false;
        }
    }
    true
}
