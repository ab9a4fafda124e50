//! The first rows of a path.
ghost use Rattle.std.specs.Prelude.{◌≡◌, ◌≤◌, IfOk, take, length};

use bit_rows::{BitRow, Rows};
use std::alloc::{AllocError, Global};

// A row of the same bits.
pub(crate) fn copy_of(alloc: Global, row: &BitRow) -> Result<BitRow, AllocError>
    ensures { IfOk result (λ r. r ≡ row.now) }
{
    let mut copy = BitRow::with_len(alloc, row.len())?;
    copy.copy_from(row);
    Ok(copy)
}

// The first so many of a list of rows.
pub(crate) fn first_rows(alloc: Global, rows: &Rows, count: u64) -> Result<Rows, AllocError>
    requires { count ≤ length rows.now }
    ensures { IfOk result (λ r. r ≡ take count rows.now) }
{
    let mut first = Rows::new(alloc);
    for t in 0..count {
        first.push(copy_of(alloc, rows.row(t))?)?;
    }
    Ok(first)
}
