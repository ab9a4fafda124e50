//! Rows of bits.
use bit_rows::{BitRow, Rows};
use std::alloc::{AllocError, Global};
use std::test::Fail;

// A row of 128 bits of which one is set.
fn row_with(alloc: Global, at: u32) -> Result<BitRow, AllocError> {
    let mut row = BitRow::with_len(alloc, 128)?;
    if at < row.len() {
        row.set(at, true);
    }
    Ok(row)
}

// A copy of a row of 128 bits.
fn copy_of(alloc: Global, row: &BitRow) -> Result<BitRow, AllocError> {
    let mut copy = BitRow::with_len(alloc, 128)?;
    if copy.len() == row.len() {
        copy.copy_from(row);
    }
    Ok(copy)
}

// Whether this bit of a row of 128 is set, and no other.
fn has_alone(row: &BitRow, at: u32) -> bool {
    for i in 0..row.len() {
        if row.get(i) != (i == at) {
            return false;
        }
    }
    row.len() == 128
}

#[test]
fn rows_keep_what_was_written(rt: HostRuntime) -> Result<(), Fail> {
    const PLACES: &[u32] = &[0, 63, 64, 127];
    let mut rows = Rows::new(rt.alloc());
    for &at in PLACES {
        let row = row_with(rt.alloc(), at)?;
        rows.push(copy_of(rt.alloc(), &row)?)?;
        assert!(rt; has_alone(rows.row(rows.len() - 1), at));
    }
    assert!(rt; rows.len() == 4);
    Ok(())
}
