//! Rows read and written where they may be short: nothing is known of them but what is there.

use cnf_store::Value;
use implied_clauses::Implied;
use std::alloc::{AllocError, Global};

/// What no clause, literal or watch is.
pub(crate) const NONE: u32 = u32::MAX;

/// What stands at a place of a row, or `NONE`.
pub(crate) fn item(row: &[u32], i: usize) -> u32 {
    if i < row.len() { row[i] } else { NONE }
}

/// Has a place of a row, where there is one, hold something else.
pub(crate) fn put(row: &mut [u32], i: usize, to: u32) {
    if i < row.len() {
        row[i] = to;
    }
}

/// Makes a row so long.
pub(crate) fn lengthen(row: &mut Vec<u32>, len: usize, with: u32) -> Result<(), AllocError> {
    for _ in row.len()..len {
        row.push(with)?;
    }
    Ok(())
}

/// What a table of values has at a literal.
pub(crate) fn value_in(values: &[Value], lit: u32) -> Value {
    if (lit as usize) < values.len() {
        values[lit as usize]
    } else {
        Value::Free
    }
}

/// A clause by its number; an empty one where there is none.
pub(crate) fn clause_in(store: &Implied, number: u32) -> &[u32] {
    let at = number as usize;
    if at < store.len() {
        store.clause(at)
    } else {
        &[]
    }
}
