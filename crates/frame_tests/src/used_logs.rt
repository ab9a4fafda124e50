//! The pairs on which the logs of needed pairs rest: of a latch that stays at 0 and one that takes the input, in one class with the
//! constant and the input.
use crate::circuits::pair_is;
use crate::rows::row_of;
use class_partition::Classes;
use product_machine::Product;
use sat_log::{Log, read_log};
use std::alloc::{AllocError, Global};
use std::test::Fail;
use used_pairs::{PairList, log_pairs};

const STAYS_LOW: &str = "aag 2 1 1 0 0\n2\n4 0\n";

const TAKES_THE_INPUT: &str = "aag 2 1 1 0 0\n2\n4 2\n";

// A place, logs of the two questions of the first needed pair at or past it, and the pairs that they use, or none where one of the logs
// isn't accepted.
type Row = (u32, &'static str, &'static str, Option<&'static [[u32; 2]]>);

// Whether a list has these pairs.
fn are_pairs(found: &PairList, pairs: Option<&[[u32; 2]]>) -> bool {
    let Some(pairs) = pairs else {
        return false;
    };
    if found.len() != pairs.len() {
        return false;
    }
    for i in 0..found.len() {
        let pair = found.pair(i);
        if [pair.rep, pair.member] != pairs[i] {
            return false;
        }
    }
    true
}

// Whether two logs over one frame rest on these pairs, or one of them isn't accepted.
fn rest_on(
    alloc: Global,
    product: &Product,
    classes: &Classes,
    logs: (&Log, &Log),
    row: Row,
) -> bool {
    let Some(pair) = classes.next_pair(row.0) else {
        return false;
    };
    if classes.len() != product.len() {
        return false;
    }
    match log_pairs(alloc, product, 1, classes, pair, logs.0, logs.1) {
        Ok(Some(found)) => are_pairs(&found, row.3),
        Ok(None) => row.3.is_none(),
        Err(_) => false,
    }
}

// The same of the logs of a row, of which the second is read while the first is lent.
fn rest_after(alloc: Global, product: &Product, classes: &Classes, base: &Log, row: Row) -> bool {
    match read_log(alloc, row.2.as_bytes()) {
        Ok(step) => rest_on(alloc, product, classes, (base, &step), row),
        Err(_) => false,
    }
}

fn is_row(alloc: Global, product: &Product, classes: &Classes, row: Row) -> bool {
    match read_log(alloc, row.1.as_bytes()) {
        Ok(base) => rest_after(alloc, product, classes, &base, row),
        Err(_) => false,
    }
}

// All four places in one class.
fn one_class(alloc: Global) -> Result<Classes, AllocError> {
    let phases = row_of(alloc, 4, 0)?;
    Classes::one_class(alloc, &phases)
}

// Whether all rows are so.
fn are_rows(alloc: Global, product: &Product, classes: &Classes) -> bool {
    const NONE: &[[u32; 2]] = &[];
    const INPUT: &[[u32; 2]] = &[[0, 1]];
    const ROWS: &[Row] = &[
        (2, "0 6 1 2 4 0\n", "0 15 2 13 3 1 0\n", Some(NONE)),
        (3, "0 6 1 3 4 0\n", "0 15 2 13 5 7 1 0\n", Some(INPUT)),
        (3, "0 6 1 2 4 0\n", "0 15 2 13 5 7 1 0\n", None),
        (3, "0 6 1 3 4 0\n", "0 15 2 13 3 1 0\n", None),
    ];
    for &row in ROWS {
        if !is_row(alloc, product, classes, row) {
            return false;
        }
    }
    true
}

fn reach_pairs(alloc: Global, product: &Product) -> bool {
    match one_class(alloc) {
        Ok(classes) => are_rows(alloc, product, &classes),
        Err(_) => false,
    }
}

#[test]
fn logs_rest_on_the_pairs_whose_clauses_they_reach(rt: HostRuntime) -> Result<(), Fail> {
    assert!(rt; pair_is(rt.alloc(), STAYS_LOW, TAKES_THE_INPUT, reach_pairs));
    Ok(())
}
