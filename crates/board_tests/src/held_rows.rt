//! Rows that simulation found: each is answered before one is answered again, those that wait without being asked for, and those that
//! a model leads to.
ghost use Rattle.std.specs.Prelude.{◌≡◌, ◌<◌, ◌≤◌, length};
ghost use Rattle.circ_model.specs.Meaning.{places_of};
ghost use Rattle.class_partition.specs.Classes.{least_of};

use crate::circuits::{LATCH_OF_PRODUCT, NEVER, PRODUCT_OF_LATCHES, RARE, pair_is};
use bit_rows::BitRow;
use class_partition::{Classes, Needed};
use frame_graph::Leaf;
use pair_sweep::FreeBit;
use product_machine::Product;
use split_rows::SplitRows;
use std::alloc::{AllocError, Global};
use std::test::Fail;
use verdict_stamp::{Asker, Prover, Version};

// The bits of a row of fewer than 64 as a number.
fn number_of(row: &BitRow) -> u64 {
    let mut number = 0u64;
    for i in 0..row.len() {
        number = (number << 1) | row.get(i) as u64;
    }
    number
}

// The next row that separates a pair, as a number; 0 where none is held.
fn next_number(
    alloc: Global,
    rows: &mut SplitRows<'_>,
    classes: &Classes,
    pair: Needed,
) -> Result<u64, AllocError>
    requires places { length classes.now.least ≡ places_of rows.old.pair }
    requires place { pair.member < places_of rows.old.pair }
    requires rep { pair.rep ≡ least_of classes.now pair.member }
    ensures { rows.new ≡ rows.old }
{
    match rows.apart(alloc, classes, pair)? {
        Some(row) => Ok(number_of(&row)),
        None => Ok(0),
    }
}

// The first two of them.
fn two_numbers(
    alloc: Global,
    rows: &mut SplitRows<'_>,
    classes: &Classes,
    pair: Needed,
) -> Result<[u64; 2], AllocError>
    requires places { length classes.now.least ≡ places_of rows.old.pair }
    requires place { pair.member < places_of rows.old.pair }
    requires rep { pair.rep ≡ least_of classes.now pair.member }
{
    let first = next_number(alloc, rows, classes, pair)?;
    let second = next_number(alloc, rows, classes, pair)?;
    Ok([first, second])
}

// Those of the first needed pair, of rows that simulation from reset leaves.
fn numbers_in(
    alloc: Global,
    rows: &mut SplitRows<'_>,
    classes: &Classes,
) -> Result<[u64; 2], AllocError>
    requires places { length classes.now.least ≡ places_of rows.old.pair }
{
    rows.turn_to(alloc, classes)?;
    rows.run_ahead(alloc)?;
    match classes.next_pair(0) {
        Some(pair) => two_numbers(alloc, rows, classes, pair),
        None => Ok([0; 2]),
    }
}

// The next row that waits, as a number; 0 where none does.
fn waiting_number(
    alloc: Global,
    rows: &mut SplitRows<'_>,
    classes: &Classes,
) -> Result<u64, AllocError>
    requires places { length classes.now.least ≡ places_of rows.old.pair }
    ensures { rows.new ≡ rows.old }
{
    match rows.next_waiting(alloc, classes)? {
        Some(row) => Ok(number_of(&row)),
        None => Ok(0),
    }
}

// The first two of them, of rows that simulation from reset leaves.
fn waiting_in(
    alloc: Global,
    rows: &mut SplitRows<'_>,
    classes: &Classes,
) -> Result<[u64; 2], AllocError>
    requires places { length classes.now.least ≡ places_of rows.old.pair }
{
    rows.turn_to(alloc, classes)?;
    rows.run_ahead(alloc)?;
    let first = waiting_number(alloc, rows, classes)?;
    let second = waiting_number(alloc, rows, classes)?;
    Ok([first, second])
}

// Whether a row waits before a run with these bits, after it, and once it is said that more wait.
fn waits_after(
    alloc: Global,
    rows: &mut SplitRows<'_>,
    classes: &Classes,
    bits: &[FreeBit],
) -> Result<(bool, bool, bool), AllocError>
    requires places { length classes.now.least ≡ places_of rows.old.pair }
    requires few { rows.old.k ≤ 16 }
{
    rows.turn_to(alloc, classes)?;
    let before = rows.has_waiting(classes);
    rows.run_from(alloc, bits)?;
    let after = rows.has_waiting(classes);
    rows.wait_again();
    Ok((before, after, rows.has_waiting(classes)))
}

// What the rows of a version are to do.
#[derive(Clone, Copy)]
enum Due<'a> {
    // Two that tell the first needed pair apart are held, and aren't one.
    OfPair,
    // Two wait, and aren't one.
    Waiting,
    // None waits before bits are run from reset nor after it, and one does once it is said that more wait.
    AfterBits(&'a [FreeBit]),
    // Where no bits are run, none does then.
    WithoutBits,
}

// Whether two numbers are those of two rows.
fn are_two(numbers: Result<[u64; 2], AllocError>) -> bool {
    match numbers {
        Ok(numbers) => numbers[0] != 0 && numbers[1] != 0 && numbers[0] != numbers[1],
        Err(_) => false,
    }
}

// Whether rows do so.
fn are_due(alloc: Global, rows: &mut SplitRows<'_>, classes: &Classes, due: Due<'_>) -> bool
    requires places { length classes.now.least ≡ places_of rows.old.pair }
    requires few { rows.old.k ≤ 16 }
{
    match due {
        Due::OfPair => are_two(numbers_in(alloc, rows, classes)),
        Due::Waiting => are_two(waiting_in(alloc, rows, classes)),
        Due::AfterBits(bits) => {
            waits_after(alloc, rows, classes, bits) == Ok((false, false, true))
        }
        Due::WithoutBits => match waits_after(alloc, rows, classes, &[]) {
            Ok((_, _, again)) => !again,
            Err(_) => false,
        },
    }
}

// Whether the rows of a version's pair do, from its first version and from its opening.
fn is_due(alloc: Global, version: &Version<'_>, due: Due<'_>) -> bool {
    let mut rows = SplitRows::new(alloc, version.product(), 1);
    version.classes().len() == version.product().len()
        && are_due(alloc, &mut rows, version.classes(), due)
}

fn is_due_first(alloc: Global, product: &Product, due: Due<'_>) -> bool {
    match Version::first(alloc, product, 1) {
        Ok(version) => is_due(alloc, &version, due),
        Err(_) => false,
    }
}

fn is_due_opened(alloc: Global, product: &Product, due: Due<'_>) -> bool {
    match Version::opening(alloc, product, 1) {
        Ok(version) => is_due(alloc, &version, due),
        Err(_) => false,
    }
}

fn pair_is_answered(alloc: Global, product: &Product) -> bool {
    is_due_first(alloc, product, Due::OfPair)
}

#[test]
fn rows_are_answered_one_by_one(rt: HostRuntime) -> Result<(), Fail> {
    assert!(rt;
        pair_is(
            rt.alloc(),
            PRODUCT_OF_LATCHES,
            LATCH_OF_PRODUCT,
            pair_is_answered
        )
    );
    Ok(())
}

fn waiting_are_answered(alloc: Global, product: &Product) -> bool {
    is_due_first(alloc, product, Due::Waiting)
}

#[test]
fn rows_that_wait_are_answered_once_each(rt: HostRuntime) -> Result<(), Fail> {
    assert!(rt;
        pair_is(
            rt.alloc(),
            PRODUCT_OF_LATCHES,
            LATCH_OF_PRODUCT,
            waiting_are_answered
        )
    );
    Ok(())
}

// So many inputs of frame 0, all of them 1.
fn ones(alloc: Global, inputs: u32) -> Result<Vec<FreeBit>, AllocError> {
    let mut bits = Vec::new(alloc);
    for i in 0..inputs {
        bits.push(FreeBit {
            leaf: Leaf::Input(0, i),
            value: true,
        })?;
    }
    Ok(bits)
}

// Whether a row waits after the bits of all twenty inputs are run, and none without bits.
fn model_is_run(alloc: Global, product: &Product) -> bool {
    match ones(alloc, 20) {
        Ok(bits) => {
            is_due_opened(alloc, product, Due::AfterBits(bits.as_slice()))
                && is_due_opened(alloc, product, Due::WithoutBits)
        }
        Err(_) => false,
    }
}

#[test]
fn a_model_from_reset_is_run(rt: HostRuntime) -> Result<(), Fail> {
    assert!(rt; pair_is(rt.alloc(), RARE, NEVER, model_is_run));
    Ok(())
}

// Whether a prover finds a vector that waits.
fn waits_in(alloc: Global, prover: &mut Prover<'_, '_>, asker: &mut Asker) -> bool {
    match prover.next_waiting(alloc, asker, None) {
        Ok(found) => found.is_some(),
        Err(_) => false,
    }
}

fn waits_with(alloc: Global, version: &Version<'_>, asker: &mut Asker) -> Result<bool, AllocError> {
    let mut prover = Prover::new(alloc, version)?;
    let waits = waits_in(alloc, &mut prover, asker);
    drop(prover);
    Ok(waits)
}

fn waits_of(alloc: Global, version: &Version<'_>) -> Result<bool, AllocError> {
    let mut asker = Asker::new(alloc)?;
    let waits = waits_with(alloc, version, &mut asker);
    drop(asker);
    waits
}

fn waits(alloc: Global, product: &Product) -> bool {
    match Version::opening(alloc, product, 1) {
        Ok(version) => waits_of(alloc, &version) == Ok(true),
        Err(_) => false,
    }
}

#[test]
fn runs_that_tell_a_pair_apart_are_asked_for(rt: HostRuntime) -> Result<(), Fail> {
    assert!(rt; pair_is(rt.alloc(), RARE, NEVER, waits));
    Ok(())
}
