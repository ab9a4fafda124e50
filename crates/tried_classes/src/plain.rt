//! The classes of the greatest correspondence for k = 1, found plainly, to compare with: one class by phases is split by the first row of
//! every run and by the second row of every path in whose first row the classes hold, until nothing splits. Every path of
//! two rows is tried, so this is for pairs with few latches and inputs.
ghost use Rattle.std.specs.Prelude.{◌≡◌, ◌==◌, ◌<◌, ◌≤◌, ◌+◌, ◌-◌, ◌*◌, ◌/◌, ◌^◌, ◌↔◌, ℕ, List, Bool, IsTrue, IfNone, IfOk, IfSome, length, map};
ghost use Rattle.std.specs.Int.{bit_at};
ghost use Rattle.circ_model.specs.Meaning.{Pair, MayStartAt, bit, latches_of, places_of, resets, row_at};
ghost use Rattle.circ_model.specs.Runs.{first_bit, phases};
ghost use Rattle.circ_model.specs.Correspondence.{MaySplit};
ghost use Rattle.class_partition.specs.Classes.{ArePartition, AreOfGreatest, HoldIn, KeepsGreatest, class_count, relative};
ghost use Rattle.std.specs.Prelude.{[]};
ghost use Rattle.product_machine.specs.States.{MayStart, StartsLike};
ghost use Rattle.tried_classes.specs.Plain.{free_bits, numbered_path, StartsRun, LeavesWhole, AreSized};

use bit_rows::BitRow;
use circ_model::Reset;
use class_partition::Classes;
use product_machine::Product;
use std::alloc::{AllocError, Global};

// The rows of the path that is tried.
#[derive(Drop)]
struct Frames {
    start: BitRow,
    state: BitRow,
    inputs: BitRow,
    first: BitRow,
    second: BitRow,
}

fn frames_for(alloc: Global, product: &Product) -> Result<Frames, AllocError>
    ensures { IfOk result (λ f. AreSized product.now f.start f.state f.inputs f.first f.second) }
{
    Ok(Frames {
        start: BitRow::with_len(alloc, product.latches())?,
        state: BitRow::with_len(alloc, product.latches())?,
        inputs: BitRow::with_len(alloc, product.inputs())?,
        first: BitRow::with_len(alloc, product.len())?,
        second: BitRow::with_len(alloc, product.len())?,
    })
}

// Writes the bits of a number from one on.
fn write_bits(row: &mut BitRow, number: u32, from: u32)
    requires room { from + length row.old ≤ 32 }
    ensures size { length row.new ≡ length row.old }
    ensures bits { (k : ℕ) → k < length row.old → bit row.new k ≡ (bit_at number (from + k) == 1) }
{
    for i in 0..row.len() {
        row.set(i, (number >> (from + i)) & 1 == 1);
    }
}

// Writes the rows of the path that a number spells.
fn write_path(frames: &mut Frames, product: &Product, number: u32)
    requires few { free_bits product.now ≤ 16 }
    requires size { AreSized product.now frames.old.start frames.old.state frames.old.inputs frames.old.first frames.old.second }
    ensures size { AreSized product.now frames.new.start frames.new.state frames.new.inputs frames.new.first frames.new.second }
    ensures start { frames.new.start ≡ (numbered_path product.now number).start }
    ensures first { frames.new.first ≡ row_at product.now (numbered_path product.now number) 0 }
    ensures second { frames.new.second ≡ row_at product.now (numbered_path product.now number) 1 }
{
    let latches = product.latches();
    write_bits(&mut frames.start, number, 0);
    write_bits(&mut frames.inputs, number, latches);
    product.eval(&frames.start, &frames.inputs, &mut frames.first);
    frames.state.copy_from(&frames.start);
    product.next_state(&frames.first, &mut frames.state);
    write_bits(&mut frames.inputs, number, latches + product.inputs());
    product.eval(&frames.state, &frames.inputs, &mut frames.second);
}

// Whether a latch with this reset may start with this bit.
fn may_start(reset: Reset, bit: bool) -> bool
    ensures { IsTrue result ↔ MayStartAt reset bit }
{
    match reset {
        Reset::Zero => !bit,
        Reset::One => bit,
        Reset::Free => true,
    }
}

// Whether a latch starts as its partner, where it has one.
fn starts_tied(product: &Product, start: &BitRow, i: u32) -> bool
    requires start { length start.now ≡ latches_of product.now }
    requires latch { i < latches_of product.now }
    ensures { IsTrue result ↔ StartsLike product.now (record { start = start.now; inputs = [] }) i }
{
    match product.tie(i) {
        None => true,
        Some(partner) => start.get(i) == start.get(partner),
    }
}

// Whether a latch may start so.
fn latch_starts(product: &Product, start: &BitRow, i: u32) -> bool
    requires start { length start.now ≡ latches_of product.now }
    requires latch { i < latches_of product.now }
    ensures { IsTrue result ↔ MayStart product.now (record { start = start.now; inputs = [] }) i }
{
    may_start(product.reset(i), start.get(i)) && starts_tied(product, start, i)
}

// Whether a run may start so.
fn starts_run(product: &Product, start: &BitRow) -> bool
    requires { length start.now ≡ latches_of product.now }
    ensures { IsTrue result ↔ StartsRun product.now start.now }
{
    for i in 0..start.len() {
        if !latch_starts(product, start, i) {
            return false;
        }
    }
    true
}

// A place's bit, complemented by its phase.
fn relative(classes: &Classes, row: &BitRow, place: u32) -> bool
    requires place { place < length classes.now.least }
    requires row { length row.now ≡ length classes.now.least }
    ensures { result ≡ relative classes.now row.now place }
{
    classes.phase(place) != row.get(place)
}

// Whether the needed pairs hold in a row.
fn hold_in(classes: &Classes, row: &BitRow) -> bool
    requires { length row.now ≡ length classes.now.least }
    ensures { IsTrue result ↔ HoldIn (length classes.now.least) classes.now row.now }
{
    for place in 0..classes.len() {
        if relative(classes, row, classes.rep(place)) != relative(classes, row, place) {
            return false;
        }
    }
    true
}

// Splits by the first row, where the path is a run.
fn split_by_first(product: &Product, start: &BitRow, row: &BitRow, classes: &mut Classes) -> u32
    requires start { length start.now ≡ latches_of product.now }
    requires row { length row.now ≡ length classes.old.least }
    ensures size { length classes.new.least ≡ length classes.old.least }
    ensures count { class_count (length classes.old.least) classes.new ≡ class_count (length classes.old.least) classes.old + result }
    ensures none { result ≡ 0 → classes.new ≡ classes.old }
    ensures whole { result ≡ 0 → StartsRun product.now start.now → HoldIn (length classes.old.least) classes.old row.now }
    ensures keeps { length classes.old.least ≡ places_of product.now → (StartsRun product.now start.now → MaySplit product.now 1 row.now)
        → KeepsGreatest product.now 1 classes.old → KeepsGreatest product.now 1 classes.new }
{
    if starts_run(product, start) {
        classes.split_by(row)
    } else {
        0
    }
}

// Splits by the second row, where the classes hold in the first.
fn split_by_second(first: &BitRow, row: &BitRow, classes: &mut Classes) -> u32
    requires first { length first.now ≡ length classes.old.least }
    requires row { length row.now ≡ length classes.old.least }
    ensures size { length classes.new.least ≡ length classes.old.least }
    ensures count { class_count (length classes.old.least) classes.new ≡ class_count (length classes.old.least) classes.old + result }
    ensures none { result ≡ 0 → classes.new ≡ classes.old }
    ensures whole { result ≡ 0 → HoldIn (length classes.old.least) classes.old first.now → HoldIn (length classes.old.least) classes.old row.now }
    ensures keeps { (pair : Pair) → length classes.old.least ≡ places_of pair
        → (HoldIn (length classes.old.least) classes.old first.now → MaySplit pair 1 row.now) → KeepsGreatest pair 1 classes.old → KeepsGreatest pair 1 classes.new }
{
    if hold_in(classes, first) {
        classes.split_by(row)
    } else {
        0
    }
}

// Tries one path.
fn try_path(frames: &mut Frames, product: &Product, number: u32, classes: &mut Classes) -> u32
    requires few { free_bits product.now ≤ 16 }
    requires size { AreSized product.now frames.old.start frames.old.state frames.old.inputs frames.old.first frames.old.second }
    requires places { length classes.old.least ≡ places_of product.now }
    requires keeps { KeepsGreatest product.now 1 classes.old }
    ensures size { AreSized product.now frames.new.start frames.new.state frames.new.inputs frames.new.first frames.new.second }
    ensures places { length classes.new.least ≡ places_of product.now }
    ensures keeps { KeepsGreatest product.now 1 classes.new }
    ensures count { class_count (places_of product.now) classes.new ≡ class_count (places_of product.now) classes.old + result }
    ensures none { result ≡ 0 → classes.new ≡ classes.old }
    ensures whole { result ≡ 0 → LeavesWhole product.now classes.old number }
{
    let _places = product.len();
    write_path(frames, product, number);
    let first = split_by_first(product, &frames.start, &frames.first, classes);
    let second = split_by_second(&frames.first, &frames.second, classes);
    first + second
}

// Tries all paths once. Answers how many classes that adds.
fn sweep(frames: &mut Frames, product: &Product, bits: u32, classes: &mut Classes) -> u32
    requires bits { bits ≡ free_bits product.now }
    requires few { bits ≤ 16 }
    requires size { AreSized product.now frames.old.start frames.old.state frames.old.inputs frames.old.first frames.old.second }
    requires places { length classes.old.least ≡ places_of product.now }
    requires keeps { KeepsGreatest product.now 1 classes.old }
    ensures size { AreSized product.now frames.new.start frames.new.state frames.new.inputs frames.new.first frames.new.second }
    ensures places { length classes.new.least ≡ places_of product.now }
    ensures keeps { KeepsGreatest product.now 1 classes.new }
    ensures count { class_count (places_of product.now) classes.new ≡ class_count (places_of product.now) classes.old + result }
    ensures whole { result ≡ 0 → (number : ℕ) → number < 2 ^ bits → LeavesWhole product.now classes.new number }
{
    let _places = product.len();
    let mut added: u32 = 0;
    for number in 0..(1u32 << bits) {
        added += try_path(frames, product, number, classes);
    }
    added
}

// What a latch with this reset starts with in the run with all free latches 0.
fn first_bit(reset: Reset) -> bool
    ensures { result ≡ first_bit reset }
{
    match reset {
        Reset::Zero => false,
        Reset::One => true,
        Reset::Free => false,
    }
}

// The state of the run with all free latches 0.
fn write_first_state(product: &Product, state: &mut BitRow)
    requires { length state.old ≡ latches_of product.now }
    ensures { state.new ≡ map first_bit (resets product.now) }
{
    for i in 0..state.len() {
        state.set(i, first_bit(product.reset(i)));
    }
}

// One class of all places, by their phases.
fn first_classes(alloc: Global, product: &Product) -> Result<Classes, AllocError>
    ensures places { IfOk result (λ c. length c.least ≡ places_of product.now) }
    ensures keeps { IfOk result (λ c. KeepsGreatest product.now 1 c) }
{
    let mut state = BitRow::with_len(alloc, product.latches())?;
    let inputs = BitRow::with_len(alloc, product.inputs())?;
    let mut phases = BitRow::with_len(alloc, product.len())?;
    write_first_state(product, &mut state);
    product.eval(&state, &inputs, &mut phases);
    let classes = Classes::one_class(alloc, &phases)?;
    Ok(classes)
}

/// The classes of the greatest correspondence for k = 1. `bits` is the number of bits that decide a path of two rows. It errs for want
/// of memory alone.
pub fn plain_classes(alloc: Global, product: &Product, bits: u32) -> Result<Classes, AllocError>
    requires bits { bits ≡ free_bits product.now }
    requires few { bits ≤ 16 }
    ensures places { IfOk result (λ c. length c.least ≡ places_of product.now) }
    ensures greatest { IfOk result (λ c. AreOfGreatest product.now 1 c) }
{
    let mut frames = frames_for(alloc, product)?;
    let mut classes = first_classes(alloc, product)?;
    refine(&mut frames, product, bits, &mut classes);
    Ok(classes)
}

// Tries all paths until nothing splits.
fn refine(frames: &mut Frames, product: &Product, bits: u32, classes: &mut Classes)
    requires bits { bits ≡ free_bits product.now }
    requires few { bits ≤ 16 }
    requires size { AreSized product.now frames.old.start frames.old.state frames.old.inputs frames.old.first frames.old.second }
    requires places { length classes.old.least ≡ places_of product.now }
    requires keeps { KeepsGreatest product.now 1 classes.old }
    ensures places { length classes.new.least ≡ places_of product.now }
    ensures greatest { AreOfGreatest product.now 1 classes.new }
{
    loop {
        let added = sweep(frames, product, bits, classes);
        if added == 0 {
            let _places = classes.len();
            return;
        }
    }
}

/// How many bits decide a path of two rows, or none where they are more than 16.
pub fn few_free_bits(product: &Product) -> Option<u32>
    ensures some { IfSome result (λ bits. (bits ≡ free_bits product.now) × (bits ≤ 16)) }
    ensures none { IfNone result (16 < free_bits product.now) }
{
    let _places = product.len();
    let bits = product.latches() + 2 * product.inputs();
    if bits > 16 { None } else { Some(bits) }
}
