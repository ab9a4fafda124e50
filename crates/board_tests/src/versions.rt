//! The classes of worked pairs, and what proofs answer on the way to them.
ghost use Rattle.std.specs.Prelude.{◌≡◌, ◌<◌, ◌≤◌, IfOk};
ghost use Rattle.verdict_stamp.specs.Published.{IsStampOf};

use crate::circuits::{
    DELAY, LATCH_OF_PRODUCT, LATE_DELAY, LOW, PRODUCT_OF_LATCHES, RING, TOGGLE, TOGGLE_FROM_ONE,
    pair_is, pair_of,
};
use crate::proving::proof_of;
use bit_rows::BitRow;
use class_partition::Classes;
use product_machine::Product;
use std::alloc::{AllocError, Global};
use std::sync::Wait;
use std::test::Fail;
use std::thread;
use std::thread::Threads;
use verdict_stamp::{Proof, Stamp, Version, Versions, greatest_classes};

// The least place of each place's class; 9 for none.
fn table_of(classes: &Classes) -> [u32; 8] {
    let mut least = [9; 8];
    for place in 0..8 {
        if place < classes.len() {
            least[place as usize] = classes.rep(place);
        }
    }
    least
}

// What a version is to be: how many splits it may have come from, its classes' number, and the least place of each place's.
#[derive(Clone, Copy)]
struct Due {
    splits: u32,
    count: u32,
    least: [u32; 8],
}

// Whether a version of this k has these classes.
fn has_classes(version: &Version<'_>, k: u32, due: Due) -> bool {
    let classes = version.classes();
    version.k() == k && classes.count() == due.count && table_of(classes) == due.least
}

// Whether the greatest classes of a pair are these, and come from so many splits at most.
fn has_greatest(alloc: Global, product: &Product, k: u32, due: Due) -> bool
    requires { (0 < k) × (k ≤ 16) }
{
    match greatest_classes(alloc, product, k) {
        Ok(version) => has_classes(&version, k, due) && version.number() <= due.splits,
        Err(_) => false,
    }
}

fn are_greatest(alloc: Global, left: &str, right: &str, k: u32, due: Due) -> bool
    requires { (0 < k) × (k ≤ 16) }
{
    match pair_of(alloc, left, right) {
        Ok(product) => has_greatest(alloc, &product, k, due),
        Err(_) => false,
    }
}

// The least places of the product of latches and the latch of a product: the left product is the right latch.
const OF_PRODUCTS: [u32; 8] = [0, 1, 2, 3, 4, 5, 5, 7];

#[test]
fn pairs_have_these_classes(rt: HostRuntime) -> Result<(), Fail> {
    // a pair, over how many frames, the splits at most, the number of classes, and the least places
    const GREATEST: &[(&str, &str, u32, u32, u32, [u32; 8])] = &[
        (TOGGLE, TOGGLE, 1, 1, 2, [0, 1, 1, 9, 9, 9, 9, 9]),
        (TOGGLE, TOGGLE_FROM_ONE, 1, 1, 2, [0, 1, 1, 9, 9, 9, 9, 9]),
        (TOGGLE, LOW, 2, 1, 2, [0, 1, 9, 9, 9, 9, 9, 9]),
        // the ring needs three frames
        (LOW, RING, 1, 4, 5, [0, 1, 2, 3, 4, 9, 9, 9]),
        (LOW, RING, 2, 4, 5, [0, 1, 2, 3, 4, 9, 9, 9]),
        (LOW, RING, 3, 3, 4, [0, 1, 2, 3, 0, 9, 9, 9]),
        (PRODUCT_OF_LATCHES, LATCH_OF_PRODUCT, 1, 6, 7, OF_PRODUCTS),
    ];
    for &(left, right, k, splits, count, least) in GREATEST {
        let due = Due {
            splits,
            count,
            least,
        };
        assert!(rt; k > 0 && k <= 16 && are_greatest(rt.alloc(), left, right, k, due));
    }
    Ok(())
}

// Whether a pair opens on these classes, after so many splits.
fn opens_on(alloc: Global, product: &Product, due: Due) -> bool {
    match Version::opening(alloc, product, 1) {
        Ok(version) => has_classes(&version, 1, due) && version.number() == due.splits,
        Err(_) => false,
    }
}

// The same of two netlists.
fn pair_opens_on(alloc: Global, left: &str, right: &str, due: Due) -> bool {
    match pair_of(alloc, left, right) {
        Ok(product) => opens_on(alloc, &product, due),
        Err(_) => false,
    }
}

#[test]
fn openings_tell_apart_what_the_first_frames_do(rt: HostRuntime) -> Result<(), Fail> {
    // a pair, the splits, the number of classes, and the least places
    const OPENINGS: &[(&str, &str, u32, u32, [u32; 8])] = &[
        (TOGGLE, TOGGLE, 1, 2, [0, 1, 1, 9, 9, 9, 9, 9]),
        (LOW, RING, 2, 4, [0, 1, 2, 3, 0, 9, 9, 9]),
        // frame 0 tells the inputs and their product apart, and frame 1 the latches
        (PRODUCT_OF_LATCHES, LATCH_OF_PRODUCT, 2, 7, OF_PRODUCTS),
    ];
    for &(left, right, splits, count, least) in OPENINGS {
        let due = Due {
            splits,
            count,
            least,
        };
        assert!(rt; pair_opens_on(rt.alloc(), left, right, due));
    }
    Ok(())
}

// A row's bits as a number, lowest first.
fn number_of(row: &BitRow) -> u32 {
    let mut bits = 0;
    for i in 0..row.len() {
        if i < 32 && row.get(i) {
            bits |= 1 << i;
        }
    }
    bits
}

// Proves the first needed pair of a version at or past a place, and splits another where that fails. Answers the member where
// it holds, or else 9, and the vector's bits.
fn prove_from(
    alloc: Global,
    version: &Version<'_>,
    place: u32,
    next: &mut Version<'_>,
) -> Result<[u32; 2], AllocError>
    requires product { next.old.pair ≡ version.now.pair }
    requires k { next.old.k ≡ version.now.k }
    ensures product { next.new.pair ≡ next.old.pair }
    ensures k { next.new.k ≡ next.old.k }
{
    let Some(pair) = version.classes().next_pair(place) else {
        return Ok([9, 0]);
    };
    match proof_of(alloc, version, pair) {
        Ok(Proof::Holds(verdict)) => Ok([verdict.member(), 0]),
        Ok(Proof::Splits(vector)) => {
            next.split_by(&vector);
            Ok([9, number_of(vector.bits())])
        }
        Err(e) => Err(e),
    }
}

// Proves one in a copy of a version, and splits the version.
fn prove_copy(alloc: Global, version: &mut Version<'_>, place: u32) -> Result<[u32; 2], AllocError>
    ensures product { version.new.pair ≡ version.old.pair }
    ensures k { version.new.k ≡ version.old.k }
{
    let now = version.copy(alloc)?;
    prove_from(alloc, &now, place, version)
}

// Two toggling latches: the constant is taken apart by the frame after reset, and then the latches hold together.
fn toggles(alloc: Global, product: &Product) -> Result<[[u32; 2]; 2], AllocError> {
    let mut version = Version::first(alloc, product, 1)?;
    let first = prove_copy(alloc, &mut version, 0);
    let second = prove_copy(alloc, &mut version, 0);
    drop(version);
    Ok([first?, second?])
}

fn latches_hold_then(alloc: Global, product: &Product) -> bool {
    toggles(alloc, product) == Ok([[9, 0b110], [2, 0]])
}

#[test]
fn a_vector_takes_the_constant_away_and_then_the_latches_hold(rt: HostRuntime) -> Result<(), Fail> {
    assert!(rt; pair_is(rt.alloc(), TOGGLE, TOGGLE, latches_hold_then));
    Ok(())
}

// The member of the first needed pair of a version at or past a place where it holds, or else 9: a copy is split.
fn member_from(alloc: Global, version: &Version<'_>, place: u32) -> Result<u32, AllocError> {
    let mut copy = version.copy(alloc)?;
    match prove_from(alloc, version, place, &mut copy) {
        Ok(found) => Ok(found[0]),
        Err(e) => Err(e),
    }
}

// A delay and a late one: the input is told from the constant, and the left latch isn't; after that split it is.
fn delays_in(alloc: Global, version: &mut Version<'_>) -> Result<[u32; 4], AllocError> {
    let latch = member_from(alloc, version, 2)?;
    let input = prove_copy(alloc, version, 1)?;
    let again = prove_copy(alloc, version, 2)?;
    Ok([input[0], latch, again[0], version.number()])
}

fn delays(alloc: Global, product: &Product) -> Result<[u32; 4], AllocError> {
    let mut version = Version::first(alloc, product, 1)?;
    delays_in(alloc, &mut version)
}

fn latch_held_before(alloc: Global, product: &Product) -> bool {
    delays(alloc, product) == Ok([9, 2, 9, 2])
}

#[test]
fn a_pair_that_held_is_taken_apart_after_a_split(rt: HostRuntime) -> Result<(), Fail> {
    assert!(rt; pair_is(rt.alloc(), DELAY, LATE_DELAY, latch_held_before));
    Ok(())
}

// Pushes a copy with a turn and no open pairs.
fn push_copy<'p>(
    rt: &impl Wait,
    alloc: Global,
    versions: &Versions<'p>,
    version: &Version<'p>,
    turn: u32,
) -> Result<Stamp<'p>, AllocError>
    ensures { IfOk result (λ s. IsStampOf versions.now s s.value.version) }
{
    versions.push(rt, version.copy(alloc)?, Vec::new(alloc), turn)
}

// Pushes a copy and reads it. Answers its index, and whether its classes and number are those that were pushed.
fn push_and_read<'p>(
    rt: &impl Wait,
    alloc: Global,
    versions: &Versions<'p>,
    version: &Version<'p>,
) -> Result<(usize, bool), AllocError> {
    let stamp = push_copy(rt, alloc, versions, version, 0)?;
    let read = versions.at(&stamp);
    let same = table_of(read.classes()) == table_of(version.classes());
    Ok((stamp.index(), same && read.number() == version.number()))
}

// Whether two stamps of a list, of the opening and of the first version, are told apart, and name these with the turn of the second and
// no open pair of the first.
fn are_two_stamps<'p>(versions: &Versions<'p>, a: &Stamp<'p>, b: &Stamp<'p>) -> bool
    requires first { IsStampOf versions.now a.now a.now.value.version }
    requires second { IsStampOf versions.now b.now b.now.value.version }
{
    a.index() == 3
        && versions.same(a, &a.copy())
        && !versions.same(a, b)
        && versions.at(a).number() == 1
        && versions.at(b).number() == 0
        && versions.turn(b) == 2
        && versions.open_pair(a, 0).is_none()
}

// Pushes the first version once more, and asks so.
fn is_stamp_before<'p>(
    rt: &impl Wait,
    alloc: Global,
    versions: &Versions<'p>,
    first: &Version<'p>,
    a: &Stamp<'p>,
) -> bool
    requires { IsStampOf versions.now a.now a.now.value.version }
{
    match push_copy(rt, alloc, versions, first, 2) {
        Ok(b) => are_two_stamps(versions, a, &b),
        Err(_) => false,
    }
}

// Whether three copies of the first version and the opening's get the indices 0 to 3, and a copy of a stamp is the same stamp.
fn are_stamped_in<'p>(
    rt: &impl Wait,
    alloc: Global,
    versions: &Versions<'p>,
    first: &Version<'p>,
    opening: &Version<'p>,
) -> bool {
    for index in 0..3usize {
        if push_and_read(rt, alloc, versions, first) != Ok((index, true)) {
            return false;
        }
    }
    match push_copy(rt, alloc, versions, opening, 1) {
        Ok(a) => is_stamp_before(rt, alloc, versions, first, &a),
        Err(_) => false,
    }
}

// Whether 40 copies that are pushed are read again.
fn push_many<'p>(
    rt: &impl Wait,
    alloc: Global,
    versions: &Versions<'p>,
    version: &Version<'p>,
) -> bool {
    for _copy in 0..40u32 {
        if !matches!(push_and_read(rt, alloc, versions, version), Ok((_, true))) {
            return false;
        }
    }
    true
}

// Two threads push copies of two versions at once: whether both read them again.
fn push_at_once<'p, R: Threads + Wait + Sync>(
    rt: &R,
    alloc: Global,
    versions: &Versions<'p>,
    first: &Version<'p>,
    opening: &Version<'p>,
) -> bool {
    thread::join(
        rt,
        || push_many(rt, alloc, versions, first),
        || push_many(rt, alloc, versions, opening),
    ) == (true, true)
}

// What is asked of a list and two versions of a pair, the first and the opening's.
#[derive(Clone, Copy)]
enum Case {
    AreStamped,
    AtOnce,
}

fn holds_in<'p, R: Threads + Wait + Sync>(
    rt: &R,
    alloc: Global,
    first: &Version<'p>,
    opening: &Version<'p>,
    case: Case,
) -> bool {
    match Versions::new(alloc) {
        Ok(versions) => match case {
            Case::AreStamped => are_stamped_in(rt, alloc, &versions, first, opening),
            Case::AtOnce => push_at_once(rt, alloc, &versions, first, opening),
        },
        Err(_) => false,
    }
}

fn holds_from<'p, R: Threads + Wait + Sync>(
    rt: &R,
    alloc: Global,
    product: &'p Product,
    first: &Version<'p>,
    case: Case,
) -> bool {
    match Version::opening(alloc, product, 1) {
        Ok(opening) => holds_in(rt, alloc, first, &opening, case),
        Err(_) => false,
    }
}

fn holds<R: Threads + Wait + Sync>(rt: &R, alloc: Global, product: &Product, case: Case) -> bool {
    match Version::first(alloc, product, 1) {
        Ok(first) => holds_from(rt, alloc, product, &first, case),
        Err(_) => false,
    }
}

// The same of two toggling latches.
fn toggles_hold<R: Threads + Wait + Sync>(rt: &R, alloc: Global, case: Case) -> bool {
    match pair_of(alloc, TOGGLE, TOGGLE) {
        Ok(product) => holds(rt, alloc, &product, case),
        Err(_) => false,
    }
}

#[test]
fn a_stamp_names_the_version_that_was_pushed(rt: HostRuntime) -> Result<(), Fail> {
    assert!(rt; toggles_hold(&rt, rt.alloc(), Case::AreStamped));
    Ok(())
}

#[test]
fn threads_push_and_read_at_once(rt: HostRuntime) -> Result<(), Fail> {
    assert!(rt; toggles_hold(&rt, rt.alloc(), Case::AtOnce));
    Ok(())
}
