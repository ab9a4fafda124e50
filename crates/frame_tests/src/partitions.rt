//! Partitions of places, and how rows split them.
use crate::rows::row_of;
use circ_model::Lit;
use class_partition::{Classes, Needed};
use std::alloc::{AllocError, Global};
use std::test::Fail;

// The least place of each place's class, and the member of the needed pair from each place on; 9 for none.
fn table_of(classes: &Classes) -> [[u32; 6]; 2] {
    let mut least = [9; 6];
    let mut members = [9; 6];
    for place in 0..6 {
        if place < classes.len() {
            least[place as usize] = classes.rep(place);
            if let Some(pair) = classes.next_pair(place) {
                members[place as usize] = pair.member;
            }
        }
    }
    [least, members]
}

// One class of six places, of which 1, 2 and 5 have the phase 1.
fn six_places(alloc: Global) -> Result<Classes, AllocError> {
    Classes::one_class(alloc, &row_of(alloc, 6, 0b100110)?)
}

// Splits by a row. Answers how many classes that adds; 9 where the row doesn't fit.
fn split_by_bits(alloc: Global, classes: &mut Classes, bits: u32) -> Result<u32, AllocError> {
    let row = row_of(alloc, 6, bits)?;
    if row.len() != classes.len() {
        return Ok(9);
    }
    Ok(classes.split_by(&row))
}

// Splits by a row. Answers how many classes their copy still has, were added and are; 9 where the row doesn't fit.
fn counts_by_row(alloc: Global, classes: &mut Classes, bits: u32) -> Result<[u32; 3], AllocError> {
    let copy = classes.copy(alloc)?;
    let added = split_by_bits(alloc, classes, bits);
    let counts = (copy.count(), classes.count());
    drop(copy);
    Ok([counts.0, added?, counts.1])
}

// Whether literals of the classes that the rows leave are paired as they must: by the phases place 1 is the complement of place
// 0, and place 5 equals place 2.
fn are_paired(classes: &Classes) -> bool {
    if classes.len() != 6 {
        return false;
    }
    let (zero, plain, complement) = (Lit::of(0, false), Lit::of(1, false), Lit::of(1, true));
    classes.paired(zero, complement)
        && !classes.paired(zero, plain)
        && classes.paired(Lit::of(2, false), Lit::of(5, false))
        && classes.same(2, 5)
        && !classes.same(2, 3)
        && classes.phase(5)
        && !classes.phase(3)
}

// Whether rows split the classes of six places as they must.
fn split_as_told(alloc: Global, classes: &mut Classes) -> Result<bool, AllocError> {
    // a row's bits, the counts, and the least places and the members then
    const SPLITS: &[(u32, [u32; 3], [u32; 6], [u32; 6])] = &[
        (0b001010, [1, 1, 2], [0, 0, 2, 2, 0, 2], [1, 1, 3, 3, 4, 5]),
        (0b101101, [2, 2, 4], [0, 0, 2, 3, 4, 2], [1, 1, 5, 5, 5, 5]),
        (0b010010, [4, 0, 4], [0, 0, 2, 3, 4, 2], [1, 1, 5, 5, 5, 5]),
    ];
    for &(bits, counts, least, members) in SPLITS {
        if counts_by_row(alloc, classes, bits)? != counts || table_of(classes) != [least, members] {
            return Ok(false);
        }
    }
    let needed = Some(Needed { rep: 2, member: 5 });
    Ok(classes.next_pair(2) == needed && classes.next_pair(6) == None && are_paired(classes))
}

#[test]
fn rows_split_classes_by_bits_and_phases(rt: HostRuntime) -> Result<(), Fail> {
    match six_places(rt.alloc()) {
        Ok(mut classes) => assert!(rt; split_as_told(rt.alloc(), &mut classes) == Ok(true)),
        Err(_) => assert!(rt; false),
    }
    Ok(())
}

// Splits by each of the 64 rows of the words in turn.
fn split_by_rows(alloc: Global, classes: &mut Classes, words: &[u64; 6]) -> Result<(), AllocError> {
    let mut row = row_of(alloc, 6, 0)?;
    for b in 0..64u32 {
        for place in 0..6 {
            if place < row.len() {
                row.set(place, (words[place as usize] >> b) & 1 == 1);
            }
        }
        if row.len() == classes.len() {
            classes.split_by(&row);
        }
    }
    Ok(())
}

// Splits by the words at once. Answers how many classes that adds; 9 where there is not a word for each place.
fn split_by_words(
    alloc: Global,
    classes: &mut Classes,
    words: &[u64; 6],
) -> Result<u32, AllocError> {
    if classes.len() == 6 {
        classes.split_by_words(alloc, words)
    } else {
        Ok(9)
    }
}

// Whether the words split the classes as their rows split a copy in turn, and so.
fn split_beside(
    alloc: Global,
    classes: &mut Classes,
    copy: &mut Classes,
    words: &[u64; 6],
    added: u32,
    least: [u32; 6],
) -> Result<bool, AllocError> {
    let after = classes.count().saturating_add(added);
    split_by_rows(alloc, copy, words)?;
    let found = split_by_words(alloc, classes, words)?;
    Ok(
        table_of(copy) == table_of(classes)
            && copy.count() == classes.count()
            && found == added
            && classes.count() == after
            && table_of(classes)[0] == least,
    )
}

// The same after a row split the classes.
fn split_alike(
    alloc: Global,
    classes: &mut Classes,
    bits: u32,
    words: &[u64; 6],
    added: u32,
    least: [u32; 6],
) -> Result<bool, AllocError> {
    split_by_bits(alloc, classes, bits)?;
    let mut copy = classes.copy(alloc)?;
    split_beside(alloc, classes, &mut copy, words, added, least)
}

// The same of six places.
fn six_split_alike(
    alloc: Global,
    bits: u32,
    words: &[u64; 6],
    added: u32,
    least: [u32; 6],
) -> bool {
    match six_places(alloc) {
        Ok(mut classes) => split_alike(alloc, &mut classes, bits, words, added, least) == Ok(true),
        Err(_) => false,
    }
}

#[test]
fn words_split_as_their_rows_in_turn(rt: HostRuntime) -> Result<(), Fail> {
    const HIGH: u64 = 1 << 63;
    // a row's bits that split first, the words, how many classes they add, and the least places then
    const SPLITS: &[(u32, &[u64; 6], u32, [u32; 6])] = &[
        (0b100110, &[0, !0, !0, 0, 0, !0], 0, [0, 0, 0, 0, 0, 0]),
        (0b100110, &[0; 6], 1, [0, 1, 1, 0, 0, 1]),
        (0b100110, &[1, !1, !2, 2, 1, !1], 1, [0, 0, 2, 2, 0, 0]),
        // two classes whose places have the same words
        (0b001010, &[7, !9, !7, 9, 7, !9], 2, [0, 1, 2, 3, 0, 3]),
        (0b001010, &[7, !7, !7, 9, HIGH, !7], 2, [0, 0, 2, 3, 4, 2]),
        (0b001010, &[0, !1, !0, 3, 4, !5], 4, [0, 1, 2, 3, 4, 5]),
    ];
    for &(bits, words, added, least) in SPLITS {
        assert!(rt; six_split_alike(rt.alloc(), bits, words, added, least));
    }
    Ok(())
}
