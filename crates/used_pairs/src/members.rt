//! The needed pairs that some clauses of unrolled frames are about: marked by their members, then listed in the order of these.
ghost use Rattle.std.specs.Prelude.{◌≡◌, ◌<◌, ◌/◌, ◌++◌, IfOk, OnOk, length};
ghost use Rattle.std.specs.List.{All};
ghost use Rattle.frame_unroll.specs.Unrolled.{clauses_of};
ghost use Rattle.used_pairs.specs.Logs.{AddsMembers, AreMembers, pair_with, pairs_with};

use bit_rows::BitRow;
use circ_model::Lit;
use class_partition::{Classes, Needed};
use frame_unroll::Unrolled;
use std::alloc::{AllocError, Global};

// Marks the members of these pairs.
fn mark_members(pairs: &[(Lit, Lit)], bits: &mut BitRow)
    requires within { All (λ p. p.1 / 2 < length bits.old) pairs.now }
    ensures { AddsMembers pairs.now bits.old bits.new }
{
    for i in 0..pairs.len() {
        bits.set(pairs[i].1.var(), true);
    }
}

// A bit for each place: whether it is the member of a pair that a marked clause is about.
pub(crate) fn members_of(
    alloc: Global,
    places: u32,
    frames: &Unrolled,
    marks: &BitRow,
) -> Result<BitRow, AllocError>
    requires within { All (λ p. p.1 / 2 < places) frames.now.needed }
    requires size { length marks.now ≡ length (clauses_of frames.now) }
    ensures { IfOk result (AreMembers frames.now marks.now (length marks.now) places) }
{
    let mut bits = BitRow::with_len(alloc, places)?;
    for i in 0..marks.len() {
        if marks.get(i) {
            mark_members(frames.pairs_of(i as u64 + 1), &mut bits);
        }
    }
    Ok(bits)
}

// Appends the pair of a member, where that has a bit.
fn push_pair(
    pairs: &mut Vec<Needed>,
    classes: &Classes,
    bits: &BitRow,
    member: u32,
) -> Result<(), AllocError>
    requires place { member < length classes.now.least }
    requires size { length bits.now ≡ length classes.now.least }
    ensures { OnOk result (pairs.new.items ≡ pairs.old.items ++ pair_with classes.now bits.now member) }
{
    if bits.get(member) {
        let rep = classes.rep(member);
        pairs.push(Needed { rep, member })?;
    }
    Ok(())
}

// The pairs of the members that have a bit, in the order of the members.
pub(crate) fn pairs_with(
    alloc: Global,
    classes: &Classes,
    bits: &BitRow,
) -> Result<Vec<Needed>, AllocError>
    requires size { length bits.now ≡ length classes.now.least }
    ensures { IfOk result (λ pairs. pairs.items ≡ pairs_with classes.now bits.now (length classes.now.least)) }
{
    let mut pairs = Vec::new(alloc);
    for p in 0..classes.len() {
        push_pair(&mut pairs, classes, bits, p)?;
    }
    Ok(pairs)
}
