//! Marks by place, last offers by party, and the changes of them.
ghost use Rattle.std.specs.Prelude.{◌≡◌, ◌≢◌, ◌<◌, ◌≤◌, ◌+◌, ◌^◌, ◌++◌, ◌∷◌, ◌↔◌, [], ℕ, IsTrue, length, set, slice_index, slice_index_or, replicate, take, Some, None, IfOk, true, false};
ghost use Rattle.std.specs.List.{All};
ghost use Rattle.class_partition.specs.Classes.{IsNeeded};
ghost use Rattle.leaf_rows.specs.Rows.{IsRowOf};
ghost use Rattle.refine_board.specs.declared.marks.Mark.TheVariants.{Open};
ghost use Rattle.refine_board.specs.declared.marks.LastOffer.{LastOffer};
ghost use Rattle.refine_board.specs.declared.journal.Step.TheVariants.{Already, Split};
ghost use Rattle.refine_board.specs.States.{is_counted, is_open, is_open_at, lasting, most_open, open_list};
ghost use Rattle.refine_board.specs.Running.{IsMarkedAt, reopened_marks, uncounted};

use crate::journal::{Entry, Journal, Step};
use crate::touched::Marks;
use bit_rows::BitRow;
use class_partition::{Classes, Needed};
use std::alloc::{AllocError, Global};
use verdict_stamp::Used;

/// How far a needed pair is.
#[derive(Drop)]
pub enum Mark {
    /// Nobody has it.
    Open,
    /// It was given to a party.
    Out,
    /// It is counted, with this least place of its class: it passes under the board's classes, by this.
    Proved(u32, Used),
}

impl Mark {
    /// Whether the pair is counted.
    pub(crate) fn is_counted(&self) -> bool
        ensures { result ≡ is_counted self.now }
    {
        match self {
            Mark::Proved(_, _) => true,
            _ => false,
        }
    }

    /// Whether the pair is open.
    pub(crate) fn is_open(&self) -> bool
        ensures { result ≡ is_open self.now }
    {
        match self {
            Mark::Open => true,
            _ => false,
        }
    }

    /// Whether it is that of a pair that is out, or of one that is open.
    pub(crate) fn is_uncounted(&self, out: bool) -> bool
        ensures { IsTrue result ↔ (self.now ≡ uncounted out) }
    {
        match self {
            Mark::Open => !out,
            Mark::Out => out,
            Mark::Proved(_, _) => false,
        }
    }

    /// Whether the place stays counted after a split to these classes.
    pub(crate) fn lasts(&self, classes: &Classes, place: u32) -> bool
        requires place { place < length classes.now.least }
        ensures stays { result ≡ true → lasting classes.now place self.now ≡ self.now }
        ensures goes { result ≡ false → lasting classes.now place self.now ≡ Open }
    {
        match self {
            Mark::Proved(_, Used::Known(_)) => true,
            Mark::Proved(rep, Used::Pairs(pairs)) => {
                if classes.rep(place) != *rep {
                    return false;
                }
                pairs.are_together(classes)
            }
            _ => false,
        }
    }
}

/// A party's last offer, and the board's number at that moment.
#[derive(Clone, Copy)]
pub struct LastOffer {
    /// The pair.
    pub pair: Needed,
    /// The number.
    pub number: u32,
}

// The first needed place from `from` on whose pair is out, or open, or the number of places.
pub(crate) fn first_marked(classes: &Classes, marks: &[Mark], out: bool, from: u32) -> u32
    requires lengths { length marks.now ≡ length classes.now.least }
    requires from { from ≤ length classes.now.least }
    ensures bounds { (from ≤ result) × (result ≤ length classes.now.least) }
    ensures before { (m : ℕ) → from ≤ m → m < result → IsMarkedAt classes.now.least marks.now (uncounted out) m → ⊥ }
    ensures found { result < length classes.now.least → IsMarkedAt classes.now.least marks.now (uncounted out) result }
{
    let n = classes.len();
    let mut p = from;
    while p < n {
        if classes.rep(p) != p && marks[p as usize].is_uncounted(out) {
            break;
        }
        p += 1;
    }
    p
}

// So many pairs a version is published with at most: as many as the word counts.
pub(crate) const MOST_OPEN: usize = (1 << 21) - 1;

// Whether a place has an open pair.
fn is_open_at(classes: &Classes, marks: &[Mark], p: u32) -> bool
    requires lengths { length marks.now ≡ length classes.now.least }
    requires place { p < length classes.now.least }
    ensures { result ≡ is_open_at classes.now marks.now p }
{
    if classes.rep(p) == p {
        return false;
    }
    marks[p as usize].is_open()
}

// The members of the needed pairs that are open, in their order; where they are more than the word counts, the first of them.
pub(crate) fn open_members(
    alloc: Global,
    classes: &Classes,
    marks: &[Mark],
) -> Result<Vec<u32>, AllocError>
    requires lengths { length marks.now ≡ length classes.now.least }
    ensures open_ones { IfOk result (λ v. v.items ≡ take most_open (open_list classes.now marks.now)) }
    ensures few { IfOk result (λ v. length v.items ≤ most_open) }
    ensures members { IfOk result (λ v. All (IsNeeded (length classes.now.least) classes.now) v.items) }
{
    let mut members = Vec::new(alloc);
    for p in 0..classes.len() {
        if is_open_at(classes, marks, p) && members.len() < MOST_OPEN {
            members.push(p)?;
        }
    }
    Ok(members)
}

// Counts the party's call, and answers how many there were before.
fn next_call(calls: &mut Vec<u64>, journal: &Journal, party: u32) -> u64
    requires party { party < length calls.old.items }
    requires few { slice_index calls.old.items party ≤ length journal.now.entries }
    requires room { 0 < journal.now.room }
    ensures call { result ≡ slice_index calls.old.items party }
    ensures calls { calls.new.items ≡ set calls.old.items party (slice_index calls.old.items party + 1) }
{
    let _written = journal.len();
    let call = calls[party as usize];
    calls[party as usize] = call + 1;
    call
}

// Counts the party's call and writes its entry.
pub(crate) fn note(calls: &mut Vec<u64>, journal: &mut Journal, party: u32, step: Step)
    requires party { party < length calls.old.items }
    requires few { slice_index calls.old.items party ≤ length journal.old.entries }
    requires room { 0 < journal.old.room }
    ensures calls { calls.new.items ≡ set calls.old.items party (slice_index calls.old.items party + 1) }
    ensures entries { journal.new.entries ≡ journal.old.entries ++ record { worker = party; call = slice_index calls.old.items party; step = step } ∷ [] }
    ensures cells { journal.new.cells ≡ journal.old.cells }
    ensures room { journal.new.room + 1 ≡ journal.old.room }
{
    let call = next_call(calls, journal, party);
    journal.push(Entry {
        worker: party,
        call,
        step,
    });
}

// The same for a call that split the classes by these bits, into so many more.
pub(crate) fn note_split(
    calls: &mut Vec<u64>,
    journal: &mut Journal,
    party: u32,
    bits: &BitRow,
    added: u32,
)
    requires party { party < length calls.old.items }
    requires few { slice_index calls.old.items party ≤ length journal.old.entries }
    requires room { 0 < journal.old.room }
    requires row { IsRowOf journal.old.cells bits.now }
    ensures calls { calls.new.items ≡ set calls.old.items party (slice_index calls.old.items party + 1) }
    ensures entries { journal.new.entries ≡ journal.old.entries ++ record { worker = party; call = slice_index calls.old.items party; step = Split bits.now added } ∷ [] }
    ensures cells { journal.new.cells ≡ journal.old.cells }
    ensures room { journal.new.room + 1 ≡ journal.old.room }
{
    let call = next_call(calls, journal, party);
    journal.push_split(party, call, bits, added);
}

// The same for a call whose bits split no class.
pub(crate) fn note_already(calls: &mut Vec<u64>, journal: &mut Journal, party: u32, bits: &BitRow)
    requires party { party < length calls.old.items }
    requires few { slice_index calls.old.items party ≤ length journal.old.entries }
    requires room { 0 < journal.old.room }
    requires row { IsRowOf journal.old.cells bits.now }
    ensures calls { calls.new.items ≡ set calls.old.items party (slice_index calls.old.items party + 1) }
    ensures entries { journal.new.entries ≡ journal.old.entries ++ record { worker = party; call = slice_index calls.old.items party; step = Already bits.now } ∷ [] }
    ensures cells { journal.new.cells ≡ journal.old.cells }
    ensures room { journal.new.room + 1 ≡ journal.old.room }
{
    let call = next_call(calls, journal, party);
    journal.push_already(party, call, bits);
}

// Takes the party's offer from it: its pair is open again where the offer has this number. Answers the place from
// which to look for open pairs.
pub(crate) fn release(
    number: u32,
    marks: &mut Marks,
    offers: &mut Vec<Option<LastOffer>>,
    cursor: u32,
    party: u32,
) -> u32
    requires party { party < length offers.old.items }
    requires within { (o : LastOffer) → slice_index_or offers.old.items party None ≡ Some o → o.pair.member < length marks.old }
    ensures marks { marks.new ≡ reopened_marks (slice_index_or offers.old.items party None) number marks.old }
    ensures offers { offers.new.items ≡ set offers.old.items party None }
    ensures cursor { result ≤ cursor }
    ensures passed { (m : ℕ) → m < result → slice_index_or marks.new m Open ≡ Open → slice_index_or marks.old m Open ≡ Open }
{
    let last = offers[party as usize];
    offers[party as usize] = None;
    let Some(offer) = last else {
        return cursor;
    };
    if offer.number != number {
        return cursor;
    }
    let member = offer.pair.member;
    marks.reopen(member);
    if member < cursor { member } else { cursor }
}

pub(crate) fn open_marks(alloc: Global, places: u32) -> Result<Vec<Mark>, AllocError>
    ensures { IfOk result (λ v. v.items ≡ replicate places Open) }
{
    let mut marks = Vec::new(alloc);
    for _place in 0..places {
        marks.push(Mark::Open)?;
    }
    Ok(marks)
}

pub(crate) fn no_calls(alloc: Global, parties: usize) -> Result<Vec<u64>, AllocError>
    ensures { IfOk result (λ v. v.items ≡ replicate parties 0) }
{
    vec![in alloc; 0; parties]
}

pub(crate) fn no_offers(alloc: Global, parties: usize) -> Result<Vec<Option<LastOffer>>, AllocError>
    ensures { IfOk result (λ v. v.items ≡ replicate parties None) }
{
    vec![in alloc; None; parties]
}
