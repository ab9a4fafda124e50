//! Boards of worked pairs, turn by turn, and schedules drawn from seeds.
ghost use Rattle.std.specs.Prelude.{◌≡◌, ◌≤◌, ◌<◌, ◌+◌, ◌^◌, IfOk, IfSome, true};
ghost use Rattle.claim_word.specs.Words.{version_of};
ghost use Rattle.refine_board.specs.Schedules.{opened};
ghost use Rattle.refine_board.specs.Running.{IsOwed};
ghost use Rattle.verdict_stamp.specs.Proofs.{IsProof};

use crate::circuits::{DELAY, LATE_DELAY, NOTHING, TOGGLE, pair_of};
use crate::known::known_turns;
use crate::listed::listed_turns;
use crate::passes::{claimed_turns, counted_apart};
use crate::proving::proof_of;
use claim_word::{ClaimWord, Seat};
use class_partition::Classes;
use product_machine::Product;
use refine_board::{Board, Journal, Offer, Run, Step, Take, finish, replay};
use std::alloc::{AllocError, Global};
use std::marker::Brand;
use std::sync::Wait;
use std::sync::ledger::Blank;
use std::test::Fail;
use verdict_stamp::{Known, Proof, Stamp, Version, Versions, greatest_classes};

// Asks for a pair.
pub(crate) fn ask<'v, 'p, L: Run>(
    rt: &impl Wait,
    board: &mut Board<'v, 'p, L>,
    party: u32,
) -> Result<Option<Offer<'p, L>>, AllocError>
    requires party { party < L.workers + 1 }
{
    match board.take(rt, party)? {
        Take::Offer(offer) => Ok(Some(offer)),
        _ => Ok(None),
    }
}

// Hands in what came of the pair of an offer. The stamp is lent, so that no function owns all three.
fn hand_in<'v, 'p, L: Run>(
    board: &mut Board<'v, 'p, L>,
    offer: Offer<'p, L>,
    stamp: &Stamp<'p>,
    proof: Proof<'_, 'p>,
)
    requires own { IsOwed L.pair L.k L.list offer }
    requires stamp { stamp.now ≡ offer.stamp }
    requires proof { IsProof offer.stamp.value.version offer.pair.member proof }
{
    match proof {
        Proof::Holds(verdict) => {
            board.keep(offer, verdict, stamp);
        }
        Proof::Splits(vector) => {
            board.split(offer, vector);
        }
    }
}

// Proves the pair under its stamp, and hands the answer in.
fn answer_under<'v, 'p, L: Run>(
    alloc: Global,
    board: &mut Board<'v, 'p, L>,
    offer: Offer<'p, L>,
    stamp: &Stamp<'p>,
) -> Result<(), AllocError>
    requires own { IsOwed L.pair L.k L.list offer }
    requires stamp { stamp.now ≡ offer.stamp }
{
    let version = board.versions().at(stamp);
    match proof_of(alloc, version, offer.pair()) {
        Ok(proof) => {
            hand_in(board, offer, stamp, proof);
            Ok(())
        }
        Err(e) => Err(e),
    }
}

pub(crate) fn answer<'v, 'p, L: Run>(
    alloc: Global,
    board: &mut Board<'v, 'p, L>,
    offer: Offer<'p, L>,
) -> Result<(), AllocError> {
    let stamp = offer.stamp().copy();
    answer_under(alloc, board, offer, &stamp)
}

// Asks, and keeps the work, if there is some.
pub(crate) fn ask_turn<'v, 'p, L: Run>(
    rt: &impl Wait,
    board: &mut Board<'v, 'p, L>,
    works: &mut Vec<Offer<'p, L>>,
    party: u32,
) -> Result<(), AllocError>
    requires party { party < L.workers + 1 }
{
    if let Some(offer) = ask(rt, board, party)? {
        works.push(offer)?;
    }
    Ok(())
}

// Answers the work at an index, if there is so much.
fn answer_turn<'v, 'p, L: Run>(
    alloc: Global,
    board: &mut Board<'v, 'p, L>,
    works: &mut Vec<Offer<'p, L>>,
    at: usize,
) -> Result<(), AllocError> {
    if at < works.len() {
        answer(alloc, board, works.remove(at))
    } else {
        Ok(())
    }
}

// A turn of two workers: one of them asks, or the work that was taken first is answered.
#[derive(Clone, Copy)]
enum Turn {
    First,
    Second,
    Answer,
}

fn take_turn<'v, 'p, L: Run>(
    rt: &impl Wait,
    alloc: Global,
    board: &mut Board<'v, 'p, L>,
    works: &mut Vec<Offer<'p, L>>,
    turn: Turn,
) -> Result<(), AllocError>
    requires workers { 2 ≤ L.workers }
{
    match turn {
        Turn::First => ask_turn(rt, board, works, 0),
        Turn::Second => ask_turn(rt, board, works, 1),
        Turn::Answer => answer_turn(alloc, board, works, 0),
    }
}

fn take_turns<'v, 'p, L: Run>(
    rt: &impl Wait,
    alloc: Global,
    board: &mut Board<'v, 'p, L>,
    works: &mut Vec<Offer<'p, L>>,
    turns: &[Turn],
) -> Result<(), AllocError>
    requires workers { 2 ≤ L.workers }
{
    for turn in turns {
        take_turn(rt, alloc, board, works, *turn)?;
    }
    Ok(())
}

// The index of a party's work, or 9 for none.
fn index_of<L: Run>(works: &Vec<Offer<'_, L>>, party: u32) -> usize {
    for work in works {
        if work.party() == party {
            return work.stamp().index();
        }
    }
    9
}

// Two workers: both ask, the first answers and then the second; the first asks, then the second, and the first answers; the
// second asks. The indices of the first three offers.
fn two_turns_with<'v, 'p, L: Run>(
    rt: &impl Wait,
    alloc: Global,
    board: &mut Board<'v, 'p, L>,
    works: &mut Vec<Offer<'p, L>>,
) -> Result<[usize; 3], AllocError>
    requires workers { 2 ≤ L.workers }
{
    const BOTH_ASK: &[Turn] = &[Turn::First, Turn::Second];
    const BOTH_ANSWER: &[Turn] = &[Turn::Answer, Turn::Answer, Turn::First];
    const SECOND_ASKS: &[Turn] = &[Turn::Second, Turn::Answer, Turn::Second];
    take_turns(rt, alloc, board, works, BOTH_ASK)?;
    let first = index_of(works, 0);
    let second = index_of(works, 1);
    take_turns(rt, alloc, board, works, BOTH_ANSWER)?;
    let next = index_of(works, 0);
    take_turns(rt, alloc, board, works, SECOND_ASKS)?;
    Ok([first, second, next])
}

// The same with works of their own.
fn two_turns<'v, 'p, L: Run>(
    rt: &impl Wait,
    alloc: Global,
    board: &mut Board<'v, 'p, L>,
) -> Result<[usize; 3], AllocError>
    requires workers { 2 ≤ L.workers }
{
    let mut works = Vec::new(alloc);
    two_turns_with(rt, alloc, board, &mut works)
}

fn word_of(step: &Step) -> &'static str {
    match step {
        Step::Offered(_) => "offered",
        Step::Idle => "idle",
        Step::Done => "done",
        Step::Counted(_, _) => "counted",
        Step::Stale(_) => "stale",
        Step::Split(_, _) => "split",
        Step::Already(_) => "already",
        Step::Foreign => "foreign",
        Step::Back(_) => "back",
    }
}

// The pair of an entry, or 0 and the number of classes that a split added.
fn numbers_of(step: &Step) -> [u32; 2] {
    match step {
        Step::Offered(pair) => [pair.rep, pair.member],
        Step::Counted(pair, _) => [pair.rep, pair.member],
        Step::Stale(pair) => [pair.rep, pair.member],
        Step::Back(pair) => [pair.rep, pair.member],
        Step::Split(_, added) => [0, *added],
        _ => [0, 0],
    }
}

// Whether entry i is this one.
fn is_entry(
    journal: &Journal,
    i: u64,
    worker: u32,
    call: u64,
    word: &str,
    numbers: [u32; 2],
) -> bool {
    if i >= journal.len() {
        return false;
    }
    let entry = journal.entry(i);
    entry.worker == worker
        && entry.call == call
        && word_of(&entry.step) == word
        && numbers_of(&entry.step) == numbers
}

// An entry of a journal: the worker, the number of its call, the step, and its numbers.
pub(crate) type EntryRow = (u32, u64, &'static str, [u32; 2]);

// Whether the journal begins with these entries.
pub(crate) fn begins_so(journal: &Journal, entries: &[EntryRow]) -> bool {
    let mut i: u64 = 0;
    for entry in entries {
        if !is_entry(journal, i, entry.0, entry.1, entry.2, entry.3) {
            return false;
        }
        i = i.saturating_add(1);
    }
    true
}

// Who plays on a board: two workers by turns; two of which the second answers by what is known; three, of which the first splits the
// classes before the others answer by logs, or after it; one that claims its pairs; two that claim theirs, of which one splits the
// classes before the other answers; or three, whose turns are drawn from a seed.
#[derive(Clone, Copy)]
pub(crate) enum Players<'a, 'p> {
    ByTurns,
    ByKnown(&'a Known<'p>),
    ByLogs { is_split_first: bool },
    ByClaims,
    ByTwoClaims,
    Drawn(u64),
}

// What a play leaves: the version, the journal, of workers by turns the indices of the first three offers, of drawn turns whether the
// replay of the journal had the board's classes at each, and of claims whether they were those that are due.
#[derive(Drop)]
pub(crate) struct BoardEnd<'p> {
    pub(crate) version: Version<'p>,
    pub(crate) journal: Journal,
    indices: [usize; 3],
    pub(crate) is_as_due: bool,
}

// Plays on a board.
fn play<'v, 'p, L: Run>(
    rt: &impl Wait,
    alloc: Global,
    board: &mut Board<'v, 'p, L>,
    who: Players<'_, 'p>,
) -> Result<([usize; 3], bool), AllocError>
    requires workers { 3 ≤ L.workers }
{
    match who {
        Players::ByTurns => Ok((two_turns(rt, alloc, board)?, true)),
        Players::ByKnown(known) => {
            known_turns(rt, alloc, board, known)?;
            Ok(([9; 3], true))
        }
        Players::ByLogs { is_split_first } => {
            listed_turns(rt, alloc, board, is_split_first)?;
            Ok(([9; 3], true))
        }
        Players::ByClaims => Ok(([9; 3], claimed_turns(rt, alloc, board)?)),
        Players::ByTwoClaims => Ok(([9; 3], counted_apart(rt, alloc, board)?)),
        Players::Drawn(seed) => Ok(([9; 3], drawn_turns(rt, alloc, board, seed)?)),
    }
}

// Plays on a board of three workers that is opened for it.
fn play_from<'v, 'p, L: Run>(
    rt: &impl Wait,
    alloc: Global,
    blank: Blank,
    versions: &'v Versions<'p>,
    word: (&'v ClaimWord, Seat),
    first: Version<'p>,
    who: Players<'_, 'p>,
) -> Result<BoardEnd<'p>, AllocError>
    requires name { (blank.name ≡ L.name) × (blank.parts ≡ L.parts) }
    requires parts { 2 ^ 62 ≤ L.parts }
    requires run { (first.pair ≡ L.pair) × (first.k ≡ L.k) }
    requires workers { L.workers ≡ 3 }
    requires opening { L.opening ≡ opened L.pair L.workers first.classes first.number }
    requires list { L.list ≡ versions.now }
    requires word { L.word ≡ word.0.now }
    requires seat { (word.1.word ≡ word.0.now) × (word.1.board ≡ true) × (version_of word.1.written ≡ 0) }
{
    let mut board = Board::<'v, 'p, L>::open(alloc, blank, versions, word.0, word.1, first, 3)?;
    let played = play(rt, alloc, &mut board, who);
    let (version, journal) = board.close();
    match played {
        Ok(found) => {
            let (indices, is_as_due) = found;
            Ok(BoardEnd {
                version,
                journal,
                indices,
                is_as_due,
            })
        }
        Err(e) => Err(e),
    }
}

// What they make of a pair, from its first version for induction over k frames, with a word that nothing was claimed from.
fn played_with<'p>(
    rt: &impl Wait,
    alloc: Global,
    versions: &Versions<'p>,
    word: (&ClaimWord, Seat),
    product: &'p Product,
    k: u32,
    who: Players<'_, 'p>,
) -> Result<BoardEnd<'p>, AllocError>
    requires some { 0 < k }
    requires few { k ≤ 16 }
    requires seat { (word.1.word ≡ word.0.now) × (word.1.board ≡ true) × (version_of word.1.written ≡ 0) }
{
    let first = Version::first(alloc, product, k)?;
    play_from::<Brand>(rt, alloc, Blank::new(1 << 62), versions, word, first, who)
}

// What they make of it on a list of versions.
fn played_on<'p>(
    rt: &impl Wait,
    alloc: Global,
    versions: &Versions<'p>,
    product: &'p Product,
    k: u32,
    who: Players<'_, 'p>,
) -> Result<BoardEnd<'p>, AllocError>
    requires some { 0 < k }
    requires few { k ≤ 16 }
{
    let (word, seat) = ClaimWord::new(alloc, 0)?;
    played_with(rt, alloc, versions, (&word, seat), product, k, who)
}

pub(crate) fn played<'p>(
    rt: &impl Wait,
    alloc: Global,
    product: &'p Product,
    k: u32,
    who: Players<'_, 'p>,
) -> Result<BoardEnd<'p>, AllocError>
    requires some { 0 < k }
    requires few { k ≤ 16 }
{
    let versions = Versions::new(alloc)?;
    played_on(rt, alloc, &versions, product, k, who)
}

// Whether the replay of a journal from a version has the last classes of its board.
fn ends_as_replayed(alloc: Global, first: &Version<'_>, end: &BoardEnd<'_>) -> bool {
    match replay(alloc, first, 3, &end.journal) {
        Ok(classes) => same_classes(&classes, end.version.classes()),
        Err(_) => false,
    }
}

// The same from a pair's first version.
fn is_as_replayed(alloc: Global, product: &Product, end: &BoardEnd<'_>) -> bool {
    match Version::first(alloc, product, 1) {
        Ok(first) => ends_as_replayed(alloc, &first, end),
        Err(_) => false,
    }
}

// What two workers are to make of a pair.
#[derive(Clone, Copy)]
enum Due {
    // The first two offers have one index, and the third the next.
    Indices,
    // They split and count the pair of toggles.
    Counted,
    // The second worker's proof is outdated, and its pair splits under the next version.
    Outdated,
    // Each is told at once that all is done.
    Done,
}

// Whether the toggles are split and counted.
fn toggles_are_counted(alloc: Global, product: &Product, end: &BoardEnd<'_>) -> bool {
    const ENTRIES: &[EntryRow] = &[
        (0, 0, "offered", [0, 1]),
        (1, 0, "offered", [0, 2]),
        (0, 1, "split", [0, 1]),
        (1, 1, "already", [0, 0]),
        (0, 2, "offered", [1, 2]),
        (1, 2, "idle", [0, 0]),
        (0, 3, "counted", [1, 2]),
        (1, 3, "done", [0, 0]),
    ];
    end.version.classes().count() == 2
        && end.journal.len() == 8
        && begins_so(&end.journal, ENTRIES)
        && is_as_replayed(alloc, product, end)
}

fn proof_is_outdated(journal: &Journal) -> bool {
    const ENTRIES: &[EntryRow] = &[
        (0, 0, "offered", [0, 1]),
        (1, 0, "offered", [0, 2]),
        (0, 1, "split", [0, 1]),
        (1, 1, "stale", [0, 2]),
        (0, 2, "offered", [0, 2]),
    ];
    begins_so(journal, ENTRIES) && journal.len() > 6 && word_of(&journal.entry(6).step) == "split"
}

// Whether an end is as it is due.
fn is_due(alloc: Global, product: &Product, end: &BoardEnd<'_>, due: Due) -> bool {
    match due {
        Due::Indices => end.indices == [0, 0, 1],
        Due::Counted => toggles_are_counted(alloc, product, end),
        Due::Outdated => proof_is_outdated(&end.journal),
        Due::Done => {
            end.version.classes().count() == 1 && is_entry(&end.journal, 0, 0, 0, "done", [0, 0])
        }
    }
}

// Whether two workers make that of a pair.
fn makes(rt: &impl Wait, alloc: Global, product: &Product, due: Due) -> bool {
    match played(rt, alloc, product, 1, Players::ByTurns) {
        Ok(end) => is_due(alloc, product, &end, due),
        Err(_) => false,
    }
}

// The same of two netlists.
fn make(rt: &impl Wait, alloc: Global, left: &str, right: &str, due: Due) -> bool {
    match pair_of(alloc, left, right) {
        Ok(product) => makes(rt, alloc, &product, due),
        Err(_) => false,
    }
}

#[test]
fn offers_have_one_index_until_a_split(rt: HostRuntime) -> Result<(), Fail> {
    assert!(rt; make(&rt, rt.alloc(), TOGGLE, TOGGLE, Due::Indices));
    Ok(())
}

#[test]
fn two_workers_split_and_count_a_pair_of_toggles(rt: HostRuntime) -> Result<(), Fail> {
    assert!(rt; make(&rt, rt.alloc(), TOGGLE, TOGGLE, Due::Counted));
    Ok(())
}

#[test]
fn an_outdated_proof_is_stale_and_its_pair_splits(rt: HostRuntime) -> Result<(), Fail> {
    assert!(rt; make(&rt, rt.alloc(), DELAY, LATE_DELAY, Due::Outdated));
    Ok(())
}

#[test]
fn a_pair_with_one_signal_is_done_at_once(rt: HostRuntime) -> Result<(), Fail> {
    assert!(rt; make(&rt, rt.alloc(), NOTHING, NOTHING, Due::Done));
    Ok(())
}

// Whether a party has work.
fn has_work<L: Run>(works: &Vec<Offer<'_, L>>, party: u32) -> bool {
    for work in works {
        if work.party() == party {
            return true;
        }
    }
    false
}

// A party of three without work.
fn idle_party<L: Run>(works: &Vec<Offer<'_, L>>) -> u32
    ensures { result < 3 }
{
    if !has_work(works, 0) {
        0
    } else if !has_work(works, 1) {
        1
    } else {
        2
    }
}

// Whether two partitions are equal.
fn same_classes(a: &Classes, b: &Classes) -> bool {
    if a.len() != b.len() {
        return false;
    }
    for place in 0..a.len() {
        if a.rep(place) != b.rep(place) || a.phase(place) != b.phase(place) {
            return false;
        }
    }
    true
}

// Whether the replay of the journal has the board's classes.
fn is_replayed<L: Run>(alloc: Global, board: &Board<'_, '_, L>) -> Result<bool, AllocError> {
    let classes = replay(alloc, board.opening(), 3, board.journal())?;
    Ok(same_classes(&classes, board.version().classes()))
}

// A turn: a party without work asks, or one with work answers. Answers whether the replay of the journal has the board's
// classes then.
fn drawn_turn<'v, 'p, L: Run>(
    rt: &impl Wait,
    alloc: Global,
    board: &mut Board<'v, 'p, L>,
    works: &mut Vec<Offer<'p, L>>,
    draw: usize,
) -> Result<bool, AllocError>
    requires workers { 3 ≤ L.workers }
{
    if works.len() < 3 && draw % 2 == 0 {
        let party = idle_party(works);
        ask_turn(rt, board, works, party)?;
    } else {
        answer_turn(alloc, board, works, draw / 2 % 3)?;
    }
    is_replayed(alloc, board)
}

// Turns of three workers, drawn from a seed. Answers whether at each turn the replay of the journal had the board's classes.
fn drawn_with<'v, 'p, L: Run>(
    rt: &impl Wait,
    alloc: Global,
    board: &mut Board<'v, 'p, L>,
    works: &mut Vec<Offer<'p, L>>,
    seed: u64,
) -> Result<bool, AllocError>
    requires workers { 3 ≤ L.workers }
{
    let mut state = seed;
    let mut same = true;
    for _turn in 0..40u32 {
        state = state
            .wrapping_mul(6364136223846793005)
            .wrapping_add(1442695040888963407);
        if !drawn_turn(rt, alloc, board, works, (state >> 33) as usize)? {
            same = false;
        }
    }
    Ok(same)
}

// Gives the offers back.
fn give_back<'v, 'p, L: Run>(board: &mut Board<'v, 'p, L>, mut works: Vec<Offer<'p, L>>) {
    for _offer in 0..3u32 {
        if let Some(offer) = works.pop() {
            board.back(offer);
        }
    }
}

// Those turns; then the offers are given back, and a fourth party works alone.
fn drawn_turns<'v, 'p, L: Run>(
    rt: &impl Wait,
    alloc: Global,
    board: &mut Board<'v, 'p, L>,
    seed: u64,
) -> Result<bool, AllocError>
    requires workers { 3 ≤ L.workers }
{
    let mut works = Vec::new(alloc);
    let same = drawn_with(rt, alloc, board, &mut works, seed);
    give_back(board, works);
    finish(board, alloc, 3)?;
    same
}

// Whether a drawn schedule of a pair ends at its greatest classes.
fn ends_at_greatest(
    rt: &impl Wait,
    alloc: Global,
    product: &Product,
    greatest: &Classes,
    seed: u64,
) -> bool {
    match played(rt, alloc, product, 1, Players::Drawn(seed)) {
        Ok(end) => end.is_as_due && same_classes(end.version.classes(), greatest),
        Err(_) => false,
    }
}

// Whether the schedules of four seeds do.
fn all_end_at(rt: &impl Wait, alloc: Global, product: &Product, greatest: &Classes) -> bool {
    for seed in 0..4u64 {
        if !ends_at_greatest(rt, alloc, product, greatest, seed) {
            return false;
        }
    }
    true
}

fn end_at_greatest(rt: &impl Wait, alloc: Global, product: &Product) -> bool {
    match greatest_classes(alloc, product, 1) {
        Ok(greatest) => all_end_at(rt, alloc, product, greatest.classes()),
        Err(_) => false,
    }
}

// The same of two netlists.
fn netlists_end_at_greatest(rt: &impl Wait, alloc: Global, left: &str, right: &str) -> bool {
    match pair_of(alloc, left, right) {
        Ok(product) => end_at_greatest(rt, alloc, &product),
        Err(_) => false,
    }
}

#[test]
fn every_drawn_schedule_ends_at_the_greatest_classes(rt: HostRuntime) -> Result<(), Fail> {
    const PAIRS: &[(&str, &str)] = &[
        (TOGGLE, TOGGLE),
        (DELAY, LATE_DELAY),
        (DELAY, DELAY),
        (NOTHING, NOTHING),
    ];
    for &(left, right) in PAIRS {
        assert!(rt; netlists_end_at_greatest(&rt, rt.alloc(), left, right));
    }
    Ok(())
}
