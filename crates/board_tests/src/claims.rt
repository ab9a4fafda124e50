//! The answers to one seat in turn, and the claims of threads, which differ.
ghost use Rattle.std.specs.Prelude.{◌≡◌, ◌≢◌, IfOk, IfSome, false, true};
ghost use Rattle.claim_word.specs.Words.{version_of};
ghost use Rattle.claim_word.specs.Seats.{AreApart, IsSameSeat, beside};

use claim_word::{Claim, ClaimWord, Seat};
use std::alloc::{AllocError, Global};
use std::test::Fail;
use std::thread::{Threads, join, yield_now};

// Whether a board's seat claims the pairs of three versions, of two, one and many pairs.
fn claims_versions(word: &ClaimWord, seat: &mut Seat) -> bool
    requires own { seat.old.word ≡ word.now }
    requires board { seat.old.board ≡ true }
    requires first { version_of seat.old.written ≡ 0 }
{
    let first = word.claim(seat);
    let second = word.claim(seat);
    let spent = word.claim(seat);
    word.advance(seat, 1, 1);
    let alone = word.claim(seat);
    let spent_again = word.claim(seat);
    word.advance(seat, 4_194_303, 2_097_151);
    let last = word.claim(seat);
    let seen = word.seen(seat);
    first == Claim::Mine(0, 0)
        && second == Claim::Mine(0, 1)
        && spent == Claim::Spent(0)
        && alone == Claim::Mine(1, 0)
        && spent_again == Claim::Spent(1)
        && last == Claim::Mine(4_194_303, 0)
        && seen == u64::MAX - 2_097_150
}

#[test]
fn one_seat_claims_each_pair_of_a_version_once(rt: HostRuntime) -> Result<(), Fail> {
    match ClaimWord::new(rt.alloc(), 2) {
        Ok((word, mut seat)) => assert!(rt; claims_versions(&word, &mut seat)),
        Err(_) => assert!(rt; false),
    }
    Ok(())
}

// Whether a seat and one that is split off claim a pair each, and the seat claims on once that is back.
fn claims_split(word: &ClaimWord, seat: &mut Seat) -> bool
    requires own { seat.old.word ≡ word.now }
{
    let mut other = word.split_seat(seat);
    let first = word.claim(&mut other);
    let second = word.claim(seat);
    word.join_seat(seat, other);
    let seen = word.seen(seat);
    let third = word.claim(seat);
    first == Claim::Mine(0, 0)
        && second == Claim::Mine(0, 1)
        && seen == 3 * 2_097_152 + 2
        && third == Claim::Mine(0, 2)
}

#[test]
fn a_split_seat_claims_on_and_comes_back(rt: HostRuntime) -> Result<(), Fail> {
    match ClaimWord::new(rt.alloc(), 3) {
        Ok((word, mut seat)) => assert!(rt; claims_split(&word, &mut seat)),
        Err(_) => assert!(rt; false),
    }
    Ok(())
}

// Claims twice, and says what the two seats got. The pairs differ.
fn claim_by_each(
    word: &ClaimWord,
    first: &mut Seat,
    second: &mut Seat,
) -> Option<((u32, u32), (u32, u32))>
    requires first { first.old.word ≡ word.now }
    requires second { second.old.word ≡ word.now }
    requires beside { second.old.board ≡ false }
    ensures differ { IfSome result (λ r. r.0 ≢ r.1) }
    ensures seats { IsSameSeat first.old first.new × IsSameSeat second.old second.new }
{
    let Claim::Mine(version, index) = word.claim(first) else {
        return None;
    };
    let Claim::Mine(other_version, other_index) = word.claim(second) else {
        return None;
    };
    word.differ(first, second);
    Some(((version, index), (other_version, other_index)))
}

// Whether a board's seat and another claim a pair each of two versions, and none then.
fn two_claim(word: &ClaimWord, board: &mut Seat, other: &mut Seat) -> bool
    requires own { board.old.word ≡ word.now }
    requires board { board.old.board ≡ true }
    requires first { version_of board.old.written ≡ 0 }
    requires other { (other.old.word ≡ word.now) × (other.old.board ≡ false) }
{
    let first = claim_by_each(word, board, other);
    word.advance(board, 1, 2);
    let second = claim_by_each(word, board, other);
    let third = claim_by_each(word, board, other);
    let seen = word.seen(other);
    first == Some(((0, 0), (0, 1)))
        && second == Some(((1, 0), (1, 1)))
        && third.is_none()
        && seen == 4_398_046_511_104 + 2 * 2_097_152 + 2
}

#[test]
fn two_seats_claim_two_pairs(rt: HostRuntime) -> Result<(), Fail> {
    match ClaimWord::new(rt.alloc(), 3) {
        Ok((word, mut board)) => {
            let mut other = word.split_seat(&mut board);
            assert!(rt; two_claim(&word, &mut board, &mut other));
        }
        Err(_) => assert!(rt; false),
    }
    Ok(())
}

const PAIRS: u32 = 2000;

// Claims until a version is spent.
fn claim_all(
    alloc: Global,
    word: &ClaimWord,
    seat: Seat,
) -> Result<(Vec<(u32, u32)>, Seat), AllocError>
    requires { seat ≡ beside word.now }
    ensures { IfOk result (λ r. (r.1.word ≡ word.now) × (r.1.board ≡ false) × (r.1.claims ≡ r.0.items)) }
{
    let mut seat = seat;
    let mut mine = Vec::new(alloc);
    for _ in 0..1_000_000u32 {
        match word.claim(&mut seat) {
            Claim::Mine(version, index) => mine.push((version, index))?,
            Claim::Spent(_) => break,
            Claim::Moved(_, _) => yield_now(),
        }
    }
    Ok((mine, seat))
}

// The claims of two threads, which differ.
fn claim_both<R: Threads + Sync>(
    rt: &R,
    alloc: Global,
    word: &ClaimWord,
    left: Seat,
    right: Seat,
) -> Result<(Vec<(u32, u32)>, Seat), AllocError>
    requires left { left ≡ beside word.now }
    requires right { right ≡ beside word.now }
    ensures own { IfOk result (λ r. (r.1.word ≡ word.now) × (r.1.board ≡ false) × (r.1.claims ≡ r.0.items)) }
    ensures apart { IfOk result (λ r. AreApart r.0.items) }
{
    let (mine, theirs) = join(
        rt,
        move || -> Result<(Vec<(u32, u32)>, Seat), AllocError>
            requires { left ≡ beside word.now }
            ensures { IfOk result (λ r. (r.1.word ≡ word.entry.now) × (r.1.board ≡ false) × (r.1.claims ≡ r.0.items)) }
        { claim_all(alloc, word, left) },
        move || -> Result<(Vec<(u32, u32)>, Seat), AllocError>
            requires { right ≡ beside word.now }
            ensures { IfOk result (λ r. (r.1.word ≡ word.entry.now) × (r.1.board ≡ false) × (r.1.claims ≡ r.0.items)) }
        { claim_all(alloc, word, right) },
    );
    let (mut claims, mut seat) = mine?;
    let (others, other) = theirs?;
    claims.extend_from_slice(others.as_slice())?;
    word.join_seat(&mut seat, other);
    Ok((claims, seat))
}

#[test]
fn four_threads_claim_each_pair_once(rt: HostRuntime) -> Result<(), Fail> {
    let alloc = rt.alloc();
    let (word, mut seat) = ClaimWord::new(alloc, PAIRS)?;
    let first = word.split_seat(&mut seat);
    let second = word.split_seat(&mut seat);
    let third = word.split_seat(&mut seat);
    let fourth = word.split_seat(&mut seat);
    let handle = &rt;
    let shared = &word;
    let (left, right) = join(
        handle,
        move || -> Result<(Vec<(u32, u32)>, Seat), AllocError>
            requires { (first ≡ beside shared.now) × (second ≡ beside shared.now) }
        { claim_both(handle, alloc, shared, first, second) },
        move || -> Result<(Vec<(u32, u32)>, Seat), AllocError>
            requires { (third ≡ beside shared.now) × (fourth ≡ beside shared.now) }
        { claim_both(handle, alloc, shared, third, fourth) },
    );
    let (mut claims, _) = left?;
    let (others, _) = right?;
    claims.extend_from_slice(others.as_slice())?;
    claims.sort()?;
    assert!(rt; claims.len() == PAIRS as usize);
    for (index, claim) in (0..PAIRS).zip(claims.iter()) {
        assert!(rt; *claim == (0, index));
    }
    assert!(rt; word.claim(&mut seat) == Claim::Spent(0));
    Ok(())
}

#[test]
fn a_version_begins_while_two_threads_claim(rt: HostRuntime) -> Result<(), Fail> {
    let alloc = rt.alloc();
    let (word, mut board) = ClaimWord::new(alloc, PAIRS)?;
    let first = word.split_seat(&mut board);
    let second = word.split_seat(&mut board);
    let third = word.split_seat(&mut board);
    let handle = &rt;
    let shared = &word;
    let (claimed, ()) = join(
        handle,
        move || -> Result<(Vec<(u32, u32)>, Seat), AllocError>
            requires { (first ≡ beside shared.now) × (second ≡ beside shared.now) }
        { claim_both(handle, alloc, shared, first, second) },
        move ||
            requires { (board.word ≡ shared.now) × (board.board ≡ true) × (version_of board.written ≡ 0) }
        {
            let mut board = board;
            shared.advance(&mut board, 1, PAIRS);
        },
    );
    let (mut claims, _) = claimed?;
    let (left, _) = claim_all(alloc, &word, third)?;
    claims.extend_from_slice(left.as_slice())?;
    claims.sort()?;
    let begun = claims.iter().filter(|claim| claim.0 == 1).count();
    assert!(rt; begun == PAIRS as usize);
    for pair in claims.as_slice().windows(2) {
        assert!(rt; pair[0] < pair[1]);
    }
    Ok(())
}
