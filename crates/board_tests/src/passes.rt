//! Pairs that are claimed from the word, and answered with a pass.
ghost use Rattle.std.specs.Prelude.{◌≡◌, ◌≤◌, ◌<◌, ◌+◌, IfOk};
ghost use Rattle.refine_board.specs.Running.{IsClaiming};
ghost use Rattle.verdict_stamp.specs.Proofs.{IsProof};

use crate::boards::{EntryRow, Players, begins_so, played};
use crate::circuits::{DELAY, LATE_DELAY, TOGGLE, pair_of};
use crate::proving::proof_of;
use claim_word::{Claim, ClaimWord, Seat};
use product_machine::Product;
use refine_board::{Board, Claimed, Look, Pass, Run};
use std::alloc::{AllocError, Global};
use std::sync::Wait;
use std::test::Fail;
use verdict_stamp::{Proof, Stamp};

// What a claim is for: the pair of the version of a pass, which is given back where the claim is for none of its pairs.
fn claimed_by<'v, 'p, L: Run>(
    board: &mut Board<'v, 'p, L>,
    pass: Pass<'p, L>,
    claim: Claim,
) -> Option<Claimed<'p, L>> {
    let Claim::Mine(turn, index) = claim else {
        board.back_at(pass);
        return None;
    };
    if board.versions().turn(pass.stamp()) != turn {
        board.back_at(pass);
        return None;
    }
    match pass.at(board.versions(), index) {
        Ok(claimed) => Some(claimed),
        Err(pass) => {
            board.back_at(pass);
            None
        }
    }
}

// Looks, claims, and takes the pair up. Answers the claim, and what it is for.
fn take_up<'v, 'p, L: Run>(
    rt: &impl Wait,
    board: &mut Board<'v, 'p, L>,
    word: &ClaimWord,
    seat: &mut Seat,
    party: u32,
) -> Result<(Claim, Option<Claimed<'p, L>>), AllocError>
    requires party { party < L.workers + 1 }
    requires seat { seat.old.word ≡ word.now }
    ensures seat { seat.new.word ≡ word.now }
{
    match board.look(rt, party, false)? {
        Look::Work(pass) => {
            let claim = word.claim(seat);
            Ok((claim, claimed_by(board, pass, claim)))
        }
        _ => Ok((Claim::Spent(u32::MAX), None)),
    }
}

// Hands in what came of a claimed pair. The stamp is lent, so that no function owns all three.
fn hand_in<'v, 'p, L: Run>(
    board: &mut Board<'v, 'p, L>,
    claimed: Claimed<'p, L>,
    stamp: &Stamp<'p>,
    proof: Proof<'_, 'p>,
)
    requires own { IsClaiming L.pair L.k L.list claimed }
    requires stamp { stamp.now ≡ claimed.stamp }
    requires proof { IsProof claimed.stamp.value.version claimed.pair.member proof }
{
    match proof {
        Proof::Holds(verdict) => {
            board.keep_at(claimed, verdict, stamp);
        }
        Proof::Splits(vector) => {
            board.split_at(claimed, vector);
        }
    }
}

// Proves a claimed pair under its stamp, and answers it.
fn answer_under<'v, 'p, L: Run>(
    alloc: Global,
    board: &mut Board<'v, 'p, L>,
    claimed: Claimed<'p, L>,
    stamp: &Stamp<'p>,
) -> Result<(), AllocError>
    requires own { IsClaiming L.pair L.k L.list claimed }
    requires stamp { stamp.now ≡ claimed.stamp }
{
    let version = board.versions().at(stamp);
    match proof_of(alloc, version, claimed.pair()) {
        Ok(proof) => {
            hand_in(board, claimed, stamp, proof);
            Ok(())
        }
        Err(e) => Err(e),
    }
}

fn answer_claimed<'v, 'p, L: Run>(
    alloc: Global,
    board: &mut Board<'v, 'p, L>,
    claimed: Claimed<'p, L>,
) -> Result<(), AllocError> {
    let stamp = claimed.stamp().copy();
    answer_under(alloc, board, claimed, &stamp)
}

fn answer<'v, 'p, L: Run>(
    alloc: Global,
    board: &mut Board<'v, 'p, L>,
    claimed: Option<Claimed<'p, L>>,
) -> Result<(), AllocError> {
    match claimed {
        Some(claimed) => answer_claimed(alloc, board, claimed),
        None => Ok(()),
    }
}

// Whether a party that looks is told to wait.
fn is_to_wait<'v, 'p, L: Run>(
    rt: &impl Wait,
    board: &mut Board<'v, 'p, L>,
    party: u32,
) -> Result<bool, AllocError>
    requires party { party < L.workers + 1 }
{
    Ok(matches!(board.look(rt, party, false)?, Look::Wait(_)))
}

// Takes a pair up and answers it. Answers the claim.
fn claim_one<'v, 'p, L: Run>(
    rt: &impl Wait,
    alloc: Global,
    board: &mut Board<'v, 'p, L>,
    word: &ClaimWord,
    seat: &mut Seat,
) -> Result<Claim, AllocError>
    requires workers { 3 ≤ L.workers }
    requires seat { seat.old.word ≡ word.now }
    ensures seat { seat.new.word ≡ word.now }
{
    let (claim, claimed) = take_up(rt, board, word, seat, 0)?;
    answer(alloc, board, claimed)?;
    Ok(claim)
}

// The same, and whether another party is told to wait before it is answered.
fn claim_last<'v, 'p, L: Run>(
    rt: &impl Wait,
    alloc: Global,
    board: &mut Board<'v, 'p, L>,
    word: &ClaimWord,
    seat: &mut Seat,
) -> Result<(Claim, bool), AllocError>
    requires workers { 3 ≤ L.workers }
    requires seat { seat.old.word ≡ word.now }
{
    let (claim, claimed) = take_up(rt, board, word, seat, 0)?;
    let waits = is_to_wait(rt, board, 1);
    answer(alloc, board, claimed)?;
    Ok((claim, waits?))
}

// The claims of one worker until it is done: none before the first look, and then one of each version.
fn claimed_with<'v, 'p, L: Run>(
    rt: &impl Wait,
    alloc: Global,
    board: &mut Board<'v, 'p, L>,
    word: &ClaimWord,
    seat: &mut Seat,
) -> Result<bool, AllocError>
    requires workers { 3 ≤ L.workers }
    requires seat { seat.old.word ≡ word.now }
{
    let none = word.claim(seat);
    let first = claim_one(rt, alloc, board, word, seat)?;
    let (second, waits) = claim_last(rt, alloc, board, word, seat)?;
    let is_done = matches!(board.look(rt, 0, false)?, Look::Done);
    Ok(
        none == Claim::Spent(0)
            && first == Claim::Mine(1, 0)
            && second == Claim::Mine(2, 0)
            && waits
            && is_done,
    )
}

pub(crate) fn claimed_turns<'v, 'p, L: Run>(
    rt: &impl Wait,
    alloc: Global,
    board: &mut Board<'v, 'p, L>,
) -> Result<bool, AllocError>
    requires workers { 3 ≤ L.workers }
{
    let (word, mut seat) = board.claim_seat();
    claimed_with(rt, alloc, board, word, &mut seat)
}

// The second of two workers claims a pair, while the first holds its own; then the first answers, which splits the classes, and then
// the second.
fn claim_beside<'v, 'p, L: Run>(
    rt: &impl Wait,
    alloc: Global,
    board: &mut Board<'v, 'p, L>,
    word: &ClaimWord,
    seat: &mut Seat,
    mine: Option<Claimed<'p, L>>,
) -> Result<Claim, AllocError>
    requires workers { 3 ≤ L.workers }
    requires seat { seat.old.word ≡ word.now }
{
    match take_up(rt, board, word, seat, 1) {
        Ok((claim, theirs)) => {
            let first = answer(alloc, board, mine);
            answer(alloc, board, theirs)?;
            first?;
            Ok(claim)
        }
        Err(e) => Err(e),
    }
}

// Two workers claim a pair each of one version. The first answers its own, which splits the classes, and then the second.
pub(crate) fn counted_apart<'v, 'p, L: Run>(
    rt: &impl Wait,
    alloc: Global,
    board: &mut Board<'v, 'p, L>,
) -> Result<bool, AllocError>
    requires workers { 3 ≤ L.workers }
{
    let (word, mut seat) = board.claim_seat();
    let (_, mut other) = board.claim_seat();
    let (first, mine) = take_up(rt, board, word, &mut seat, 0)?;
    let second = claim_beside(rt, alloc, board, word, &mut other, mine)?;
    Ok(first == Claim::Mine(1, 0) && second == Claim::Mine(1, 1))
}

// Whether a play on a pair is as it is due, and its journal these entries.
fn is_journal_of(
    rt: &impl Wait,
    alloc: Global,
    product: &Product,
    who: Players<'_, '_>,
    rows: &[EntryRow],
) -> bool {
    match played(rt, alloc, product, 1, who) {
        Ok(end) => {
            end.is_as_due && end.journal.len() == rows.len() as u64 && begins_so(&end.journal, rows)
        }
        Err(_) => false,
    }
}

fn is_journal(
    rt: &impl Wait,
    alloc: Global,
    netlists: (&str, &str),
    who: Players<'_, '_>,
    rows: &[EntryRow],
) -> bool {
    match pair_of(alloc, netlists.0, netlists.1) {
        Ok(product) => is_journal_of(rt, alloc, &product, who, rows),
        Err(_) => false,
    }
}

#[test]
fn a_worker_claims_the_pairs_of_each_version(rt: HostRuntime) -> Result<(), Fail> {
    const ROWS: &[EntryRow] = &[
        (0, 0, "offered", [0, 1]),
        (0, 1, "split", [0, 1]),
        (0, 2, "offered", [1, 2]),
        (0, 3, "counted", [1, 2]),
        (0, 4, "done", [0, 0]),
    ];
    assert!(rt; is_journal(&rt, rt.alloc(), (TOGGLE, TOGGLE), Players::ByClaims, ROWS));
    Ok(())
}

#[test]
fn an_outdated_claim_is_answered_and_not_offered(rt: HostRuntime) -> Result<(), Fail> {
    const ROWS: &[EntryRow] = &[
        (0, 0, "offered", [0, 1]),
        (0, 1, "split", [0, 1]),
        (1, 0, "stale", [0, 2]),
    ];
    assert!(rt;
        is_journal(
            &rt,
            rt.alloc(),
            (DELAY, LATE_DELAY),
            Players::ByTwoClaims,
            ROWS
        )
    );
    Ok(())
}
