//! The workers of a run: a chair for each, and what all of them claimed when they are back.
ghost use Rattle.std.specs.Prelude.{◌≡◌, ℕ, List, [], true, IfOk, All};
ghost use Rattle.circ_model.specs.Meaning.{Pair};
ghost use Rattle.claim_word.specs.Words.{version_of};
ghost use Rattle.claim_word.specs.Seats.{beside};
ghost use Rattle.pair_pool.specs.Claims.{AreFound, AreOnce, HasFound, IsSeated};

use crate::worker::{Chair, Claimed, Done};
use claim_word::{ClaimWord, Seat};
use std::alloc::{AllocError, Global};

/// A chair for each of so many workers.
pub(crate) fn chairs(
    alloc: Global,
    word: &ClaimWord,
    board: &mut Seat,
    workers: u32,
) -> Result<Vec<Chair>, AllocError>
    requires own { board.old.word ≡ word.now }
    ensures same { board.new ≡ board.old }
    ensures beside { IfOk result (λ c. All (λ x. x.seat ≡ beside word.now) c.items) }
{
    let mut chairs = Vec::new(alloc);
    for worker in 0..workers {
        let seat = word.split_seat(board);
        chairs.push(Chair { worker, seat })?;
    }
    Ok(chairs)
}

/// What all workers claimed. Their seats come back to the word's first one, whose claims differ, each from each: no pair was
/// worked on twice.
pub(crate) fn gather(
    alloc: Global,
    word: &ClaimWord,
    board: Seat,
    told: Vec<Done>,
) -> Result<Vec<Claimed>, AllocError>
    requires own { board.word ≡ word.now }
    requires fresh { (board.claims ≡ []) × (board.board ≡ true) × (version_of board.written ≡ 0) }
    requires seated { All (IsSeated word.now) told.items }
    ensures found { (pairs : List Pair) (k : ℕ) → All (HasFound pairs k) told.items → IfOk result (λ c. AreFound pairs k c.items) }
    ensures once { IfOk result (λ c. AreOnce c.items) }
{
    let mut board = board;
    let mut told = told;
    let mut all = Vec::new(alloc);
    while let Some(done) = told.pop() {
        let Done { seat, mut claimed } = done;
        word.join_seat(&mut board, seat);
        all.append(&mut claimed)?;
    }
    word.seen(&mut board);
    Ok(all)
}
