//! Work on one thread until each needed pair is counted. The frames of the questions are made once for each version.
ghost use Rattle.std.specs.Prelude.{◌≡◌, ◌≢◌, ◌<◌, ◌≤◌, ◌+◌, ◌^◌, ℕ, IfOk, None, true, false, length};
ghost use Rattle.circ_model.specs.Meaning.{places_of};
ghost use Rattle.class_partition.specs.Classes.{AreOfGreatest, IsNeeded, class_count, needed};
ghost use Rattle.refine_board.specs.States.{AllCounted, IsCountedAt, IsNeededPair, offer_of};
ghost use Rattle.refine_board.specs.Running.{AreCountedBelow, Counts, IsAbout, IsOf, IsUnder};
ghost use Rattle.refine_board.specs.Closings.{Closes};
ghost use Rattle.circ_model.specs.Correspondence.{Separates};

use crate::board::Board;
use crate::run::Run;
use class_partition::Needed;
use std::alloc::{AllocError, Global};
use verdict_stamp::{Proof, Prover, Vector, Verdict};

// Counts a wanted pair, which the party takes first where it is open.
fn count_pair<L: Run>(
    board: &mut Board<'_, '_, L>,
    party: u32,
    pair: Needed,
    verdict: Verdict<'_, '_>,
)
    requires party { party < L.workers + 1 }
    requires pair { IsNeededPair (places_of L.pair) board.old.state.classes pair }
    requires wanted { IsCountedAt board.old.state pair.member → ⊥ }
    requires below { AreCountedBelow (places_of L.pair) board.old.state pair.member }
    requires about { IsAbout verdict pair }
    requires counts { Counts L.pair L.k board.old.state.classes verdict }
    requires room { 2 ≤ board.old.room }
    ensures closes { Closes (places_of L.pair) party board.old board.new }
    ensures classes { board.new.state.classes ≡ board.old.state.classes }
    ensures below { AreCountedBelow (places_of L.pair) board.new.state (pair.member + 1) }
{
    board.claim(party, pair);
    let _places = board.places();
    board.count(party, pair, verdict);
}

// Splits the classes by a vector that separates a wanted pair, which the party takes first where it is open.
fn cut_pair<L: Run>(board: &mut Board<'_, '_, L>, party: u32, pair: Needed, vector: Vector<'_>)
    requires party { party < L.workers + 1 }
    requires pair { IsNeededPair (places_of L.pair) board.old.state.classes pair }
    requires wanted { IsCountedAt board.old.state pair.member → ⊥ }
    requires below { AreCountedBelow (places_of L.pair) board.old.state pair.member }
    requires own { IsOf L.pair L.k vector }
    requires separates { Separates vector.bits (needed board.old.state.classes pair.member) }
    requires room { 2 ≤ board.old.room }
    ensures closes { Closes (places_of L.pair) party board.old board.new }
    ensures split { class_count (places_of L.pair) board.old.state.classes < class_count (places_of L.pair) board.new.state.classes }
{
    board.claim(party, pair);
    board.cut(party, vector);
}

// Proves the pair of a place, and writes what came of it. Answers whether the classes were split.
fn decide<L: Run>(
    board: &mut Board<'_, '_, L>,
    alloc: Global,
    prover: &mut Prover<'_, '_>,
    party: u32,
    member: u32,
) -> Result<bool, AllocError>
    requires party { party < L.workers + 1 }
    requires current { IsUnder L.pair L.k board.old.state.classes prover.old }
    requires needed { IsNeeded (places_of L.pair) board.old.state.classes member }
    requires wanted { IsCountedAt board.old.state member → ⊥ }
    requires below { AreCountedBelow (places_of L.pair) board.old.state member }
    ensures kept { prover.new ≡ prover.old }
    ensures closes { Closes (places_of L.pair) party board.old board.new }
    ensures split { IfOk result (λ s. s ≡ true → class_count (places_of L.pair) board.old.state.classes < class_count (places_of L.pair) board.new.state.classes) }
    ensures counted { IfOk result (λ s. s ≡ false → (board.new.state.classes ≡ board.old.state.classes) × AreCountedBelow (places_of L.pair) board.new.state (member + 1)) }
{
    board.spare()?;
    let pair = board.pair_at(member);
    match prover.prove(alloc, pair)? {
        Proof::Holds(verdict) => {
            count_pair(board, party, pair, verdict);
            Ok(false)
        }
        Proof::Splits(vector) => {
            cut_pair(board, party, pair, vector);
            Ok(true)
        }
    }
}

// Decides the pair of a place, where it is wanted; else nothing.
fn visit<L: Run>(
    board: &mut Board<'_, '_, L>,
    alloc: Global,
    prover: &mut Prover<'_, '_>,
    party: u32,
    member: u32,
) -> Result<bool, AllocError>
    requires party { party < L.workers + 1 }
    requires current { IsUnder L.pair L.k board.old.state.classes prover.old }
    requires place { member < places_of L.pair }
    requires below { AreCountedBelow (places_of L.pair) board.old.state member }
    ensures kept { prover.new ≡ prover.old }
    ensures closes { Closes (places_of L.pair) party board.old board.new }
    ensures split { IfOk result (λ s. s ≡ true → class_count (places_of L.pair) board.old.state.classes < class_count (places_of L.pair) board.new.state.classes) }
    ensures counted { IfOk result (λ s. s ≡ false → (board.new.state.classes ≡ board.old.state.classes) × AreCountedBelow (places_of L.pair) board.new.state (member + 1)) }
{
    if !board.is_wanted(member) {
        return Ok(false);
    }
    decide(board, alloc, prover, party, member)
}

// Visits all places. Answers whether the classes were split.
fn visit_all<L: Run>(
    board: &mut Board<'_, '_, L>,
    alloc: Global,
    prover: &mut Prover<'_, '_>,
    party: u32,
) -> Result<bool, AllocError>
    requires party { party < L.workers + 1 }
    requires current { IsUnder L.pair L.k board.old.state.classes prover.old }
    ensures closes { Closes (places_of L.pair) party board.old board.new }
    ensures split { IfOk result (λ s. s ≡ true → class_count (places_of L.pair) board.old.state.classes < class_count (places_of L.pair) board.new.state.classes) }
    ensures counted { IfOk result (λ s. s ≡ false → AllCounted (places_of L.pair) board.new.state) }
{
    for p in 0..board.places() {
        if visit(board, alloc, prover, party, p)? {
            return Ok(true);
        }
    }
    Ok(false)
}

// One pass over the places. Answers whether the classes were split.
fn pass<L: Run>(board: &mut Board<'_, '_, L>, alloc: Global, party: u32) -> Result<bool, AllocError>
    requires party { party < L.workers + 1 }
    ensures closes { Closes (places_of L.pair) party board.old board.new }
    ensures split { IfOk result (λ s. s ≡ true → class_count (places_of L.pair) board.old.state.classes < class_count (places_of L.pair) board.new.state.classes) }
    ensures counted { IfOk result (λ s. s ≡ false → AllCounted (places_of L.pair) board.new.state) }
{
    let version = board.version().copy(alloc)?;
    let mut prover = Prover::new(alloc, &version)?;
    let split = visit_all(board, alloc, &mut prover, party);
    drop(prover);
    split
}

/// Works until each needed pair is counted, as one party. What is open it takes and answers at once; a pair that is out it proves
/// too, and writes that answer as its own. A pair is proved before it is taken, so an `Err`, which is want of memory, leaves no
/// offer of the party unanswered.
pub fn finish<L: Run>(
    board: &mut Board<'_, '_, L>,
    alloc: Global,
    party: u32,
) -> Result<(), AllocError>
    requires party { party < L.workers + 1 }
    ensures closes { Closes (places_of L.pair) party board.old board.new }
    ensures settled { offer_of board.old.state party ≡ None → offer_of board.new.state party ≡ None }
    ensures counted { IfOk result (λ _. AllCounted (places_of L.pair) board.new.state) }
    ensures greatest { IfOk result (λ _. AreOfGreatest L.pair L.k board.new.state.classes) }
{
    for _round in 0..board.places() {
        if !pass(board, alloc, party)? {
            let _counted = board.places();
            return Ok(());
        }
    }
    Ok(())
}
