//! What lies under the lock of a run: its board, what the ends and answers of its workers say of it, and whether memory ran out.
ghost use Rattle.std.specs.Prelude.{◌≡◌, ◌<◌, ◌≤◌, ◌+◌, ◌*◌, ◌^◌, ◌⊎◌, [], true, false, length, Contains, IfNone, IfSome, is_some, None};
ghost use Rattle.circ_model.specs.Meaning.{places_of};
ghost use Rattle.claim_word.specs.Seats.{beside};
ghost use Rattle.class_partition.specs.Classes.{AreOfGreatest};
ghost use Rattle.refine_board.specs.States.{AllCounted};
ghost use Rattle.refine_board.specs.Running.{IsAbout, IsOf};
ghost use Rattle.work_desk.specs.Seats.{HaveEnded, no_totals};
ghost use Rattle.work_desk.specs.Desks.{HasMoved, IsAskedOf, IsCutAt, IsKeptAt, IsOutcome, held};

use crate::seat::{Ledgers, Seat};
use crate::separated::Separated;
use claim_word::ClaimWord;
use refine_board::{Board, Claimed, Journal, Look, Pass, Run};
use std::marker::Model;
use std::sync::Wait;
use std::sync::ledger::Ledger;
use verdict_stamp::{Vector, Verdict, Version};

/// What a worker is answered that asks for work.
#[derive(Drop)]
pub enum Asked<'p, L: Run> {
    /// It may answer one pair of this version, which it is to claim.
    Work(Pass<'p, L>),
    /// Each pair of the version was claimed; its word stood so.
    Idle(u64),
    /// The board has another version, and the worker still holds pairs that it found apart.
    Moved,
    /// Another worker has a pair in hand, and waits for its turn.
    Awaited,
    /// Each pair is counted.
    Ended,
    /// Memory ran out, here or elsewhere: the worker is to stop.
    Stopped,
}

/// How a worker asks for work.
#[derive(Clone, Copy)]
pub struct Request {
    /// Whether it has the turn.
    pub has_turn: bool,
    /// Whether it holds a claim.
    pub is_holding: bool,
}

/// The locked value. Beside board and ledgers it counts the workers that have a pair in hand and wait for their turn.
#[derive(Drop)]
pub struct Desk<'v, 'p, L: Run, E: Ledger, O: Ledger> {
    board: Board<'v, 'p, L>,
    ledgers: Ledgers<E, O>,
    stopped: bool,
    coming: u32,
}

impl<'v, 'p, L: Run, E: Ledger, O: Ledger> Model for Desk<'v, 'p, L, E, O> {
    ghost use Rattle.work_desk.specs.Desks.{IsRun, Held, held};

    ghost Value = { Held };

    ghost view = { λ d. held d.board d.stopped };

    ghost invariant = { λ d. IsRun L.pair L.k L.workers d.board d.ledgers E.parts O.parts };
}

// Whether the board has another version than the one of a pair that was found apart.
fn has_moved<'p, L: Run>(board: &Board<'_, 'p, L>, found: Option<&Separated<'p, L>>) -> bool
    ensures some { result ≡ true → is_some found.entry ≡ true }
    ensures moved { result ≡ true → IfSome found.entry (λ f. HasMoved board.now f.now.stamp) }
{
    match found {
        Some(found) => !board.is_stamped(found.claimed.stamp()),
        None => false,
    }
}

// A worker's end, where each pair is counted.
fn end<L: Run, E: Ledger, O: Ledger>(
    board: &Board<'_, '_, L>,
    ledgers: &mut Ledgers<E, O>,
    seat: &mut Seat<E, O>,
)
    requires all { AllCounted (places_of L.pair) board.now.state }
    requires working { seat.old.ended ≡ 0 }
    ensures greatest { AreOfGreatest L.pair L.k board.now.state.classes }
    ensures ends { ledgers.new.ends ≡ ledgers.old.ends + 1 }
    ensures weights { ledgers.new.weights ≡ ledgers.old.weights + 2 ^ seat.old.party }
    ensures answered { ledgers.new.answered ≡ ledgers.old.answered }
    ensures seat { seat.new ≡ record seat.old { ended = 1 } }
{
    let done = board.done();
    prove!(done);
    ledgers.end(seat);
}

impl<'v, 'p, L: Run, E: Ledger, O: Ledger> Desk<'v, 'p, L, E, O> {
    /// A desk on which a run begins.
    pub fn new(board: Board<'v, 'p, L>, ledgers: Ledgers<E, O>) -> Desk<'v, 'p, L, E, O>
        requires workers { (0 < L.workers) × (L.workers ≤ 64) }
        requires ends { E.parts ≡ L.workers }
        requires seats { O.parts ≡ L.workers * 2 }
        requires totals { ledgers ≡ no_totals }
        requires empty { board.entries ≡ [] }
        ensures { result ≡ held board.entry false }
    {
        Desk {
            board,
            ledgers,
            stopped: false,
            coming: 0,
        }
    }

    /// The word from which pairs are claimed, and a seat at it.
    pub(crate) fn claim_seat(&mut self) -> (&'v ClaimWord, claim_word::Seat)
        ensures desk { self.new ≡ self.old }
        ensures word { result.0.now ≡ L.word }
        ensures seat { result.1 ≡ beside L.word }
    {
        self.board.claim_seat()
    }

    /// Asks for work, with the last pair that the worker found apart and holds, if it holds any.
    pub(crate) fn ask(
        &mut self,
        rt: &impl Wait,
        seat: &mut Seat<E, O>,
        found: Option<&Separated<'p, L>>,
        request: Request,
    ) -> Asked<'p, L>
        requires party { seat.old.party < L.workers }
        requires working { seat.old.ended ≡ 0 }
        ensures asked { IsAskedOf seat.old seat.new result }
        ensures awaited { result ≡ Asked.Awaited → request.has_turn ≡ true }
        ensures some { result ≡ Asked.Moved → is_some found.entry ≡ true }
        ensures moved { result ≡ Asked.Moved → IfSome found.entry (λ f. HasMoved self.old.board f.now.stamp) }
    {
        let Desk {
            board,
            ledgers,
            stopped,
            coming,
        } = self;
        if *stopped {
            return Asked::Stopped;
        }
        if request.has_turn && *coming > 0 && !request.is_holding {
            return Asked::Awaited;
        }
        if has_moved(board, found) {
            return Asked::Moved;
        }
        match board.look(rt, seat.party(), request.is_holding) {
            Ok(Look::Work(pass)) => {
                *coming = coming.saturating_add(!request.has_turn as u32);
                Asked::Work(pass)
            }
            Ok(Look::Wait(word)) => Asked::Idle(word),
            Ok(Look::Done) => {
                end(board, ledgers, seat);
                Asked::Ended
            }
            Err(_) => Asked::Stopped,
        }
    }

    /// Answers a claimed pair by a verdict that was found under its version.
    pub(crate) fn keep(
        &mut self,
        seat: &mut Seat<E, O>,
        claimed: Claimed<'p, L>,
        verdict: Verdict<'_, '_>,
    )
        requires party { claimed.party < L.workers }
        requires about { IsAbout verdict claimed.pair }
        requires version { verdict.version ≡ claimed.stamp.value.version }
        ensures kept { IsKeptAt (places_of L.pair) self.old.board self.new.board claimed.entry verdict.entry.used }
        ensures seat { seat.new ≡ record seat.old { answered = seat.old.answered + 1 } }
    {
        let stamp = claimed.stamp().copy();
        self.board.keep_at(claimed, verdict, &stamp);
        self.ledgers.answer(seat);
    }

    /// Answers a claimed pair by a vector.
    pub(crate) fn split(
        &mut self,
        seat: &mut Seat<E, O>,
        claimed: Claimed<'p, L>,
        vector: Vector<'_>,
    )
        requires party { claimed.party < L.workers }
        requires own { IsOf L.pair L.k vector }
        ensures cut { IsCutAt (places_of L.pair) self.old.board self.new.board claimed.entry vector.entry.bits }
        ensures seat { seat.new ≡ record seat.old { answered = seat.old.answered + 1 } }
    {
        self.board.split_own_at(claimed, vector);
        self.ledgers.answer(seat);
    }

    /// Takes a pass back of a worker that claimed no pair for it.
    pub(crate) fn back(&mut self, pass: Pass<'p, L>, has_turn: bool) {
        self.coming = self.coming.saturating_sub(!has_turn as u32);
        self.board.back_at(pass);
    }

    /// Whether a worker that holds nothing has nothing to do until another answers: the version whose word stood so has no pair left.
    pub(crate) fn is_idle(&self, word: u64) -> bool {
        !self.stopped && self.board.is_spent_at(word)
    }

    /// A worker with a pair in hand waits for its turn.
    pub(crate) fn comes(&mut self) {
        self.coming = self.coming.saturating_add(1);
    }

    /// It has it.
    pub(crate) fn came(&mut self) {
        self.coming = self.coming.saturating_sub(1);
    }

    /// Whether some worker with a pair in hand waits for its turn.
    pub(crate) fn is_awaited(&self) -> bool {
        !self.stopped && self.coming > 0
    }

    /// Stops the run for want of memory.
    pub(crate) fn stop(&mut self) {
        self.stopped = true;
    }

    /// Stops the run for want of memory, and takes a pass back.
    pub(crate) fn stop_with(&mut self, pass: Pass<'p, L>) {
        self.stopped = true;
        self.board.back_at(pass);
    }

    /// The classes and the journal at the end of a run, where each worker's seat is back and memory did not run out, and else none.
    pub fn close(self, told: Vec<Option<Seat<E, O>>>) -> Option<(Version<'p>, Journal)>
        requires all { length told.items ≡ L.workers }
        requires ended { HaveEnded told.items }
        ensures outcome { IfSome result (λ r. IsOutcome L.pair L.k L.workers L.opening r.0 r.1.entries) }
        ensures none { IfNone result ((self.entry.stopped ≡ true) ⊎ Contains told.items None) }
    {
        let Desk {
            board,
            ledgers,
            stopped,
            ..
        } = self;
        if stopped {
            return None;
        }
        if !ledgers.all_back(told) {
            return None;
        }
        Some(board.close())
    }
}
