//! A worker's calls of the desk: each goes past the gate and locks the desk, and the bell rings where it lets it go. Its claims go to
//! the word, past no lock.
ghost use Rattle.std.specs.Prelude.{◌≡◌, ◌≢◌, ◌⊎◌, ◌<◌, ◌≤◌, IfOk, IfErr, IfSome, IfNone, length};
ghost use Rattle.claim_word.specs.Seats.{beside};
ghost use Rattle.refine_board.specs.Running.{IsAbout, claiming_of};
ghost use Rattle.work_desk.specs.Seats.{HasAnswered, HasClaimed, HasFoundNone, Seated, calling};
ghost use Rattle.work_desk.specs.Desks.{IsCalled};

use crate::desk::{Asked, Desk, Request};
use crate::seat::Seat;
use crate::separated::Separated;
use bell::Bell;
use claim_word::{Claim, ClaimWord};
use refine_board::{Claimed, Pass, Run};
use sec_base::Gate;
use std::marker::Model;
use std::sync::Wait;
use std::sync::ledger::Ledger;
use verdict_stamp::{Verdict, Versions};

// A worker at the gate, which is told the number of each of its calls.
#[derive(Drop)]
struct Turnstile<'r, G: Gate> {
    gate: &'r G,
    worker: u32,
    call: u64,
}

impl<'r, G: Gate> Turnstile<'r, G> {
    // Before a call.
    fn hold(&self) {
        self.gate.hold(self.worker, self.call);
    }

    // After it. The number stays where it is the greatest.
    fn told(&mut self) {
        self.gate.told(self.worker, self.call);
        self.call = self.call.saturating_add(1);
    }

    // Where a proof begins, with the number of the last call.
    fn works(&self) {
        self.gate.works(self.worker, self.call.saturating_sub(1));
    }
}

/// The pair with this index of the version of this number, which a worker claimed.
#[derive(Clone, Copy)]
pub struct Ticket {
    /// Which publication the version is.
    pub turn: u32,
    /// The index.
    pub index: u32,
}

/// A worker in its seat, from which it calls the desk, and its seat at the word.
#[derive(Drop)]
pub struct Caller<'r, 'v, 'p, L: Run, E: Ledger, O: Ledger, G: Gate> {
    desk: &'r Bell<Desk<'v, 'p, L, E, O>>,
    gate: Turnstile<'r, G>,
    seat: Seat<E, O>,
    word: &'v ClaimWord,
    claims: claim_word::Seat,
}

impl<'r, 'v, 'p, L: Run, E: Ledger, O: Ledger, G: Gate> Model for Caller<'r, 'v, 'p, L, E, O, G> {
    ghost use Rattle.std.specs.Prelude.{◌≡◌, ◌<◌};
    ghost use Rattle.work_desk.specs.Seats.{Calling, calling};

    ghost Value = { Calling };

    ghost view = { λ c. calling c.seat c.claims };

    ghost invariant = { λ c. (c.seat.party < L.workers) × (c.word.now ≡ L.word) × (c.claims.word ≡ L.word) };
}

impl<'r, 'v, 'p, L: Run, E: Ledger, O: Ledger, G: Gate> Caller<'r, 'v, 'p, L, E, O, G> {
    /// Takes a seat, and one at the word.
    pub fn new(
        rt: &impl Wait,
        desk: &'r Bell<Desk<'v, 'p, L, E, O>>,
        gate: &'r G,
        seat: Seat<E, O>,
    ) -> Caller<'r, 'v, 'p, L, E, O, G>
        requires party { seat.party < L.workers }
        ensures { result ≡ calling seat (beside L.word) }
    {
        let worker = seat.party();
        let (word, claims) = desk.lock(rt).value().claim_seat();
        Caller {
            desk,
            gate: Turnstile {
                gate,
                worker,
                call: 0,
            },
            seat,
            word,
            claims,
        }
    }

    /// Leaves it.
    pub fn into_seat(self) -> Seat<E, O>
        ensures { (result.party ≡ self.entry.party) × (result.ended ≡ self.entry.ended) × (result.answered ≡ self.entry.answered) }
    {
        let Caller { seat, .. } = self;
        seat
    }

    /// Tells the gate that a proof begins.
    pub fn works(&self) {
        self.gate.works();
    }

    /// Asks for work, with the last pair that the worker found apart and holds, if it holds any.
    pub fn ask(
        &mut self,
        rt: &impl Wait,
        found: Option<&Separated<'p, L>>,
        request: Request,
    ) -> Asked<'p, L>
        requires working { self.old.ended ≡ 0 }
        ensures { IsCalled L.workers self.old self.new result }
    {
        self.gate.hold();
        let asked = self
            .desk
            .lock(rt)
            .value()
            .ask(rt, &mut self.seat, found, request);
        self.gate.told();
        asked
    }

    /// Claims the next pair of the version that the word has, if one is left: by an exchange on the word, past no lock.
    pub fn claim(&mut self, rt: &impl Wait) -> Option<Ticket>
        ensures some { IfSome result (λ t. HasClaimed self.old self.new (t.turn, t.index)) }
        ensures none { IfNone result (HasFoundNone self.old self.new) }
    {
        for _turn in rt.forever() {
            match self.word.claim(&mut self.claims) {
                Claim::Mine(turn, index) => return Some(Ticket { turn, index }),
                Claim::Spent(_) => return None,
                Claim::Moved(_, _) => {}
            }
        }
        unreachable!()
    }

    /// The pass for a pair that was claimed, where it is of the pair's version.
    pub fn take_up(
        &self,
        versions: &Versions<'p>,
        pass: Pass<'p, L>,
        ticket: Ticket,
    ) -> Result<Claimed<'p, L>, Pass<'p, L>>
        requires { versions.now ≡ L.list }
        ensures ok { IfOk result (λ c. (c ≡ claiming_of pass.entry ticket.index c.pair) × (c.stamp.value.turn ≡ ticket.turn)) }
        ensures err { IfErr result (λ p. (p ≡ pass.entry) × ((p.stamp.value.turn ≢ ticket.turn) ⊎ (length p.stamp.value.pending ≤ ticket.index))) }
    {
        if versions.turn(pass.stamp()) != ticket.turn {
            return Err(pass);
        }
        pass.at(versions, ticket.index)
    }

    /// Sleeps while the version whose word stood so has no pair left, until another worker answers or stops the run. Each call rings the bell.
    pub fn wait(&self, rt: &impl Wait, word: u64) {
        self.desk.wait_while(rt, |desk| desk.is_idle(word));
    }

    /// The worker's number.
    pub fn party(&self) -> u32
        ensures { result ≡ self.now.party }
    {
        self.seat.party()
    }

    /// Tells that the worker has a pair in hand, and waits for its turn at what workers take turns at.
    pub fn comes(&self, rt: &impl Wait) {
        self.desk.lock(rt).value().comes();
    }

    /// Tells that it has its turn, for which it said that it waits.
    pub fn came(&self, rt: &impl Wait) {
        self.desk.lock(rt).value().came();
    }

    /// Sleeps while workers with a pair in hand wait for their turn.
    pub fn give_way(&self, rt: &impl Wait) {
        self.desk.wait_while(rt, |desk| desk.is_awaited());
    }

    /// Gives a pass back for which the worker claimed no pair.
    pub fn give_back(&mut self, rt: &impl Wait, pass: Pass<'p, L>, has_turn: bool)
        ensures { self.new ≡ self.old }
    {
        self.gate.hold();
        self.desk.lock(rt).value().back(pass, has_turn);
        self.gate.told();
    }

    /// Stops the run. Whoever waits then stops too.
    pub fn stop(&mut self, rt: &impl Wait)
        ensures { self.new ≡ self.old }
    {
        self.gate.hold();
        self.desk.lock(rt).value().stop();
        self.gate.told();
    }

    /// Stops the run, and gives a pass back.
    pub fn stop_with(&mut self, rt: &impl Wait, pass: Pass<'p, L>)
        ensures { self.new ≡ self.old }
    {
        self.gate.hold();
        self.desk.lock(rt).value().stop_with(pass);
        self.gate.told();
    }

    /// Answers that a claimed pair holds.
    pub fn keep(&mut self, rt: &impl Wait, claimed: Claimed<'p, L>, verdict: Verdict<'_, '_>)
        requires party { claimed.party < L.workers }
        requires about { IsAbout verdict claimed.pair }
        requires version { verdict.version ≡ claimed.stamp.value.version }
        ensures { HasAnswered self.old self.new }
    {
        self.gate.hold();
        self.desk
            .lock(rt)
            .value()
            .keep(&mut self.seat, claimed, verdict);
        self.gate.told();
    }

    /// Answers a vector that separates a claimed pair.
    pub fn split(&mut self, rt: &impl Wait, found: Separated<'p, L>)
        ensures { HasAnswered self.old self.new }
    {
        let Separated { claimed, vector } = found;
        self.gate.hold();
        self.desk
            .lock(rt)
            .value()
            .split(&mut self.seat, claimed, vector);
        self.gate.told();
    }
}
