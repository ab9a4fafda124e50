//! A worker: it asks for a pass, claims a pair for it, settles it when it has the turn at the table, and answers, until each pair is
//! counted or memory runs out. Questions over large cones it solves away from the table. Pairs that it finds apart it answers together,
//! since each split publishes the version anew.
ghost use Rattle.std.specs.Prelude.{◌≡◌, ◌+◌, ◌<◌, IfNone, IfOk, IfSome, OnErr, OnOk, OnSome, false, true};
ghost use Rattle.prover_table.specs.Tables.{IsFoundFor};
ghost use Rattle.work_desk.specs.Seats.{HasEnded};
ghost use Rattle.split_workers.specs.Workers.{HasAnsweredClaims, HasInHand, HasNoneInHand, HasOneMore, IsAccountedFor, IsAtWork, IsSameWorker, IsTold};

use crate::place::Place;
use crate::room::Room;
use refine_board::{Claimed, Pass, Run};
use sec_base::Gate;
use std::alloc::{AllocError, Global};
use std::marker::Model;
use std::sync::Wait;
use std::sync::ledger::Ledger;
use verdict_stamp::{Halt, Proof, Versions};
use work_desk::{Asked, Caller, Request, Seat, Separated, Ticket};

// So many vectors a worker holds at most, where places are few. Each splits the classes for all, so one that holds many has itself and
// others prove pairs in vain, and finds pairs apart by rows that it holds already.
const MOST: u64 = 64;

// And one for each so many places, where that is more: each time that vectors are handed in, a version of all places is published,
// which stays, and pairs of all places are open again.
const EACH: u64 = 2048;

// How many vectors of so many places a worker holds at most: no more than a quarter of a gigabyte of them.
fn most_of(places: u32) -> usize {
    let places = places as u64;
    MOST.max(places / EACH).min((1u64 << 31) / (places + 1)) as usize
}

/// A worker, with its place at the table, the pairs that it found apart, each with a vector, and the claim that it holds, if its version
/// came after that of the pass which it was to be answered by.
#[derive(Drop)]
pub(crate) struct Worker<'r, 'v, 'p, L: Run, E: Ledger, O: Ledger, G: Gate> {
    desk: Caller<'r, 'v, 'p, L, E, O, G>,
    place: Place<'r, 'v, 'p, L>,
    versions: &'v Versions<'p>,
    ticket: Option<Ticket>,
    pocket: Vec<Separated<'p, L>>,
    most: usize,
}

impl<'r, 'v, 'p, L: Run, E: Ledger, O: Ledger, G: Gate> Model for Worker<'r, 'v, 'p, L, E, O, G> {
    ghost use Rattle.std.specs.Prelude.{◌≡◌, length};
    ghost use Rattle.split_workers.specs.Workers.{Working, working};

    ghost Value = { Working };

    ghost view = { λ w. working w.desk (length w.pocket.items) w.ticket };

    ghost invariant = { λ w. w.versions.now ≡ L.list };
}

impl<'r, 'v, 'p, L: Run, E: Ledger, O: Ledger, G: Gate> Worker<'r, 'v, 'p, L, E, O, G> {
    fn into_seat(self) -> Seat<E, O>
        ensures { (result.party ≡ self.entry.party) × (result.ended ≡ self.entry.ended) × (result.answered ≡ self.entry.answered) }
    {
        let Worker {
            desk,
            place,
            pocket,
            ..
        } = self;
        drop(place);
        drop(pocket);
        desk.into_seat()
    }

    fn is_holding(&self) -> bool {
        self.pocket.len() > 0
    }

    fn is_full(&self) -> bool {
        self.pocket.len() > self.most || (self.place.is_due() && self.is_holding())
    }

    // Waits until there is something to do, where the version whose word stood so has no pair left.
    fn wait(&mut self, rt: &impl Wait, word: u64)
        ensures { self.new ≡ self.old }
    {
        self.place.let_go();
        self.desk.wait(rt, word);
    }

    // Lets those have their turn who have a pair in hand.
    fn give_way(&mut self, rt: &impl Wait)
        ensures { self.new ≡ self.old }
    {
        self.place.let_go();
        self.desk.give_way(rt);
    }

    // Takes its turn, if it hasn't the turn.
    fn take_turn(&mut self, rt: &impl Wait)
        ensures { self.new ≡ self.old }
    {
        self.place.take_turn(rt);
    }

    // Asks for work.
    fn ask(&mut self, rt: &impl Wait) -> Asked<'p, L>
        requires { IsAtWork self.old.party self.old }
        ensures { IsTold L.workers self.old self.new result }
    {
        let request = Request {
            has_turn: self.place.has_turn(),
            is_holding: self.ticket.is_some(),
        };
        self.desk.ask(rt, self.pocket.last(), request)
    }

    // Gives a pass back.
    fn give_back(&mut self, rt: &impl Wait, pass: Pass<'p, L>)
        ensures { self.new ≡ self.old }
    {
        let has_turn = self.place.has_turn();
        self.desk.give_back(rt, pass, has_turn);
    }

    // The claim that it holds, or else one that it makes; and whether it held it.
    fn claim(&mut self, rt: &impl Wait) -> Option<(Ticket, bool)>
        ensures kept { IfSome result (λ r. r.1 ≡ true → (self.old.kept ≡ 1) × (self.new ≡ record self.old { kept = 0 })) }
        ensures made { IfSome result (λ r. r.1 ≡ false → (self.old.kept ≡ 0) × (self.new ≡ record self.old { claims = self.old.claims + 1 })) }
        ensures none { IfNone result ((self.old.kept ≡ 0) × (self.new ≡ self.old)) }
    {
        if let Some(ticket) = self.ticket.take() {
            return Some((ticket, true));
        }
        let ticket = self.desk.claim(rt)?;
        Some((ticket, false))
    }

    // The pair that it claims for a pass. Where there is none left, or it is of another version, the pass goes back; a new claim is kept
    // for another pass.
    fn take_up(&mut self, rt: &impl Wait, pass: Pass<'p, L>) -> Option<Claimed<'p, L>>
        ensures party { IfSome result (λ c. c.party ≡ pass.entry.party) }
        ensures some { OnSome result (HasInHand self.old self.new) }
        ensures none { IfNone result (HasNoneInHand self.old self.new) }
    {
        let Some((ticket, was_held)) = self.claim(rt) else {
            self.give_back(rt, pass);
            return None;
        };
        match self.desk.take_up(self.versions, pass, ticket) {
            Ok(claimed) => Some(claimed),
            Err(pass) => {
                if !was_held {
                    self.ticket = Some(ticket);
                }
                self.give_back(rt, pass);
                None
            }
        }
    }

    // Settles a claimed pair as far as the table shows it, for which it waits if it hasn't the turn.
    fn find(&mut self, rt: &impl Wait, claimed: &Claimed<'p, L>) -> Result<Proof<'v, 'p>, Halt>
        ensures kept { self.new ≡ self.old }
        ensures found { IfOk result (IsFoundFor L.pair L.k claimed.now) }
    {
        let Worker { desk, place, .. } = self;
        if !place.has_turn() {
            place.take_turn(rt);
            desk.came(rt);
        }
        place.settle(rt, claimed)
    }

    // Away from the table solves the question that is put aside; or, where it rests on a lower pair that another is settling, waits
    // until that is settled.
    fn solve(&mut self, rt: &impl Wait) -> Result<(), AllocError>
        ensures { self.new ≡ self.old }
    {
        let Worker { desk, place, .. } = self;
        let party = desk.party();
        if let Some((other, member)) = place.before(rt, party) {
            place.wait_for(rt, other, member);
            desk.comes(rt);
            return Ok(());
        }
        let solved = place.solve();
        desk.comes(rt);
        place.take_turn(rt);
        desk.came(rt);
        place.take_answer(rt, party, solved)
    }

    // Settles a claimed pair.
    fn settle(
        &mut self,
        rt: &impl Wait,
        claimed: &Claimed<'p, L>,
    ) -> Result<Proof<'v, 'p>, AllocError>
        ensures kept { self.new ≡ self.old }
        ensures found { IfOk result (IsFoundFor L.pair L.k claimed.now) }
    {
        for _turn in rt.forever() {
            match self.find(rt, claimed) {
                Ok(proof) => return Ok(proof),
                Err(Halt::Memory) => return Err(AllocError),
                Err(Halt::Posed) => self.solve(rt)?,
            }
        }
        unreachable!()
    }

    // Answers that a claimed pair holds, or puts it into the pocket with a vector. Where memory ran out its pass goes back.
    fn answer(&mut self, rt: &impl Wait, claimed: Claimed<'p, L>) -> Result<(), AllocError>
        requires party { claimed.party < L.workers }
        ensures same { IsSameWorker self.old self.new }
        ensures ok { OnOk result (HasOneMore self.old self.new) }
        ensures err { OnErr result (self.new ≡ self.old) }
    {
        self.desk.works();
        match self.settle(rt, &claimed) {
            Ok(Proof::Holds(verdict)) => {
                self.desk.keep(rt, claimed, verdict);
                Ok(())
            }
            Ok(Proof::Splits(vector)) => self.hold(rt, Separated::new(claimed, vector)),
            Err(error) => {
                self.desk.stop_with(rt, claimed.into_pass());
                Err(error)
            }
        }
    }

    // Puts a pair into the pocket with a vector. Where memory ran out its pass goes back.
    fn hold(&mut self, rt: &impl Wait, found: Separated<'p, L>) -> Result<(), AllocError>
        ensures same { IsSameWorker self.old self.new }
        ensures ok { OnOk result (self.new ≡ record self.old { held = self.old.held + 1 }) }
        ensures err { OnErr result (self.new ≡ self.old) }
    {
        if self.pocket.reserve(1).is_err() {
            self.desk.stop_with(rt, found.into_claimed().into_pass());
            return Err(AllocError);
        }
        self.pocket.push_reserved(found);
        Ok(())
    }

    // Answers all pairs that the worker found apart.
    fn hand_in(&mut self, rt: &impl Wait)
        ensures { self.new ≡ record self.old { answered = self.old.answered + self.old.held; held = 0 } }
    {
        while let Some(found) = self.pocket.pop() {
            self.desk.split(rt, found);
        }
    }

    // Leaves a run for want of memory: stops it, and gives all passes back that the worker holds.
    fn leave(&mut self, rt: &impl Wait)
        ensures { self.new ≡ record self.old { held = 0 } }
    {
        self.desk.stop(rt);
        while let Some(held) = self.pocket.pop() {
            self.desk.stop_with(rt, held.into_claimed().into_pass());
        }
    }

    // Claims a pair for a pass, and answers it.
    fn work_at(&mut self, rt: &impl Wait, pass: Pass<'p, L>) -> Result<(), AllocError>
        requires party { pass.party < L.workers }
        ensures same { IsSameWorker self.old self.new }
        ensures ok { OnOk result (IsAccountedFor self.old self.new) }
        ensures err { OnErr result (HasInHand self.old self.new) }
    {
        match self.take_up(rt, pass) {
            Some(claimed) => self.answer(rt, claimed),
            None => Ok(()),
        }
    }

    // Works until the end, and says whether it was told that each pair is counted; else memory ran out. Pairs that it found apart it
    // hands in when no pair is left, the board has another version, or they are many; where it holds none it waits. It asks once
    // before its first turn, and then when it has the turn.
    fn work(&mut self, rt: &impl Wait) -> bool
        requires going { IsAtWork self.old.party self.old }
        ensures party { self.new.party ≡ self.old.party }
        ensures ended { result ≡ true → self.new.ended ≡ 1 }
        ensures held { self.new.held ≡ 0 }
        ensures claimed { HasAnsweredClaims self.old self.new }
    {
        for _turn in rt.forever() {
            match self.ask(rt) {
                Asked::Work(pass) => {
                    if self.work_at(rt, pass).is_err() {
                        self.leave(rt);
                        return false;
                    }
                }
                Asked::Moved => self.hand_in(rt),
                Asked::Idle(word) => {
                    if self.is_holding() {
                        self.hand_in(rt);
                    } else {
                        self.wait(rt, word);
                    }
                }
                Asked::Awaited => self.give_way(rt),
                Asked::Ended => {
                    self.hand_in(rt);
                    return true;
                }
                Asked::Stopped => {
                    self.leave(rt);
                    return false;
                }
            }
            if self.is_full() {
                self.hand_in(rt);
            }
            self.take_turn(rt);
        }
        unreachable!()
    }
}

/// Works in a seat until the end, and gives it back where the worker was told that each pair is counted; else memory ran
/// out.
pub(crate) fn work<'v, 'p, L: Run, E: Ledger, O: Ledger, G: Gate>(
    rt: &impl Wait,
    alloc: Global,
    room: &Room<'v, 'p, L, E, O>,
    gate: &G,
    seat: Seat<E, O>,
) -> Option<Seat<E, O>>
    requires party { seat.party < L.workers }
    requires fresh { seat.ended ≡ 0 }
    ensures { IfSome result (HasEnded seat.party) }
{
    let mut desk = Caller::new(rt, &room.desk, gate, seat);
    let Ok(place) = Place::new(alloc, room) else {
        desk.stop(rt);
        drop(desk);
        return None;
    };
    let mut worker = Worker {
        desk,
        place,
        versions: room.lent.versions,
        ticket: None,
        pocket: Vec::new(alloc),
        most: most_of(room.lent.places),
    };
    if !worker.work(rt) {
        drop(worker);
        return None;
    }
    Some(worker.into_seat())
}
