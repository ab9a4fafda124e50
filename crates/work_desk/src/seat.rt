//! What a worker brings to each call of the desk, and what the desk knows of all of them: ledgers, whose units take no bytes.
//! That each worker ended once is read off their totals when all seats are back. An answer is a unit of one of them, which only the
//! desk gives.
ghost use Rattle.std.specs.Prelude.{◌≡◌, ◌≤◌, ◌+◌, ◌*◌, ◌^◌, true, false, Contains, IfOk, None, length};
ghost use Rattle.work_desk.specs.Seats.{no_totals, AreSeats, HaveEnded};

use std::alloc::{AllocError, Global};
use std::marker::Model;
use std::sync::ledger::{Blank, Book, Ledger, Share};

/// A worker's seat: its number, and its shares. In ledger `E` the end of worker q counts 2^q. In ledger `O` each answer counts 1, and a
/// seat has two parts, one of which goes to the desk when the worker ends.
#[derive(Drop)]
pub struct Seat<E: Ledger, O: Ledger> {
    party: u32,
    weight: Share<E>,
    answers: Share<O>,
}

impl<E: Ledger, O: Ledger> Model for Seat<E, O> {
    ghost use Rattle.work_desk.specs.Seats.{Seated, seated, IsSeat};

    ghost Value = { Seated };

    ghost view = { λ s. seated s.party s.answers.parts s.answers.amount };

    ghost invariant = { λ s. IsSeat s.party s.weight.parts s.weight.amount s.answers.parts };
}

impl<E: Ledger, O: Ledger> Seat<E, O> {
    /// The worker's number.
    pub fn party(&self) -> u32
        ensures { result ≡ self.now.party }
    {
        self.party
    }
}

/// The ledgers of a run, as the desk holds them.
#[derive(Drop)]
pub struct Ledgers<E: Ledger, O: Ledger> {
    ends: Book<E>,
    spare: Share<E>,
    answered: Book<O>,
    ended: Share<O>,
}

impl<E: Ledger, O: Ledger> Model for Ledgers<E, O> {
    ghost use Rattle.std.specs.Prelude.{◌≡◌};
    ghost use Rattle.work_desk.specs.Seats.{Totals};

    ghost Value = { Totals };

    ghost view = { λ l. record { weights = l.ends.total; ends = l.ended.parts; answered = l.answered.total } };

    ghost invariant = { λ l. (l.ended.amount ≡ 0) × (l.spare.parts ≡ 0) × (l.spare.amount ≡ 0) };
}

impl<E: Ledger, O: Ledger> Ledgers<E, O> {
    /// A worker answers a pair.
    pub(crate) fn answer(&mut self, seat: &mut Seat<E, O>)
        ensures answered { self.new.answered ≡ self.old.answered + 1 }
        ensures ends { (self.new.ends ≡ self.old.ends) × (self.new.weights ≡ self.old.weights) }
        ensures seat { seat.new ≡ record seat.old { answered = seat.old.answered + 1 } }
    {
        self.answered.add(&mut seat.answers, 1);
    }

    /// A worker ends.
    pub(crate) fn end(&mut self, seat: &mut Seat<E, O>)
        requires { seat.old.ended ≡ 0 }
        ensures answered { self.new.answered ≡ self.old.answered }
        ensures ends { self.new.ends ≡ self.old.ends + 1 }
        ensures weights { self.new.weights ≡ self.old.weights + 2 ^ seat.old.party }
        ensures seat { seat.new ≡ record seat.old { ended = 1 } }
    {
        self.ends.add(&mut seat.weight, 1 << seat.party);
        seat.answers.give(&mut self.ended, 1, 0);
    }

    /// Takes the seats of all workers back, and says whether none is missing. Then each of them ended: the totals are those of one
    /// end each.
    pub(crate) fn all_back(self, told: Vec<Option<Seat<E, O>>>) -> bool
        requires ends { E.parts ≡ length told.items }
        requires parts { O.parts ≡ length told.items * 2 }
        requires ended { HaveEnded told.items }
        ensures missing { result ≡ false → Contains told.items None }
        ensures weights { result ≡ true → self.weights + 1 ≡ 2 ^ length told.items }
        ensures few { result ≡ true → self.ends ≤ length told.items }
    {
        let Ledgers {
            mut ends,
            spare: mut weights,
            mut ended,
            ..
        } = self;
        let mut parts = ended.empty();
        let mut told = told;
        while let Some(back) = told.pop() {
            let Some(seat) = back else {
                return false;
            };
            let Seat {
                weight,
                answers,
                ..
            } = seat;
            weights.merge(weight);
            parts.merge(answers);
        }
        ends.audit(&mut weights);
        ended.merge(parts);
        true
    }
}

/// The ledgers of a run, for which no name stands yet: of what the board is owed, of its workers' ends, and of their seats.
#[derive(Drop)]
pub struct Blanks {
    pub entries: Blank,
    pub ends: Blank,
    pub seats: Blank,
}

/// The ledgers of a run, and a seat for each of its workers.
pub fn seats<E: Ledger, O: Ledger>(
    alloc: Global,
    ends: Blank,
    parts: Blank,
    workers: u32,
) -> Result<(Ledgers<E, O>, Vec<Seat<E, O>>), AllocError>
    requires few { workers ≤ 64 }
    requires ends_name { ends.name ≡ E.name }
    requires ends_parts { (ends.parts ≡ E.parts) × (E.parts ≡ workers) }
    requires seats_name { parts.name ≡ O.name }
    requires seats_parts { (parts.parts ≡ O.parts) × (O.parts ≡ workers * 2) }
    ensures totals { IfOk result (λ r. r.0 ≡ no_totals) }
    ensures seats { IfOk result (λ r. AreSeats workers r.1.items) }
{
    let (ends, mut weights) = ends.open::<E>();
    let (answered, mut left) = parts.open::<O>();
    let mut seats = Vec::new(alloc);
    for party in 0..workers {
        let weight = weights.split_off(1, 0);
        let answers = left.split_off(2, 0);
        seats.push(Seat {
            party,
            weight,
            answers,
        })?;
    }
    Ok((
        Ledgers {
            ends,
            spare: weights,
            answered,
            ended: left,
        },
        seats,
    ))
}
