//! What the calls of a board hand out.
ghost use Rattle.std.specs.Prelude.{◌≡◌, ◌≤◌, IfErr, IfOk, length};
ghost use Rattle.refine_board.specs.Running.{IsClaiming, IsOwed, IsRunStamp, claiming_of};

use crate::run::Run;
use class_partition::Needed;
use std::marker::Model;
use std::sync::ledger::Share;
use verdict_stamp::{Stamp, Versions};

/// A pair that a party has, for which it owes the board an answer: a unit of the run's ledger.
#[derive(Drop)]
pub(crate) struct Debt<L: Run> {
    pub(crate) party: u32,
    pub(crate) pair: Needed,
    pub(crate) number: u32,
    pub(crate) unit: Share<L>,
}

impl<L: Run> Model for Debt<L> {
    ghost use Rattle.std.specs.Prelude.{◌≡◌, ◌<◌, ◌+◌};
    ghost use Rattle.refine_board.specs.Running.{Indebted};

    ghost Value = { Indebted };

    ghost view = { λ d. record { party = d.party; pair = d.pair; number = d.number } };

    ghost invariant = { λ d. (d.unit.amount ≡ 1) × (d.unit.parts ≡ 1) × (d.party < L.workers + 1) };
}

/// A pair that was given to a party, which owes the board an answer for it, and the stamp of the version under which it is to
/// be proved: a version of the run's list, with the classes that the board had when the offer was made.
#[derive(Drop)]
pub struct Offer<'p, L: Run> {
    pub(crate) debt: Debt<L>,
    pub(crate) stamp: Stamp<'p>,
}

impl<'p, L: Run> Model for Offer<'p, L> {
    ghost use Rattle.refine_board.specs.Running.{Owed, owed_of, IsOwed};

    ghost Value = { Owed };

    ghost view = { λ o. owed_of o.debt o.stamp };

    ghost invariant = { λ o. IsOwed L.pair L.k L.list (owed_of o.debt o.stamp) };
}

impl<'p, L: Run> Offer<'p, L> {
    /// The party.
    pub fn party(&self) -> u32
        ensures { result ≡ self.now.party }
    {
        self.debt.party
    }

    /// The pair.
    pub fn pair(&self) -> Needed
        ensures { result ≡ self.now.pair }
    {
        self.debt.pair
    }

    /// The board's number when the offer was made.
    pub fn number(&self) -> u32
        ensures { result ≡ self.now.number }
    {
        self.debt.number
    }

    /// The stamp of the version under which the pair is to be proved.
    pub fn stamp(&self) -> &Stamp<'p>
        ensures stamp { result.now ≡ self.entry.now.stamp }
        ensures owed { IsOwed L.pair L.k L.list self.entry.now }
    {
        &self.stamp
    }

    // What the party owes.
    pub(crate) fn into_debt(self) -> Debt<L>
        ensures party { result.party ≡ self.entry.party }
        ensures pair { result.pair ≡ self.entry.pair }
    {
        let Offer { debt, .. } = self;
        debt
    }
}

/// Leave for a party to answer one pair of a version that was published: two units of the run's ledger, for the entry that offers the
/// pair and for its answer.
#[derive(Drop)]
pub struct Pass<'p, L: Run> {
    pub(crate) party: u32,
    pub(crate) stamp: Stamp<'p>,
    pub(crate) unit: Share<L>,
}

impl<'p, L: Run> Model for Pass<'p, L> {
    ghost use Rattle.std.specs.Prelude.{◌≡◌, ◌<◌, ◌+◌};
    ghost use Rattle.refine_board.specs.Running.{Allowed, IsRunStamp};

    ghost Value = { Allowed };

    ghost view = { λ a. record { party = a.party; stamp = a.stamp } };

    ghost invariant = { λ a. (a.unit.amount ≡ 2) × (a.unit.parts ≡ 2) × (a.party < L.workers + 1) × IsRunStamp L.pair L.k L.list a.stamp };
}

impl<'p, L: Run> Pass<'p, L> {
    /// The party.
    pub fn party(&self) -> u32
        ensures { result ≡ self.now.party }
    {
        self.party
    }

    /// The stamp of the version.
    pub fn stamp(&self) -> &Stamp<'p>
        ensures stamp { result.now ≡ self.entry.now.stamp }
        ensures own { IsRunStamp L.pair L.k L.list self.entry.now.stamp }
    {
        &self.stamp
    }

    /// The pass for the pair with this index of those that the version was published with; where they are fewer, the pass as it is.
    pub fn at(self, versions: &Versions<'p>, index: u32) -> Result<Claimed<'p, L>, Pass<'p, L>>
        requires { versions.now ≡ L.list }
        ensures ok { IfOk result (λ c. c ≡ claiming_of self.entry index c.pair) }
        ensures err { IfErr result (λ p. (p ≡ self.entry) × (length self.entry.stamp.value.pending ≤ index)) }
    {
        match versions.open_pair(&self.stamp, index) {
            Some(pair) => Ok(Claimed {
                pass: self,
                index,
                pair,
            }),
            None => Err(self),
        }
    }
}

/// A pass, and the pair that it is for: the one with this index of those that its version was published with.
#[derive(Drop)]
pub struct Claimed<'p, L: Run> {
    pub(crate) pass: Pass<'p, L>,
    pub(crate) index: u32,
    pub(crate) pair: Needed,
}

impl<'p, L: Run> Model for Claimed<'p, L> {
    ghost use Rattle.refine_board.specs.Running.{Claiming, IsClaiming, claiming_of};

    ghost Value = { Claiming };

    ghost view = { λ c. claiming_of c.pass c.index c.pair };

    ghost invariant = { λ c. IsClaiming L.pair L.k L.list (claiming_of c.pass c.index c.pair) };
}

impl<'p, L: Run> Claimed<'p, L> {
    /// The party.
    pub fn party(&self) -> u32
        ensures { result ≡ self.now.party }
    {
        self.pass.party
    }

    /// The pair.
    pub fn pair(&self) -> Needed
        ensures { result ≡ self.now.pair }
    {
        self.pair
    }

    /// The stamp of the version under which the pair is to be proved.
    pub fn stamp(&self) -> &Stamp<'p>
        ensures stamp { result.now ≡ self.entry.now.stamp }
        ensures claiming { IsClaiming L.pair L.k L.list self.entry.now }
    {
        &self.pass.stamp
    }

    /// The pass, without the pair.
    pub fn into_pass(self) -> Pass<'p, L>
        ensures { (result.party ≡ self.entry.party) × (result.stamp ≡ self.entry.stamp) }
    {
        let Claimed { pass, .. } = self;
        pass
    }
}

/// What a party is answered that looks for work.
#[derive(Drop)]
pub enum Look<'p, L: Run> {
    /// It may answer one pair of this version.
    Work(Pass<'p, L>),
    /// Each pair of the version was claimed from the word, which stood so.
    Wait(u64),
    /// Each needed pair is counted.
    Done,
}

/// What a party is answered that asks for work.
#[derive(Drop)]
pub enum Take<'p, L: Run> {
    /// The open pair with the least member.
    Offer(Offer<'p, L>),
    /// No pair is open, and some is out.
    Idle,
    /// Each needed pair is counted.
    Done,
}

/// What comes of a verdict.
#[derive(Drop)]
pub enum Kept {
    /// The pair is counted.
    Counted,
    /// The verdict is of another pair of netlists or k; or it rests on other classes than the board's, or on a pair that these have apart;
    /// or it is of a pair that isn't needed.
    Stale,
}

/// What comes of a vector.
#[derive(Drop)]
pub enum Cut {
    /// The classes were split, into so many more.
    Split(u32),
    /// The vector splits no class.
    Already,
    /// The vector is of another pair of netlists or another k.
    Foreign,
}
