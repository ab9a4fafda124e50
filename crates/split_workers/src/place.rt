//! A worker's place at the table: its asker, and the table while it has the turn.
ghost use Rattle.std.specs.Prelude.{IfOk};
ghost use Rattle.prover_table.specs.Tables.{IsFoundFor};

use crate::room::Room;
use bell::{Bell, Locked};
use prover_table::{Lent, Table};
use refine_board::{Claimed, Run};
use std::alloc::{AllocError, Global};
use std::sync::Wait;
use std::sync::ledger::Ledger;
use verdict_stamp::{Asker, Halt, Proof};

// A question over a cone of more nodes than so many is solved away from the table, where there are others to go on there.
const LARGE: u32 = 100;

// So it is where refutations of such questions had so many lines of late: easy ones are answered sooner at the table, and what they
// teach is there for the others.
const HARD: u64 = 200;

/// A worker's asker, the table, and the turn at it while the worker has it.
#[derive(Drop)]
pub(crate) struct Place<'r, 'v, 'p, L: Run> {
    alloc: Global,
    lent: &'r Lent<'v, 'p, L>,
    table: &'r Bell<Table<'v, 'p, L>>,
    asker: Asker,
    turn: Option<Locked<'r, Table<'v, 'p, L>>>,
    due: bool,
}

// An asker of one of so many workers: one that is alone has each question answered at once.
fn asker_of(alloc: Global, workers: u32) -> Result<Asker, AllocError> {
    if workers == 1 {
        return Asker::new(alloc);
    }
    Asker::posing(alloc, LARGE, HARD)
}

impl<'r, 'v, 'p, L: Run> Place<'r, 'v, 'p, L> {
    /// A place of a worker that hasn't the turn.
    pub(crate) fn new<E: Ledger, O: Ledger>(
        alloc: Global,
        room: &'r Room<'v, 'p, L, E, O>,
    ) -> Result<Place<'r, 'v, 'p, L>, AllocError> {
        Ok(Place {
            alloc,
            lent: &room.lent,
            table: &room.table,
            asker: asker_of(alloc, room.lent.workers)?,
            turn: None,
            due: false,
        })
    }

    /// Whether it has the turn.
    pub(crate) fn has_turn(&self) -> bool {
        self.turn.is_some()
    }

    /// Lets the turn go, if it has it.
    pub(crate) fn let_go(&mut self) {
        self.turn = None;
    }

    // The table, when it is the worker's turn.
    fn at_table(&mut self, rt: &impl Wait) -> Locked<'r, Table<'v, 'p, L>> {
        match self.turn.take() {
            Some(table) => table,
            None => self.table.lock(rt),
        }
    }

    /// Takes its turn, if it hasn't the turn.
    pub(crate) fn take_turn(&mut self, rt: &impl Wait) {
        self.turn = Some(self.at_table(rt));
    }

    /// Settles a claimed pair as far as the table shows it.
    pub(crate) fn settle(
        &mut self,
        rt: &impl Wait,
        claimed: &Claimed<'p, L>,
    ) -> Result<Proof<'v, 'p>, Halt>
        ensures { IfOk result (IsFoundFor L.pair L.k claimed.now) }
    {
        let mut table = self.at_table(rt);
        let found = table
            .value()
            .settle(self.alloc, self.lent, &mut self.asker, claimed);
        self.due = table.value().is_due();
        self.turn = Some(table);
        found
    }

    /// Whether what the worker holds is better handed in at once.
    pub(crate) fn is_due(&self) -> bool {
        self.due
    }

    /// A worker that is settling a lower pair, and that pair's member, where the question that is put aside rests on it.
    pub(crate) fn before(&mut self, rt: &impl Wait, party: u32) -> Option<(u32, u32)> {
        let mut table = self.at_table(rt);
        let before = table.value().before(&self.asker, party);
        self.turn = Some(table);
        before
    }

    /// Lets the turn go, and sleeps while a worker is still settling the pair with this member.
    pub(crate) fn wait_for(&mut self, rt: &impl Wait, party: u32, member: u32) {
        self.turn = None;
        self.table
            .wait_while(rt, |table| table.is_away(party, member));
    }

    /// Lets the turn go, and solves the question that is put aside.
    pub(crate) fn solve(&mut self) -> Result<(), AllocError> {
        self.turn = None;
        self.asker.solve(self.alloc)
    }

    /// Takes the answer in that solving came to. Where memory ran out the worker gives its pair up, for which others may wait.
    pub(crate) fn take_answer(
        &mut self,
        rt: &impl Wait,
        party: u32,
        solved: Result<(), AllocError>,
    ) -> Result<(), AllocError> {
        let mut table = self.at_table(rt);
        let taken = match solved {
            Ok(()) => table.value().take_answer(self.alloc, &mut self.asker),
            Err(error) => Err(error),
        };
        if taken.is_err() {
            table.value().leaves(party);
        }
        self.turn = Some(table);
        taken
    }
}
