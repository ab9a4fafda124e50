//! What the workers of a run share.
ghost use Rattle.std.specs.Prelude.{◌≡◌, IfSome, length};
ghost use Rattle.prover_table.specs.Tables.{IsMemoryFor};
ghost use Rattle.work_desk.specs.Desks.{IsOutcome};
ghost use Rattle.work_desk.specs.Seats.{HaveEnded};

use bell::Bell;
use prover_table::{Lent, Table};
use refine_board::{Journal, Run};
use std::mem;
use std::sync::ledger::Ledger;
use verdict_stamp::{ProverMemory, Version};
use work_desk::{Desk, Seat};

// What was proved at a table.
fn memory_at<'p, L: Run>(table: Bell<Table<'_, 'p, L>>) -> Option<ProverMemory<'p>>
    ensures { IfSome result (IsMemoryFor L.pair L.k) }
{
    table.into_inner().into_memory()
}

/// The desk behind its lock, with the bell that wakes those who wait for work; the table at which workers take turns, behind a lock of
/// its own; and what is read without a lock. Who has both locks took that of the table first.
#[derive(Drop)]
pub(crate) struct Room<'v, 'p, L: Run, E: Ledger, O: Ledger> {
    pub(crate) desk: Bell<Desk<'v, 'p, L, E, O>>,
    pub(crate) table: Bell<Table<'v, 'p, L>>,
    pub(crate) lent: Lent<'v, 'p, L>,
}

impl<'v, 'p, L: Run, E: Ledger, O: Ledger> Room<'v, 'p, L, E, O> {
    /// A room in which nobody has worked yet, with what was proved before where something was.
    pub(crate) fn new(
        desk: Desk<'v, 'p, L, E, O>,
        lent: Lent<'v, 'p, L>,
        memory: Option<ProverMemory<'p>>,
    ) -> Room<'v, 'p, L, E, O>
        requires { IfSome memory (IsMemoryFor L.pair L.k) }
    {
        Room {
            desk: Bell::new(desk),
            table: Bell::new(Table::new(memory)),
            lent,
        }
    }

    /// What the run came to, when all workers have gone. What was proved goes into the memory.
    pub(crate) fn close(
        self,
        told: Vec<Option<Seat<E, O>>>,
        memory: &mut Option<ProverMemory<'p>>,
    ) -> Option<(Version<'p>, Journal)>
        requires all { length told.items ≡ L.workers }
        requires ended { HaveEnded told.items }
        ensures outcome { IfSome result (λ r. IsOutcome L.pair L.k L.workers L.opening r.0 r.1.entries) }
        ensures memory { IfSome memory.new (IsMemoryFor L.pair L.k) }
    {
        let Room { desk, table, .. } = self;
        drop(mem::replace(memory, memory_at(table)));
        desk.into_inner().close(told)
    }
}
