//! What the workers of a run take turns at. One of them at a time sweeps the pairs, on a graph that all share: what one finds equal
//! serves all. A question over a large cone is put aside, and its worker solves it away from the table, while others go on. Where it
//! rests on a pair beneath it that another worker is still settling, it is asked again when that is settled.
ghost use Rattle.std.specs.Prelude.{◌≡◌, IfErr, IfOk, IfSome, OnOk, is_some, true, false};
ghost use Rattle.and_graph.specs.Askers.{IsHalted, IsTaken};
ghost use Rattle.and_graph.specs.declared.halt.Halt.TheVariants.{Posed};
ghost use Rattle.prover_table.specs.Tables.{IsBenchOf, IsFoundFor, IsMemoryFor};

use crate::bench::{Bench, turn};
use crate::lent::Lent;
use refine_board::{Claimed, Run};
use std::alloc::{AllocError, Global};
use std::marker::{Model, PhantomData};
use verdict_stamp::{Asker, Halt, Proof, ProverMemory};

// So many workers a run has at most.
const SEATS: usize = 64;

/// The bench, where a pair was settled; until then what was proved before the run, where something was; and by worker the member of
/// the pair that it is settling, from when a question about that is put aside until it is settled. Contracts see whether there is a
/// bench, and whether there is what was proved before.
#[derive(Drop)]
pub struct Table<'v, 'p, L: Run> {
    bench: Option<Bench<'v, 'p>>,
    memory: Option<ProverMemory<'p>>,
    away: [Option<u32>; SEATS],
    due: bool,
    of: PhantomData<L>,
}

impl<'v, 'p, L: Run> Model for Table<'v, 'p, L> {
    ghost use Rattle.std.specs.Prelude.{IfSome, is_some};
    ghost use Rattle.prover_table.specs.Tables.{IsBenchOf, IsMemoryFor, Laid};

    ghost Value = { Laid };

    ghost view = { λ t. record { bench = is_some t.bench; before = is_some t.memory } };

    ghost invariant = { λ t. IfSome t.bench (IsBenchOf L.list L.pair L.k) × IfSome t.memory (IsMemoryFor L.pair L.k) };
}

impl<'v, 'p, L: Run> Table<'v, 'p, L> {
    /// A table without a bench, from which nobody is away, with what was proved before where something was.
    pub fn new(memory: Option<ProverMemory<'p>>) -> Table<'v, 'p, L>
        requires { IfSome memory (IsMemoryFor L.pair L.k) }
        ensures { result ≡ record { bench = false; before = is_some memory.entry } }
    {
        Table {
            bench: None,
            memory,
            away: [None; SEATS],
            due: false,
            of: PhantomData,
        }
    }

    /// What was proved at it, where there is a bench, and before, where something was.
    pub fn into_memory(self) -> Option<ProverMemory<'p>>
        ensures memory { IfSome result (IsMemoryFor L.pair L.k) }
        ensures bench { self.entry.bench ≡ true → is_some result ≡ true }
        ensures before { self.entry.before ≡ true → is_some result ≡ true }
    {
        let Table { bench, memory, .. } = self;
        memory_of::<L>(bench).or(memory)
    }

    /// What comes of a claimed pair at the bench, which is turned to its version. While rows wait, each pair is answered by the
    /// vector of one, which may separate other pairs than this one. A question over a large cone is put aside in the worker's asker,
    /// and that the pair isn't settled is noted.
    pub fn settle(
        &mut self,
        alloc: Global,
        lent: &Lent<'v, 'p, L>,
        asker: &mut Asker,
        claimed: &Claimed<'p, L>,
    ) -> Result<Proof<'v, 'p>, Halt>
        ensures found { IfOk result (IsFoundFor L.pair L.k claimed.now) }
        ensures most { asker.new.most ≡ asker.old.most }
        ensures halt { IfErr result (IsHalted asker.old asker.new) }
        ensures bench { OnOk result (self.new.bench ≡ true) }
        ensures aside { IfErr result (λ h. h ≡ Posed → self.new.bench ≡ true) }
    {
        self.note(claimed.party(), None);
        turn(
            alloc,
            lent,
            &mut self.bench,
            &mut self.memory,
            claimed.stamp(),
        )?;
        let found = find(alloc, lent, &mut self.bench, asker, claimed, &mut self.due);
        self.note(claimed.party(), unsettled(claimed, &found));
        found
    }

    /// Whether what workers hold was better handed in at once when the last pair was settled. A hint.
    pub fn is_due(&self) -> bool {
        self.due
    }

    // Notes the member of the pair that a worker is settling, or that there is none.
    fn note(&mut self, party: u32, member: Option<u32>)
        ensures { self.new ≡ self.old }
    {
        if (party as usize) < SEATS {
            self.away[party as usize] = member;
        }
    }

    /// Takes in the answer to the question that the asker had put aside, where there is a bench, as there is once one is put aside.
    pub fn take_answer(&mut self, alloc: Global, asker: &mut Asker) -> Result<(), AllocError>
        ensures kept { self.new ≡ self.old }
        ensures taken { OnOk result (self.old.bench ≡ true → IsTaken asker.old asker.new) }
    {
        match &mut self.bench {
            Some(bench) => bench.take_answer(alloc, asker),
            None => Ok(()),
        }
    }

    /// A worker gives its pair up.
    pub fn leaves(&mut self, party: u32)
        ensures { self.new ≡ self.old }
    {
        self.note(party, None);
    }

    // The member that is noted of a worker.
    fn member_of(&self, party: u32) -> Option<u32> {
        if (party as usize) < SEATS {
            self.away[party as usize]
        } else {
            None
        }
    }

    /// Whether a worker is still settling the pair with this member.
    pub fn is_away(&self, party: u32, member: u32) -> bool {
        self.member_of(party) == Some(member)
    }

    /// A worker that is settling a lower pair, and that pair's member, where the question rests on it that this worker's asker has put
    /// aside: it is better to wait until that is settled.
    pub fn before(&self, asker: &Asker, party: u32) -> Option<(u32, u32)>
        ensures { IfSome result (λ _. is_some asker.now.aside ≡ true) }
    {
        let Some(bench) = &self.bench else {
            return None;
        };
        let Some(own) = self.member_of(party) else {
            return None;
        };
        for other in 0..SEATS {
            if let Some(member) = self.away[other] {
                if member < own && bench.rests_on(asker, member) {
                    return Some((other as u32, member));
                }
            }
        }
        None
    }
}

// What was proved at a bench, where there is one.
fn memory_of<'p, L: Run>(bench: Option<Bench<'_, 'p>>) -> Option<ProverMemory<'p>>
    requires { IfSome bench (IsBenchOf L.list L.pair L.k) }
    ensures memory { IfSome result (IsMemoryFor L.pair L.k) }
    ensures left { is_some result ≡ is_some bench.entry }
{
    let Some(bench) = bench else {
        return None;
    };
    Some(bench.into_memory())
}

// The member of a pair of which a question is put aside.
fn unsettled<L: Run>(claimed: &Claimed<'_, L>, found: &Result<Proof<'_, '_>, Halt>) -> Option<u32> {
    match found {
        Err(Halt::Posed) => Some(claimed.pair().member),
        _ => None,
    }
}

// What comes of a claimed pair at a bench of its version: the vector of a row that waits, where there is one; else the pair
// is settled.
#[tactic(auto, using(crate::proofs::Finds::found_by, crate::proofs::Finds::splits_for))]
fn find_at<'v, 'p, L: Run>(
    alloc: Global,
    lent: &Lent<'v, 'p, L>,
    bench: &mut Bench<'v, 'p>,
    asker: &mut Asker,
    claimed: &Claimed<'p, L>,
) -> Result<Proof<'v, 'p>, Halt>
    requires version { bench.old.value ≡ claimed.now.stamp.value }
    ensures bench { bench.new ≡ bench.old }
    ensures found { IfOk result (IsFoundFor L.pair L.k claimed.now) }
    ensures most { asker.new.most ≡ asker.old.most }
    ensures halt { IfErr result (IsHalted asker.old asker.new) }
{
    let _owed = claimed.stamp();
    if let Some(vector) = bench.next_waiting(alloc, asker, lent.known)? {
        return Ok(Proof::Splits(vector));
    }
    bench.settle(alloc, asker, claimed.pair(), lent.known)
}

// The same at the bench, which there is. Says whether what workers hold is better handed in at once.
fn find<'v, 'p, L: Run>(
    alloc: Global,
    lent: &Lent<'v, 'p, L>,
    bench: &mut Option<Bench<'v, 'p>>,
    asker: &mut Asker,
    claimed: &Claimed<'p, L>,
    due: &mut bool,
) -> Result<Proof<'v, 'p>, Halt>
    requires some { is_some bench.old ≡ true }
    requires version { IfSome bench.old (λ b. b.value ≡ claimed.now.stamp.value) }
    ensures bench { bench.new ≡ bench.old }
    ensures found { IfOk result (IsFoundFor L.pair L.k claimed.now) }
    ensures most { asker.new.most ≡ asker.old.most }
    ensures halt { IfErr result (IsHalted asker.old asker.new) }
{
    let Some(at) = bench else { unreachable!() };
    let found = find_at(alloc, lent, at, asker, claimed);
    *due = at.is_due();
    found
}
