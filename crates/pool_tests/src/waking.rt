//! A worker that sleeps at a desk is woken where another one stops the run. No contract speaks of waking, so this is tested. The other
//! keeps the only pair until the first has found nothing, and stops as where memory runs out.
ghost use Rattle.std.specs.Prelude.{◌≡◌, ◌<◌, ◌≤◌, ◌*◌, ◌^◌, true};
ghost use Rattle.claim_word.specs.Words.{version_of};
ghost use Rattle.refine_board.specs.Schedules.{opened};
ghost use Rattle.work_desk.specs.Seats.{AreSeats};

use aig_graph::{BuildFault, NetBuilder, Netlist};
use bell::Bell;
use circ_model::Lit;
use claim_word::ClaimWord;
use product_machine::{PairFault, Product};
use refine_board::{Board, Run};
use sec_base::Gate;
use std::alloc::{AllocError, Global};
use std::marker::Brand;
use std::sync::Wait;
use std::sync::atomic::{AtomicU64, Ordering};
use std::sync::ledger::{Blank, Ledger};
use std::test::Fail;
use std::thread;
use std::thread::{Threads, yield_now};
use verdict_stamp::{Version, Versions};
use work_desk::{Asked, Blanks, Caller, Desk, Request, Seat, seats};

// A worker that asks without the turn, and holds no claim.
const FIRST: Request = Request {
    has_turn: false,
    is_holding: false,
};

// How many calls each of two workers was answered. The second waits at its first call until the first has been answered two.
#[derive(Drop)]
struct InTurn {
    told: [AtomicU64; 2],
}

impl InTurn {
    // Waits until a worker was answered so many calls, for so many yields at most. Whether it was.
    fn is_told(&self, worker: usize, calls: u64) -> bool
        requires { worker < 2 }
    {
        for _ in 0..1_000_000u32 {
            if self.told[worker].load(Ordering::SeqCst) >= calls {
                return true;
            }
            yield_now();
        }
        false
    }
}

impl Gate for InTurn {
    fn hold(&self, worker: u32, _call: u64) {
        if worker == 1 {
            self.is_told(0, 2);
        }
    }

    fn told(&self, worker: u32, _call: u64) {
        if worker == 0 {
            self.told[0].fetch_add(1, Ordering::SeqCst);
        } else {
            self.told[1].fetch_add(1, Ordering::SeqCst);
        }
    }

    fn works(&self, _worker: u32, _call: u64) {}
}

// A latch that toggles.
fn toggle(alloc: Global) -> Result<Netlist, BuildFault> {
    let mut net = NetBuilder::new(alloc, 1)?;
    net.output(Lit::of(1, false))?;
    net.latch(1, Lit::of(1, true), Lit::of(0, false))?;
    net.finish(alloc)
}

// Two of them: one pair is needed.
fn toggles(alloc: Global) -> Result<Product, PairFault> {
    match (toggle(alloc), toggle(alloc)) {
        (Ok(left), Ok(right)) => Product::new(alloc, left, right),
        _ => Err(PairFault::Memory),
    }
}

// Claims the pair, and stops the run when the other worker has found none and has had time to fall asleep. Whether the stop woke it,
// before the pass goes back.
fn stop_while_the_other_sleeps<L: Run, E: Ledger, O: Ledger>(
    rt: &impl Wait,
    desk: &Bell<Desk<'_, '_, L, E, O>>,
    gate: &InTurn,
    seat: Seat<E, O>,
) -> bool
    requires party { seat.party < L.workers }
    requires fresh { seat.ended ≡ 0 }
{
    let mut desk = Caller::new(rt, desk, gate, seat);
    let Asked::Work(pass) = desk.ask(rt, None, FIRST) else {
        return false;
    };
    let is_claimed = desk.claim(rt).is_some();
    let Asked::Idle(_) = desk.ask(rt, None, FIRST) else {
        return false;
    };
    let found_none = gate.is_told(1, 1);
    for _ in 0..10_000u32 {
        yield_now();
    }
    desk.stop(rt);
    let is_awake = gate.is_told(1, 2);
    desk.stop_with(rt, pass);
    is_claimed && found_none && is_awake
}

// Asks for a pair, sleeps when there is none, and asks again. Whether it was told then that it is to stop.
fn sleep_until_the_stop<L: Run, E: Ledger, O: Ledger>(
    rt: &impl Wait,
    desk: &Bell<Desk<'_, '_, L, E, O>>,
    gate: &InTurn,
    seat: Seat<E, O>,
) -> bool
    requires party { seat.party < L.workers }
    requires fresh { seat.ended ≡ 0 }
{
    let mut desk = Caller::new(rt, desk, gate, seat);
    let Asked::Idle(word) = desk.ask(rt, None, FIRST) else {
        return false;
    };
    desk.wait(rt, word);
    let Asked::Stopped = desk.ask(rt, None, FIRST) else {
        return false;
    };
    true
}

// Whether the stop woke the worker, and that was told to stop.
fn both_go<
    L: Run + Send + Sync,
    E: Ledger + Send + Sync,
    O: Ledger + Send + Sync,
    R: Threads + Wait + Sync,
>(
    rt: &R,
    desk: &Bell<Desk<'_, '_, L, E, O>>,
    gate: &InTurn,
    seats: Vec<Seat<E, O>>,
) -> Result<bool, AllocError>
    requires workers { L.workers ≡ 2 }
    requires seats { AreSeats 2 seats.items }
{
    let went = thread::map_vec(
        rt,
        seats,
        &|seat: Seat<E, O>| -> bool
            requires party { seat.party < L.workers }
            requires fresh { seat.ended ≡ 0 }
        {
            if seat.party() == 0 {
                stop_while_the_other_sleeps(rt, desk, gate, seat)
            } else {
                sleep_until_the_stop(rt, desk, gate, seat)
            }
        },
    )?;
    Ok(went.iter().all(|as_due| *as_due))
}

// Whether the stop wakes the worker at a desk that is made for it.
fn run_that_stops<
    'p,
    L: Run + Send + Sync,
    E: Ledger + Send + Sync,
    O: Ledger + Send + Sync,
    R: Threads + Wait + Sync,
>(
    rt: &R,
    alloc: Global,
    blanks: Blanks,
    versions: &Versions<'p>,
    word: (&ClaimWord, claim_word::Seat),
    first: Version<'p>,
    gate: &InTurn,
) -> Result<bool, AllocError>
    requires name { (blanks.entries.name ≡ L.name) × (blanks.entries.parts ≡ L.parts) }
    requires parts { 2 ^ 62 ≤ L.parts }
    requires ends_name { blanks.ends.name ≡ E.name }
    requires ends_parts { (blanks.ends.parts ≡ E.parts) × (E.parts ≡ 2) }
    requires seats_name { blanks.seats.name ≡ O.name }
    requires seats_parts { (blanks.seats.parts ≡ O.parts) × (O.parts ≡ 4) }
    requires product { first.pair ≡ L.pair }
    requires k { first.k ≡ L.k }
    requires workers { L.workers ≡ 2 }
    requires opening { L.opening ≡ opened L.pair L.workers first.classes first.number }
    requires list { L.list ≡ versions.now }
    requires word { L.word ≡ word.0.now }
    requires board_seat { (word.1.word ≡ word.0.now) × (word.1.board ≡ true) × (version_of word.1.written ≡ 0) }
{
    let Blanks {
        entries,
        ends,
        seats: parts,
    } = blanks;
    let (ledgers, seats) = seats::<E, O>(alloc, ends, parts, 2)?;
    let board: Board<'_, '_, L> = Board::open(alloc, entries, versions, word.0, word.1, first, 2)?;
    let desk: Bell<Desk<'_, '_, L, E, O>> = Bell::new(Desk::new(board, ledgers));
    both_go(rt, &desk, gate, seats)
}

// Whether it does on a pair.
fn stop_wakes<R: Threads + Wait + Sync>(
    rt: &R,
    alloc: Global,
    product: &Product,
) -> Result<bool, AllocError> {
    let gate = InTurn {
        told: [AtomicU64::new(0), AtomicU64::new(0)],
    };
    let versions = Versions::new(alloc)?;
    let (word, seat) = ClaimWord::new(alloc, 0)?;
    let first = Version::opening(alloc, product, 1)?;
    run_that_stops::<Brand, Brand, Brand, _>(
        rt,
        alloc,
        Blanks {
            entries: Blank::new(1 << 62),
            ends: Blank::new(2),
            seats: Blank::new(4),
        },
        &versions,
        (&word, seat),
        first,
        &gate,
    )
}

#[test]
fn a_stop_wakes_the_worker_that_sleeps(rt: HostRuntime) -> Result<(), Fail> {
    let alloc = rt.alloc();
    let as_due = match toggles(alloc) {
        Ok(product) => stop_wakes(&rt, alloc, &product) == Ok(true),
        Err(_) => false,
    };
    assert!(rt; as_due);
    Ok(())
}
