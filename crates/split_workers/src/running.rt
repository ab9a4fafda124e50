//! A run of several workers, from the opening to the classes of the greatest correspondence.
ghost use Rattle.std.specs.Prelude.{◌≡◌, ◌<◌, ◌≤◌, ◌*◌, ◌^◌, IfOk, IfSome, true};
ghost use Rattle.claim_word.specs.Words.{version_of};
ghost use Rattle.refine_board.specs.Schedules.{opened};
ghost use Rattle.prover_table.specs.Tables.{IsKnownFor, IsMemoryFor};
ghost use Rattle.work_desk.specs.Seats.{HasEnded};
ghost use Rattle.work_desk.specs.Desks.{IsOutcome};
ghost use Rattle.split_workers.specs.Refined.{IsEarlierFor, IsOpening, IsRefined};
ghost use Rattle.split_workers.specs.Reports.{AreReports};

use crate::earlier::Earlier;
use crate::report::{WorkReport, reports_of};
use crate::room::Room;
use crate::worker::work;
use claim_word::ClaimWord;
use product_machine::Product;
use prover_table::Lent;
use refine_board::{Board, Journal, Run};
use sec_base::Gate;
use std::alloc::{AllocError, Global};
use std::marker::Brand;
use std::sync::Wait;
use std::sync::ledger::{Blank, Ledger};
use std::thread;
use std::thread::Threads;
use verdict_stamp::{Known, ProverMemory, Version, Versions};
use work_desk::{Blanks, Desk, Seat, seats};

/// What a run comes to.
#[derive(Drop)]
pub struct Refined<'p> {
    /// The version at the end: its classes are those of the greatest correspondence.
    pub version: Version<'p>,
    /// Every call of the board, in the order in which the calls were made.
    pub journal: Journal,
    /// How many calls of each kind each worker made.
    pub reports: Vec<WorkReport>,
}

// What a run begins with: the list that it publishes its versions in, the word from which their pairs are claimed, with the board's
// seat, its first version, the classes of an earlier k where they are known, and how many workers it has.
#[derive(Drop)]
struct Beginning<'v, 'p> {
    versions: &'v Versions<'p>,
    word: &'v ClaimWord,
    seat: claim_word::Seat,
    first: Version<'p>,
    known: Option<&'v Known<'p>>,
    workers: u32,
}

// A run under the names of the run and of the ledgers of its workers. It goes on with what was proved before, and leaves what was
// proved.
fn refine_named<
    'p,
    L: Run + Send + Sync,
    E: Ledger + Send + Sync,
    O: Ledger + Send + Sync,
    R: Threads + Wait + Sync,
    G: Gate,
>(
    rt: &R,
    alloc: Global,
    blanks: Blanks,
    beginning: Beginning<'_, 'p>,
    memory: &mut Option<ProverMemory<'p>>,
    gate: &G,
) -> Result<Refined<'p>, AllocError>
    requires name { (blanks.entries.name ≡ L.name) × (blanks.entries.parts ≡ L.parts) }
    requires parts { 2 ^ 62 ≤ L.parts }
    requires ends_name { blanks.ends.name ≡ E.name }
    requires ends_parts { (blanks.ends.parts ≡ E.parts) × (E.parts ≡ beginning.workers) }
    requires seats_name { blanks.seats.name ≡ O.name }
    requires seats_parts { (blanks.seats.parts ≡ O.parts) × (O.parts ≡ beginning.workers * 2) }
    requires product { beginning.first.pair ≡ L.pair }
    requires k { beginning.first.k ≡ L.k }
    requires workers { beginning.workers ≡ L.workers }
    requires some { (0 < beginning.workers) × (beginning.workers ≤ 64) }
    requires opening { L.opening ≡ opened L.pair L.workers beginning.first.classes beginning.first.number }
    requires list { L.list ≡ beginning.versions.now }
    requires word { L.word ≡ beginning.word.now }
    requires board_seat { (beginning.seat.word ≡ beginning.word.now) × (beginning.seat.board ≡ true) × (version_of beginning.seat.written ≡ 0) }
    requires earlier { IfSome beginning.known (λ n. IsKnownFor L.pair L.k n.now) }
    requires memory { IfSome memory.old (IsMemoryFor L.pair L.k) }
    ensures outcome { IfOk result (λ r. IsOutcome L.pair L.k L.workers L.opening r.version r.journal.entries) }
    ensures reports { IfOk result (λ r. AreReports beginning.entry.workers r.journal.entries r.reports.items) }
    ensures memory { IfSome memory.new (IsMemoryFor L.pair L.k) }
{
    let Beginning {
        versions,
        word,
        seat,
        first,
        known,
        workers,
    } = beginning;
    let places = first.classes().len();
    let Blanks {
        entries,
        ends,
        seats: parts,
    } = blanks;
    let (ledgers, seats) = seats::<E, O>(alloc, ends, parts, workers)?;
    let board = Board::open(alloc, entries, versions, word, seat, first, workers)?;
    let lent = Lent::new(versions, known, places, workers);
    let room = Room::<L, E, O>::new(Desk::new(board, ledgers), lent, memory.take());
    let shared = &room;
    let told = thread::map_vec(
        rt,
        seats,
        &|seat: Seat<E, O>| -> Option<Seat<E, O>>
            requires party { seat.party < L.workers }
            requires fresh { seat.ended ≡ 0 }
            ensures { IfSome result (HasEnded seat.party) }
        { work(rt, alloc, shared, gate, seat) },
    )?;
    let Some((version, journal)) = room.close(told, memory) else {
        return Err(AllocError);
    };
    let reports = reports_of(alloc, &journal, workers)?;
    Ok(Refined {
        version,
        journal,
        reports,
    })
}

/// What a run is to refine: the classes of a pair for induction over k frames, by so many workers.
#[derive(Drop)]
pub struct Task<'p> {
    /// The pair of netlists.
    pub product: &'p Product,
    /// Over how many frames the induction goes.
    pub k: u32,
    /// How many workers the run has.
    pub workers: u32,
}

// A run from its first version on. It goes on with what was proved before, and leaves what was proved.
fn refine_from<'p, R: Threads + Wait + Sync, G: Gate>(
    rt: &R,
    alloc: Global,
    first: Version<'p>,
    workers: u32,
    known: Option<&Known<'p>>,
    memory: &mut Option<ProverMemory<'p>>,
    gate: &G,
) -> Result<Refined<'p>, AllocError>
    requires first { IsOpening first.pair first.k first }
    requires workers { (0 < workers) × (workers ≤ 64) }
    requires earlier { IfSome known (λ n. IsKnownFor first.pair first.k n.now) }
    requires memory { IfSome memory.old (IsMemoryFor first.pair first.k) }
    ensures refined { IfOk result (λ r. IsRefined first.entry.pair first.entry.k workers r.version r.journal.entries) }
    ensures reports { IfOk result (λ r. AreReports workers r.journal.entries r.reports.items) }
    ensures memory { IfSome memory.new (IsMemoryFor first.entry.pair first.entry.k) }
{
    let Ok(versions) = Versions::new(alloc) else {
        drop(first);
        return Err(AllocError);
    };
    let Ok((word, seat)) = ClaimWord::new(alloc, 0) else {
        drop(first);
        return Err(AllocError);
    };
    refine_named::<Brand, Brand, Brand, R, G>(
        rt,
        alloc,
        Blanks {
            entries: Blank::new(1 << 62),
            ends: Blank::new(workers as u64),
            seats: Blank::new(workers as u64 * 2),
        },
        Beginning {
            versions: &versions,
            word: &word,
            seat,
            first,
            known,
            workers,
        },
        memory,
        gate,
    )
}

// What is known before a run where nothing earlier is: which places are equal in every state.
fn twins_of<'p>(
    alloc: Global,
    first: &Version<'p>,
    known: Option<&Known<'p>>,
) -> Result<Option<Known<'p>>, AllocError>
    requires some { 0 < first.now.k }
    ensures { IfOk result (λ twins. IfSome twins (IsKnownFor first.now.pair first.now.k)) }
{
    if known.is_some() {
        return Ok(None);
    }
    Known::twins(alloc, first.product(), first.classes())
}

// A run from its opening on. It goes on with what was proved before, and leaves what was proved.
fn refine_with<'p, R: Threads + Wait + Sync, G: Gate>(
    rt: &R,
    alloc: Global,
    task: Task<'p>,
    known: Option<&Known<'p>>,
    memory: &mut Option<ProverMemory<'p>>,
    gate: &G,
) -> Result<Refined<'p>, AllocError>
    requires some { 0 < task.k }
    requires few { task.k ≤ 16 }
    requires workers { (0 < task.workers) × (task.workers ≤ 64) }
    requires earlier { IfSome known (λ n. IsKnownFor task.product.now task.k n.now) }
    requires memory { IfSome memory.old (IsMemoryFor task.product.now task.k) }
    ensures refined { IfOk result (λ r. IsRefined task.entry.product.now task.entry.k task.entry.workers r.version r.journal.entries) }
    ensures reports { IfOk result (λ r. AreReports task.entry.workers r.journal.entries r.reports.items) }
    ensures memory { IfSome memory.new (IsMemoryFor task.entry.product.now task.entry.k) }
{
    let Task {
        product,
        k,
        workers,
    } = task;
    let first = Version::opening(alloc, product, k)?;
    let _product = first.product();
    let Ok(twins) = twins_of(alloc, &first, known) else {
        drop(first);
        return Err(AllocError);
    };
    let refined = refine_from(
        rt,
        alloc,
        first,
        workers,
        known.or(twins.as_ref()),
        memory,
        gate,
    );
    drop(twins);
    refined
}

/// The classes of the greatest correspondence for induction over k frames, by so many workers, and the journal of their run.
/// The run opens on the version that simulation leaves. A worker that finds no work waits for the others' answers; where no
/// thread can be made the caller does its work. An `Err` is want of memory: then every worker has ended.
pub fn refine<'p, R: Threads + Wait + Sync, G: Gate>(
    rt: &R,
    alloc: Global,
    product: &'p Product,
    k: u32,
    workers: u32,
    gate: &G,
) -> Result<Refined<'p>, AllocError>
    requires some { 0 < k }
    requires few { k ≤ 16 }
    requires workers { (0 < workers) × (workers ≤ 64) }
    ensures refined { IfOk result (λ r. IsRefined product.entry.now k workers r.version r.journal.entries) }
    ensures reports { IfOk result (λ r. AreReports workers r.journal.entries r.reports.items) }
{
    let task = Task {
        product,
        k,
        workers,
    };
    let mut earlier = Earlier::nothing();
    let refined = refine_known(rt, alloc, task, gate, &mut earlier);
    drop(earlier);
    refined
}

/// The same where earlier runs left something. Each pair of the classes that are known passes for k too, so the workers ask no
/// question about it; and they go on with the graph and all that was proved of it. It leaves what was proved for others of the same
/// k, or nothing where memory ran out.
pub fn refine_known<'p, R: Threads + Wait + Sync, G: Gate>(
    rt: &R,
    alloc: Global,
    task: Task<'p>,
    gate: &G,
    earlier: &mut Earlier<'p>,
) -> Result<Refined<'p>, AllocError>
    requires some { 0 < task.k }
    requires few { task.k ≤ 16 }
    requires workers { (0 < task.workers) × (task.workers ≤ 64) }
    requires earlier { IsEarlierFor task.product.now task.k earlier.old }
    ensures refined { IfOk result (λ r. IsRefined task.entry.product.now task.entry.k task.entry.workers r.version r.journal.entries) }
    ensures reports { IfOk result (λ r. AreReports task.entry.workers r.journal.entries r.reports.items) }
    ensures known { earlier.new.known ≡ earlier.old.known }
    ensures memory { IfSome earlier.new.memory (IsMemoryFor task.entry.product.now task.entry.k) }
{
    let known = earlier.known.take();
    let refined = refine_with(rt, alloc, task, known.as_ref(), &mut earlier.memory, gate);
    earlier.known = known;
    refined
}
