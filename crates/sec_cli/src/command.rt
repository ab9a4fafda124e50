//! One run: its words, its files, and what is written of it.
ghost use Rattle.std.specs.Prelude.{◌≡◌, ◌≢◌, ◌≤◌, ◌<◌, ◌⊎◌, ℕ, List, [], ◌∷◌, IsTrue, IsSomeAnd, MatchBool, None, is_some, IfOk};
ghost use Rattle.sec_base.specs.Faults.{Rose, appended};
ghost use Rattle.command_line.specs.Asked.{Asked, ForClimb, asked_of, climb_asked, options_asked, reduce_asked, IsCheckWithin, IsClimbWithin, IsDemoWithin, IsReduceWithin, IsWithin};
ghost use Rattle.command_line.specs.Meant.{meant, AreNoCommand};
ghost use Rattle.command_line.specs.Plain.{texts};
ghost use Rattle.sec_cli.specs.Answers.{is_refined};
ghost use Rattle.run_texts.specs.Texts.{memory_text};
ghost use Rattle.run_texts.specs.Told.{IsTold};
ghost use Rattle.sec_cli.specs.Texts.{usage_text};
ghost use Rattle.sec_cli.specs.Endings.{Ending, IsCheckEnding, IsReplayEnding, IsVerifyEnding, IsDemoEnding, IsClimbEnding, IsReduceEnding, IsLoadEnding, IsAnswerStatus, HasJournal, journal_of, failed_names, left_name, right_name, third_name};
ghost use Rattle.sec_cli.specs.Reports.{IsReport, refusal_status, told_of, world_of};
ghost use Rattle.sec_cli.specs.OneAnswer.{IsOneAnswer};
ghost use Rattle.sec_cli.specs.Runs.{Ended, IsAnswered, IsJournalOfWords, IsRefusedOrBatch, IsUnread, IsUnwritten};

use crate::batching::batch_ending;
use crate::checking::check_pair;
use crate::climbing::climb_pair;
use crate::delivering::deliver;
use crate::demo::demo_answer;
use crate::ending::{Refusal, Reply};
use crate::reducing::reduce_net;
use crate::replaying::replay;
use crate::telling::{refusal_status, tell_refusal};
use crate::verifying::verify_file;
use command_line::{Check, Climb, Command, Demo, Reduce, WordsFault, read_words};
use pair_files::{Side, load_netlist, load_pair, unread_as};
use refine_board::Journal;
use run_texts::tell;
use sec_base::{Gate, Shelf, Sink};
use std::alloc::Global;
use std::sync::Wait;
use std::thread::Threads;

/// How a run ended: 0, 1 and 2 with an answer, 3 for wrong words, 4 for a refusal, 5 and 6 where reading and writing failed, 7
/// for want of memory.
#[derive(Drop)]
pub struct Report {
    pub status: u8,
    /// The journal of the refinement, with 0 and 2 of `check` and `demo`, and with 6 where their verdict isn't a difference; of
    /// `climb` that of the last refinement, with a difference too where there was one before it. With 7 it may be there, where the
    /// file of such a verdict found no memory. With 0 and 6 of `reduce` it is there.
    pub journal: Option<Journal>,
}

const USAGE: &str =
    "usage: sec check LEFT RIGHT [-k K] [-d D] [-j J] [--classes] [--stats] [--trace FILE] [--cert FILE] [--tie] [--least]\n       sec replay LEFT RIGHT TRACE [--tie]\n       sec verify LEFT RIGHT CERT [--tie]\n       sec demo N [-k K] [-j J]\n       sec climb LEFT RIGHT [-m M] [-j J] [--least]\n       sec reduce NET OUT [-k K] [-j J] [--binary]\n       sec batch LIST [-k K] [-j J]\n";

// The answer of a check of two files.
fn check_files<R: Threads + Wait + Sync, S: Shelf, G: Gate>(
    rt: &R,
    alloc: Global,
    shelf: &mut S,
    c: &Check,
    gate: &G,
) -> Result<Reply, Refusal>
    requires { IsCheckWithin (options_asked c.now.options) }
    ensures ending { IsTrue S.tells → IsCheckEnding (S.file shelf.old c.now.left.now) (S.file shelf.old c.now.right.now) (options_asked c.now.options) result }
    ensures status { IfOk result (λ a. a.status ≤ 2) }
    ensures journal { IfOk result (λ a. is_some a.journal ≡ is_refined a.status) }
    ensures failed { IsLoadEnding result → Rose (S.load_faults shelf.old) (S.load_faults shelf.new) }
    ensures files { S.file shelf.new ≡ S.file shelf.old }
    ensures names { S.failed shelf.new ≡ appended (S.failed shelf.old) (failed_names c.now.left.now c.now.right.now [] result) }
    ensures load_count { S.load_faults shelf.old ≤ S.load_faults shelf.new }
    ensures store_count { S.store_faults shelf.new ≡ S.store_faults shelf.old }
{
    let product = load_pair(alloc, shelf, c.left, c.right, c.options.tied)?;
    Ok(check_pair(rt, alloc, &product, &c.options, gate)?)
}

// The answer of a replay of the third file on the other two.
fn replay_files<S: Shelf>(
    alloc: Global,
    shelf: &mut S,
    left: &str,
    right: &str,
    trace: &str,
    tied: bool,
) -> Result<Reply, Refusal>
    ensures ending { IsTrue S.tells → IsReplayEnding tied (S.file shelf.old left.now) (S.file shelf.old right.now) (S.file shelf.old trace.now) result }
    ensures status { IfOk result (λ a. a.status ≤ 2) }
    ensures journal { IfOk result (λ a. a.journal ≡ None) }
    ensures failed { IsLoadEnding result → Rose (S.load_faults shelf.old) (S.load_faults shelf.new) }
    ensures files { S.file shelf.new ≡ S.file shelf.old }
    ensures names { S.failed shelf.new ≡ appended (S.failed shelf.old) (failed_names left.now right.now trace.now result) }
    ensures load_count { S.load_faults shelf.old ≤ S.load_faults shelf.new }
    ensures store_count { S.store_faults shelf.new ≡ S.store_faults shelf.old }
{
    let product = load_pair(alloc, shelf, left, right, tied)?;
    replay(alloc, shelf, &product, trace)
}

// The answer of reading the third file as a certificate for the other two.
fn verify_files<S: Shelf>(
    alloc: Global,
    shelf: &mut S,
    left: &str,
    right: &str,
    cert: &str,
    tied: bool,
) -> Result<Reply, Refusal>
    ensures ending { IsTrue S.tells → IsVerifyEnding tied (S.file shelf.old left.now) (S.file shelf.old right.now) (S.file shelf.old cert.now) result }
    ensures status { IfOk result (λ a. a.status ≤ 2) }
    ensures journal { IfOk result (λ a. a.journal ≡ None) }
    ensures failed { IsLoadEnding result → Rose (S.load_faults shelf.old) (S.load_faults shelf.new) }
    ensures files { S.file shelf.new ≡ S.file shelf.old }
    ensures names { S.failed shelf.new ≡ appended (S.failed shelf.old) (failed_names left.now right.now cert.now result) }
    ensures load_count { S.load_faults shelf.old ≤ S.load_faults shelf.new }
    ensures store_count { S.store_faults shelf.new ≡ S.store_faults shelf.old }
{
    let product = load_pair(alloc, shelf, left, right, tied)?;
    verify_file(alloc, shelf, &product, cert)
}

// The answer of a demo, which loads no files.
fn demo_ending<R: Threads + Wait + Sync, G: Gate>(
    rt: &R,
    alloc: Global,
    d: &Demo,
    gate: &G,
) -> Result<Reply, Refusal>
    requires { IsDemoWithin d.now }
    ensures ending { IsDemoEnding d.now result }
    ensures status { IfOk result (λ a. a.status ≤ 2) }
    ensures journal { IfOk result (λ a. is_some a.journal ≡ is_refined a.status) }
    ensures unloaded { IsLoadEnding result → ⊥ }
    ensures names { failed_names [] [] [] result ≡ [] }
{
    Ok(demo_answer(rt, alloc, d, gate)?)
}

// The answer of a climb over two files.
fn climb_files<R: Threads + Wait + Sync, S: Shelf, G: Gate>(
    rt: &R,
    alloc: Global,
    shelf: &mut S,
    c: &Climb,
    gate: &G,
) -> Result<Reply, Refusal>
    requires { IsClimbWithin (climb_asked c.now) }
    ensures ending { IsTrue S.tells → IsClimbEnding (S.file shelf.old c.now.left.now) (S.file shelf.old c.now.right.now) (climb_asked c.now) result }
    ensures status { IfOk result (λ a. a.status ≤ 2) }
    ensures journal { IfOk result (λ a. HasJournal (ForClimb (climb_asked c.now)) a.status a.journal) }
    ensures failed { IsLoadEnding result → Rose (S.load_faults shelf.old) (S.load_faults shelf.new) }
    ensures files { S.file shelf.new ≡ S.file shelf.old }
    ensures names { S.failed shelf.new ≡ appended (S.failed shelf.old) (failed_names c.now.left.now c.now.right.now [] result) }
    ensures load_count { S.load_faults shelf.old ≤ S.load_faults shelf.new }
    ensures store_count { S.store_faults shelf.new ≡ S.store_faults shelf.old }
{
    let product = load_pair(alloc, shelf, c.left, c.right, false)?;
    Ok(climb_pair(rt, alloc, &product, c, gate)?)
}

// The answer of reducing a file's netlist.
fn reduce_file<R: Threads + Wait + Sync, S: Shelf, G: Gate>(
    rt: &R,
    alloc: Global,
    shelf: &mut S,
    r: &Reduce,
    gate: &G,
) -> Result<Reply, Refusal>
    requires { IsReduceWithin (reduce_asked r.now) }
    ensures ending { IsTrue S.tells → IsReduceEnding (S.file shelf.old r.now.net.now) (reduce_asked r.now) result }
    ensures status { IfOk result (λ a. a.status ≤ 2) }
    ensures journal { IfOk result (λ a. IsTrue (is_some a.journal)) }
    ensures failed { IsLoadEnding result → Rose (S.load_faults shelf.old) (S.load_faults shelf.new) }
    ensures files { S.file shelf.new ≡ S.file shelf.old }
    ensures names { S.failed shelf.new ≡ appended (S.failed shelf.old) (failed_names r.now.net.now [] [] result) }
    ensures load_count { S.load_faults shelf.old ≤ S.load_faults shelf.new }
    ensures store_count { S.store_faults shelf.new ≡ S.store_faults shelf.old }
{
    match load_netlist(alloc, shelf, r.net) {
        Ok(net) => Ok(reduce_net(rt, alloc, net, r, gate)?),
        Err(unread) => Err(Refusal::Unpaired(unread_as(Side::Left, unread))),
    }
}

// The answer of a command.
fn decide<R: Threads + Wait + Sync, S: Shelf, G: Gate>(
    rt: &R,
    alloc: Global,
    shelf: &mut S,
    command: Command,
    gate: &G,
) -> Result<Reply, Refusal>
    requires { IsWithin (asked_of command) }
    ensures ending { Ended S.tells (S.file shelf.old) (asked_of command.entry) result }
    ensures status { IfOk result (λ a. IsAnswerStatus (asked_of command.entry) a.status) }
    ensures journal { IfOk result (λ a. HasJournal (asked_of command.entry) a.status a.journal) }
    ensures failed { IsLoadEnding result → Rose (S.load_faults shelf.old) (S.load_faults shelf.new) }
    ensures files { S.file shelf.new ≡ S.file shelf.old }
    ensures names { S.failed shelf.new ≡ appended (S.failed shelf.old) (failed_names (left_name (asked_of command.entry)) (right_name (asked_of command.entry)) (third_name (asked_of command.entry)) result) }
    ensures load_count { S.load_faults shelf.old ≤ S.load_faults shelf.new }
    ensures store_count { S.store_faults shelf.new ≡ S.store_faults shelf.old }
{
    match command {
        Command::Check(c) => check_files(rt, alloc, shelf, &c, gate),
        Command::Replay(c) => replay_files(alloc, shelf, c.left, c.right, c.trace, c.tied),
        Command::Verify(c) => verify_files(alloc, shelf, c.left, c.right, c.cert, c.tied),
        Command::Demo(d) => demo_ending(rt, alloc, &d, gate),
        Command::Climb(c) => climb_files(rt, alloc, shelf, &c, gate),
        Command::Reduce(r) => reduce_file(rt, alloc, shelf, &r, gate),
        Command::Batch(b) => batch_ending(rt, alloc, shelf, &b, gate),
    }
}

// The names of a command's files: of the pair, or of the netlist, and of what it reads beside them.
struct FileNames<'w> {
    left: &'w str,
    right: &'w str,
    third: &'w str,
}

// The names of a command's files, of which some may be empty.
fn file_names<'w>(command: Command<'w>) -> FileNames<'w>
    ensures left { result.left.now ≡ left_name (asked_of command.entry) }
    ensures right { result.right.now ≡ right_name (asked_of command.entry) }
    ensures third { result.third.now ≡ third_name (asked_of command.entry) }
{
    let (left, right, third) = match command {
        Command::Check(c) => (c.left, c.right, ""),
        Command::Replay(c) => (c.left, c.right, c.trace),
        Command::Verify(c) => (c.left, c.right, c.cert),
        Command::Reduce(r) => (r.net, "", ""),
        Command::Demo(_) => ("", "", ""),
        Command::Batch(b) => ("", "", b.list),
        Command::Climb(c) => (c.left, c.right, ""),
    };
    FileNames { left, right, third }
}

// Tells why a command answers nothing.
fn refuse<E: Sink>(command: Command, refusal: &Refusal, err: &mut E) -> u8
    ensures status { result ≡ refusal_status refusal.now }
    ensures told { IsTold (E.taken err.old) (E.faults err.old) (told_of (asked_of command.entry) refusal.now) (E.taken err.new) (E.faults err.new) }
    ensures count { E.faults err.old ≤ E.faults err.new }
{
    let FileNames { left, right, third } = file_names(command);
    tell_refusal(err, left, right, third, refusal);
    refusal_status(refusal)
}

// What becomes of a command's ending: an answer is delivered, and a refusal is told.
fn conclude<S: Shelf, O: Sink, E: Sink>(
    command: Command,
    ending: Result<Reply, Refusal>,
    shelf: &mut S,
    out: &mut O,
    err: &mut E,
) -> Report
    ensures report { IsReport S.tells (asked_of command.entry) ending
        (world_of (S.file shelf.old) (S.store_faults shelf.old) (O.taken out.old) (O.faults out.old) (E.taken err.old) (E.faults err.old))
        (world_of (S.file shelf.new) (S.store_faults shelf.new) (O.taken out.new) (O.faults out.new) (E.taken err.new) (E.faults err.new)) result.status }
    ensures journal { result.journal ≡ journal_of ending }
    ensures names { S.failed shelf.new ≡ S.failed shelf.old }
    ensures load_count { S.load_faults shelf.new ≡ S.load_faults shelf.old }
    ensures store_count { S.store_faults shelf.old ≤ S.store_faults shelf.new }
    ensures out_count { O.faults out.old ≤ O.faults out.new }
    ensures err_count { E.faults err.old ≤ E.faults err.new }
{
    match ending {
        Ok(answer) => {
            let status = deliver(command, &answer, shelf, out, err);
            let Reply { journal, .. } = answer;
            Report { status, journal }
        }
        Err(refusal) => {
            let status = refuse(command, &refusal, err);
            Report {
                status,
                journal: None,
            }
        }
    }
}

/// One run of the program over these words, of which the first is its own name: `check LEFT RIGHT [-k K] [-d D] [-j J]
/// [--classes] [--stats] [--trace FILE] [--cert FILE] [--tie] [--least]`, `replay LEFT RIGHT TRACE [--tie]`,
/// `verify LEFT RIGHT CERT [--tie]`, `demo N [-k K] [-j J]`, `climb LEFT RIGHT [-m M] [-j J] [--least]` or
/// `reduce NET OUT [-k K] [-j J] [--binary]` or `batch LIST [-k K] [-j J]`.
/// `check` decides by signal correspondence with k-induction (van Eijk, IEEE TCAD 19(7), 2000; Sheeran, Singh, Stålmarck,
/// FMCAD 2000), and where that leaves outputs unpaired by a search for a difference in the first k frames, or the first D where
/// these are more; `replay` tells the first difference of a stored trace;
/// `verify` reads a stored certificate, without solver or threads; `demo` checks a pair of any size that it makes itself; `climb`
/// checks with induction over 1, 2, .. frames, up to the first that decides, or to M; `reduce` stores a netlist without its
/// equal signals, whose outputs agree with its source's in every frame of every run; `batch` checks the pairs of
/// files that LIST names, on J workers, and prints a line for each, in the list's order.
/// `check`, `demo`, `climb` and `reduce` refine the classes by J workers, in threads that `rt` starts; they may wait for one another, and the
/// gate may hold them. The verdict and the classes are the same however they go on; with `--least` so is the trace of a difference.
/// With `--tie` the free latches of both netlists start equal, in their order.
pub fn run<R: Threads + Wait + Sync, S: Shelf, O: Sink, E: Sink, G: Gate>(
    rt: &R,
    alloc: Global,
    words: &[String],
    shelf: &mut S,
    out: &mut O,
    err: &mut E,
    gate: &G,
) -> Report
    // Words that mean no command answer 3, but for want of memory, and no other words do.
    ensures usage { MatchBool (is_some (meant (texts words.now))) (result.status ≢ 3) ((result.status ≡ 3) ⊎ (result.status ≡ 7)) }
    ensures no_command { result.status ≡ 3 → AreNoCommand (texts words.now) }
    ensures told_usage { result.status ≡ 3 → IsTold (E.taken err.old) (E.faults err.old) usage_text (E.taken err.new) (E.faults err.new) }
    ensures status { result.status ≤ 7 }

    // The headline: what is printed is what the command answers for the files, and what it stores is what it prints. The
    // numbers of `--stats` are those of the returned journal, which is that of the refinement.
    ensures answered { result.status ≤ 2 → IsSomeAnd (meant (texts words.now)) (λ c. IsAnswered S.tells c result.status result.journal
        (world_of (S.file shelf.old) (S.store_faults shelf.old) (O.taken out.old) (O.faults out.old) (E.taken err.old) (E.faults err.old))
        (world_of (S.file shelf.new) (S.store_faults shelf.new) (O.taken out.new) (O.faults out.new) (E.taken err.new) (E.faults err.new))) }

    // With `--least`, and without `--stats`, it is the only answer: what is printed, and the trace that is stored, are one function of
    // the files and the words.
    ensures one_answer { result.status ≤ 2 → IsSomeAnd (meant (texts words.now)) (λ c. IsOneAnswer S.tells c result.status
        (world_of (S.file shelf.old) (S.store_faults shelf.old) (O.taken out.old) (O.faults out.old) (E.taken err.old) (E.faults err.old))
        (world_of (S.file shelf.new) (S.store_faults shelf.new) (O.taken out.new) (O.faults out.new) (E.taken err.new) (E.faults err.new))) }

    // A refusal is true of the files, and told, and nothing is printed. A batch answers 4 too, where a pair of its list has no product.
    ensures refused { result.status ≡ 4 → IsSomeAnd (meant (texts words.now)) (λ c. IsRefusedOrBatch S.tells c result.journal
        (world_of (S.file shelf.old) (S.store_faults shelf.old) (O.taken out.old) (O.faults out.old) (E.taken err.old) (E.faults err.old))
        (world_of (S.file shelf.new) (S.store_faults shelf.new) (O.taken out.new) (O.faults out.new) (E.taken err.new) (E.faults err.new))) }

    // Reading fails only where the shelf did, and writing only where the shelf or the sink did.
    ensures load_rose { result.status ≡ 5 → Rose (S.load_faults shelf.old) (S.load_faults shelf.new) }
    ensures unread { result.status ≡ 5 → IsSomeAnd (meant (texts words.now)) (λ c. IsUnread S.tells c (S.failed shelf.old) (S.failed shelf.new)
        (world_of (S.file shelf.old) (S.store_faults shelf.old) (O.taken out.old) (O.faults out.old) (E.taken err.old) (E.faults err.old))
        (world_of (S.file shelf.new) (S.store_faults shelf.new) (O.taken out.new) (O.faults out.new) (E.taken err.new) (E.faults err.new))) }
    ensures unwritten { result.status ≡ 6 → IsSomeAnd (meant (texts words.now)) (λ c. IsUnwritten S.tells c result.journal
        (world_of (S.file shelf.old) (S.store_faults shelf.old) (O.taken out.old) (O.faults out.old) (E.taken err.old) (E.faults err.old))
        (world_of (S.file shelf.new) (S.store_faults shelf.new) (O.taken out.new) (O.faults out.new) (E.taken err.new) (E.faults err.new))) }
    ensures told_memory { result.status ≡ 7 → IsTold (E.taken err.old) (E.faults err.old) memory_text (E.taken err.new) (E.faults err.new) }

    // Without an answer there is no journal. Want of memory comes before an answer, and then there is none, or after it.
    ensures no_journal { 3 ≤ result.status → result.status ≤ 5 → result.journal ≡ None }
    ensures last_journal { result.status ≡ 7 → IsJournalOfWords S.tells (S.file shelf.old) (meant (texts words.now)) result.journal }

    // What else stays.
    ensures out_stays { 3 ≤ result.status → result.status ≢ 4 → result.status ≢ 6 → O.taken out.new ≡ O.taken out.old }
    ensures err_stays { result.status ≤ 2 → E.taken err.new ≡ E.taken err.old }
    ensures names { result.status ≢ 5 → S.failed shelf.new ≡ S.failed shelf.old }
    ensures files { 2 ≤ result.status → result.status ≢ 6 → S.file shelf.new ≡ S.file shelf.old }
    ensures load_count { S.load_faults shelf.old ≤ S.load_faults shelf.new }
    ensures store_count { S.store_faults shelf.old ≤ S.store_faults shelf.new }
    ensures out_count { O.faults out.old ≤ O.faults out.new }
    ensures err_count { E.faults err.old ≤ E.faults err.new }
{
    match read_words(alloc, words) {
        Ok(command) => {
            let ending = decide(rt, alloc, shelf, command, gate);
            conclude(command, ending, shelf, out, err)
        }
        Err(WordsFault::NotACommand) => {
            tell(err, USAGE.as_bytes());
            Report {
                status: 3,
                journal: None,
            }
        }
        Err(WordsFault::Memory) => {
            tell(err, b"sec: out of memory\n");
            Report {
                status: 7,
                journal: None,
            }
        }
    }
}
