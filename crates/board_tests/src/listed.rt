//! Verdicts that rest on pairs: they count as long as these stand, whatever else is split.
ghost use Rattle.std.specs.Prelude.{◌≡◌, ◌≤◌, ◌+◌, ◌<◌, IfOk, IfSome};
ghost use Rattle.refine_board.specs.Running.{IsAbout, IsAsked, IsOwed};

use crate::boards::{EntryRow, Players, ask_turn, begins_so, played};
use crate::circuits::{HIDDEN_DELAY, HIDDEN_STUCK, pair_is, pair_of};
use bit_rows::{BitRow, Rows};
use class_partition::Needed;
use product_machine::{Path, Product};
use refine_board::{Board, Offer, Run};
use sat_log::{Log, LogError, read_log};
use std::alloc::{AllocError, Global};
use std::sync::Wait;
use std::test::Fail;
use verdict_stamp::{Stamp, Used, Vector, Verdict, Version};

// Logs of the two questions of a pair, as texts.
type Logs = (&'static str, &'static str);

// That of the constant and the left latch, which stays at 0; and that of the constant and the right latch, which keeps the input.
const OF_LEFT: Logs = ("0 6 1 2 4 0\n", "0 15 2 13 3 1 0\n");

const OF_RIGHT: Logs = ("0 6 1 3 4 0\n", "0 15 2 13 5 7 1 0\n");

fn log_of(alloc: Global, text: &str) -> Result<Log, AllocError> {
    match read_log(alloc, text.as_bytes()) {
        Ok(log) => Ok(log),
        Err(LogError::Refused(_)) => Ok(Log::new(alloc)),
        Err(LogError::Memory) => Err(AllocError),
    }
}

// The verdict of two logs on a pair of a version, where they are accepted: the second is read while the first is lent.
fn verdict_after<'v, 'p>(
    alloc: Global,
    version: &'v Version<'p>,
    pair: Needed,
    base: &Log,
    step: &str,
) -> Result<Option<Verdict<'v, 'p>>, AllocError>
    requires asked { IsAsked version.now pair }
    ensures { IfOk result (λ found. IfSome found (λ w. IsAbout w pair × (w.version ≡ version.entry.now))) }
{
    let step = log_of(alloc, step)?;
    Verdict::by_logs(alloc, version, pair, base, &step)
}

fn verdict_by<'v, 'p>(
    alloc: Global,
    version: &'v Version<'p>,
    pair: Needed,
    logs: Logs,
) -> Result<Option<Verdict<'v, 'p>>, AllocError>
    requires asked { IsAsked version.now pair }
    ensures { IfOk result (λ found. IfSome found (λ w. IsAbout w pair × (w.version ≡ version.entry.now))) }
{
    let base = log_of(alloc, logs.0)?;
    verdict_after(alloc, version, pair, &base, logs.1)
}

// Answers by logs under an offer's stamp, or gives the offer back where one of them isn't accepted.
fn answer_under<'v, 'p, L: Run>(
    alloc: Global,
    board: &mut Board<'v, 'p, L>,
    offer: Offer<'p, L>,
    stamp: &Stamp<'p>,
    logs: Logs,
) -> Result<(), AllocError>
    requires own { IsOwed L.pair L.k L.list offer }
    requires stamp { stamp.now ≡ offer.stamp }
{
    let version = board.versions().at(stamp);
    match verdict_by(alloc, version, offer.pair(), logs) {
        Ok(Some(verdict)) => {
            board.keep(offer, verdict, stamp);
            Ok(())
        }
        Ok(None) => {
            board.back(offer);
            Ok(())
        }
        Err(e) => Err(e),
    }
}

fn answer_by<'v, 'p, L: Run>(
    alloc: Global,
    board: &mut Board<'v, 'p, L>,
    offer: Offer<'p, L>,
    logs: Logs,
) -> Result<(), AllocError> {
    let stamp = offer.stamp().copy();
    answer_under(alloc, board, offer, &stamp, logs)
}

// The inputs of one frame, the first of which is 1.
fn loud_inputs(alloc: Global, product: &Product) -> Result<Rows, AllocError> {
    let mut row = BitRow::with_len(alloc, product.inputs())?;
    if row.len() > 0 {
        row.set(0, true);
    }
    let mut inputs = Rows::new(alloc);
    inputs.push(row)?;
    Ok(inputs)
}

// The run of that frame from latches at 0.
fn loud_path(alloc: Global, product: &Product) -> Result<Path, AllocError> {
    let start = BitRow::with_len(alloc, product.latches())?;
    match loud_inputs(alloc, product) {
        Ok(inputs) => Ok(Path { start, inputs }),
        Err(e) => Err(e),
    }
}

// The first frame of a run of a version's pair, where it is one.
fn first_frame<'p>(
    alloc: Global,
    version: &Version<'p>,
    run: &Path,
) -> Result<Option<Vector<'p>>, AllocError> {
    let product = version.product();
    if !product.is_path(run) || !product.is_run(run) || run.inputs.len() < 1 {
        return Ok(None);
    }
    match Vector::from_run(alloc, product, version.k(), run, 0) {
        Ok(vector) => Ok(Some(vector)),
        Err(e) => Err(e),
    }
}

fn loud_vector<'p>(alloc: Global, version: &Version<'p>) -> Result<Option<Vector<'p>>, AllocError> {
    let run = loud_path(alloc, version.product())?;
    first_frame(alloc, version, &run)
}

// Splits by the first frame of that run, or gives the offer back where it is none.
fn split_loud<'v, 'p, L: Run>(
    alloc: Global,
    board: &mut Board<'v, 'p, L>,
    offer: Offer<'p, L>,
) -> Result<(), AllocError> {
    let version = board.versions().at(offer.stamp());
    match loud_vector(alloc, version) {
        Ok(Some(vector)) => {
            board.split(offer, vector);
            Ok(())
        }
        Ok(None) => {
            board.back(offer);
            Ok(())
        }
        Err(e) => Err(e),
    }
}

// How an offer is answered: by logs, or by the first frame of the run.
#[derive(Clone, Copy)]
enum Answer {
    ByLogs(Logs),
    BySplit,
}

// Answers the offer at an index, if there is so much.
fn answer_at<'v, 'p, L: Run>(
    alloc: Global,
    board: &mut Board<'v, 'p, L>,
    works: &mut Vec<Offer<'p, L>>,
    at: usize,
    by: Answer,
) -> Result<(), AllocError> {
    if at >= works.len() {
        return Ok(());
    }
    match by {
        Answer::ByLogs(logs) => answer_by(alloc, board, works.remove(at), logs),
        Answer::BySplit => split_loud(alloc, board, works.remove(at)),
    }
}

// Each of three takes a pair. The second and the third answer theirs by logs, before or after the first splits the classes; then the
// first asks again.
fn listed_with<'v, 'p, L: Run>(
    rt: &impl Wait,
    alloc: Global,
    board: &mut Board<'v, 'p, L>,
    works: &mut Vec<Offer<'p, L>>,
    answers: &[(usize, Answer)],
) -> Result<(), AllocError>
    requires workers { 3 ≤ L.workers }
{
    ask_turn(rt, board, works, 0)?;
    ask_turn(rt, board, works, 1)?;
    ask_turn(rt, board, works, 2)?;
    for &(at, by) in answers {
        answer_at(alloc, board, works, at, by)?;
    }
    ask_turn(rt, board, works, 0)
}

pub(crate) fn listed_turns<'v, 'p, L: Run>(
    rt: &impl Wait,
    alloc: Global,
    board: &mut Board<'v, 'p, L>,
    is_split_first: bool,
) -> Result<(), AllocError>
    requires workers { 3 ≤ L.workers }
{
    // which offer of those that are left is answered, and by what
    const SPLIT_FIRST: &[(usize, Answer)] = &[
        (0, Answer::BySplit),
        (0, Answer::ByLogs(OF_LEFT)),
        (0, Answer::ByLogs(OF_RIGHT)),
    ];
    const SPLIT_LAST: &[(usize, Answer)] = &[
        (1, Answer::ByLogs(OF_LEFT)),
        (1, Answer::ByLogs(OF_RIGHT)),
        (0, Answer::BySplit),
    ];
    let answers = if is_split_first {
        SPLIT_FIRST
    } else {
        SPLIT_LAST
    };
    let mut works = Vec::new(alloc);
    listed_with(rt, alloc, board, &mut works, answers)
}

// Whether the journal of these turns on a pair is this.
fn is_journal_of(
    rt: &impl Wait,
    alloc: Global,
    product: &Product,
    is_split_first: bool,
    rows: &[EntryRow],
) -> bool {
    match played(rt, alloc, product, 1, Players::ByLogs { is_split_first }) {
        Ok(end) => end.journal.len() == rows.len() as u64 && begins_so(&end.journal, rows),
        Err(_) => false,
    }
}

fn is_journal(rt: &impl Wait, alloc: Global, is_split_first: bool, rows: &[EntryRow]) -> bool {
    match pair_of(alloc, HIDDEN_STUCK, HIDDEN_DELAY) {
        Ok(product) => is_journal_of(rt, alloc, &product, is_split_first, rows),
        Err(_) => false,
    }
}

#[test]
fn a_verdict_counts_while_its_pairs_stand(rt: HostRuntime) -> Result<(), Fail> {
    const ROWS: &[EntryRow] = &[
        (0, 0, "offered", [0, 1]),
        (1, 0, "offered", [0, 2]),
        (2, 0, "offered", [0, 3]),
        (0, 1, "split", [0, 1]),
        (1, 1, "counted", [0, 2]),
        (2, 1, "stale", [0, 3]),
        (0, 2, "offered", [0, 3]),
    ];
    assert!(rt; is_journal(&rt, rt.alloc(), true, ROWS));
    Ok(())
}

#[test]
fn a_split_leaves_pairs_counted_whose_pairs_stand(rt: HostRuntime) -> Result<(), Fail> {
    const ROWS: &[EntryRow] = &[
        (0, 0, "offered", [0, 1]),
        (1, 0, "offered", [0, 2]),
        (2, 0, "offered", [0, 3]),
        (1, 1, "counted", [0, 2]),
        (2, 1, "counted", [0, 3]),
        (0, 1, "split", [0, 1]),
        (0, 2, "offered", [0, 3]),
    ];
    assert!(rt; is_journal(&rt, rt.alloc(), false, ROWS));
    Ok(())
}

// A pair's member, the logs of its questions, and the pairs that they use.
type UsedRow = (u32, Logs, &'static [[u32; 2]]);

const USED: &[UsedRow] = &[(2, OF_LEFT, &[]), (3, OF_RIGHT, &[[0, 1]])];

// Whether a verdict rests on these pairs.
fn rests_on(verdict: &Verdict<'_, '_>, pairs: &[[u32; 2]]) -> bool {
    let Used::Pairs(list) = verdict.used() else {
        return false;
    };
    if list.len() != pairs.len() {
        return false;
    }
    for i in 0..list.len() {
        let pair = list.pair(i);
        if [pair.rep, pair.member] != pairs[i] {
            return false;
        }
    }
    true
}

// Whether the logs of a row use its pairs, on a version.
fn uses(alloc: Global, version: &Version<'_>, row: &UsedRow) -> bool {
    let Some(pair) = version.classes().next_pair(row.0) else {
        return false;
    };
    match verdict_by(alloc, version, pair, row.1) {
        Ok(Some(verdict)) => verdict.member() == row.0 && rests_on(&verdict, row.2),
        _ => false,
    }
}

// Whether those of all rows do, on the first version of a pair.
fn all_use(alloc: Global, product: &Product) -> bool {
    match Version::first(alloc, product, 1) {
        Ok(version) => {
            for row in USED {
                if product.len() != version.classes().len() || !uses(alloc, &version, row) {
                    return false;
                }
            }
            true
        }
        Err(_) => false,
    }
}

#[test]
fn a_log_uses_the_pairs_that_it_reaches(rt: HostRuntime) -> Result<(), Fail> {
    assert!(rt; pair_is(rt.alloc(), HIDDEN_STUCK, HIDDEN_DELAY, all_use));
    Ok(())
}
