//! Whole runs over shelves and sinks in memory.
ghost use Rattle.std.specs.Prelude.{◌≢◌};

use aiger_file::read_netlist;
use class_partition::Classes;
use meeting_gate::Meeting;
use product_machine::Product;
use sec_base::{FreeGate, Gate, MemShelf, MemSink, SureShelf, SureSink};
use sec_cli::*;
use std::alloc::{AllocError, Global};
use std::sync::Wait;
use std::test::Fail;
use std::thread::Threads;
use tried_classes::{few_free_bits, plain_classes};
use verdict_stamp::greatest_classes;

// What a run over two netlists and a trace answers.
#[derive(Clone, Copy)]
pub(crate) struct Row {
    pub(crate) words: &'static str,
    pub(crate) left: &'static str,
    pub(crate) right: &'static str,
    pub(crate) trace: &'static str,
    pub(crate) status: u8,
    pub(crate) out: &'static str,
    pub(crate) err: &'static str,
}

// The words of a run, its two netlists, and what it answers.
pub(crate) type Case = (
    &'static str,
    &'static str,
    &'static str,
    u8,
    &'static str,
    &'static str,
);

pub(crate) const TOGGLE: &str = "aag 1 0 1 1 0\n2 3\n2\n";

pub(crate) const LOW: &str = "aag 0 0 0 1 0\n0\n";

pub(crate) const RING: &str = "aag 4 0 3 1 1\n2 6 1\n4 2\n6 4\n8\n8 2 4\n";

pub(crate) const DELAY: &str = "aag 2 1 1 1 0\n2\n4 2\n4\n";

pub(crate) const MASKED: &str =
    "aag 10 1 3 1 6\n2\n4 2\n6 21\n8 1\n6\n10 4 9\n12 5 8\n14 11 13\n16 2 14\n18 3 15\n20 17 19\n";

// The trace of the toggling latch and the constant.
const STORED: &str = "1\nb0\n0\n\n\n.\n";

pub(crate) fn words_of(alloc: Global, text: &str) -> Result<Vec<String>, AllocError> {
    let mut words = Vec::new(alloc);
    for word in text.split(' ') {
        words.push(format!(in alloc; "{word}")?)?;
    }
    Ok(words)
}

// A shelf with the files of a row, of which the calls that are listed fail.
pub(crate) fn shelf_of(alloc: Global, row: &Row, fails: Vec<u64>) -> Result<MemShelf, AllocError> {
    let mut shelf = MemShelf::new(alloc, fails);
    let stand = shelf.put("left", row.left.as_bytes()).is_ok()
        && shelf.put("right", row.right.as_bytes()).is_ok()
        && shelf.put("trace", row.trace.as_bytes()).is_ok();
    if stand { Ok(shelf) } else { Err(AllocError) }
}

// Where a run prints.
#[derive(Drop)]
pub(crate) struct Sinks {
    pub(crate) out: MemSink,
    pub(crate) err: MemSink,
}

impl Sinks {
    // Sinks in memory, of which the calls that are listed fail. The output has so much room.
    pub(crate) fn new(
        alloc: Global,
        room: usize,
        out_fails: Vec<u64>,
        err_fails: Vec<u64>,
    ) -> Result<Sinks, AllocError> {
        let Ok(out) = MemSink::with_room(alloc, room, out_fails) else {
            return Err(AllocError);
        };
        let Ok(err) = MemSink::with_room(alloc, 400, err_fails) else {
            return Err(AllocError);
        };
        Ok(Sinks { out, err })
    }

    // Whether they took these texts.
    pub(crate) fn hold(&self, out: &str, err: &str) -> bool {
        self.out.bytes() == out.as_bytes() && self.err.bytes() == err.as_bytes()
    }
}

// Runs these words over a shelf and sinks in memory.
pub(crate) fn run_words<R: Threads + Wait + Sync, G: Gate>(
    rt: &R,
    alloc: Global,
    words: &str,
    shelf: &mut MemShelf,
    sinks: &mut Sinks,
    gate: &G,
) -> Result<Report, AllocError> {
    match words_of(alloc, words) {
        Ok(words) => Ok(run(
            rt,
            alloc,
            &words,
            shelf,
            &mut sinks.out,
            &mut sinks.err,
            gate,
        )),
        Err(e) => Err(e),
    }
}

// Whether a run over these devices ends as the row has it.
pub(crate) fn ends_so<R: Threads + Wait + Sync, G: Gate>(
    rt: &R,
    alloc: Global,
    row: &Row,
    shelf: &mut MemShelf,
    sinks: &mut Sinks,
    gate: &G,
) -> Result<bool, AllocError> {
    let status = match run_words(rt, alloc, row.words, shelf, sinks, gate) {
        Ok(report) => report.status,
        Err(e) => return Err(e),
    };
    Ok(status == row.status && sinks.hold(row.out, row.err))
}

// Whether a run over this shelf answers as the row has it.
fn answers_on<R: Threads + Wait + Sync>(
    rt: &R,
    alloc: Global,
    row: &Row,
    shelf: &mut MemShelf,
) -> Result<bool, AllocError> {
    let mut sinks = Sinks::new(alloc, 400, Vec::new(alloc), Vec::new(alloc))?;
    ends_so(rt, alloc, row, shelf, &mut sinks, &FreeGate)
}

// Whether a run answers as the row has it.
pub(crate) fn answers_so<R: Threads + Wait + Sync>(
    rt: &R,
    alloc: Global,
    row: &Row,
) -> Result<bool, AllocError> {
    let mut shelf = shelf_of(alloc, row, Vec::new(alloc))?;
    answers_on(rt, alloc, row, &mut shelf)
}

// Whether it does where a call of the shelf fails.
pub(crate) fn answers_without<R: Threads + Wait + Sync>(
    rt: &R,
    alloc: Global,
    row: &Row,
    call: u64,
) -> Result<bool, AllocError> {
    let fails = vec![in alloc; call]?;
    let mut shelf = shelf_of(alloc, row, fails)?;
    answers_on(rt, alloc, row, &mut shelf)
}

// Whether a run into these sinks ends as the row has it and leaves this file, or none, under a name.
fn leaves_past<R: Threads + Wait + Sync>(
    rt: &R,
    alloc: Global,
    row: &Row,
    sinks: &mut Sinks,
    name: &str,
    file: Option<&[u8]>,
) -> Result<bool, AllocError> {
    match shelf_of(alloc, row, Vec::new(alloc)) {
        Ok(mut shelf) => Ok(
            ends_so(rt, alloc, row, &mut shelf, sinks, &FreeGate) == Ok(true)
                && shelf.get(name) == file,
        ),
        Err(e) => Err(e),
    }
}

// Whether a run of which no call fails leaves this file.
pub(crate) fn leaves<R: Threads + Wait + Sync>(
    rt: &R,
    alloc: Global,
    row: &Row,
    name: &str,
    file: Option<&[u8]>,
) -> Result<bool, AllocError> {
    let mut sinks = Sinks::new(alloc, 400, Vec::new(alloc), Vec::new(alloc))?;
    leaves_past(rt, alloc, row, &mut sinks, name, file)
}

// Whether a run past an output that fails at once ends as the row has it and leaves these bytes under the name.
pub(crate) fn leaves_unprinted<R: Threads + Wait + Sync>(
    rt: &R,
    alloc: Global,
    row: &Row,
    name: &str,
    file: &[u8],
) -> Result<bool, AllocError> {
    let fails = vec![in alloc; 0]?;
    let mut sinks = Sinks::new(alloc, 400, fails, Vec::new(alloc))?;
    leaves_past(rt, alloc, row, &mut sinks, name, Some(file))
}

// The words of the first case that a run doesn't end as it has it.
pub(crate) fn first_other<R: Threads + Wait + Sync>(
    rt: &R,
    alloc: Global,
    cases: &[Case],
) -> Result<Option<&'static str>, AllocError> {
    for &(words, left, right, status, out, err) in cases {
        if !answers_so(rt, alloc, &case(words, left, right, status, out, err))? {
            return Ok(Some(words));
        }
    }
    Ok(None)
}

pub(crate) fn case(
    words: &'static str,
    left: &'static str,
    right: &'static str,
    status: u8,
    out: &'static str,
    err: &'static str,
) -> Row {
    Row {
        words,
        left,
        right,
        trace: STORED,
        status,
        out,
        err,
    }
}

// Where no device fails, a run ends by an answer, by a refusal or by want of memory.
fn run_over_sure_devices<R: Threads + Wait + Sync>(
    rt: &R,
    alloc: Global,
    words: &[String],
    shelf: &mut SureShelf,
) -> Report
    ensures read { result.status ≢ 5 }
    ensures written { result.status ≢ 6 }
{
    let mut out = SureSink::new();
    let mut err = SureSink::new();
    run(rt, alloc, words, shelf, &mut out, &mut err, &FreeGate)
}

#[test]
fn pairs_that_are_proved(rt: HostRuntime) -> Result<(), Fail> {
    const AND: &str = "aag 5 2 2 1 1\n2\n4\n6 2\n8 4\n10\n10 6 8\n";
    const RETIMED: &str = "aag 4 2 1 1 1\n2\n4\n6 8\n6\n8 2 4\n";
    const EIGHT: &str = "aag 8 8 0 0 0\n2\n4\n6\n8\n10\n12\n14\n16\n";
    const COMPLEMENT: &str = "aag 1 0 1 1 0\n2 3 1\n3\n";
    const TWO: &str = "equivalent k=1 signals=3 classes=2\n";
    const ROWS: &[Case] = &[
        ("sec check left right", TOGGLE, TOGGLE, 0, TWO, ""),
        ("sec check left right", TOGGLE, COMPLEMENT, 0, TWO, ""),
        (
            "sec check left right --classes",
            TOGGLE,
            COMPLEMENT,
            0,
            "equivalent k=1 signals=3 classes=2\nclass l1 !r1\n",
            "",
        ),
        (
            "sec check left right",
            AND,
            RETIMED,
            0,
            "equivalent k=1 signals=8 classes=7\n",
            "",
        ),
        (
            "sec check left right",
            AND,
            "aig 4 2 1 1 1\n8\n6\n\x04\x02",
            0,
            "equivalent k=1 signals=8 classes=7\n",
            "",
        ),
        (
            "sec check left right -k 3",
            LOW,
            RING,
            0,
            "equivalent k=3 signals=5 classes=4\n",
            "",
        ),
        (
            "sec check -k 2 left -j 4 right",
            EIGHT,
            EIGHT,
            0,
            "equivalent k=2 signals=9 classes=9\n",
            "",
        ),
        (
            "sec check left right",
            "aag 0 0 0 0 0\n",
            "aag 0 0 0 0 0\n",
            0,
            "equivalent k=1 signals=1 classes=1\n",
            "",
        ),
        (
            "sec check left right",
            "aag 1 0 1 1 0\n2 3\n2\nl0 x\no0 y\ncmade by hand",
            TOGGLE,
            0,
            TWO,
            "",
        ),
    ];
    let alloc = rt.alloc();
    assert_eq!(rt; first_other(&rt, alloc, ROWS)?, None);
    Ok(())
}

#[test]
fn pairs_that_differ_or_stay_open(rt: HostRuntime) -> Result<(), Fail> {
    const ROWS: &[Case] = &[
        (
            "sec check left right",
            TOGGLE,
            LOW,
            2,
            "undecided k=1 signals=2 classes=2 unpaired=0\n",
            "",
        ),
        (
            "sec check left right -k 2",
            TOGGLE,
            LOW,
            1,
            "different k=2 frame=1 output=0\n1\nb0\n0\n\n\n.\n",
            "",
        ),
        (
            "sec check left right --classes",
            DELAY,
            MASKED,
            2,
            "undecided k=1 signals=12 classes=9 unpaired=0\nclass c r5\nclass l2 r2\nclass r6 !r7\n",
            "",
        ),
        (
            "sec check left right -k 2",
            LOW,
            RING,
            2,
            "undecided k=2 signals=5 classes=5 unpaired=0\n",
            "",
        ),
        (
            "sec check left right",
            LOW,
            RING,
            2,
            "undecided k=1 signals=5 classes=5 unpaired=0\n",
            "",
        ),
        (
            "sec check left right",
            TOGGLE,
            "aag 1 0 1 1 0\n2 3 1\n2\n",
            1,
            "different k=1 frame=0 output=0\n1\nb0\n01\n\n.\n",
            "",
        ),
        (
            "sec check left right",
            "aag 1 0 1 2 0\n2 3\n2\n2\n",
            "aag 1 0 1 2 0\n2 3\n2\n0\n",
            2,
            "undecided k=1 signals=3 classes=2 unpaired=1\n",
            "",
        ),
        (
            "sec replay left right trace",
            TOGGLE,
            LOW,
            1,
            "differs frame=1 output=0\n",
            "",
        ),
        (
            "sec replay left right trace",
            TOGGLE,
            TOGGLE,
            4,
            "",
            "sec: trace: length at line 3\n",
        ),
    ];
    let alloc = rt.alloc();
    assert_eq!(rt; first_other(&rt, alloc, ROWS)?, None);
    Ok(())
}

#[test]
fn files_that_are_refused(rt: HostRuntime) -> Result<(), Fail> {
    const WORDS: &str = "sec check left right";
    const NONE: &str = "aag 0 0 0 0 0\n";
    const ROWS: &[Case] = &[
        (WORDS, DELAY, NONE, 4, "", "sec: inputs differ: 1 and 0\n"),
        (WORDS, NONE, LOW, 4, "", "sec: outputs differ: 0 and 1\n"),
        (
            WORDS,
            "aag 1 1 0 0 0 1\n2\n2\n",
            TOGGLE,
            4,
            "",
            "sec: left: section bad at byte 0\n",
        ),
        (
            WORDS,
            TOGGLE,
            "aag 2 1 0 1 0\n2\n4\n",
            4,
            "",
            "sec: right: undefined at byte 0\n",
        ),
        (
            "sec check left none",
            TOGGLE,
            TOGGLE,
            5,
            "",
            "sec: none: read failed\n",
        ),
        (
            "sec check left none",
            "aag 2 0 0 1 2\n2\n2 4 4\n4 2 2\n",
            TOGGLE,
            4,
            "",
            "sec: left: cyclic at byte 0\n",
        ),
        (
            WORDS,
            TOGGLE,
            "aig 4 2 1 1 1\n8\n6\n\x04",
            4,
            "",
            "sec: right: truncated at byte 18\n",
        ),
        (
            "sec replay left right none",
            TOGGLE,
            TOGGLE,
            5,
            "",
            "sec: none: read failed\n",
        ),
    ];
    let alloc = rt.alloc();
    assert_eq!(rt; first_other(&rt, alloc, ROWS)?, None);
    Ok(())
}

#[test]
fn demos_are_equivalent(rt: HostRuntime) -> Result<(), Fail> {
    let alloc = rt.alloc();
    const DEMOS: &[(&str, &str)] = &[
        (
            "sec demo 0",
            "demo n=0 inputs=0 latches=0 gates=0 outputs=0\nequivalent k=1 signals=1 classes=1\n",
        ),
        (
            "sec demo 1 -k 1",
            "demo n=1 inputs=1 latches=1 gates=6 outputs=1\nequivalent k=1 signals=16 classes=4\n",
        ),
        (
            "sec demo 2",
            "demo n=2 inputs=2 latches=2 gates=12 outputs=2\nequivalent k=1 signals=31 classes=9\n",
        ),
        (
            "sec demo -j 7 5",
            "demo n=5 inputs=5 latches=5 gates=30 outputs=5\nequivalent k=1 signals=76 classes=27\n",
        ),
        (
            "sec demo 10",
            "demo n=10 inputs=10 latches=10 gates=60 outputs=10\nequivalent k=1 signals=151 classes=70\n",
        ),
        (
            "sec demo 20",
            "demo n=20 inputs=20 latches=20 gates=120 outputs=20\nequivalent k=1 signals=301 classes=147\n",
        ),
    ];
    for &(words, out) in DEMOS {
        assert!(rt; answers_so(&rt, alloc, &case(words, "", "", 0, out, ""))?);
    }
    Ok(())
}

#[test]
fn numbers_of_entries(rt: HostRuntime) -> Result<(), Fail> {
    const NONE: &str = "aag 0 0 0 0 0\n";
    const NOTHING: &str =
        "equivalent k=1 signals=1 classes=1\nstats offers=0 counted=0 stale=0 splits=0 already=0 back=0\n";
    // Simulation tells both latches from the constant, and leaves one pair, which one worker proves.
    const ONE: &str =
        "equivalent k=1 signals=3 classes=2\nclass l1 r1\nstats offers=1 counted=1 stale=0 splits=0 already=0 back=0\n";
    const OPEN: &str =
        "undecided k=1 signals=2 classes=2 unpaired=0\nstats offers=0 counted=0 stale=0 splits=0 already=0 back=0\n";
    const DIFFERS: &str = "different k=2 frame=1 output=0\n1\nb0\n0\n\n\n.\n";
    const ROWS: &[Case] = &[
        ("sec check left right --stats", NONE, NONE, 0, NOTHING, ""),
        (
            "sec check left right --stats -j 64",
            NONE,
            NONE,
            0,
            NOTHING,
            "",
        ),
        (
            "sec check --stats left right --classes",
            TOGGLE,
            TOGGLE,
            0,
            ONE,
            "",
        ),
        (
            "sec check left right --classes --stats -j 7",
            TOGGLE,
            TOGGLE,
            0,
            ONE,
            "",
        ),
        ("sec check left right --stats", TOGGLE, LOW, 2, OPEN, ""),
        (
            "sec check left right --stats -k 2",
            TOGGLE,
            LOW,
            1,
            DIFFERS,
            "",
        ),
    ];
    let alloc = rt.alloc();
    assert_eq!(rt; first_other(&rt, alloc, ROWS)?, None);
    Ok(())
}

#[test]
fn any_number_of_workers_tells_the_same(rt: HostRuntime) -> Result<(), Fail> {
    const TEN: &str =
        "demo n=10 inputs=10 latches=10 gates=60 outputs=10\nequivalent k=1 signals=151 classes=70\n";
    const OPEN: &str =
        "undecided k=1 signals=12 classes=9 unpaired=0\nclass c r5\nclass l2 r2\nclass r6 !r7\n";
    const ROWS: &[Case] = &[
        (
            "sec check left right --classes -j 1",
            DELAY,
            MASKED,
            2,
            OPEN,
            "",
        ),
        (
            "sec check left right --classes -j 2",
            DELAY,
            MASKED,
            2,
            OPEN,
            "",
        ),
        (
            "sec check left right --classes -j 7",
            DELAY,
            MASKED,
            2,
            OPEN,
            "",
        ),
        ("sec demo 10 -j 1", "", "", 0, TEN, ""),
        ("sec demo 10 -j 2", "", "", 0, TEN, ""),
        ("sec demo 10 -j 7", "", "", 0, TEN, ""),
    ];
    let alloc = rt.alloc();
    assert_eq!(rt; first_other(&rt, alloc, ROWS)?, None);
    Ok(())
}

// Whether a run over this shelf whose workers are held at a gate ends so.
fn answers_on_at<R: Threads + Wait + Sync, G: Gate>(
    rt: &R,
    alloc: Global,
    row: &Row,
    shelf: &mut MemShelf,
    gate: &G,
) -> Result<bool, AllocError> {
    let mut sinks = Sinks::new(alloc, 400, Vec::new(alloc), Vec::new(alloc))?;
    ends_so(rt, alloc, row, shelf, &mut sinks, gate)
}

fn answers_at<R: Threads + Wait + Sync, G: Gate>(
    rt: &R,
    alloc: Global,
    row: &Row,
    gate: &G,
) -> Result<bool, AllocError> {
    let mut shelf = shelf_of(alloc, row, Vec::new(alloc))?;
    answers_on_at(rt, alloc, row, &mut shelf, gate)
}

#[test]
fn two_workers_of_a_check_meet(rt: HostRuntime) -> Result<(), Fail> {
    let alloc = rt.alloc();
    let open = "undecided k=1 signals=12 classes=9 unpaired=0\n";
    let row = case("sec check left right -j 2", DELAY, MASKED, 2, open, "");
    let gate = Meeting::new();
    assert!(rt; answers_at(&rt, alloc, &row, &gate)?);
    assert!(rt; gate.is_met());
    Ok(())
}

#[test]
fn seven_workers_tell_the_same_each_time(rt: HostRuntime) -> Result<(), Fail> {
    let alloc = rt.alloc();
    let fifty =
        "demo n=50 inputs=50 latches=50 gates=300 outputs=50\nequivalent k=1 signals=751 classes=385\n";
    for _ in 0..3u32 {
        assert!(rt; answers_so(&rt, alloc, &case("sec demo 50 -j 7", "", "", 0, fifty, ""))?);
    }
    Ok(())
}

// Words that are no command, of which one ends at each semicolon.
const NO_COMMANDS: &str =
    "sec;sec help;sec --help;sec check left right -h;sec --version;sec check left;sec check left right more;sec check left right -k;sec check left right -k 0;sec check left right -k 17;sec check left right -k17;sec check left right -k 1 -k 1;sec check left right -j 65;sec check left right --classes --classes;sec check left right --stats --stats;sec check left right -d 65;sec check left right --tie --tie;sec replay left right trace --least;sec demo 1 --tie;sec check left right --trace -k;sec replay left right;sec replay left right trace -k 1;sec verify left right;sec verify left right trace -k 1;sec check left right --cert;sec check left right --cert a --cert b;sec verify left right trace --cert a;sec demo 1 --cert a;sec proof left right;sec demo;sec demo 100001;sec demo 1 2;sec demo 1 --classes;sec demo 1 --stats;sec replay left right trace --stats;sec demo -k 1;sec climb left;sec climb left right -k 1";

#[test]
fn words_that_are_no_command(rt: HostRuntime) -> Result<(), Fail> {
    let alloc = rt.alloc();
    let usage =
        "usage: sec check LEFT RIGHT [-k K] [-d D] [-j J] [--classes] [--stats] [--trace FILE] [--cert FILE] [--tie] [--least]\n       sec replay LEFT RIGHT TRACE [--tie]\n       sec verify LEFT RIGHT CERT [--tie]\n       sec demo N [-k K] [-j J]\n       sec climb LEFT RIGHT [-m M] [-j J] [--least]\n       sec reduce NET OUT [-k K] [-j J] [--binary]\n       sec batch LIST [-k K] [-j J]\n";
    for words in NO_COMMANDS.split(';') {
        let row = case(words, TOGGLE, TOGGLE, 3, "", usage);
        assert!(rt; answers_so(&rt, alloc, &row)?, "{words}");
    }
    Ok(())
}

#[test]
fn other_spellings_mean_the_same(rt: HostRuntime) -> Result<(), Fail> {
    let alloc = rt.alloc();
    const CHECKS: &[&str] = &[
        "sec check left right -k 2 --trace made",
        "sec check left right -k2 --trace=made",
        "sec check --trace=made -k=2 -- left right",
        "sec check left right -k 02 --trace made",
    ];
    let different = "different k=2 frame=1 output=0\n1\nb0\n0\n\n\n.\n";
    for &words in CHECKS {
        let row = case(words, TOGGLE, LOW, 1, different, "");
        assert!(rt;
            leaves(&rt, alloc, &row, "made", Some(STORED.as_bytes()))?,
            "{words}"
        );
    }
    let demo =
        "demo n=2 inputs=2 latches=2 gates=12 outputs=2\nequivalent k=1 signals=31 classes=9\n";
    for words in ["sec demo 2", "sec demo 02", "sec demo +2 -j1"] {
        assert!(rt; answers_so(&rt, alloc, &case(words, "", "", 0, demo, ""))?);
    }
    Ok(())
}

#[test]
fn a_trace_is_stored_before_it_is_printed(rt: HostRuntime) -> Result<(), Fail> {
    let alloc = rt.alloc();
    let words = "sec check left right -k 2 --trace made";
    let text = "different k=2 frame=1 output=0\n1\nb0\n0\n\n\n.\n";
    let made = case(words, TOGGLE, LOW, 1, text, "");
    assert!(rt; leaves(&rt, alloc, &made, "made", Some(STORED.as_bytes()))?);
    let unwritten = case(words, TOGGLE, LOW, 6, "", "sec: output: write failed\n");
    assert!(rt; leaves_unprinted(&rt, alloc, &unwritten, "made", STORED.as_bytes())?);
    let unstored = case(words, TOGGLE, LOW, 6, "", "sec: made: write failed\n");
    assert!(rt; answers_without(&rt, alloc, &unstored, 2)?);
    let unread = case(words, TOGGLE, LOW, 5, "", "sec: left: read failed\n");
    assert!(rt; answers_without(&rt, alloc, &unread, 0)?);
    Ok(())
}

// The pair of two texts.
fn pair_of(alloc: Global, left: &str, right: &str) -> Option<Product> {
    match (
        read_netlist(alloc, left.as_bytes()),
        read_netlist(alloc, right.as_bytes()),
    ) {
        (Ok(left), Ok(right)) => Product::new(alloc, left, right).ok(),
        _ => None,
    }
}

// Whether two partitions are the same.
fn are_same(a: &Classes, b: &Classes) -> bool {
    if a.len() != b.len() {
        return false;
    }
    for place in 0..a.len() {
        if a.rep(place) != b.rep(place) {
            return false;
        }
    }
    true
}

// Whether the classes that the solver finds for k = 1 are these.
fn agrees_with(alloc: Global, product: &Product, plain: &Classes) -> bool {
    match greatest_classes(alloc, product, 1) {
        Ok(version) => are_same(plain, version.classes()),
        Err(_) => false,
    }
}

// Whether they are those found by trying all paths.
fn agrees_with_plain(alloc: Global, product: &Product) -> bool {
    let Some(bits) = few_free_bits(product) else {
        return false;
    };
    match plain_classes(alloc, product, bits) {
        Ok(plain) => agrees_with(alloc, product, &plain),
        Err(_) => false,
    }
}

// The same of two netlists.
fn netlists_agree_with_plain(alloc: Global, left: &str, right: &str) -> bool {
    match pair_of(alloc, left, right) {
        Some(product) => agrees_with_plain(alloc, &product),
        None => false,
    }
}

#[test]
fn the_solver_finds_the_classes_of_all_paths(rt: HostRuntime) -> Result<(), Fail> {
    const AND: &str = "aag 5 2 2 1 1\n2\n4\n6 2\n8 4\n10\n10 6 8\n";
    const RETIMED: &str = "aag 4 2 1 1 1\n2\n4\n6 8\n6\n8 2 4\n";
    const PAIRS: &[(&str, &str)] = &[
        (TOGGLE, TOGGLE),
        (TOGGLE, "aag 1 0 1 1 0\n2 3 1\n3\n"),
        (TOGGLE, LOW),
        (TOGGLE, FREE),
        (FREE, FREE),
        (LOW, RING),
        (RING, RING),
        (DELAY, MASKED),
        (MASKED, MASKED),
        (AND, RETIMED),
        (RETIMED, RETIMED),
    ];
    for &(left, right) in PAIRS {
        assert!(rt; netlists_agree_with_plain(rt.alloc(), left, right));
    }
    Ok(())
}

// Whether a check with these words ends with status 1 and one of these texts.
fn differs_as<R: Threads + Wait + Sync>(
    rt: &R,
    alloc: Global,
    words: &'static str,
    left: &'static str,
    right: &'static str,
    texts: &[&'static str],
) -> Result<bool, AllocError> {
    for text in texts {
        if answers_so(rt, alloc, &case(words, left, right, 1, text, ""))? {
            return Ok(true);
        }
    }
    Ok(false)
}

#[test]
fn differences_are_shown_by_some_run(rt: HostRuntime) -> Result<(), Fail> {
    let alloc = rt.alloc();
    let words = "sec check left right";
    const STARTS: &[&str] = &[
        "different k=1 frame=0 output=0\n1\nb0\n01\n\n.\n",
        "different k=1 frame=0 output=0\n1\nb0\n10\n\n.\n",
    ];
    assert!(rt; differs_as(&rt, alloc, words, FREE, FREE, STARTS)?);
    let input = "aag 1 1 0 1 0\n2\n2\n";
    let turned = "aag 1 1 0 1 0\n2\n3\n";
    const INPUTS: &[&str] = &[
        "different k=1 frame=0 output=0\n1\nb0\n\n0\n.\n",
        "different k=1 frame=0 output=0\n1\nb0\n\n1\n.\n",
    ];
    assert!(rt; differs_as(&rt, alloc, words, input, turned, INPUTS)?);
    // The first input is 0; the others are free.
    const FOUR: &[&str] = &[
        "different k=3 frame=2 output=0\n1\nb0\n0000\n0\n0\n0\n.\n",
        "different k=3 frame=2 output=0\n1\nb0\n0000\n0\n0\n1\n.\n",
        "different k=3 frame=2 output=0\n1\nb0\n0000\n0\n1\n0\n.\n",
        "different k=3 frame=2 output=0\n1\nb0\n0000\n0\n1\n1\n.\n",
    ];
    assert!(rt; differs_as(&rt, alloc, "sec check left right -k 3", DELAY, MASKED, FOUR)?);
    let short = Row {
        trace: "1\nb0\n0\n\n.\n",
        ..case(
            "sec replay left right trace",
            TOGGLE,
            LOW,
            0,
            "agrees frames=1\n",
            "",
        )
    };
    assert!(rt; answers_so(&rt, alloc, &short)?);
    Ok(())
}

#[test]
fn differences_are_sought_deeper_than_the_induction(rt: HostRuntime) -> Result<(), Fail> {
    const SHALLOW: &str = "undecided k=1 signals=12 classes=9 unpaired=0\n";
    const AT_ONE: &str = "different k=1 frame=1 output=0\n1\nb0\n0\n\n\n.\n";
    const AT_K: &str = "different k=2 frame=1 output=0\n1\nb0\n0\n\n\n.\n";
    const SHUT: &str = "undecided k=1 signals=5 classes=5 unpaired=0\n";
    const ROWS: &[Case] = &[
        ("sec check left right -d 2", TOGGLE, LOW, 1, AT_ONE, ""),
        ("sec check left right -d 2 -j 3", TOGGLE, LOW, 1, AT_ONE, ""),
        ("sec check -k 2 left right -d 1", TOGGLE, LOW, 1, AT_K, ""),
        (
            "sec check -k 2 left right -d 1 -j 3",
            TOGGLE,
            LOW,
            1,
            AT_K,
            "",
        ),
        ("sec check left right -d 2", DELAY, MASKED, 2, SHALLOW, ""),
        (
            "sec check left right -d 2 -j 3",
            DELAY,
            MASKED,
            2,
            SHALLOW,
            "",
        ),
        ("sec check left right -d 64", LOW, RING, 2, SHUT, ""),
        ("sec check left right -d 64 -j 3", LOW, RING, 2, SHUT, ""),
    ];
    let alloc = rt.alloc();
    assert_eq!(rt; first_other(&rt, alloc, ROWS)?, None);
    // The first input is 0; the others are free.
    const FOUR: &[&str] = &[
        "different k=1 frame=2 output=0\n1\nb0\n0000\n0\n0\n0\n.\n",
        "different k=1 frame=2 output=0\n1\nb0\n0000\n0\n0\n1\n.\n",
        "different k=1 frame=2 output=0\n1\nb0\n0000\n0\n1\n0\n.\n",
        "different k=1 frame=2 output=0\n1\nb0\n0000\n0\n1\n1\n.\n",
    ];
    for words in [
        "sec check left right -d 3",
        "sec check left right -d 3 -j 3",
    ] {
        assert!(rt; differs_as(&rt, alloc, words, DELAY, MASKED, FOUR)?);
    }
    Ok(())
}

// A latch that starts free and keeps its bit.
const FREE: &str = "aag 1 0 1 1 0\n2 2 2\n2\n";

// The certificate of two such latches that are tied.
const TIED: &str =
    "seccert 2 k=1 signals=3 tie=1\nclass l1 r1\nbase r1\n-2 0 3 6 5 0\n0 7 2 6 4 0\nstep r1\n-2 0 4 8 6 11 10 0\n0 12 3 7 5 11 9 0\nend\n";

// A row with this third file.
fn with_third(third: &'static str, row: Row) -> Row {
    Row {
        trace: third,
        ..row
    }
}

#[test]
fn free_latches_may_be_tied(rt: HostRuntime) -> Result<(), Fail> {
    const TWO: &str = "equivalent k=1 signals=3 classes=2\n";
    const APART: &str = "sec: free latches differ: 0 and 1\n";
    const CHECK: &str = "sec check left right --tie";
    const REPLAY: &str = "sec replay left right trace --tie";
    const VERIFY: &str = "sec verify left right trace --tie";
    const ROWS: &[Case] = &[
        (CHECK, FREE, FREE, 0, TWO, ""),
        ("sec check --tie left right -j 3", FREE, FREE, 0, TWO, ""),
        (CHECK, TOGGLE, FREE, 4, "", APART),
        (REPLAY, TOGGLE, FREE, 4, "", APART),
        (VERIFY, TOGGLE, FREE, 4, "", APART),
        (
            CHECK,
            LOW,
            "aag 1 1 0 0 0\n2\n",
            4,
            "",
            "sec: inputs differ: 0 and 1\n",
        ),
    ];
    // The words of a run over two such latches, its third file, and what it answers.
    const THIRDS: &[(&str, &str, u8, &str, &str)] = &[
        (
            REPLAY,
            "1\nb0\n01\n\n.\n",
            4,
            "",
            "sec: trace: tie at line 3\n",
        ),
        (
            "sec replay left right trace",
            "1\nb0\n01\n\n.\n",
            1,
            "differs frame=0 output=0\n",
            "",
        ),
        (REPLAY, "1\nb0\n11\n\n.\n", 0, "agrees frames=1\n", ""),
        (VERIFY, TIED, 0, "verified\n", ""),
        (
            "sec verify left right trace",
            TIED,
            4,
            "",
            "sec: trace: tie at line 1\n",
        ),
    ];
    let alloc = rt.alloc();
    assert_eq!(rt; first_other(&rt, alloc, ROWS)?, None);
    for &(words, third, status, out, err) in THIRDS {
        let row = with_third(third, case(words, FREE, FREE, status, out, err));
        assert!(rt; answers_so(&rt, alloc, &row)?, "{words}");
    }
    let made = case(
        "sec check left right --tie --cert made",
        FREE,
        FREE,
        0,
        TWO,
        "",
    );
    let verified = case(
        "sec verify --tie left right made",
        FREE,
        FREE,
        0,
        "verified\n",
        "",
    );
    assert!(rt; stores_what_verifies(&rt, alloc, &made, &verified)?);
    Ok(())
}

#[test]
fn the_least_run_is_shown_where_it_is_asked_for(rt: HostRuntime) -> Result<(), Fail> {
    const INPUT: &str = "aag 1 1 0 1 0\n2\n2\n";
    const TURNED: &str = "aag 1 1 0 1 0\n2\n3\n";
    const START: &str = "different k=1 frame=0 output=0\n1\nb0\n01\n\n.\n";
    const FIRST: &str = "different k=1 frame=0 output=0\n1\nb0\n\n0\n.\n";
    const THIRD: &str = "different k=3 frame=2 output=0\n1\nb0\n0000\n0\n0\n0\n.\n";
    const OPEN: &str = "undecided k=1 signals=2 classes=2 unpaired=0\n";
    const ROWS: &[Case] = &[
        ("sec check left right --least", FREE, FREE, 1, START, ""),
        (
            "sec check left right --least -j 3",
            FREE,
            FREE,
            1,
            START,
            "",
        ),
        ("sec check left right --least", INPUT, TURNED, 1, FIRST, ""),
        (
            "sec check left right -j 3 --least",
            INPUT,
            TURNED,
            1,
            FIRST,
            "",
        ),
        (
            "sec check left right -k 3 --least",
            DELAY,
            MASKED,
            1,
            THIRD,
            "",
        ),
        (
            "sec check --least left right -k 3 -j 3",
            DELAY,
            MASKED,
            1,
            THIRD,
            "",
        ),
        ("sec check left right --least", TOGGLE, LOW, 2, OPEN, ""),
    ];
    let alloc = rt.alloc();
    assert_eq!(rt; first_other(&rt, alloc, ROWS)?, None);
    let made = case(
        "sec check left right --least --trace made",
        FREE,
        FREE,
        1,
        START,
        "",
    );
    let file = b"1\nb0\n01\n\n.\n".as_slice();
    assert!(rt; leaves(&rt, alloc, &made, "made", Some(file))?);
    Ok(())
}

// What replaying this text on the toggling latch and the constant answers.
fn replay(trace: &'static str, status: u8, out: &'static str, err: &'static str) -> Row {
    Row {
        trace,
        ..case("sec replay left right trace", TOGGLE, LOW, status, out, err)
    }
}

#[test]
fn traces_with_a_fault_are_refused(rt: HostRuntime) -> Result<(), Fail> {
    let alloc = rt.alloc();
    assert!(rt;
        answers_so(
            &rt,
            alloc,
            &replay("1\nb0\n0\n.\n", 0, "agrees frames=0\n", "")
        )?
    );
    const FAULTS: &[(&str, &str)] = &[
        ("0\n", "sec: trace: line at line 1\n"),
        ("1\nb1\n0\n\n.\n", "sec: trace: line at line 2\n"),
        ("1\nb0\n00\n\n.\n", "sec: trace: length at line 3\n"),
        ("1\nb0\nx\n\n.\n", "sec: trace: unknown at line 3\n"),
        ("1\nb0\n1\n\n.\n", "sec: trace: reset at line 3\n"),
        ("1\nb0\n0\n0\n.\n", "sec: trace: length at line 4\n"),
        ("", "sec: trace: truncated at line 1\n"),
        ("1", "sec: trace: truncated at line 1\n"),
        ("1\n", "sec: trace: truncated at line 2\n"),
        ("1\nb", "sec: trace: truncated at line 2\n"),
        ("1\nb0", "sec: trace: truncated at line 2\n"),
        ("1\nb0\n", "sec: trace: truncated at line 3\n"),
        ("1\nb0\n0", "sec: trace: truncated at line 3\n"),
        ("1\nb0\n0\n", "sec: trace: truncated at line 4\n"),
        ("1\nb0\n0\n\n", "sec: trace: truncated at line 5\n"),
        ("1\nb0\n0\n\n\n", "sec: trace: truncated at line 6\n"),
        ("1\nb0\n0\n\n\n.", "sec: trace: truncated at line 6\n"),
    ];
    for &(trace, err) in FAULTS {
        assert!(rt; answers_so(&rt, alloc, &replay(trace, 4, "", err))?);
    }
    Ok(())
}

// Whether a run into a sink of ten bytes ends as the row has it and leaves the stored trace.
fn leaves_cut<R: Threads + Wait + Sync>(
    rt: &R,
    alloc: Global,
    row: &Row,
) -> Result<bool, AllocError> {
    let mut sinks = Sinks::new(alloc, 10, Vec::new(alloc), Vec::new(alloc))?;
    leaves_past(rt, alloc, row, &mut sinks, "made", Some(STORED.as_bytes()))
}

#[test]
fn an_output_with_little_room_takes_a_part(rt: HostRuntime) -> Result<(), Fail> {
    let alloc = rt.alloc();
    let words = "sec check left right -k 2 --trace made";
    let cut = case(
        words,
        TOGGLE,
        LOW,
        6,
        "different ",
        "sec: output: write failed\n",
    );
    assert!(rt; leaves_cut(&rt, alloc, &cut)?);
    let second = case(words, TOGGLE, LOW, 5, "", "sec: right: read failed\n");
    assert!(rt; answers_without(&rt, alloc, &second, 1)?);
    Ok(())
}

// Whether a run over this shelf ends as the row has it, where a call of the error sink fails.
fn tells_on<R: Threads + Wait + Sync>(
    rt: &R,
    alloc: Global,
    row: &Row,
    shelf: &mut MemShelf,
    call: u64,
) -> Result<bool, AllocError> {
    let fails = vec![in alloc; call]?;
    let mut sinks = Sinks::new(alloc, 400, Vec::new(alloc), fails)?;
    ends_so(rt, alloc, row, shelf, &mut sinks, &FreeGate)
}

// The same where the first file isn't read either.
fn tells_without<R: Threads + Wait + Sync>(
    rt: &R,
    alloc: Global,
    row: &Row,
    call: u64,
) -> Result<bool, AllocError> {
    let fails = vec![in alloc; 0]?;
    let mut shelf = shelf_of(alloc, row, fails)?;
    tells_on(rt, alloc, row, &mut shelf, call)
}

#[test]
fn an_error_sink_that_fails_takes_a_part(rt: HostRuntime) -> Result<(), Fail> {
    let alloc = rt.alloc();
    let words = "sec check left right -k 2 --trace made";
    const PARTS: &[(u64, &str)] = &[(0, ""), (1, "sec: "), (2, "sec: left"), (3, "sec: left: ")];
    for &(call, part) in PARTS {
        let unread = case(words, TOGGLE, LOW, 5, "", part);
        assert!(rt; tells_without(&rt, alloc, &unread, call)?);
    }
    Ok(())
}

// Whether a check over this shelf is answered.
fn is_answered_on<R: Threads + Wait + Sync>(rt: &R, alloc: Global, shelf: &mut SureShelf) -> bool {
    match words_of(alloc, "sec check left left") {
        Ok(words) => run_over_sure_devices(rt, alloc, &words, shelf).status == 0,
        Err(_) => false,
    }
}

fn is_answered_surely<R: Threads + Wait + Sync>(rt: &R, alloc: Global) -> bool {
    let mut shelf = SureShelf::new(alloc);
    shelf.put("left", TOGGLE.as_bytes()).is_ok() && is_answered_on(rt, alloc, &mut shelf)
}

#[test]
fn sure_devices_are_answered(rt: HostRuntime) -> Result<(), Fail> {
    assert!(rt; is_answered_surely(&rt, rt.alloc()));
    Ok(())
}

// The certificate of two toggling latches, line by line.
const CERT: &str =
    "seccert 2 k=1 signals=3 tie=0\nclass l1 r1\nbase r1\n0 6 2 3 4 0\nstep r1\n-2 0 3 8 5 11 9 0\n0 12 4 7 6 11 10 0\nend\n";

// What reading this text as a certificate of two toggling latches answers.
fn certified(cert: &'static str, status: u8, out: &'static str, err: &'static str) -> Row {
    Row {
        trace: cert,
        ..case(
            "sec verify left right trace",
            TOGGLE,
            TOGGLE,
            status,
            out,
            err,
        )
    }
}

#[test]
fn certificates_are_verified(rt: HostRuntime) -> Result<(), Fail> {
    let alloc = rt.alloc();
    assert!(rt; answers_so(&rt, alloc, &certified(CERT, 0, "verified\n", ""))?);
    let before =
        "seccert 1 k=1 signals=3\nclass l1 r1\nbase r1\n0 6 2 3 4 0\nstep r1\n-2 0 3 8 5 11 9 0\n0 12 4 7 6 11 10 0\nend\n";
    assert!(rt; answers_so(&rt, alloc, &certified(before, 0, "verified\n", ""))?);
    const FAULTS: &[(&str, &str)] = &[
        (
            "seccert 2 k=1 signals=3 tie=0\nclass l1 r1\nbase r1\n0 6 2 3 4 0\nstep r1\n0 12 4 7 6 11 10 0\nend\n",
            "sec: trace: derivation at line 6\n",
        ),
        (
            "seccert 2 k=1 signals=3 tie=0\nclass l1 r1\nbase r1\n0 6 2 3 4 0\nstep r1\n",
            "sec: trace: truncated at line 6\n",
        ),
        (
            "seccert 2 k=1 signals=3 tie=0\nbase r1\n0 6 2 3 4 0\nstep r1\n-2 0 3 8 5 11 9 0\n0 12 4 7 6 11 10 0\nend\n",
            "sec: trace: outputs at line 1\n",
        ),
        (
            "seccert 2 k=1 signals=3 tie=0\nclass l1 r1\nbase l1\n0 6 2 3 4 0\n",
            "sec: trace: order at line 3\n",
        ),
        (
            "seccert 2 k=1 signals=3 tie=0\nclass r1 l1\nbase r1\n",
            "sec: trace: class at line 2\n",
        ),
        (
            "seccert 2 k=1 signals=4 tie=0\n",
            "sec: trace: signals at line 1\n",
        ),
        (
            "seccert 2 k=17 signals=3 tie=0\n",
            "sec: trace: limit at line 1\n",
        ),
        (
            "seccert 2 k=1 signals=3 tie=1\n",
            "sec: trace: tie at line 1\n",
        ),
        ("seccert 2\n", "sec: trace: line at line 1\n"),
        ("", "sec: trace: truncated at line 1\n"),
    ];
    for &(cert, err) in FAULTS {
        assert!(rt; answers_so(&rt, alloc, &certified(cert, 4, "", err))?);
    }
    let none = "sec verify left right none";
    let unread = case(none, TOGGLE, TOGGLE, 5, "", "sec: none: read failed\n");
    assert!(rt; answers_so(&rt, alloc, &unread)?);
    Ok(())
}

// Whether one run stores what the next one finds without a fault.
fn stores_what_verifies<R: Threads + Wait + Sync>(
    rt: &R,
    alloc: Global,
    made: &Row,
    verified: &Row,
) -> Result<bool, AllocError> {
    match shelf_of(alloc, made, Vec::new(alloc)) {
        Ok(mut shelf) => Ok(
            answers_on(rt, alloc, made, &mut shelf) == Ok(true)
                && answers_on(rt, alloc, verified, &mut shelf) == Ok(true),
        ),
        Err(e) => Err(e),
    }
}

#[test]
fn certificates_are_stored_of_equivalent_pairs(rt: HostRuntime) -> Result<(), Fail> {
    let alloc = rt.alloc();
    let words = "sec check left right --cert made --trace other";
    let two = "equivalent k=1 signals=3 classes=2\n";
    let made = case(words, TOGGLE, TOGGLE, 0, two, "");
    let verified = case(
        "sec verify left right made",
        TOGGLE,
        TOGGLE,
        0,
        "verified\n",
        "",
    );
    assert!(rt; stores_what_verifies(&rt, alloc, &made, &verified)?);
    assert!(rt; leaves(&rt, alloc, &made, "other", None)?);
    let open = "undecided k=1 signals=2 classes=2 unpaired=0\n";
    let unmade = case(words, TOGGLE, LOW, 2, open, "");
    assert!(rt; leaves(&rt, alloc, &unmade, "made", None)?);
    assert!(rt; leaves(&rt, alloc, &unmade, "other", None)?);
    let deep = "sec check left right -k 2 --cert made --trace other";
    let text = "different k=2 frame=1 output=0\n1\nb0\n0\n\n\n.\n";
    let differs = case(deep, TOGGLE, LOW, 1, text, "");
    assert!(rt; leaves(&rt, alloc, &differs, "made", None)?);
    assert!(rt; leaves(&rt, alloc, &differs, "other", Some(STORED.as_bytes()))?);
    let unstored = case(words, TOGGLE, TOGGLE, 6, "", "sec: made: write failed\n");
    assert!(rt; answers_without(&rt, alloc, &unstored, 2)?);
    Ok(())
}

// The conjunction of three inputs, and not that beside another gate; the same with the three grouped otherwise.
const GROUPED: &str = "aag 7 3 0 1 4\n2\n4\n6\n14\n8 4 2\n10 6 3\n12 8 6\n14 13 11\n";

const REGROUPED: &str = "aag 8 3 0 1 5\n2\n4\n6\n16\n8 4 2\n10 6 3\n12 6 4\n14 12 2\n16 15 11\n";

// What is stored of them: gates with equal operands are derived from these, and the regrouped one from the gates that it rests on.
const DERIVED: &str =
    "seccert 2 k=1 signals=13 tie=0\nclass l4 r4\nclass l5 r5\nclass l6 r7\nclass l7 r8\nbase r4\n-5 9 0 2 3 16 0\n5 -9 0 14 15 4 0\n5 0 31 33 29 0\n0 31 34 32 30 0\nstep r4\n-18 22 0 30 31 44 0\n18 -22 0 42 43 32 0\n18 0 67 69 65 0\n0 67 70 68 66 0\nbase r5\n-6 10 0 5 6 19 0\n6 -10 0 17 18 7 0\n6 0 31 33 29 0\n0 31 34 32 30 0\nstep r5\n-19 23 0 33 34 47 0\n19 -23 0 45 46 35 0\n19 0 67 69 65 0\n0 67 70 68 66 0\nbase r7\n-7 12 0 8 9 2 3 22 25 0\n7 -12 0 23 24 20 21 10 4 0\n7 0 31 33 29 0\n0 31 34 32 30 0\nstep r7\n-20 25 0 36 37 30 31 50 53 0\n20 -25 0 51 52 48 49 38 32 0\n20 0 67 69 65 0\n0 67 70 68 66 0\nbase r8\n6 -10 0 17 18 7 0\n13 0 31 29 11 12 32 28 23 24 20 21 10 4 0\n-7 0 33 26 8 9 2 3 22 25 0\n0 31 33 27 30 34 13 5 6 19 0\nstep r8\n-19 23 0 33 34 47 0\n19 -23 0 45 46 35 0\n-20 25 0 36 37 30 31 50 53 0\n20 -25 0 51 52 48 49 38 32 0\n-21 26 0 39 40 71 69 56 0\n21 -26 0 54 55 70 68 41 0\n21 0 67 73 65 0\n0 67 74 72 66 0\nend\n";

#[test]
fn a_certificate_derives_places_from_lower_ones(rt: HostRuntime) -> Result<(), Fail> {
    let alloc = rt.alloc();
    let words = "sec check left right --cert made";
    let out = "equivalent k=1 signals=13 classes=9\n";
    let made = case(words, GROUPED, REGROUPED, 0, out, "");
    assert!(rt; leaves(&rt, alloc, &made, "made", Some(DERIVED.as_bytes()))?);
    Ok(())
}
