//! Runs of `climb`.
use crate::runs::{
    DELAY, LOW, MASKED, RING, Row, Sinks, TOGGLE, answers_so, case, run_words, shelf_of,
};
use sec_base::{FreeGate, MemShelf};
use std::alloc::{AllocError, Global};
use std::sync::Wait;
use std::test::Fail;
use std::thread::Threads;

#[test]
fn a_climb_ends_at_the_first_depth_that_decides(rt: HostRuntime) -> Result<(), Fail> {
    const SAME: &str = "equivalent k=1 signals=3 classes=2\n";
    const SECOND: &str = "different k=2 frame=1 output=0\n1\nb0\n0\n\n\n.\n";
    const THIRD: &str = "equivalent k=3 signals=5 classes=4\n";
    const LEAST: &str = "different k=3 frame=2 output=0\n1\nb0\n0000\n0\n0\n0\n.\n";
    const OPEN: &str = "undecided k=1 signals=2 classes=2 unpaired=0\n";
    const TWO: &str = "undecided k=2 signals=5 classes=5 unpaired=0\n";
    const CLIMBS: &[(&str, &str, &str, u8, &str)] = &[
        ("sec climb left right", TOGGLE, TOGGLE, 0, SAME),
        ("sec climb left right", TOGGLE, LOW, 1, SECOND),
        ("sec climb left right -j 3", TOGGLE, LOW, 1, SECOND),
        ("sec climb left right -m 2", TOGGLE, LOW, 1, SECOND),
        ("sec climb left right -m 1", TOGGLE, LOW, 2, OPEN),
        ("sec climb left right", LOW, RING, 0, THIRD),
        ("sec climb left right -j 3", LOW, RING, 0, THIRD),
        ("sec climb left right -m 3", LOW, RING, 0, THIRD),
        ("sec climb left right -m 2", LOW, RING, 2, TWO),
        ("sec climb left right --least", DELAY, MASKED, 1, LEAST),
        ("sec climb left right --least -j 3", DELAY, MASKED, 1, LEAST),
    ];
    let alloc = rt.alloc();
    for &(words, left, right, status, out) in CLIMBS {
        assert!(rt;
            answers_so(&rt, alloc, &case(words, left, right, status, out, ""))?,
            "{words}"
        );
    }
    Ok(())
}

#[test]
fn a_climb_over_files_with_a_fault_is_refused(rt: HostRuntime) -> Result<(), Fail> {
    let alloc = rt.alloc();
    let (header, inputs) = (
        "sec: right: header at byte 0\n",
        "sec: inputs differ: 0 and 1\n",
    );
    for (right, err) in [("abc", header), (DELAY, inputs)] {
        assert!(rt;
            answers_so(
                &rt,
                alloc,
                &case("sec climb left right", LOW, right, 4, "", err)
            )?
        );
    }
    Ok(())
}

// Whether a run over this shelf returns a journal.
fn has_journal_on<R: Threads + Wait + Sync>(
    rt: &R,
    alloc: Global,
    row: &Row,
    shelf: &mut MemShelf,
    sinks: &mut Sinks,
) -> Result<bool, AllocError> {
    match run_words(rt, alloc, row.words, shelf, sinks, &FreeGate) {
        Ok(report) => Ok(report.journal.is_some()),
        Err(e) => Err(e),
    }
}

fn has_journal_from<R: Threads + Wait + Sync>(
    rt: &R,
    alloc: Global,
    row: &Row,
    shelf: &mut MemShelf,
) -> Result<bool, AllocError> {
    let mut sinks = Sinks::new(alloc, 400, Vec::new(alloc), Vec::new(alloc))?;
    has_journal_on(rt, alloc, row, shelf, &mut sinks)
}

// Whether a run over a shelf of its own does.
fn has_journal<R: Threads + Wait + Sync>(
    rt: &R,
    alloc: Global,
    row: &Row,
) -> Result<bool, AllocError> {
    let mut shelf = shelf_of(alloc, row, Vec::new(alloc))?;
    has_journal_from(rt, alloc, row, &mut shelf)
}

#[test]
fn a_climb_returns_the_journal_of_its_last_refinement(rt: HostRuntime) -> Result<(), Fail> {
    const INPUT: &str = "aag 1 1 0 1 0\n2\n2\n";
    const TURNED: &str = "aag 1 1 0 1 0\n2\n3\n";
    const CLIMBS: &[(&str, &str, bool)] = &[
        (TOGGLE, TOGGLE, true),
        (TOGGLE, LOW, true),
        (LOW, RING, true),
        (INPUT, TURNED, false),
    ];
    let alloc = rt.alloc();
    for &(left, right, some) in CLIMBS {
        let row = case("sec climb left right", left, right, 0, "", "");
        assert_eq!(rt; has_journal(&rt, alloc, &row)?, some);
    }
    Ok(())
}
