//! Runs of `reduce`: what is stored, what is printed, and what is refused.
use crate::runs::{RING, TOGGLE, answers_so, answers_without, case, leaves, leaves_unprinted};
use std::test::Fail;

// Three latches: one toggles from 0, one from 1, and one stays low.
const TOGGLES: &str = "aag 3 0 3 1 0\n2 3\n4 5 1\n6 0\n4\n";

const ONE_TOGGLE: &str = "aag 3 0 1 1 0\n2 3\n3\n";

// The ring without its product, which three frames show low.
const RING_ALONE: &str = "aag 4 0 3 1 0\n2 6 1\n4 2\n6 4\n0\n";

#[test]
fn a_netlist_without_its_equal_signals_is_stored(rt: HostRuntime) -> Result<(), Fail> {
    const ONE: &str = "reduced k=1 signals=4 classes=2 latches=1 gates=0\n";
    const WHOLE: &str = "reduced k=1 signals=2 classes=2 latches=1 gates=0\n";
    const SAME: &str = "reduced k=1 signals=5 classes=5 latches=3 gates=1\n";
    const LESS: &str = "reduced k=3 signals=5 classes=4 latches=3 gates=0\n";
    const BINARY: &str = "aig 1 0 1 1 0\n3\n3\n";
    const REDUCED: &[(&str, &str, &str, &str)] = &[
        ("sec reduce left made", TOGGLES, ONE, ONE_TOGGLE),
        ("sec reduce left made --binary", TOGGLES, ONE, BINARY),
        ("sec reduce left made", TOGGLE, WHOLE, TOGGLE),
        ("sec reduce left made -j 3", RING, SAME, RING),
        ("sec reduce left made -k 3", RING, LESS, RING_ALONE),
    ];
    let alloc = rt.alloc();
    for &(words, source, out, file) in REDUCED {
        let row = case(words, source, "", 0, out, "");
        assert!(rt;
            leaves(&rt, alloc, &row, "made", Some(file.as_bytes()))?,
            "{words}"
        );
    }
    Ok(())
}

#[test]
fn a_reduced_netlist_is_equivalent_to_its_source(rt: HostRuntime) -> Result<(), Fail> {
    let alloc = rt.alloc();
    let same = "equivalent k=1 signals=5 classes=2\n";
    for words in ["sec check left right", "sec check left right --tie"] {
        assert!(rt; answers_so(&rt, alloc, &case(words, TOGGLES, ONE_TOGGLE, 0, same, ""))?);
    }
    Ok(())
}

#[test]
fn a_netlist_that_is_not_reduced_leaves_the_files(rt: HostRuntime) -> Result<(), Fail> {
    let alloc = rt.alloc();
    let words = "sec reduce left made";
    let fault = case(words, "abc", "", 4, "", "sec: left: header at byte 0\n");
    assert!(rt; answers_so(&rt, alloc, &fault)?);
    let unread = case(words, TOGGLE, "", 5, "", "sec: left: read failed\n");
    assert!(rt; answers_without(&rt, alloc, &unread, 0)?);
    let unstored = case(words, TOGGLE, "", 6, "", "sec: made: write failed\n");
    assert!(rt; answers_without(&rt, alloc, &unstored, 1)?);
    let unwritten = case(words, TOGGLE, "", 6, "", "sec: output: write failed\n");
    assert!(rt; leaves_unprinted(&rt, alloc, &unwritten, "made", TOGGLE.as_bytes())?);
    Ok(())
}
