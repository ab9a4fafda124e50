//! The checker of logs.
use dimacs_text::read_dimacs;
use log_check::{check, first_bad};
use sat_log::read_log;
use std::alloc::Global;
use std::test::Fail;

// Whether this is the first bad line of a log over a formula, or none is bad.
fn is_first_bad(alloc: Global, formula: &[u8], log: &[u8], bad: Option<u64>) -> bool {
    match (read_dimacs(alloc, formula), read_log(alloc, log)) {
        (Ok(formula), Ok(log)) => first_bad(alloc, &formula, &log) == Ok(bad),
        _ => false,
    }
}

// Whether a log over a formula is accepted, or else refused.
fn is_checked(alloc: Global, formula: &[u8], log: &[u8], accepted: bool) -> bool {
    match (read_dimacs(alloc, formula), read_log(alloc, log)) {
        (Ok(formula), Ok(log)) => check(alloc, &formula, &log) == Ok(accepted),
        _ => false,
    }
}

#[test]
fn a_hint_left_out_doubled_out_of_order_or_of_itself_is_the_fault(
    rt: HostRuntime,
) -> Result<(), Fail> {
    const FORMULA: &[u8] = b"p cnf 4 6\n-1 0\n-2 0\n-3 0\n-4 2 3 0\n-4 -2 -3 0\n4 0\n";
    const LOGS: &[(&[u8], Option<u64>)] = &[
        (b"0 6 2 3 4 0\n", None),
        (b"0 6 2 4 0\n", Some(0)),
        (b"0 6 6 2 3 4 0\n", Some(0)),
        (b"0 4 6 2 3 0\n", Some(0)),
        (b"0 6 2 3 7 0\n", Some(0)),
    ];
    for &(log, bad) in LOGS {
        assert!(rt; is_first_bad(rt.alloc(), FORMULA, log, bad));
        assert!(rt; is_checked(rt.alloc(), FORMULA, log, bad == None));
    }
    assert!(rt; is_checked(rt.alloc(), FORMULA, b"", false));
    Ok(())
}

#[test]
fn a_second_line_rests_on_the_first(rt: HostRuntime) -> Result<(), Fail> {
    const FORMULA: &[u8] =
        b"p cnf 7 11\n-1 0\n-4 0\n-5 -2 0\n5 2 0\n-6 -3 0\n6 3 0\n-3 2 0\n3 -2 0\n-7 5 6 0\n-7 -5 -6 0\n7 0\n";
    const LOGS: &[(&[u8], Option<u64>)] = &[
        (b"-2 0 3 8 5 11 9 0\n0 12 4 7 6 11 10 0\n", None),
        (b"-2 0 3 8 5 11 9 0\n0 12 4 7 6 11 0\n", Some(1)),
        (b"-2 0 3 8 5 11 9 0\n0 12 12 4 7 6 11 10 0\n", Some(1)),
        (b"-2 0 3 8 5 11 9 0\n0 4 12 7 6 11 10 0\n", Some(1)),
        (b"-2 0 3 8 5 11 9 0\n0 12 4 7 6 11 13 0\n", Some(1)),
        (b"-2 0 3 8 5 11 12 0\n0 3 8 5 11 9 0\n", Some(0)),
    ];
    for &(log, bad) in LOGS {
        assert!(rt; is_first_bad(rt.alloc(), FORMULA, log, bad));
    }
    Ok(())
}
