//! Logs as texts.
use sat_log::{Log, LogError, LogFault, Stop, read_log, read_part, write_log};
use std::alloc::Global;
use std::test::Fail;

// Whether a text is a log, and is written as it stands.
fn is_written_again(alloc: Global, bytes: &[u8]) -> bool {
    let Ok(log) = read_log(alloc, bytes) else {
        return false;
    };
    let mut text = Vec::new(alloc);
    match write_log(&log, &mut text) {
        Ok(()) => text.as_slice() == bytes,
        Err(_) => false,
    }
}

// The first line that isn't a log line; 0 where there is none.
fn bad_line(alloc: Global, bytes: &[u8]) -> u64 {
    match read_log(alloc, bytes) {
        Err(LogError::Refused(LogFault { line })) => line,
        _ => 0,
    }
}

#[test]
fn logs_are_read_and_written(rt: HostRuntime) -> Result<(), Fail> {
    const LOGS: &[&[u8]] = &[
        b"",
        b"0 6 2 0\n",
        b"0 0\n",
        b"-2 0 3 8 5 11 9 0\n0 12 4 7 6 11 10 0\n",
        b"2147483647 -2147483647 0 18446744073709551615 0\n",
    ];
    for &log in LOGS {
        assert!(rt; is_written_again(rt.alloc(), log));
    }
    Ok(())
}

#[test]
fn the_first_line_that_is_none_is_refused(rt: HostRuntime) -> Result<(), Fail> {
    const TEXTS: &[(&[u8], u64)] = &[
        (b"0 6 2 0", 1),
        (b"0 6 2 0\n\n", 2),
        (b"0 6 2 0\n0 06 2 0\n", 2),
        (b"0 6 2 0\n0 6 2 0\n0\n", 3),
        (b"-0 0 1 0\n", 1),
        (b"+1 0 1 0\n", 1),
        (b"1  0 1 0\n", 1),
        (b"1 0 1 0 \n", 1),
        (b"1 0 -1 0\n", 1),
        (b"2147483648 0 1 0\n", 1),
        (b"0 18446744073709551616 0\n", 1),
    ];
    for &(text, line) in TEXTS {
        assert!(rt; bad_line(rt.alloc(), text) == line);
    }
    Ok(())
}

// Whether a log has this line.
fn is_line(log: &Log, i: u64, clause: &[i32], hints: &[u64]) -> bool {
    i < log.len() && log.clause(i) == clause && log.hints(i) == hints
}

#[test]
fn a_part_ends_at_a_word(rt: HostRuntime) -> Result<(), Fail> {
    let mut log = Log::new(rt.alloc());
    let end = read_part(rt.alloc(), b"0 6 2 0\nstep r1\n".as_slice(), 4, &mut log)?;
    assert!(rt; end.stop == Stop::Ends && end.line == 5 && end.rest == b"step r1\n".as_slice());
    assert!(rt; log.len() == 1 && is_line(&log, 0, &[], &[6, 2]));
    Ok(())
}

#[test]
fn lines_stand_in_order(rt: HostRuntime) -> Result<(), Fail> {
    let mut log = Log::new(rt.alloc());
    log.add(&[-2], &[3, 8])?;
    log.add(&[], &[12])?;
    assert!(rt; log.len() == 2);
    assert!(rt; is_line(&log, 0, &[-2], &[3, 8]) && is_line(&log, 1, &[], &[12]));
    Ok(())
}
