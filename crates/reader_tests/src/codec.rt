//! Headers, and the numbers of both forms.
use aiger_codec::*;
use plain_text::read_number;
use std::alloc::{AllocError, Global};
use std::test::Fail;

#[test]
fn the_first_fault_of_a_header_is_answered(rt: HostRuntime) -> Result<(), Fail> {
    const FILES: &[(&[u8], NetKind)] = &[
        (b"abc", NetKind::Header),
        (b"aag 0 0 0 0 0 1\n", NetKind::Bad),
        (b"aag 0 0 0 0 0 0 1\n", NetKind::Constraint),
        (b"aag 0 0 0 0 0 0 0 1\n", NetKind::Justice),
        (b"aag 0 0 0 0 0 0 0 0 1\n", NetKind::Fairness),
        (b"aag 1000001 0 0 0 0\n", NetKind::Limit),
        (b"aag 1 1 1 0 0\n", NetKind::Count),
        (b"aig 1 0 0 0 0\n", NetKind::Count),
        (b"aag 1 1 0 1 0", NetKind::Truncated),
        (b"aag 1 1  0 1 0\n", NetKind::Header),
        (b"aag 1 1 0 1\n", NetKind::Header),
    ];
    for &(bytes, kind) in FILES {
        assert!(rt; read_header(bytes) == Err(NetFault { kind, at: 0 }));
    }
    let header = Header {
        binary: false,
        m: 2,
        i: 1,
        l: 0,
        o: 3,
        a: 1,
        end: 15,
    };
    assert!(rt; read_header(b"aag 2 01 0 3 1\n") == Ok(header));
    assert!(rt; NetKind::Justice.name() == "section justice");
    Ok(())
}

#[test]
fn numbers_are_read_at_their_places(rt: HostRuntime) -> Result<(), Fail> {
    let bytes = b"12 007x99999999999";
    const SPELLED: &[(u64, Option<(u32, u64)>)] = &[
        (0, Some((12, 2))),
        (1, Some((2, 2))),
        (2, None),
        (3, Some((7, 6))),
        (7, Some((4294967295, 18))),
        (18, None),
    ];
    for &(at, number) in SPELLED {
        assert!(rt; read_number(bytes, at) == number);
    }
    Ok(())
}

// Whether a number is written by these bytes.
fn is_written(alloc: Global, n: u32, bytes: &[u8]) -> Result<bool, AllocError> {
    let mut written = Vec::new(alloc);
    write_delta(&mut written, n)?;
    Ok(written.as_slice() == bytes)
}

#[test]
fn binary_numbers_are_written_and_read(rt: HostRuntime) -> Result<(), Fail> {
    const SPELLED: &[(u32, &[u8])] = &[
        (0, b"\x00"),
        (2, b"\x02"),
        (127, b"\x7f"),
        (128, b"\x80\x01"),
        (300, b"\xac\x02"),
        (16383, b"\xff\x7f"),
        (16384, b"\x80\x80\x01"),
        (4294967295, b"\xff\xff\xff\xff\x0f"),
    ];
    for &(n, bytes) in SPELLED {
        assert!(rt; is_written(rt.alloc(), n, bytes)?);
        assert!(rt; read_delta(bytes, 0) == Delta::Value(n, bytes.len() as u64));
    }
    Ok(())
}

#[test]
fn binary_numbers_are_read_at_their_places(rt: HostRuntime) -> Result<(), Fail> {
    const SPELLED: &[(&[u8], u64, Delta)] = &[
        (b"\x00\x7f\x80\x01", 1, Delta::Value(127, 2)),
        (b"\x00\x7f\x80\x01", 2, Delta::Value(128, 4)),
        (b"\x80\x00", 0, Delta::Value(0, 2)),
        (b"\x80\x80", 0, Delta::Cut),
        (b"", 0, Delta::Cut),
        (b"\x80\x80\x80\x80\x80\x00", 0, Delta::Wide),
        (b"\x80\x80\x80\x80\x10", 0, Delta::Wide),
        (b"\xff\xff\xff\xff\x1f", 0, Delta::Wide),
        (b"\x80\x80\x80\x80\x80", 0, Delta::Wide),
    ];
    for &(bytes, at, read) in SPELLED {
        assert!(rt; read_delta(bytes, at) == read);
    }
    Ok(())
}

#[test]
fn symbols_end_at_the_comment(rt: HostRuntime) -> Result<(), Fail> {
    let counts = Counts {
        inputs: 1,
        latches: 0,
        outputs: 2,
    };
    let fault = NetFault {
        kind: NetKind::Symbol,
        at: 5,
    };
    assert!(rt; read_symbols(&counts, b"i0 x\no1 \ncany", 0) == Ok(9));
    assert!(rt; read_symbols(&counts, b"i0 x\nl0 y\n", 0) == Err(fault));
    Ok(())
}
