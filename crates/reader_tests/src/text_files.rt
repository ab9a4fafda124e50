//! Bodies of text files.
use aig_graph::BuildFault;
use aiger_codec::{NetError, read_header};
use aiger_text::read_text;
use std::alloc::Global;

// The first fault and its place, or `gates` and how many there are.
fn outcome(alloc: Global, bytes: &[u8]) -> (&'static str, u64) {
    let header = match read_header(bytes) {
        Err(fault) => return (fault.kind.name(), fault.at),
        Ok(header) => header,
    };
    if header.m > 1000000 || header.o > 1000000 {
        return ("past the limits", 0);
    }
    match read_text(alloc, bytes, &header) {
        Err(NetError::Refused(fault)) => (fault.kind.name(), fault.at),
        Err(NetError::Memory) => ("memory", 0),
        Ok((builder, end)) => match builder.finish(alloc) {
            Err(BuildFault::Undefined(_)) => ("undefined", 0),
            Err(BuildFault::Cyclic) => ("cyclic", 0),
            Err(_) => ("memory", 0),
            Ok(net) => {
                if end == bytes.len() as u64 {
                    ("gates", net.gates().len() as u64)
                } else {
                    ("more bytes", end)
                }
            }
        },
    }
}

#[test]
fn the_first_fault_is_answered_with_the_first_byte_of_its_line(rt: HostRuntime) {
    const ROWS: &[(&[u8], (&str, u64))] = &[
        (b"aag 1 1 0 1 0\n2\n2 2\n", ("line", 16)),
        (b"aag 1 1 0 1 0\n2\n", ("truncated", 16)),
        (b"aag 1 1 0 1 0\n3\n2\n", ("literal", 14)),
        (b"aag 2 2 0 0 0\n2\n2\n", ("redefined", 16)),
        (b"aag 1 0 1 0 0\n2 2 3\n", ("reset", 14)),
        (b"aag 2 1 0 1 0\n2\n4\n", ("undefined", 0)),
        (b"aag 2 0 0 1 2\n2\n2 4 4\n4 2 2\n", ("cyclic", 0)),
        (
            b"aag 5 2 2 1 1\n2\n4\n6 2\n8 4 8\n10\n10 6 9\n",
            ("gates", 1),
        ),
        (b"aag 1 0 1 1 0\n2 3\n2\nc\n", ("more bytes", 20)),
    ];
    for &(bytes, wanted) in ROWS {
        assert!(rt; outcome(rt.alloc(), bytes) == wanted);
    }
}
