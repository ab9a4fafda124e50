//! Whole files, text and binary.
ghost use Rattle.std.specs.Prelude.{◌<◌, ◌^◌};

use aiger_codec::{NetError, write_binary_net, write_text_net};
use aiger_file::read_netlist;
use std::alloc::{AllocError, Global};
use std::test::Fail;

// The first fault and its place, or `gates` and how many there are.
fn outcome(alloc: Global, bytes: &[u8]) -> (&'static str, u64) {
    match read_netlist(alloc, bytes) {
        Ok(net) => ("gates", net.gates().len() as u64),
        Err(NetError::Refused(fault)) => (fault.kind.name(), fault.at),
        Err(NetError::Memory) => ("memory", 0),
    }
}

#[test]
fn each_kind_of_fault_is_answered_at_its_first_byte(rt: HostRuntime) -> Result<(), Fail> {
    let alloc = rt.alloc();
    const ROWS: &[(&str, &str, u64)] = &[
        ("abc\n", "header", 0),
        ("aag 0 0 0 0 0 1\n", "section bad", 0),
        ("aag 0 0 0 0 0 0 1\n", "section constraint", 0),
        ("aag 0 0 0 0 0 0 0 1\n", "section justice", 0),
        ("aag 0 0 0 0 0 0 0 0 1\n", "section fairness", 0),
        ("aag 1000001 0 0 0 0\n", "limit", 0),
        ("aag 4294967296 0 0 0 0\n", "limit", 0),
        ("aag 1000000 1000000 0 0 0\n", "truncated", 26),
        ("aag 1 1 1 0 0\n2\n4 4\n", "count", 0),
        ("aag 1 1 0 1 0\n2\n2 2\n", "line", 16),
        ("aag 1 1 0 1 0\n2\n", "truncated", 16),
        ("aag 1 1 0 1 0\n3\n2\n", "literal", 14),
        ("aag 2 2 0 0 0\n2\n2\n", "redefined", 16),
        ("aag 1 0 1 0 0\n2 2 3\n", "reset", 14),
        ("aag 2 1 0 1 0\n2\n4\n", "undefined", 0),
        ("aag 2 0 0 1 2\n2\n2 4 4\n4 2 2\n", "cyclic", 0),
        ("aag 0 0 0 0 0\ni0 x\n", "symbol", 14),
        (
            "aag 1 0 1 1 0\n2 3\n2\nl0 x\no0 y\ncmade by hand",
            "gates",
            0,
        ),
        ("aag 2 1 0 1 1\n2\n4\n4 2 2\ni0 \ni0 twice\nc", "gates", 1),
    ];
    for &(text, kind, at) in ROWS {
        assert!(rt; outcome(alloc, text.as_bytes()) == (kind, at));
    }
    Ok(())
}

#[test]
fn a_file_that_is_cut_is_truncated_where_its_line_begins(rt: HostRuntime) -> Result<(), Fail> {
    let alloc = rt.alloc();
    let whole = b"aag 1 0 1 1 0\n2 3\n2\n".as_slice();
    for length in 0..20usize {
        let wanted = match length {
            0..=2 => ("header", 0),
            3..=13 => ("truncated", 0),
            14..=17 => ("truncated", 14),
            _ => ("truncated", 18),
        };
        assert!(rt; outcome(alloc, &whole[..length]) == wanted);
    }
    Ok(())
}

#[test]
fn binary_files_are_read_as_text_files_are(rt: HostRuntime) -> Result<(), Fail> {
    let alloc = rt.alloc();
    const ROWS: &[(&[u8], (&str, u64))] = &[
        (b"aig 1 0 0 0 1\n\x00\x00", ("order", 14)),
        (b"aig 4 2 1 1 1\n8\n6\n\x04\x02", ("gates", 1)),
        (b"aig 4 2 1 1 1\n8\n6\n\x84\x00\x02", ("gates", 1)),
        (b"aig 4 2 1 1 1\n8\n6\n\x08\x00", ("gates", 1)),
        (b"aig 4 2 1 1 1\n8\n6\n\x04\x05", ("order", 18)),
        (b"aig 4 2 1 1 1\n8\n6\n\x04\x02i1 x\nl0 y\nc", ("gates", 1)),
        (b"aig 4 2 1 1 1\n8\n6\n\x04\x02l1 y\n", ("symbol", 20)),
        (b"aig 4 2 1 0 1\n8\n\x04\x02x", ("truncated", 18)),
        (b"aig 4 2 1 0 0\n8\n", ("count", 0)),
        (b"aig 300 300 0 1 0\n600\n", ("gates", 0)),
        (b"aig 301 300 0 1 1\n602\n\x02\xd6\x04", ("gates", 1)),
        (b"aig 0 0 0 0 0 0 1\n", ("section constraint", 0)),
    ];
    for &(bytes, wanted) in ROWS {
        assert!(rt; outcome(alloc, bytes) == wanted);
    }
    Ok(())
}

#[test]
fn a_binary_file_that_is_cut_is_truncated_where_its_item_begins(
    rt: HostRuntime,
) -> Result<(), Fail> {
    let alloc = rt.alloc();
    let whole = b"aig 4 2 1 1 1\n8\n6\n\x04\x02".as_slice();
    for length in 0..20usize {
        let wanted = match length {
            0..=2 => ("header", 0),
            3..=13 => ("truncated", 0),
            14..=15 => ("truncated", 14),
            16..=17 => ("truncated", 16),
            _ => ("truncated", 18),
        };
        assert!(rt; outcome(alloc, &whole[..length]) == wanted);
    }
    assert!(rt; outcome(alloc, whole) == ("gates", 1));
    Ok(())
}

// A text with a chain of gates, the first of which is the product of the second and true, and so on down to the one input.
fn chain(alloc: Global, last: u32) -> Result<Vec<u8>, AllocError>
    requires some { 0 < last }
    requires few { last < 2 ^ 20 }
{
    let mut text = Vec::new(alloc);
    let head = format!(in alloc; "aag {last} 1 0 0 {}\n{}\n", last - 1, 2 * last)?;
    text.extend_from_slice(head.as_bytes())?;
    for v in 1..last {
        let line = format!(in alloc; "{} {} 1\n", 2 * v, 2 * (v + 1))?;
        text.extend_from_slice(line.as_bytes())?;
    }
    Ok(text)
}

#[test]
fn a_chain_of_gates_may_be_long_and_stand_upside_down(rt: HostRuntime) -> Result<(), Fail> {
    let alloc = rt.alloc();
    let text = chain(alloc, 100_000)?;
    assert!(rt; outcome(alloc, &text) == ("gates", 99_999));
    Ok(())
}

// The netlist of a file as text, or nothing where it is refused.
fn read_as(alloc: Global, bytes: &[u8]) -> Result<Vec<u8>, AllocError> {
    match read_netlist(alloc, bytes) {
        Ok(net) => write_text_net(alloc, &net),
        Err(_) => Ok(Vec::new(alloc)),
    }
}

#[test]
fn a_netlist_is_written_as_text(rt: HostRuntime) -> Result<(), Fail> {
    let alloc = rt.alloc();
    const ROWS: &[(&[u8], &str)] = &[
        (
            b"aig 4 2 1 1 1\n8\n6\n\x04\x02",
            "aag 4 2 1 1 1\n2\n4\n6 8\n6\n8 4 2\n",
        ),
        (
            b"aag 9 1 3 2 1\n02\n4 3 4\n6 1 1\n8 18 0\n5\n0\n18 4 2\nc",
            "aag 9 1 3 2 1\n2\n4 3 4\n6 1 1\n8 18\n5\n0\n18 4 2\n",
        ),
    ];
    for &(bytes, wanted) in ROWS {
        let text = read_as(alloc, bytes)?;
        assert!(rt; text.as_slice() == wanted.as_bytes());
    }
    Ok(())
}

// The netlist of a file as binary, or nothing where it is refused.
fn read_as_binary(alloc: Global, bytes: &[u8]) -> Result<Vec<u8>, AllocError> {
    match read_netlist(alloc, bytes) {
        Ok(net) => write_binary_net(alloc, &net),
        Err(_) => Ok(Vec::new(alloc)),
    }
}

#[test]
fn a_netlist_is_written_as_binary(rt: HostRuntime) -> Result<(), Fail> {
    let alloc = rt.alloc();
    const ROWS: &[(&[u8], &[u8])] = &[
        (
            b"aag 9 1 3 2 1\n2\n4 3 4\n6 1 1\n8 18 0\n5\n0\n18 2 5\nc",
            b"aig 5 1 3 2 1\n3 4\n1 1\n10\n5\n0\n\x05\x03",
        ),
        (
            b"aag 5 2 2 1 1\n2\n4\n6 2\n8 4\n10\n10 6 8\n",
            b"aig 5 2 2 1 1\n2\n4\n10\n\x02\x02",
        ),
        (
            b"aag 8 2 0 1 2\n12\n4\n7\n16 12 4\n6 16 13\n",
            b"aig 4 2 0 1 2\n9\n\x02\x02\x02\x03",
        ),
    ];
    for &(text, wanted) in ROWS {
        let bytes = read_as_binary(alloc, text)?;
        assert!(rt; bytes.as_slice() == wanted);
    }
    Ok(())
}

// A file with another byte at a place.
fn changed(alloc: Global, whole: &[u8], place: usize, byte: u8) -> Result<Vec<u8>, AllocError> {
    let mut bytes = Vec::from_slice(alloc, whole)?;
    if place < bytes.len() {
        bytes[place] = byte;
    }
    Ok(bytes)
}

#[test]
fn one_byte_changed_in_a_text_file(rt: HostRuntime) -> Result<(), Fail> {
    let alloc = rt.alloc();
    let whole = b"aag 1 0 1 1 0\n2 3\n2\n".as_slice();
    const REFUSED: &[(usize, u8, &str, u64)] = &[
        (0, b'b', "header", 0),
        (1, b'i', "reset", 14),
        (2, b'f', "header", 0),
        (3, b'x', "header", 0),
        (4, b'0', "count", 0),
        (4, b' ', "header", 0),
        (5, b'0', "header", 0),
        (6, b'1', "count", 0),
        (7, b'0', "header", 0),
        (8, b'0', "line", 14),
        (8, b'2', "count", 0),
        (9, b'\n', "header", 0),
        (10, b'0', "symbol", 18),
        (10, b'2', "truncated", 20),
        (11, b'x', "header", 0),
        (12, b'1', "count", 0),
        (13, b' ', "section bad", 0),
        (13, b'x', "header", 0),
        (14, b'0', "literal", 14),
        (14, b'3', "literal", 14),
        (14, b'4', "literal", 14),
        (14, b'x', "line", 14),
        (14, b'\n', "line", 14),
        (15, b'x', "line", 14),
        (15, b'1', "line", 14),
        (16, b'9', "literal", 14),
        (16, b' ', "line", 14),
        (17, b' ', "truncated", 20),
        (17, b'1', "literal", 14),
        (18, b'9', "literal", 18),
        (18, b'x', "line", 18),
        (19, b'0', "truncated", 18),
        (19, b' ', "truncated", 18),
    ];
    for &(place, byte, kind, at) in REFUSED {
        let bytes = changed(alloc, whole, place, byte)?;
        assert!(rt; outcome(alloc, bytes.as_slice()) == (kind, at));
    }
    const ACCEPTED: &[(usize, u8, &str)] = &[
        (4, b'2', "aag 2 0 1 1 0\n2 3\n2\n"),
        (16, b'0', "aag 1 0 1 1 0\n2 0\n2\n"),
        (16, b'2', "aag 1 0 1 1 0\n2 2\n2\n"),
        (18, b'0', "aag 1 0 1 1 0\n2 3\n0\n"),
        (18, b'3', "aag 1 0 1 1 0\n2 3\n3\n"),
    ];
    for &(place, byte, wanted) in ACCEPTED {
        let bytes = changed(alloc, whole, place, byte)?;
        let text = read_as(alloc, bytes.as_slice())?;
        assert!(rt; text.as_slice() == wanted.as_bytes());
    }
    Ok(())
}

#[test]
fn one_byte_changed_in_a_binary_file(rt: HostRuntime) -> Result<(), Fail> {
    let alloc = rt.alloc();
    let whole = b"aig 4 2 1 1 1\n8\n6\n\x04\x02".as_slice();
    const REFUSED: &[(usize, u8, &str, u64)] = &[
        (0, b'b', "header", 0),
        (1, b'a', "truncated", 18),
        (2, b'f', "header", 0),
        (3, b'x', "header", 0),
        (4, b'3', "count", 0),
        (4, b'5', "count", 0),
        (5, b'x', "header", 0),
        (6, b'1', "count", 0),
        (7, b'\n', "header", 0),
        (8, b'0', "count", 0),
        (9, b'0', "header", 0),
        (10, b'0', "order", 16),
        (10, b'2', "truncated", 18),
        (11, b'x', "header", 0),
        (12, b'0', "count", 0),
        (12, b'2', "count", 0),
        (13, b' ', "section bad", 0),
        (14, b'x', "line", 14),
        (14, b'\n', "line", 14),
        (15, b' ', "truncated", 18),
        (15, b'0', "literal", 14),
        (16, b'x', "line", 16),
        (16, b'\n', "line", 16),
        (17, b' ', "truncated", 16),
        (18, 0, "order", 18),
        (18, 8, "order", 18),
        (18, 9, "order", 18),
        (18, 132, "truncated", 18),
        (19, 5, "order", 18),
        (19, 130, "truncated", 18),
    ];
    for &(place, byte, kind, at) in REFUSED {
        let bytes = changed(alloc, whole, place, byte)?;
        assert!(rt; outcome(alloc, bytes.as_slice()) == (kind, at));
    }
    const ACCEPTED: &[(usize, u8, &str)] = &[
        (14, b'7', "aag 4 2 1 1 1\n2\n4\n6 7\n6\n8 4 2\n"),
        (14, b'9', "aag 4 2 1 1 1\n2\n4\n6 9\n6\n8 4 2\n"),
        (16, b'9', "aag 4 2 1 1 1\n2\n4\n6 8\n9\n8 4 2\n"),
        (18, 1, "aag 4 2 1 1 1\n2\n4\n6 8\n6\n8 7 5\n"),
        (18, 6, "aag 4 2 1 1 1\n2\n4\n6 8\n6\n8 2 0\n"),
        (19, 0, "aag 4 2 1 1 1\n2\n4\n6 8\n6\n8 4 4\n"),
        (19, 4, "aag 4 2 1 1 1\n2\n4\n6 8\n6\n8 4 0\n"),
    ];
    for &(place, byte, wanted) in ACCEPTED {
        let bytes = changed(alloc, whole, place, byte)?;
        let text = read_as(alloc, bytes.as_slice())?;
        assert!(rt; text.as_slice() == wanted.as_bytes());
    }
    Ok(())
}
