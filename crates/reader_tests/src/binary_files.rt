//! Bodies of binary files.
use aig_graph::{BuildFault, Netlist};
use aiger_binary::read_binary;
use aiger_codec::{NetError, read_header, write_text_net};
use std::alloc::{AllocError, Global};
use std::test::Fail;

// The netlist and the place after the body, or the first fault and its place.
fn read(alloc: Global, bytes: &[u8]) -> Result<(Netlist, u64), (&'static str, u64)> {
    let header = match read_header(bytes) {
        Err(fault) => return Err((fault.kind.name(), fault.at)),
        Ok(header) => header,
    };
    match read_binary(alloc, bytes, &header) {
        Err(NetError::Refused(fault)) => Err((fault.kind.name(), fault.at)),
        Err(NetError::Memory) => Err(("memory", 0)),
        Ok((builder, end)) => match builder.finish(alloc) {
            Err(BuildFault::Undefined(_)) => Err(("undefined", 0)),
            Err(BuildFault::Cyclic) => Err(("cyclic", 0)),
            Err(_) => Err(("memory", 0)),
            Ok(net) => Ok((net, end)),
        },
    }
}

// The first fault and its place, or `gates` and the place after the body.
fn outcome(alloc: Global, bytes: &[u8]) -> (&'static str, u64) {
    match read(alloc, bytes) {
        Ok((_, end)) => ("gates", end),
        Err(fault) => fault,
    }
}

#[test]
fn the_first_fault_is_answered_with_the_first_byte_of_its_item(rt: HostRuntime) {
    let alloc = rt.alloc();
    const ROWS: &[(&[u8], (&str, u64))] = &[
        (b"aig 1 0 0 0 1\n\x00\x00", ("order", 14)),
        (b"aig 1 0 0 0 1\n\x03\x00", ("order", 14)),
        (b"aig 1 0 0 0 1\n\x01\x02", ("order", 14)),
        (b"aig 1 0 0 0 1\n\x02\x00", ("gates", 16)),
        (b"aig 1 0 0 0 1\n\x01\x01", ("gates", 16)),
        (b"aig 1 0 0 0 1\n\x82\x00\x80\x00", ("gates", 18)),
        (b"aig 1 0 0 0 1\n\x82", ("truncated", 14)),
        (b"aig 1 0 0 0 1\n\x02\x80", ("truncated", 14)),
        (b"aig 1 0 0 0 1\n\xff\xff\xff\xff\x1f\x00", ("line", 14)),
        (b"aig 1 0 0 0 1\n\x02\x80\x80\x80\x80\x80", ("line", 14)),
        (b"aig 1 0 1 0 0\n4\n", ("literal", 14)),
        (b"aig 1 0 1 0 0\n2 3\n", ("reset", 14)),
        (b"aig 1 0 1 0 0\n2 2 2\n", ("line", 14)),
        (b"aig 1 0 1 0 0\n2 2", ("truncated", 14)),
        (b"aig 1 1 0 2 0\n2\n4\n", ("literal", 16)),
        (b"aig 3 1 1 1 1\n7 1\n6\n\x02\x02c", ("gates", 22)),
    ];
    for &(bytes, wanted) in ROWS {
        assert!(rt; outcome(alloc, bytes) == wanted);
    }
}

// The netlist of a file as text, or nothing where it is refused.
fn text_of(alloc: Global, bytes: &[u8]) -> Result<Vec<u8>, AllocError> {
    match read(alloc, bytes) {
        Ok((net, _)) => write_text_net(alloc, &net),
        Err(_) => Ok(Vec::new(alloc)),
    }
}

#[test]
fn variables_are_inputs_then_latches_then_gates(rt: HostRuntime) -> Result<(), Fail> {
    let text = text_of(rt.alloc(), b"aig 4 1 2 1 1\n8 1\n3 6\n9\n\x03\x02")?;
    let wanted = b"aag 4 1 2 1 1\n2\n4 8 1\n6 3 6\n9\n8 5 3\n".as_slice();
    assert!(rt; text.as_slice() == wanted);
    Ok(())
}
