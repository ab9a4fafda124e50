//! Runs over bytes that no editor writes and over devices that fail, deep questions, and files of many inputs.
ghost use Rattle.std.specs.Prelude.{◌≤◌};

use crate::runs::{Sinks, run_words};
use aig_graph::Netlist;
use aiger_codec::{write_binary_net, write_text_net};
use demo_pair::make_demo;
use sec_base::{FreeGate, MemShelf};
use std::alloc::{AllocError, Global};
use std::sync::Wait;
use std::test::Fail;
use std::thread::Threads;

// The words and files of a run, the call of the shelf that fails, how many bytes the output takes, and how it ends.
#[derive(Clone, Copy)]
struct Row {
    words: &'static str,
    left: &'static [u8],
    right: &'static [u8],
    third: &'static [u8],
    failing: u64,
    room: usize,
    status: u8,
    out: &'static str,
    err: &'static str,
}

const TOGGLE: &[u8] = b"aag 1 0 1 1 0\n2 3\n2\n";

const LOW: &[u8] = b"aag 0 0 0 1 0\n0\n";

const RING: &[u8] = b"aag 4 0 3 1 1\n2 6 1\n4 2\n6 4\n8\n8 2 4\n";

const PRODUCT_OF_LATCHES: &[u8] = b"aag 5 2 2 1 1\n2\n4\n6 2\n8 4\n10\n10 6 8\n";

const LATCH_OF_PRODUCT: &[u8] = b"aag 4 2 1 1 1\n2\n4\n6 8\n6\n8 2 4\n";

const TRACE: &[u8] = b"1\nb0\n0\n\n\n.\n";

const DIFFERENT: &str = "different k=2 frame=1 output=0\n1\nb0\n0\n\n\n.\n";

// A shelf with the files of a row, of which one call fails.
fn shelf_of(alloc: Global, row: &Row) -> Result<MemShelf, AllocError> {
    let mut shelf = MemShelf::new(alloc, vec![in alloc; row.failing]?);
    for (name, bytes) in [
        ("left", row.left),
        ("right", row.right),
        ("third", row.third),
    ] {
        if shelf.put(name, bytes).is_err() {
            return Err(AllocError);
        }
    }
    Ok(shelf)
}

// How a run into these sinks ends.
fn status_of<R: Threads + Wait + Sync>(
    rt: &R,
    alloc: Global,
    words: &str,
    shelf: &mut MemShelf,
    sinks: &mut Sinks,
) -> Result<u8, AllocError> {
    match run_words(rt, alloc, words, shelf, sinks, &FreeGate) {
        Ok(report) => Ok(report.status),
        Err(e) => Err(e),
    }
}

// Whether a run over this shelf ends as the row says.
fn ends_on<R: Threads + Wait + Sync>(
    rt: &R,
    alloc: Global,
    row: &Row,
    shelf: &mut MemShelf,
) -> Result<bool, AllocError> {
    let mut sinks = Sinks::new(alloc, row.room, Vec::new(alloc), Vec::new(alloc))?;
    Ok(
        status_of(rt, alloc, row.words, shelf, &mut sinks) == Ok(row.status)
            && sinks.hold(row.out, row.err),
    )
}

// Whether a run ends as the row says.
fn ends_so<R: Threads + Wait + Sync>(rt: &R, alloc: Global, row: &Row) -> Result<bool, AllocError> {
    let mut shelf = shelf_of(alloc, row)?;
    ends_on(rt, alloc, row, &mut shelf)
}

// Whether a run over a shelf ends with a status, and what it prints is the end of a text.
fn prints_end<R: Threads + Wait + Sync>(
    rt: &R,
    alloc: Global,
    words: &str,
    shelf: &mut MemShelf,
    status: u8,
    text: &[u8],
) -> Result<bool, AllocError> {
    let mut sinks = Sinks::new(alloc, 400, Vec::new(alloc), Vec::new(alloc))?;
    Ok(
        status_of(rt, alloc, words, shelf, &mut sinks) == Ok(status)
            && text.ends_with(sinks.out.bytes()),
    )
}

fn answered(
    words: &'static str,
    left: &'static [u8],
    right: &'static [u8],
    status: u8,
    out: &'static str,
) -> Row {
    Row {
        words,
        left,
        right,
        third: TRACE,
        failing: u64::MAX,
        room: 400,
        status,
        out,
        err: "",
    }
}

// The row of a run that ends by a fault of a device.
fn failed(
    words: &'static str,
    right: &'static [u8],
    failing: u64,
    room: usize,
    status: u8,
    err: &'static str,
) -> Row {
    Row {
        failing,
        room,
        err,
        ..answered(words, TOGGLE, right, status, "")
    }
}

#[test]
fn any_bytes_and_any_depth_are_answered(rt: HostRuntime) -> Result<(), Fail> {
    const CHECK: &str = "sec check left right";
    const DEEP: &str = "sec check left right -k 16";
    const EIGHT: &[u8] = b"aag 8 8 0 0 0\n2\n4\n6\n8\n10\n12\n14\n16\n";
    const OVERLONG: &[u8] = b"aig 4 2 1 1 1\n8\n6\n\x84\x00\x02";
    const SQUARED: &[u8] = b"aig 4 2 1 1 1\n8\n6\n\x08\x00";
    const COMPLEMENT: &[u8] = b"aag 1 0 1 1 0\n2 3 1\n3\n";
    const ROWS: &[(&str, &[u8], &[u8], u8, &str)] = &[
        (
            CHECK,
            EIGHT,
            EIGHT,
            0,
            "equivalent k=1 signals=9 classes=9\n",
        ),
        (
            CHECK,
            PRODUCT_OF_LATCHES,
            OVERLONG,
            0,
            "equivalent k=1 signals=8 classes=7\n",
        ),
        (
            CHECK,
            PRODUCT_OF_LATCHES,
            SQUARED,
            2,
            "undecided k=1 signals=8 classes=6 unpaired=0\n",
        ),
        (
            CHECK,
            TOGGLE,
            b"aag 1 0 1 1 0\n2 3\n3\n",
            1,
            "different k=1 frame=0 output=0\n1\nb0\n00\n\n.\n",
        ),
        (
            CHECK,
            b"aig 300 300 0 1 0\n600\n",
            b"aig 300 300 0 1 0\n600\n",
            0,
            "equivalent k=1 signals=301 classes=301\n",
        ),
        (
            "sec check left right -k 16 -j 4 --classes",
            TOGGLE,
            COMPLEMENT,
            0,
            "equivalent k=16 signals=3 classes=2\nclass l1 !r1\n",
        ),
        (DEEP, LOW, RING, 0, "equivalent k=16 signals=5 classes=4\n"),
        (
            DEEP,
            PRODUCT_OF_LATCHES,
            LATCH_OF_PRODUCT,
            0,
            "equivalent k=16 signals=8 classes=7\n",
        ),
        (
            DEEP,
            TOGGLE,
            LOW,
            1,
            "different k=16 frame=1 output=0\n1\nb0\n0\n\n\n.\n",
        ),
    ];
    let alloc = rt.alloc();
    for &(words, left, right, status, out) in ROWS {
        let row = answered(words, left, right, status, out);
        assert!(rt; ends_so(&rt, alloc, &row)?, "{words}");
    }
    Ok(())
}

#[test]
fn devices_that_fail_are_told(rt: HostRuntime) -> Result<(), Fail> {
    const UNWRITTEN: &str = "sec: output: write failed\n";
    const ROWS: &[(&str, &[u8], u64, usize, u8, &str)] = &[
        ("sec check left right", TOGGLE, u64::MAX, 0, 6, UNWRITTEN),
        (
            "sec check left right -k 2 --trace made",
            LOW,
            2,
            400,
            6,
            "sec: made: write failed\n",
        ),
        (
            "sec replay left right third",
            LOW,
            2,
            400,
            5,
            "sec: third: read failed\n",
        ),
        (
            "sec verify left right third",
            LOW,
            2,
            400,
            5,
            "sec: third: read failed\n",
        ),
        ("sec demo 0", LOW, u64::MAX, 0, 6, UNWRITTEN),
    ];
    let alloc = rt.alloc();
    for &(words, right, failing, room, status, err) in ROWS {
        let row = failed(words, right, failing, room, status, err);
        assert!(rt; ends_so(&rt, alloc, &row)?, "{words}");
    }
    Ok(())
}

// Whether an output that takes so many bytes has the front of the text.
fn is_cut_on<R: Threads + Wait + Sync>(
    rt: &R,
    alloc: Global,
    words: &str,
    shelf: &mut MemShelf,
    room: usize,
) -> Result<bool, AllocError> {
    let mut sinks = Sinks::new(alloc, room, Vec::new(alloc), Vec::new(alloc))?;
    Ok(
        status_of(rt, alloc, words, shelf, &mut sinks) == Ok(6)
            && Some(sinks.out.bytes()) == DIFFERENT.as_bytes().get(..room)
            && sinks.err.bytes() == b"sec: output: write failed\n".as_slice(),
    )
}

// Whether it has, and the trace stands.
fn is_cut_at<R: Threads + Wait + Sync>(
    rt: &R,
    alloc: Global,
    room: usize,
) -> Result<bool, AllocError> {
    const WORDS: &str = "sec check left right -k 2 --trace made";
    match shelf_of(alloc, &failed(WORDS, LOW, u64::MAX, room, 6, "")) {
        Ok(mut shelf) => Ok(
            is_cut_on(rt, alloc, WORDS, &mut shelf, room) == Ok(true)
                && shelf.get("made") == Some(TRACE),
        ),
        Err(e) => Err(e),
    }
}

#[test]
fn an_output_takes_the_front_of_the_text(rt: HostRuntime) -> Result<(), Fail> {
    let alloc = rt.alloc();
    for room in 0..DIFFERENT.len() {
        assert!(rt; is_cut_at(&rt, alloc, room)?);
    }
    Ok(())
}

// Whether a run over this shelf ends with status 0.
fn ends_well<R: Threads + Wait + Sync>(
    rt: &R,
    alloc: Global,
    words: &str,
    shelf: &mut MemShelf,
) -> Result<bool, AllocError> {
    let mut sinks = Sinks::new(alloc, 400, Vec::new(alloc), Vec::new(alloc))?;
    Ok(status_of(rt, alloc, words, shelf, &mut sinks) == Ok(0))
}

// Whether the certificate on this shelf is verified.
fn verifies<R: Threads + Wait + Sync>(
    rt: &R,
    alloc: Global,
    shelf: &mut MemShelf,
) -> Result<bool, AllocError> {
    let mut sinks = Sinks::new(alloc, 400, Vec::new(alloc), Vec::new(alloc))?;
    let status = status_of(rt, alloc, "sec verify left right made", shelf, &mut sinks);
    Ok(status.is_ok() && sinks.out.bytes() == b"verified\n".as_slice())
}

// Whether a certificate is stored by these words and verified.
fn is_verified<R: Threads + Wait + Sync>(
    rt: &R,
    alloc: Global,
    words: &'static str,
    left: &'static [u8],
    right: &'static [u8],
) -> bool {
    match shelf_of(alloc, &answered(words, left, right, 0, "")) {
        Ok(mut shelf) => {
            ends_well(rt, alloc, words, &mut shelf) == Ok(true)
                && verifies(rt, alloc, &mut shelf) == Ok(true)
        }
        Err(_) => false,
    }
}

#[test]
fn certificates_of_sixteen_frames_are_verified(rt: HostRuntime) -> Result<(), Fail> {
    let alloc = rt.alloc();
    let words = "sec check left right -k 16 --cert made";
    for (left, right) in [
        (TOGGLE, TOGGLE),
        (LOW, RING),
        (PRODUCT_OF_LATCHES, LATCH_OF_PRODUCT),
    ] {
        assert!(rt; is_verified(&rt, alloc, words, left, right));
    }
    Ok(())
}

// The files of a demo pair's netlists, the left one in the binary form, the right one as text.
fn put_right(alloc: Global, shelf: &mut MemShelf, net: &Netlist) -> bool {
    match write_text_net(alloc, net) {
        Ok(bytes) => shelf.put("right", &bytes).is_ok(),
        Err(_) => false,
    }
}

fn put_left(alloc: Global, shelf: &mut MemShelf, net: &Netlist) -> bool {
    match write_binary_net(alloc, net) {
        Ok(bytes) => shelf.put("left", &bytes).is_ok(),
        Err(_) => false,
    }
}

// Whether both were put on a shelf.
fn are_put(alloc: Global, shelf: &mut MemShelf, n: u32) -> bool
    requires { n ≤ 100000 }
{
    match make_demo(alloc, n) {
        Ok((left, right)) => put_left(alloc, shelf, &left) && put_right(alloc, shelf, &right),
        Err(_) => false,
    }
}

// Whether a check of the files of a hundred inputs ends well and prints the end of a text.
fn files_print_end<R: Threads + Wait + Sync>(rt: &R, alloc: Global, text: &[u8]) -> bool {
    let mut shelf = MemShelf::new(alloc, Vec::new(alloc));
    are_put(alloc, &mut shelf, 100)
        && prints_end(rt, alloc, "sec check left right", &mut shelf, 0, text) == Ok(true)
}

// Whether it prints the end of what the demo of this size prints.
fn files_print_as_demo<R: Threads + Wait + Sync>(rt: &R, alloc: Global, sinks: &mut Sinks) -> bool {
    let mut none = MemShelf::new(alloc, Vec::new(alloc));
    status_of(rt, alloc, "sec demo 100", &mut none, sinks).is_ok()
        && files_print_end(rt, alloc, sinks.out.bytes())
}

#[test]
fn files_of_a_hundred_inputs_are_answered_as_their_pair_is(rt: HostRuntime) -> Result<(), Fail> {
    let alloc = rt.alloc();
    match Sinks::new(alloc, 400, Vec::new(alloc), Vec::new(alloc)) {
        Ok(mut sinks) => assert!(rt; files_print_as_demo(&rt, alloc, &mut sinks)),
        Err(_) => assert!(rt; false),
    }
    Ok(())
}
