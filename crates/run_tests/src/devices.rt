//! Shelves and sinks that fail where they are told.
ghost use Rattle.std.specs.Prelude.{IsOk};

use sec_base::*;
use std::fs;
use std::test::Fail;

// Over a sure sink no text is lost.
fn is_never_cut_short(bytes: &[u8]) -> Result<(), Failed>
    ensures { IsOk result }
{
    let mut sink = SureSink::new();
    write_text(&mut sink, bytes)
}

// Whether a sink of five bytes whose second call fails takes texts so.
fn is_cut_short(sink: &mut MemSink) -> bool {
    write_text(sink, b"ab").is_ok()
        && write_text(sink, b"cd").is_err()
        && write_text(sink, b"cdef").is_err()
        && sink.bytes() == b"abcde".as_slice()
}

#[test]
fn a_text_is_cut_short_where_the_room_ends(rt: HostRuntime) -> Result<(), Fail> {
    let fails = vec![in rt.alloc(); 1]?;
    match MemSink::with_room(rt.alloc(), 5, fails) {
        Ok(mut sink) => assert!(rt; is_cut_short(&mut sink)),
        Err(_) => assert!(rt; false),
    }
    assert!(rt; is_never_cut_short(b"abc").is_ok());
    Ok(())
}

// Whether numbers are written so.
fn are_decimal(sink: &mut MemSink) -> bool {
    const NUMBERS: &[u64] = &[0, 7, 10, 1000000, 18446744073709551615];
    for &n in NUMBERS {
        if write_number(sink, n).is_err() || write_text(sink, b" ").is_err() {
            return false;
        }
    }
    sink.bytes() == b"0 7 10 1000000 18446744073709551615 ".as_slice()
}

#[test]
fn numbers_are_decimal(rt: HostRuntime) -> Result<(), Fail> {
    match MemSink::with_room(rt.alloc(), 64, Vec::new(rt.alloc())) {
        Ok(mut sink) => assert!(rt; are_decimal(&mut sink)),
        Err(_) => assert!(rt; false),
    }
    Ok(())
}

// Whether a shelf whose calls 0 and 4 fail does what it is told, over a file.
fn fails_where_told(shelf: &mut MemShelf, file: &mut Vec<u8>) -> bool {
    shelf.put("a", b"1234").is_ok()
        && shelf.load("a", 9, file) == Err(LoadFault::Failed)
        && shelf.load("a", 4, file) == Ok(())
        && shelf.load("a", 3, file) == Err(LoadFault::TooLong)
        && file.as_slice() == b"1234".as_slice()
        && shelf.load("b", 9, file) == Err(LoadFault::Failed)
        && shelf.store("b", b"4") == Err(StoreFault::Failed)
        && shelf.store("b", b"5") == Ok(())
        && shelf.get("b") == Some(b"5".as_slice())
}

#[test]
fn a_shelf_fails_where_it_is_told(rt: HostRuntime) -> Result<(), Fail> {
    let fails = vec![in rt.alloc(); 0, 4]?;
    let mut shelf = MemShelf::new(rt.alloc(), fails);
    let mut file = Vec::new(rt.alloc());
    assert!(rt; fails_where_told(&mut shelf, &mut file));
    Ok(())
}

// Whether a sure shelf has every file, over one of a byte.
fn has_every_file(shelf: &mut SureShelf, file: &mut Vec<u8>) -> bool {
    shelf.load("a", 0, file) == Ok(())
        && file.is_empty()
        && shelf.put("a", b"1").is_ok()
        && shelf.store("b", b"2") == Ok(())
        && shelf.load("a", 0, file) == Err(LoadFault::TooLong)
}

#[test]
fn a_sure_shelf_has_every_file(rt: HostRuntime) -> Result<(), Fail> {
    let mut file = vec![in rt.alloc(); 1u8]?;
    let mut shelf = SureShelf::new(rt.alloc());
    assert!(rt; has_every_file(&mut shelf, &mut file));
    Ok(())
}

#[test]
fn a_real_file_is_stored_and_loaded(rt: HostRuntime) -> Result<(), Fail> {
    let mut shelf = FsShelf::new(&rt);
    let mut file = Vec::new(rt.alloc());
    assert_eq!(rt; shelf.store("stored.txt", b"123"), Ok(()));
    assert_eq!(rt; shelf.load("stored.txt", 3, &mut file), Ok(()));
    assert_eq!(rt; file.as_slice(), b"123".as_slice());
    assert_eq!(rt;
        shelf.load("stored.txt", 1, &mut file),
        Err(LoadFault::TooLong)
    );
    assert!(rt; fs::remove_file(&rt, "stored.txt").is_ok());
    assert_eq!(rt;
        shelf.load("stored.txt", 3, &mut file),
        Err(LoadFault::Failed)
    );
    Ok(())
}

#[test]
fn a_stream_that_takes_nothing_fails(rt: HostRuntime) -> Result<(), Fail> {
    let mut room = [0u8; 3];
    let mut sink = OutSink::new(room.as_mut_slice());
    assert!(rt; write_text(&mut sink, b"four").is_err());
    Ok(())
}
