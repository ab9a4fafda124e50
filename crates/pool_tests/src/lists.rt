//! A table of lists: what is read, and each kind of fault, at the first line that has one.
use pair_list::{ListError, ListFault, ListKind, MOST_PAIRS, read_list};
use std::alloc::Global;
use std::test::Fail;

// Whether a text lists these pairs.
fn lists(alloc: Global, text: &[u8], pairs: &[(&str, &str)]) -> bool {
    match read_list(alloc, text) {
        Ok(names) => {
            names.len() == pairs.len()
                && names.iter().zip(pairs).all(|(names, pair)| names.left() == pair.0
                    && names.right() == pair.1)
        }
        Err(_) => false,
    }
}

// Whether a text has this fault.
fn has_fault(alloc: Global, text: &[u8], kind: ListKind, line: u64) -> bool {
    match read_list(alloc, text) {
        Ok(_) => false,
        Err(error) => error == ListError::Refused(ListFault { kind, line }),
    }
}

#[test]
fn names_with_one_space_between_are_read(rt: HostRuntime) -> Result<(), Fail> {
    const LISTS: &[(&str, &[(&str, &str)])] = &[
        ("", &[]),
        ("a b\n", &[("a", "b")]),
        ("a a\n\t= .aag\r\n", &[("a", "a"), ("\t=", ".aag\r")]),
        ("ä\u{2003} €\n", &[("ä\u{2003}", "€")]),
    ];
    for &(text, pairs) in LISTS {
        assert!(rt; lists(rt.alloc(), text.as_bytes(), pairs));
    }
    Ok(())
}

#[test]
fn the_first_fault_is_told(rt: HostRuntime) -> Result<(), Fail> {
    const TEXTS: &[(&[u8], ListKind, u64)] = &[
        (b"a", ListKind::Truncated, 1),
        (b"a b\na  b", ListKind::Truncated, 2),
        (b"a  a\n", ListKind::Line, 1),
        (b" a b\n", ListKind::Line, 1),
        (b"a b \n", ListKind::Line, 1),
        (b"a b\n\n", ListKind::Line, 2),
        (b"a b\na\n", ListKind::Line, 2),
        (b" b\n", ListKind::Line, 1),
        (b"a b\na b\na \n", ListKind::Line, 3),
        (b"a b\n\xff b\n", ListKind::Line, 2),
    ];
    for &(text, kind, line) in TEXTS {
        assert!(rt; has_fault(rt.alloc(), text, kind, line));
    }
    Ok(())
}

#[test]
fn ten_thousand_lines_are_the_most(rt: HostRuntime) -> Result<(), Fail> {
    let alloc = rt.alloc();
    let mut text = Vec::new(alloc);
    for _ in 0..MOST_PAIRS {
        text.extend_from_slice(b"a b\n")?;
    }
    assert!(rt; read_list(alloc, text.as_slice()).is_ok_and(|names| names.len() == MOST_PAIRS));
    text.extend_from_slice(b"a")?;
    assert!(rt; has_fault(alloc, text.as_slice(), ListKind::Limit, 10_001));
    Ok(())
}
