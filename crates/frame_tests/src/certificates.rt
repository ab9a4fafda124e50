//! The certificate of two toggling latches, what becomes of it when lines and bytes change, and where it is cut.
use crate::circuits::{KEPT, TOGGLE, pair_is, tied_pair_is};
use corr_certificate::{CertFault, CertKind, Checked, verify};
use log_trim::trimmed;
use product_machine::Product;
use sat_log::{Log, read_log, write_log};
use std::alloc::{AllocError, Global};
use std::test::Fail;

// Line 1, the class line, and both parts with the end, as they are worked.
const HEAD: &str = "seccert 2 k=1 signals=3 tie=0\n";

const CLASS: &str = "class l1 r1\n";

const PARTS: &str = "base r1\n0 6 2 3 4 0\nstep r1\n-2 0 3 8 5 11 9 0\n0 12 4 7 6 11 10 0\nend\n";

// Whether a certificate is told to have this first fault.
fn is_no(alloc: Global, product: &Product, bytes: &[u8], kind: CertKind, line: u64) -> bool {
    verify(alloc, product, bytes) == Ok(Checked::No(CertFault { kind, line }))
}

fn is_yes(alloc: Global, product: &Product, bytes: &[u8]) -> bool {
    verify(alloc, product, bytes) == Ok(Checked::Yes)
}

// Line 1, the class line, and the parts with the end, one after another.
fn put_together(
    alloc: Global,
    head: &str,
    classes: &str,
    parts: &str,
) -> Result<Vec<u8>, AllocError> {
    let mut text = Vec::from_slice(alloc, head.as_bytes())?;
    text.extend_from_slice(classes.as_bytes())?;
    text.extend_from_slice(parts.as_bytes())?;
    Ok(text)
}

// The number of lines that end in a text.
fn lines_of(bytes: &[u8]) -> u64 {
    let mut lines: u64 = 0;
    for byte in bytes {
        if *byte == b'\n' {
            lines = lines.saturating_add(1);
        }
    }
    lines
}

// Whether each cut of the text is truncated at the line that it cuts.
fn cuts_are_told(alloc: Global, product: &Product, text: &[u8]) -> bool {
    for n in 0..text.len() {
        let front = &text[..n];
        let line = lines_of(front).saturating_add(1);
        if !is_no(alloc, product, front, CertKind::Truncated, line) {
            return false;
        }
    }
    true
}

// Whether no text with this byte at a place is accepted, but the text itself.
fn no_change_is_accepted(
    alloc: Global,
    product: &Product,
    text: &[u8],
    byte: u8,
) -> Result<bool, AllocError> {
    let mut changed = Vec::from_slice(alloc, text)?;
    for i in 0..text.len() {
        if i < changed.len() {
            changed[i] = byte;
        }
        if text[i] != byte && is_yes(alloc, product, changed.as_slice()) {
            return Ok(false);
        }
        if i < changed.len() {
            changed[i] = text[i];
        }
    }
    Ok(true)
}

// Whether no text with one of these bytes in place of another is accepted.
fn no_byte_is_accepted(alloc: Global, product: &Product, text: &[u8]) -> bool {
    const BYTES: &[u8] = b"0129- \n!lr";
    for &byte in BYTES {
        if no_change_is_accepted(alloc, product, text, byte) != Ok(true) {
            return false;
        }
    }
    true
}

// Whether the worked certificate is accepted, and nothing that stands close to it.
fn is_accepted_alone(alloc: Global, product: &Product, text: &[u8]) -> bool {
    is_yes(alloc, product, text)
        && cuts_are_told(alloc, product, text)
        && no_byte_is_accepted(alloc, product, text)
}

fn worked_is_accepted_alone(alloc: Global, product: &Product) -> bool {
    match put_together(alloc, HEAD, CLASS, PARTS) {
        Ok(text) => is_accepted_alone(alloc, product, &text),
        Err(_) => false,
    }
}

// Whether it is with a first line as it was before.
fn is_accepted_as_before(alloc: Global, product: &Product) -> bool {
    match put_together(alloc, "seccert 1 k=1 signals=3\n", CLASS, PARTS) {
        Ok(text) => is_yes(alloc, product, &text),
        Err(_) => false,
    }
}

#[test]
fn the_worked_certificate_is_accepted_alone(rt: HostRuntime) -> Result<(), Fail> {
    assert!(rt; pair_is(rt.alloc(), TOGGLE, TOGGLE, worked_is_accepted_alone));
    assert!(rt; pair_is(rt.alloc(), TOGGLE, TOGGLE, is_accepted_as_before));
    Ok(())
}

// Whether the certificate with these three is told to have this first fault.
fn is_bad(
    alloc: Global,
    product: &Product,
    texts: (&str, &str, &str),
    kind: CertKind,
    line: u64,
) -> bool {
    match put_together(alloc, texts.0, texts.1, texts.2) {
        Ok(text) => is_no(alloc, product, text.as_slice(), kind, line),
        Err(_) => false,
    }
}

// First lines with their faults.
fn bad_heads_are_told(alloc: Global, product: &Product) -> bool {
    const BAD_HEADS: &[(&str, CertKind)] = &[
        ("seccert 2 k=1 signals=4 tie=0\n", CertKind::Signals),
        ("seccert 2 k=17 signals=3 tie=0\n", CertKind::Limit),
        ("seccert 2 k=0 signals=4 tie=0\n", CertKind::Limit),
        ("seccert 2 k=99999999999 signals=3 tie=0\n", CertKind::Limit),
        ("seccert 2 k=01 signals=3 tie=0\n", CertKind::Line),
        ("seccert 2 k= signals=3 tie=0\n", CertKind::Line),
        ("seccert 2 k=1 signals=3 tie=0 \n", CertKind::Line),
        ("seccert 2 k=1  signals=3 tie=0\n", CertKind::Line),
        ("seccert 2 k=1 signals=3 tie=2\n", CertKind::Line),
        ("seccert 2 k=1 signals=3\n", CertKind::Line),
        ("seccert 1 k=1 signals=3 tie=0\n", CertKind::Line),
        ("seccert 3 k=1 signals=3 tie=0\n", CertKind::Line),
        ("seccert 2 k=1 signals=3 tie=1\n", CertKind::Tie),
        ("seccert 2 k=1 signals=4 tie=1\n", CertKind::Signals),
        ("seccert 1 k=1 signals=4\n", CertKind::Signals),
    ];
    for &(head, kind) in BAD_HEADS {
        if !is_bad(alloc, product, (head, CLASS, PARTS), kind, 1) {
            return false;
        }
    }
    true
}

// Class lines with their faults.
fn bad_classes_are_told(alloc: Global, product: &Product) -> bool {
    const BAD_CLASSES: &[(&str, CertKind, u64)] = &[
        ("", CertKind::Outputs, 1),
        ("class l1 !r1\n", CertKind::Outputs, 1),
        ("class c l1\n", CertKind::Outputs, 1),
        ("class r1 l1\n", CertKind::Class, 2),
        ("class !l1 r1\n", CertKind::Class, 2),
        ("class l1\n", CertKind::Class, 2),
        ("class \n", CertKind::Class, 2),
        ("class l1 r1 r1\n", CertKind::Class, 2),
        ("class l1  r1\n", CertKind::Class, 2),
        ("class l1 r2\n", CertKind::Class, 2),
        ("class l1 i0\n", CertKind::Class, 2),
        ("class l1 r4294967297\n", CertKind::Class, 2),
        ("class l1 r1\nclass l1 r1\n", CertKind::Class, 3),
        ("class c l1\nclass r1 c\n", CertKind::Class, 3),
        ("class\n", CertKind::Outputs, 1),
        ("class l1 r1\nclass\n", CertKind::Line, 3),
        ("class c l1 r1\n", CertKind::Order, 3),
    ];
    for &(classes, kind, line) in BAD_CLASSES {
        if !is_bad(alloc, product, (HEAD, classes, PARTS), kind, line) {
            return false;
        }
    }
    true
}

// Parts with their faults.
fn bad_parts_are_told(alloc: Global, product: &Product) -> bool {
    const BAD_PARTS: &[(&str, CertKind, u64)] = &[
        (
            "base r1\n0 6 2 3 4 0\nstep r1\n0 12 4 7 6 11 10 0\nend\n",
            CertKind::Derivation,
            6,
        ),
        ("base l1\n0 6 2 3 4 0\n", CertKind::Order, 3),
        ("base r2\n0 6 2 3 4 0\n", CertKind::Line, 3),
        ("step r1\n0 6 2 3 4 0\n", CertKind::Line, 3),
        ("end\n", CertKind::Line, 3),
        ("base r1\nstep r1\n", CertKind::Derivation, 4),
        ("base r1\n0 6 2 3 4 0\nend\n", CertKind::Line, 5),
        ("base r1\n0 6 2 3 4 0\nbase r1\n", CertKind::Line, 5),
        ("base r1\n0 6 2 3 4 0", CertKind::Truncated, 4),
        ("base r1\n0 6 2 3 3 0\n0 06 0\nend\n", CertKind::Line, 5),
        ("base r1\n0 6 2 3 3 0\nend\n", CertKind::Derivation, 4),
        (
            "base r1\n0 6 2 3 4 0\n0 6 2 3 4 0\nend\n",
            CertKind::Line,
            6,
        ),
        (
            "base r1\n0 6 2 3 4 0\nstep r1\n-2 0 3 8 5 11 9 0\n0 12 4 7 6 11 10 0\nend\n\n",
            CertKind::Line,
            9,
        ),
        (
            "base r1\n0 6 2 3 4 0\nstep r1\n-2 0 3 8 5 11 9 0\n0 12 4 7 6 11 10 0\nend\nx",
            CertKind::Line,
            9,
        ),
        (
            "base r1\n0 6 2 3 4 0\nstep r1\n-2 0 3 8 5 11 9 0\n0 12 4 7 6 11 10 0\nends\n",
            CertKind::Line,
            8,
        ),
    ];
    for &(parts, kind, line) in BAD_PARTS {
        if !is_bad(alloc, product, (HEAD, CLASS, parts), kind, line) {
            return false;
        }
    }
    true
}

#[test]
fn the_first_fault_of_a_certificate_is_told(rt: HostRuntime) -> Result<(), Fail> {
    assert!(rt; pair_is(rt.alloc(), TOGGLE, TOGGLE, bad_heads_are_told));
    assert!(rt; pair_is(rt.alloc(), TOGGLE, TOGGLE, bad_classes_are_told));
    assert!(rt; pair_is(rt.alloc(), TOGGLE, TOGGLE, bad_parts_are_told));
    Ok(())
}

// Whether a certificate is accepted, or told to have this fault.
fn is_told(alloc: Global, product: &Product, text: &[u8], fault: Option<(CertKind, u64)>) -> bool {
    match fault {
        Some((kind, line)) => is_no(alloc, product, text, kind, line),
        None => is_yes(alloc, product, text),
    }
}

// Whether the parts that need the tie are, after this head.
fn tie_is_told(
    alloc: Global,
    product: &Product,
    head: &str,
    fault: Option<(CertKind, u64)>,
) -> bool {
    const TIED_PARTS: &str =
        "base r1\n-2 0 3 6 5 0\n0 7 2 6 4 0\nstep r1\n-2 0 4 8 6 11 10 0\n0 12 3 7 5 11 9 0\nend\n";
    match put_together(alloc, head, CLASS, TIED_PARTS) {
        Ok(text) => is_told(alloc, product, &text, fault),
        Err(_) => false,
    }
}

// Whether they are after these heads.
fn ties_are_told(
    alloc: Global,
    product: &Product,
    heads: &[(&str, Option<(CertKind, u64)>)],
) -> bool {
    for &(head, fault) in heads {
        if !tie_is_told(alloc, product, head, fault) {
            return false;
        }
    }
    true
}

fn tied_pair_speaks_of_ties(alloc: Global, product: &Product) -> bool {
    const HEADS: &[(&str, Option<(CertKind, u64)>)] = &[
        ("seccert 2 k=1 signals=3 tie=1\n", None),
        ("seccert 2 k=1 signals=3 tie=0\n", Some((CertKind::Tie, 1))),
        ("seccert 1 k=1 signals=3\n", Some((CertKind::Tie, 1))),
    ];
    ties_are_told(alloc, product, HEADS)
}

#[test]
fn a_certificate_of_a_tied_pair_speaks_of_ties(rt: HostRuntime) -> Result<(), Fail> {
    assert!(rt; tied_pair_is(rt.alloc(), KEPT, KEPT, tied_pair_speaks_of_ties));
    Ok(())
}

fn untied_pair_speaks_of_none(alloc: Global, product: &Product) -> bool {
    const UNDERIVED: Option<(CertKind, u64)> = Some((CertKind::Derivation, 4));
    const HEADS: &[(&str, Option<(CertKind, u64)>)] = &[
        ("seccert 2 k=1 signals=3 tie=1\n", Some((CertKind::Tie, 1))),
        ("seccert 2 k=1 signals=3 tie=0\n", UNDERIVED),
        ("seccert 1 k=1 signals=3\n", UNDERIVED),
    ];
    ties_are_told(alloc, product, HEADS)
}

#[test]
fn a_certificate_of_an_untied_pair_speaks_of_no_ties(rt: HostRuntime) -> Result<(), Fail> {
    assert!(rt; pair_is(rt.alloc(), KEPT, KEPT, untied_pair_speaks_of_none));
    Ok(())
}

// Whether a log is written as this text.
fn is_written(alloc: Global, log: &Log, kept: &str) -> bool {
    let mut text = Vec::new(alloc);
    write_log(log, &mut text).is_ok() && text.as_slice() == kept.as_bytes()
}

// Whether a log, trimmed over a formula of six clauses, is written so.
fn is_kept(alloc: Global, log: &Log, kept: &str) -> bool {
    match trimmed(alloc, 6, log) {
        Ok(log) => is_written(alloc, &log, kept),
        Err(_) => false,
    }
}

// Whether a log is trimmed to this text.
fn is_trimmed(alloc: Global, whole: &str, kept: &str) -> bool {
    match read_log(alloc, whole.as_bytes()) {
        Ok(log) => is_kept(alloc, &log, kept),
        Err(_) => false,
    }
}

// Whether the worked certificate is accepted with this log in its base part.
fn is_yes_with(alloc: Global, product: &Product, base: &str) -> bool {
    match text_with(alloc, base) {
        Ok(text) => is_yes(alloc, product, &text),
        Err(_) => false,
    }
}

fn text_with(alloc: Global, base: &str) -> Result<Vec<u8>, AllocError> {
    let mut text = put_together(alloc, HEAD, "class l1 r1\nbase r1\n", base)?;
    text.extend_from_slice(b"step r1\n-2 0 3 8 5 11 9 0\n0 12 4 7 6 11 10 0\nend\n")?;
    Ok(text)
}

// Whether logs are trimmed as they must be and their certificates are accepted before and after.
fn logs_are_trimmed(alloc: Global, product: &Product) -> bool {
    const LOGS: &[(&str, &str)] = &[
        ("0 6 2 3 4 0\n", "0 6 2 3 4 0\n"),
        ("-2 0 2 0\n0 6 2 3 4 0\n", "0 6 2 3 4 0\n"),
        (
            "-2 0 2 0\n-3 0 3 0\n-3 0 8 0\n-2 0 7 0\n0 6 2 9 4 0\n",
            "-3 0 3 0\n-3 0 7 0\n0 6 2 8 4 0\n",
        ),
    ];
    for &(whole, kept) in LOGS {
        if !is_trimmed(alloc, whole, kept)
            || !is_yes_with(alloc, product, whole)
            || !is_yes_with(alloc, product, kept)
        {
            return false;
        }
    }
    true
}

#[test]
fn lines_that_nothing_hints_go_and_the_others_are_renumbered(rt: HostRuntime) -> Result<(), Fail> {
    assert!(rt; pair_is(rt.alloc(), TOGGLE, TOGGLE, logs_are_trimmed));
    Ok(())
}
