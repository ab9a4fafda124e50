//! What is told on standard error.
use crate::ending::Ending;
use dimacs_text::{DimacsFault, DimacsKind};
use sec_base::{Failed, Sink, write_number, write_text};

/// Tells a text, written or cut short.
pub fn tell<E: Sink>(err: &mut E, text: &[u8]) {
    let _told = write_text(err, text);
}

fn name_of(kind: DimacsKind) -> &'static [u8] {
    match kind {
        DimacsKind::Header => b"no header",
        DimacsKind::Character => b"a character of no number",
        DimacsKind::Number => b"a number out of range",
        DimacsKind::Open => b"a clause without its end",
        DimacsKind::Count => b"another count of clauses",
    }
}

fn write_line<E: Sink>(err: &mut E, name: &[u8], what: &[u8]) -> Result<(), Failed> {
    write_text(err, b"dimacs: ")?;
    write_text(err, name)?;
    write_text(err, b": ")?;
    write_text(err, what)
}

fn write_fault<E: Sink>(err: &mut E, name: &[u8], fault: DimacsFault) -> Result<(), Failed> {
    write_line(err, name, name_of(fault.kind))?;
    write_text(err, b" at byte ")?;
    write_number(err, fault.at)?;
    write_text(err, b"\n")
}

/// Tells of an ending without an answer, in a line.
pub fn tell_ending<E: Sink>(err: &mut E, name: &str, ending: Ending) {
    let name = name.as_bytes();
    let _told = match ending {
        Ending::Satisfiable | Ending::Unsatisfiable => Ok(()),
        Ending::Refused(fault) => write_fault(err, name, fault),
        Ending::Unread => write_line(err, name, b"read failed\n"),
        Ending::TooLong => write_line(err, name, b"too long\n"),
        Ending::Unwritten => write_line(err, name, b"write failed\n"),
        Ending::Memory => write_line(err, name, b"out of memory\n"),
    };
}
