//! Telling: a text goes to the sink, or is cut short where that fails.
ghost use Rattle.std.specs.Prelude.{◌≡◌, ◌≤◌};
ghost use Rattle.run_texts.specs.Texts.{read_failed_text, store_failed_text, fault_text, line_fault_text, differ_text};
ghost use Rattle.run_texts.specs.Told.{IsTold, name_of_side, unpaired_status, unpaired_text};

use crate::texts::{write_about_file, write_differ, write_fault, write_line_fault};
use aiger_codec::NetFault;
use pair_files::{Side, Unpaired};
use sec_base::{Sink, write_text};

/// Tells a text that was written or cut short.
pub fn tell<E: Sink>(err: &mut E, text: &[u8])
    ensures told { IsTold (E.taken err.old) (E.faults err.old) text.now (E.taken err.new) (E.faults err.new) }
    ensures count { E.faults err.old ≤ E.faults err.new }
{
    let _told = write_text(err, text);
}

/// Tells that a name couldn't be stored.
pub fn tell_unstored<E: Sink>(err: &mut E, name: &[u8])
    ensures told { IsTold (E.taken err.old) (E.faults err.old) (store_failed_text name.now) (E.taken err.new) (E.faults err.new) }
    ensures count { E.faults err.old ≤ E.faults err.new }
{
    let _told = write_about_file(err, name, b"write failed\n");
}

/// Tells that a file couldn't be read.
pub fn tell_unread<E: Sink>(err: &mut E, name: &[u8])
    ensures told { IsTold (E.taken err.old) (E.faults err.old) (read_failed_text name.now) (E.taken err.new) (E.faults err.new) }
    ensures count { E.faults err.old ≤ E.faults err.new }
{
    let _told = write_about_file(err, name, b"read failed\n");
}

/// Tells the first fault of a netlist's file.
pub fn tell_fault<E: Sink>(err: &mut E, name: &[u8], fault: NetFault)
    ensures told { IsTold (E.taken err.old) (E.faults err.old) (fault_text name.now fault) (E.taken err.new) (E.faults err.new) }
    ensures count { E.faults err.old ≤ E.faults err.new }
{
    let _told = write_fault(err, name, fault);
}

/// Tells a file's first fault, of this kind, in this line.
pub fn tell_line_fault<E: Sink>(err: &mut E, name: &[u8], kind: &[u8], line: u64)
    ensures told { IsTold (E.taken err.old) (E.faults err.old) (line_fault_text name.now kind.now line) (E.taken err.new) (E.faults err.new) }
    ensures count { E.faults err.old ≤ E.faults err.new }
{
    let _told = write_line_fault(err, name, kind, line);
}

// Tells that counts differ.
fn tell_differ<E: Sink>(err: &mut E, what: &[u8], left: u32, right: u32)
    ensures told { IsTold (E.taken err.old) (E.faults err.old) (differ_text what.now left right) (E.taken err.new) (E.faults err.new) }
    ensures count { E.faults err.old ≤ E.faults err.new }
{
    let _told = write_differ(err, what, left, right);
}

/// The name of one of two files.
pub fn name_of<'a>(left: &'a str, right: &'a str, side: Side) -> &'a str
    ensures { result.now ≡ name_of_side left.entry.now right.entry.now side }
{
    match side {
        Side::Left => left,
        Side::Right => right,
    }
}

/// Tells why there is no pair.
pub fn tell_unpaired<E: Sink>(err: &mut E, left: &str, right: &str, unpaired: Unpaired)
    ensures told { IsTold (E.taken err.old) (E.faults err.old) (unpaired_text left.now right.now unpaired) (E.taken err.new) (E.faults err.new) }
    ensures count { E.faults err.old ≤ E.faults err.new }
{
    match unpaired {
        Unpaired::Memory => tell(err, b"sec: out of memory\n"),
        Unpaired::LoadFailed(side) => tell_unread(err, name_of(left, right, side).as_bytes()),
        Unpaired::Refused(side, fault) => {
            tell_fault(err, name_of(left, right, side).as_bytes(), fault)
        }
        Unpaired::InputsDiffer(a, b) => tell_differ(err, b"inputs", a, b),
        Unpaired::OutputsDiffer(a, b) => tell_differ(err, b"outputs", a, b),
        Unpaired::FreeDiffer(a, b) => tell_differ(err, b"free latches", a, b),
    }
}

/// The status where there is no pair: 7 for want of memory, 5 for a load that failed, and else 4.
pub fn unpaired_status(unpaired: Unpaired) -> u8
    ensures { result ≡ unpaired_status unpaired }
{
    match unpaired {
        Unpaired::Memory => 7,
        Unpaired::LoadFailed(_) => 5,
        Unpaired::Refused(_, _)
        | Unpaired::InputsDiffer(_, _)
        | Unpaired::OutputsDiffer(_, _)
        | Unpaired::FreeDiffer(_, _) => 4,
    }
}
