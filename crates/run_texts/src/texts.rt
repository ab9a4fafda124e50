//! What a run says of refusals. These texts take no memory, so that want of memory can be told too.
ghost use Rattle.std.specs.Prelude.{◌≡◌, ◌≤◌, ◌++◌, codes, decimal, OnOk, OnErr};
ghost use Rattle.sec_base.specs.Faults.{Rose, appended, IsCutShort};
ghost use Rattle.run_texts.specs.Texts.{about, fault_text, line_fault_text, differ_text};

use aiger_codec::NetFault;
use sec_base::{Failed, Sink, write_number, write_text};

// Two texts, one after the other.
fn write_both<K: Sink>(sink: &mut K, first: &[u8], second: &[u8]) -> Result<(), Failed>
    ensures ok { OnOk result (K.taken sink.new ≡ appended (K.taken sink.old) (first.now ++ second.now)) }
    ensures cut_short { OnErr result (IsCutShort (K.taken sink.old) (first.now ++ second.now) (K.taken sink.new)) }
    ensures failed { OnErr result (Rose (K.faults sink.old) (K.faults sink.new)) }
    ensures count { K.faults sink.old ≤ K.faults sink.new }
{
    write_text(sink, first)?;
    write_text(sink, second)
}

// What a text about a file begins with.
fn write_about<K: Sink>(sink: &mut K, name: &[u8]) -> Result<(), Failed>
    ensures ok { OnOk result (K.taken sink.new ≡ appended (K.taken sink.old) (about name.now)) }
    ensures cut_short { OnErr result (IsCutShort (K.taken sink.old) (about name.now) (K.taken sink.new)) }
    ensures failed { OnErr result (Rose (K.faults sink.old) (K.faults sink.new)) }
    ensures count { K.faults sink.old ≤ K.faults sink.new }
{
    write_text(sink, b"sec: ")?;
    write_both(sink, name, b": ")
}

// A number and what follows it.
fn write_number_and<K: Sink>(sink: &mut K, number: u64, rest: &[u8]) -> Result<(), Failed>
    ensures ok { OnOk result (K.taken sink.new ≡ appended (K.taken sink.old) (decimal number ++ rest.now)) }
    ensures cut_short { OnErr result (IsCutShort (K.taken sink.old) (decimal number ++ rest.now) (K.taken sink.new)) }
    ensures failed { OnErr result (Rose (K.faults sink.old) (K.faults sink.new)) }
    ensures count { K.faults sink.old ≤ K.faults sink.new }
{
    write_number(sink, number)?;
    write_text(sink, rest)
}

/// A text about a file.
pub fn write_about_file<K: Sink>(sink: &mut K, name: &[u8], what: &[u8]) -> Result<(), Failed>
    ensures ok { OnOk result (K.taken sink.new ≡ appended (K.taken sink.old) (about name.now ++ what.now)) }
    ensures cut_short { OnErr result (IsCutShort (K.taken sink.old) (about name.now ++ what.now) (K.taken sink.new)) }
    ensures failed { OnErr result (Rose (K.faults sink.old) (K.faults sink.new)) }
    ensures count { K.faults sink.old ≤ K.faults sink.new }
{
    write_about(sink, name)?;
    write_text(sink, what)
}

/// The text about the first fault of a netlist's file.
pub fn write_fault<K: Sink>(sink: &mut K, name: &[u8], fault: NetFault) -> Result<(), Failed>
    ensures ok { OnOk result (K.taken sink.new ≡ appended (K.taken sink.old) (fault_text name.now fault)) }
    ensures cut_short { OnErr result (IsCutShort (K.taken sink.old) (fault_text name.now fault) (K.taken sink.new)) }
    ensures failed { OnErr result (Rose (K.faults sink.old) (K.faults sink.new)) }
    ensures count { K.faults sink.old ≤ K.faults sink.new }
{
    write_about(sink, name)?;
    write_kind_and_place(sink, fault.kind.name().as_bytes(), b" at byte ", fault.at)
}

/// The text about a file's first fault, of this kind, in this line.
pub fn write_line_fault<K: Sink>(
    sink: &mut K,
    name: &[u8],
    kind: &[u8],
    line: u64,
) -> Result<(), Failed>
    ensures ok { OnOk result (K.taken sink.new ≡ appended (K.taken sink.old) (line_fault_text name.now kind.now line)) }
    ensures cut_short { OnErr result (IsCutShort (K.taken sink.old) (line_fault_text name.now kind.now line) (K.taken sink.new)) }
    ensures failed { OnErr result (Rose (K.faults sink.old) (K.faults sink.new)) }
    ensures count { K.faults sink.old ≤ K.faults sink.new }
{
    write_about(sink, name)?;
    write_kind_and_place(sink, kind, b" at line ", line)
}

// The kind of a fault and its place.
fn write_kind_and_place<K: Sink>(
    sink: &mut K,
    kind: &[u8],
    rest: &[u8],
    at: u64,
) -> Result<(), Failed>
    ensures ok { OnOk result (K.taken sink.new ≡ appended (K.taken sink.old) ((kind.now ++ rest.now) ++ (decimal at ++ codes "\n"))) }
    ensures cut_short { OnErr result (IsCutShort (K.taken sink.old) ((kind.now ++ rest.now) ++ (decimal at ++ codes "\n")) (K.taken sink.new)) }
    ensures failed { OnErr result (Rose (K.faults sink.old) (K.faults sink.new)) }
    ensures count { K.faults sink.old ≤ K.faults sink.new }
{
    write_both(sink, kind, rest)?;
    write_number_and(sink, at, b"\n")
}

/// The text about counts that differ.
pub fn write_differ<K: Sink>(sink: &mut K, what: &[u8], left: u32, right: u32) -> Result<(), Failed>
    ensures ok { OnOk result (K.taken sink.new ≡ appended (K.taken sink.old) (differ_text what.now left right)) }
    ensures cut_short { OnErr result (IsCutShort (K.taken sink.old) (differ_text what.now left right) (K.taken sink.new)) }
    ensures failed { OnErr result (Rose (K.faults sink.old) (K.faults sink.new)) }
    ensures count { K.faults sink.old ≤ K.faults sink.new }
{
    write_text(sink, b"sec: ")?;
    write_counts(sink, what, left, right)
}

// What differs, and both counts.
fn write_counts<K: Sink>(sink: &mut K, what: &[u8], left: u32, right: u32) -> Result<(), Failed>
    ensures ok { OnOk result (K.taken sink.new ≡ appended (K.taken sink.old) ((what.now ++ codes " differ: ") ++ ((decimal left ++ codes " and ") ++ (decimal right ++ codes "\n")))) }
    ensures cut_short { OnErr result (IsCutShort (K.taken sink.old) ((what.now ++ codes " differ: ") ++ ((decimal left ++ codes " and ") ++ (decimal right ++ codes "\n"))) (K.taken sink.new)) }
    ensures failed { OnErr result (Rose (K.faults sink.old) (K.faults sink.new)) }
    ensures count { K.faults sink.old ≤ K.faults sink.new }
{
    write_both(sink, what, b" differ: ")?;
    write_two_numbers(sink, left, right)
}

fn write_two_numbers<K: Sink>(sink: &mut K, left: u32, right: u32) -> Result<(), Failed>
    ensures ok { OnOk result (K.taken sink.new ≡ appended (K.taken sink.old) ((decimal left ++ codes " and ") ++ (decimal right ++ codes "\n"))) }
    ensures cut_short { OnErr result (IsCutShort (K.taken sink.old) ((decimal left ++ codes " and ") ++ (decimal right ++ codes "\n")) (K.taken sink.new)) }
    ensures failed { OnErr result (Rose (K.faults sink.old) (K.faults sink.new)) }
    ensures count { K.faults sink.old ≤ K.faults sink.new }
{
    write_number_and(sink, left as u64, b" and ")?;
    write_number_and(sink, right as u64, b"\n")
}
