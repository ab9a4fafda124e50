//! The sections of a body: how many numbers a line of each has, and their lines, read into the builder of a netlist.
ghost use Rattle.std.specs.Prelude.{◌≡◌, ◌<◌, ◌≤◌, ◌/◌, length, take, slice_index, true, Ok, Err, if◌then◌else◌};
ghost use Rattle.circ_model.specs.Meaning.{is_odd};
ghost use Rattle.aig_graph.specs.Given.{Adds};
ghost use Rattle.aig_graph.specs.declared.fault.BuildFault.TheVariants.{Literal};
ghost use Rattle.aiger_codec.specs.Sections.{least, most, added, item_at, items_at, Reads, Fails, kind_of, IsErrorOf};
ghost use Rattle.aiger_codec.specs.Room.{HasRoom};

use crate::fault::{NetError, NetFault, NetKind};
use crate::header::number_or_none;
use crate::line::read_line;
use aig_graph::{BuildFault, NetBuilder};
use circ_model::Lit;

/// A part of a text file's body, of lines of one form.
#[derive(Clone, Copy, Debug, PartialEq, Eq)]
pub enum Section {
    Inputs,
    Latches,
    Outputs,
    Gates,
}

impl Section {
    /// The least number of numbers on a line.
    pub fn least(self) -> usize
        ensures { result ≡ least self }
    {
        match self {
            Section::Inputs | Section::Outputs => 1,
            Section::Latches => 2,
            Section::Gates => 3,
        }
    }

    /// The greatest number of numbers on a line.
    pub fn most(self) -> usize
        ensures { result ≡ most self }
    {
        match self {
            Section::Inputs | Section::Outputs => 1,
            Section::Latches | Section::Gates => 3,
        }
    }
}

/// A number of the line as a literal, or 0 where it has no more.
pub fn literal(numbers: &[u32; 9], count: usize, place: usize) -> Lit
    requires { place < 9 }
    ensures { result ≡ slice_index (take count numbers.now) place }
{
    Lit::from_number(number_or_none(numbers, count, place))
}

fn add(
    section: Section,
    numbers: &[u32; 9],
    count: usize,
    builder: &mut NetBuilder,
) -> Result<(), BuildFault>
    requires { HasRoom section 1 builder.old }
    ensures { Adds result (added section builder.old (take count numbers.now)) builder.old builder.new }
{
    let first = literal(numbers, count, 0);
    if let Section::Outputs = section {
        return builder.output(first);
    }
    if first.complement() {
        return Err(BuildFault::Literal);
    }
    let second = literal(numbers, count, 1);
    let third = literal(numbers, count, 2);
    match section {
        Section::Inputs => builder.input(first.var()),
        Section::Latches => builder.latch(first.var(), second, third),
        Section::Outputs => builder.output(first),
        Section::Gates => builder.gate(first.var(), second, third),
    }
}

/// Want of memory, or the fault of an item at this place.
pub fn error_of(fault: BuildFault, at: u64) -> NetError
    ensures { IsErrorOf result fault at }
{
    let kind = match fault {
        BuildFault::Literal => NetKind::Literal,
        BuildFault::Redefined => NetKind::Redefined,
        BuildFault::Reset => NetKind::Reset,
        BuildFault::Undefined(_) => NetKind::Undefined,
        BuildFault::Cyclic => NetKind::Cyclic,
        BuildFault::Memory => return NetError::Memory,
    };
    NetError::Refused(NetFault { kind, at })
}

#[tactic(auto, unfolding(crate::specs::Sections::item_at))]
fn read_item(
    section: Section,
    bytes: &[u8],
    at: usize,
    numbers: &mut [u32; 9],
    builder: &mut NetBuilder,
) -> Result<usize, NetError>
    requires { HasRoom section 1 builder.old }
    ensures { Reads result builder.new (item_at section bytes.now (builder.old, at)) }
{
    let (count, end) = read_line(bytes, at, section.least(), section.most(), numbers)?;
    match add(section, numbers, count, builder) {
        Err(fault) => Err(error_of(fault, at as u64)),
        Ok(()) => Ok(end),
    }
}

/// Reads so many lines of a section into the builder, and answers the place after them.
pub fn read_items(
    section: Section,
    count: u32,
    bytes: &[u8],
    start: usize,
    builder: &mut NetBuilder,
) -> Result<usize, NetError>
    requires { HasRoom section count builder.old }
    ensures { Reads result builder.new (items_at section count bytes.now (builder.old, start)) }
{
    let mut numbers = [0u32; 9];
    let mut at = start;
    for _ in 0..count {
        at = read_item(section, bytes, at, &mut numbers, builder)?;
    }
    Ok(at)
}
