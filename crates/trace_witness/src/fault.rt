//! What can be wrong with a trace, and where.
ghost use Rattle.std.specs.Prelude.{◌≡◌};
ghost use Rattle.trace_witness.specs.Names.{name_of};

/// What is wrong with a line of a trace.
#[derive(Clone, Copy, Debug, PartialEq, Eq)]
pub enum TraceKind {
    /// The line has another form.
    Line,
    /// It has too few or too many bits.
    Length,
    /// One of its bits is `x`.
    Unknown,
    /// A start bit is against its latch's reset.
    Reset,
    /// The text ends within it.
    Truncated,
    /// The start bit of a tied latch isn't its partner's.
    Tie,
}

impl TraceKind {
    /// The name that is printed.
    pub fn name(self) -> &'static str
        ensures { result.now ≡ name_of self }
    {
        match self {
            TraceKind::Line => "line",
            TraceKind::Length => "length",
            TraceKind::Unknown => "unknown",
            TraceKind::Reset => "reset",
            TraceKind::Truncated => "truncated",
            TraceKind::Tie => "tie",
        }
    }
}

/// What is wrong, and the line, counted from 1.
#[derive(Clone, Copy, Debug, PartialEq, Eq)]
pub struct TraceFault {
    pub kind: TraceKind,
    pub line: u64,
}

/// Why there is no trace.
#[derive(Clone, Copy, Debug, PartialEq, Eq)]
pub enum TraceError {
    /// The text has a fault.
    Refused(TraceFault),
    /// Memory is wanting.
    Memory,
}
