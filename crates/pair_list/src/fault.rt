//! What can be wrong with a list, and where.
ghost use Rattle.std.specs.Prelude.{◌≡◌};
ghost use Rattle.pair_list.specs.KindNames.{name_of};

/// What is wrong with a line of a list.
#[derive(Clone, Copy, Debug, PartialEq, Eq)]
pub enum ListKind {
    /// As many lines as there may be stand before it.
    Limit,
    /// The text ends within it.
    Truncated,
    /// It isn't two names with one space between.
    Line,
}

impl ListKind {
    /// The name that is printed.
    pub fn name(self) -> &'static str
        ensures { result.now ≡ name_of self }
    {
        match self {
            ListKind::Limit => "limit",
            ListKind::Truncated => "truncated",
            ListKind::Line => "line",
        }
    }
}

/// What is wrong, and the line, counted from 1.
#[derive(Clone, Copy, Debug, PartialEq, Eq)]
pub struct ListFault {
    pub kind: ListKind,
    pub line: u64,
}

/// Why there is no list.
#[derive(Clone, Copy, Debug, PartialEq, Eq)]
pub enum ListError {
    /// The text has a fault.
    Refused(ListFault),
    /// Memory is wanting.
    Memory,
}
