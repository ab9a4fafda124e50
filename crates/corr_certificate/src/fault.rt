//! What reading a certificate comes to.

/// The kinds of faults of certificates.
#[derive(Clone, Copy, Debug, PartialEq, Eq)]
pub enum CertKind {
    /// A line that doesn't have the form expected at its place, or bytes after the last one.
    Line,
    /// A line without its end.
    Truncated,
    /// A depth of 0 or past 16.
    Limit,
    /// A number of signals other than the pair's.
    Signals,
    /// A class line with an unknown name, one name alone, or names out of order.
    Class,
    /// An output pair that is in no class with the right phase.
    Outputs,
    /// A part of another needed pair than the one whose turn it is.
    Order,
    /// A log that isn't accepted.
    Derivation,
    /// Free latches that are tied where those of the pair aren't, or aren't where those are.
    Tie,
}

/// A fault and its line, counted from 1.
#[derive(Clone, Copy, Debug, PartialEq, Eq)]
pub struct CertFault {
    pub kind: CertKind,
    pub line: u64,
}

/// Whether a certificate supports that the outputs of a pair agree for ever.
#[derive(Clone, Copy, Debug, PartialEq, Eq)]
pub enum Checked {
    /// It does.
    Yes,
    /// It doesn't: its first fault.
    No(CertFault),
}
