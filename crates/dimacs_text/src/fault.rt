//! What can be wrong with a DIMACS text.
ghost use Rattle.std.specs.Prelude.{◌≡◌};
ghost use Rattle.dimacs_text.specs.declared.fault.DimacsError.TheVariants.{Memory};

use std::alloc::{AllocError, AllocFailed};

/// A kind of fault.
#[derive(Clone, Copy, Debug, PartialEq, Eq)]
pub enum DimacsKind {
    /// The first line that is neither a comment nor blank isn't `p cnf VARIABLES CLAUSES`, or there is no such line with its LF.
    Header,
    /// A word has a byte that is neither a digit nor `-`.
    Character,
    /// A word of such bytes is no number, or its variable isn't among those of the header.
    Number,
    /// The text ends within a clause.
    Open,
    /// The clauses aren't as many as the header says.
    Count,
}

/// The first fault of a text.
#[derive(Clone, Copy, Debug, PartialEq, Eq)]
pub struct DimacsFault {
    pub kind: DimacsKind,
    /// The byte, from 0, at which the word begins; of a header its line; of `Open` and `Count` the text's end.
    pub at: u64,
}

/// Why there is no formula.
#[derive(Clone, Copy, Debug, PartialEq, Eq)]
pub enum DimacsError {
    /// The text has a fault.
    Refused(DimacsFault),
    /// Memory is wanting.
    Memory,
}

impl From<AllocError> for DimacsError {
    ghost from_gives = { λ _ e. e ≡ Memory };

    fn from(_: AllocError) -> Self {
        DimacsError::Memory
    }
}

impl<T: Drop> From<AllocFailed<T>> for DimacsError {
    ghost from_gives = { λ _ e. e ≡ Memory };

    fn from(_: AllocFailed<T>) -> Self {
        DimacsError::Memory
    }
}
