//! How a run ends.
ghost use Rattle.std.specs.Prelude.{◌≡◌};
ghost use Rattle.dimacs.specs.Endings.{status_of};

use dimacs_text::DimacsFault;

/// How a run over a file ended.
#[derive(Clone, Copy)]
pub enum Ending {
    /// Its formula is satisfiable, and the answer is written.
    Satisfiable,
    /// Its formula is unsatisfiable, likewise.
    Unsatisfiable,
    /// It isn't a DIMACS file.
    Refused(DimacsFault),
    /// It couldn't be read.
    Unread,
    /// It is longer than 2^40 bytes.
    TooLong,
    /// The answer couldn't be written.
    Unwritten,
    /// There was no memory.
    Memory,
}

/// The exit status, as the solvers' competitions have it.
pub fn status_of(ending: Ending) -> u8
    ensures { result ≡ status_of ending }
{
    match ending {
        Ending::Satisfiable => 10,
        Ending::Unsatisfiable => 20,
        _ => 1,
    }
}
