//! From a file to the answer that is written.
ghost use Rattle.std.specs.Prelude.{◌≡◌, ◌≤◌, ◌<◌, ◌^◌, ◌+◌, IsTrue};
ghost use Rattle.sec_base.specs.Faults.{Rose};
ghost use Rattle.dimacs.specs.Endings.{IsEnding};
ghost use Rattle.dimacs.specs.declared.ending.Ending.TheVariants as endings;

use crate::ending::Ending;
use dimacs_text::{DimacsError, solve_text};
use sec_base::{LoadFault, Shelf, Sink, write_text};
use std::alloc::Global;

const LONGEST_FILE: u64 = 1099511627776;

// Decides on a text, and writes the answer.
fn solve_bytes<O: Sink>(alloc: Global, bytes: &[u8], with_log: bool, out: &mut O) -> Ending
    ensures ending { IsEnding (Some bytes.now) with_log (O.taken out.old) (O.taken out.new) result }
    ensures read { result ≡ endings.Unread → ⊥ }
    ensures unwritten { result ≡ endings.Unwritten → Rose (O.faults out.old) (O.faults out.new) }
{
    match solve_text(alloc, bytes, with_log) {
        Ok(solution) => {
            if write_text(out, solution.text.as_slice()).is_err() {
                return Ending::Unwritten;
            }
            if solution.is_satisfiable {
                Ending::Satisfiable
            } else {
                Ending::Unsatisfiable
            }
        }
        Err(DimacsError::Refused(fault)) => Ending::Refused(fault),
        Err(DimacsError::Memory) => Ending::Memory,
    }
}

/// Decides on the formula of a file, and writes the answer.
pub fn solve_file<S: Shelf, O: Sink>(
    alloc: Global,
    shelf: &mut S,
    name: &str,
    with_log: bool,
    out: &mut O,
) -> Ending
    ensures ending { IsTrue S.tells → IsEnding (S.file shelf.old name.now) with_log (O.taken out.old) (O.taken out.new) result }
    ensures unread { result ≡ endings.Unread → Rose (S.load_faults shelf.old) (S.load_faults shelf.new) }
    ensures unwritten { result ≡ endings.Unwritten → Rose (O.faults out.old) (O.faults out.new) }
{
    let mut bytes = Vec::new(alloc);
    match shelf.load(name, LONGEST_FILE, &mut bytes) {
        Ok(()) => solve_bytes(alloc, bytes.as_slice(), with_log, out),
        Err(LoadFault::Memory) => Ending::Memory,
        Err(LoadFault::TooLong) => Ending::TooLong,
        Err(LoadFault::Failed) => Ending::Unread,
    }
}
