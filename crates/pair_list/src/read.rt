//! Reading a list: each line is checked before the next is looked at, so the fault that is answered is the first.
ghost use Rattle.std.specs.Prelude.{◌≡◌, ◌≤◌, IfOk, IfErr, Ok};
ghost use Rattle.pair_list.specs.declared.fault.ListError.TheVariants.{Refused};
ghost use Rattle.pair_list.specs.Readings.{IsRefusal, Reads, fault};

use crate::fault::{ListError, ListFault, ListKind};
use crate::lines::{names_in, next_line};
use crate::names::Names;
use std::alloc::Global;

/// As many pairs as a list may have.
pub const MOST_PAIRS: usize = 10_000;

fn refused(kind: ListKind, line: usize) -> ListError
    ensures { result ≡ Refused (fault kind line) }
{
    ListError::Refused(ListFault {
        kind,
        line: line as u64,
    })
}

/// The pairs of names that a text lists, or its first fault. Of each line it is asked, in this order: whether fewer than
/// `MOST_PAIRS` stand before it, whether it ends, and whether it is two names with one space between.
pub fn read_list(alloc: Global, bytes: &[u8]) -> Result<Vec<Names>, ListError>
    ensures read { IfOk result (λ v. Reads bytes.now (Ok v.items)) }
    ensures refused { IfErr result (IsRefusal bytes.now) }
{
    let mut pairs = Vec::new(alloc);
    let mut rest = bytes;
    while rest.len() > 0 {
        let line = pairs.len() + 1;
        if line > MOST_PAIRS {
            return Err(refused(ListKind::Limit, line));
        }
        let Some((text, after)) = next_line(rest) else {
            return Err(refused(ListKind::Truncated, line));
        };
        let Some((left, right)) = names_in(text) else {
            return Err(refused(ListKind::Line, line));
        };
        let Ok(names) = Names::new(alloc, left, right) else {
            return Err(ListError::Memory);
        };
        let Ok(()) = pairs.push(names) else {
            return Err(ListError::Memory);
        };
        rest = after;
    }
    Ok(pairs)
}
