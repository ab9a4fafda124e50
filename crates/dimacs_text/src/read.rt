//! Reading a text.
ghost use Rattle.std.specs.Prelude.{◌≡◌, ◌≤◌, ◌<◌, ◌+◌, ◌^◌, [], length};
ghost use Rattle.plain_text.specs.Pieces.{pieces, last_of};
ghost use Rattle.dimacs_text.specs.Words.{words};
ghost use Rattle.dimacs_text.specs.Texts.{state, finished, lines_from, header_from, is_passed, text_of, IsRead};

use crate::body::read_lines;
use crate::fault::{DimacsError, DimacsFault, DimacsKind};
use crate::header::{Header, header_of, is_comment, next_word};
use cnf_store::Cnf;
use plain_text::next_piece;
use std::alloc::Global;

fn is_passed(line: &[u8]) -> bool
    ensures { result ≡ is_passed line.now }
{
    is_comment(line) || next_word(line).is_none()
}

// The formula of the lines after a header, which begin at a byte.
fn read_formula(alloc: Global, header: Header, bytes: &[u8], first: u64) -> Result<Cnf, DimacsError>
    requires vars { header.vars ≤ 2147483647 }
    requires few { first + length bytes.now < 2 ^ 64 }
    ensures { IsRead result (finished (first + length bytes.now) header.clauses (lines_from first (state (record { vars = header.vars; clauses = [] }) []) (pieces 10 bytes.now) (last_of 10 bytes.now))) }
{
    let mut formula = Cnf::new(alloc, header.vars)?;
    let mut literals = Vec::new(alloc);
    read_lines(bytes, first, &mut formula, &mut literals)?;
    let at = first + bytes.len() as u64;
    if !literals.is_empty() {
        let kind = DimacsKind::Open;
        return Err(DimacsError::Refused(DimacsFault { kind, at }));
    }
    if formula.len() != header.clauses {
        let kind = DimacsKind::Count;
        return Err(DimacsError::Refused(DimacsFault { kind, at }));
    }
    Ok(formula)
}

/// The formula that a text is: comments and blank lines, the header `p cnf VARIABLES CLAUSES` with its LF, then clauses.
///
/// A clause is literals, each a variable's number with `-` before it for the complement, and then `0`; it may go over lines.
/// Numbers are separated by spaces and LF, and have no leading zeros. A line that begins with `c` is a comment.
#[tactic(auto, unfolding(crate::specs::Texts::header_from))]
pub fn read_dimacs(alloc: Global, bytes: &[u8]) -> Result<Cnf, DimacsError>
    ensures { IsRead result (text_of bytes.now) }
{
    let mut rest = bytes;
    let mut at: u64 = 0;
    while let Some((line, after)) = next_piece(rest, b'\n') {
        let next = at + line.len() as u64 + 1;
        if !is_passed(line) {
            let Some(header) = header_of(line) else {
                let kind = DimacsKind::Header;
                return Err(DimacsError::Refused(DimacsFault { kind, at }));
            };
            return read_formula(alloc, header, after, next);
        }
        at = next;
        rest = after;
    }
    let kind = DimacsKind::Header;
    Err(DimacsError::Refused(DimacsFault { kind, at }))
}
