//! The clauses of a text, word by word.
ghost use Rattle.std.specs.Prelude.{◌≡◌, ◌≤◌, ◌<◌, ◌+◌, ◌^◌, length};
ghost use Rattle.std.specs.List.{list_all};
ghost use Rattle.cnf_store.specs.Clauses.{AreLiterals};
ghost use Rattle.plain_text.specs.Pieces.{pieces, last_of};
ghost use Rattle.dimacs_text.specs.Words.{is_of_number};
ghost use Rattle.dimacs_text.specs.Texts.{state, word_from, words_from, line_from, lines_from, kind_of, IsDue};

use crate::fault::{DimacsError, DimacsFault, DimacsKind};
use crate::header::is_comment;
use cnf_store::Cnf;
use plain_text::{is_byte, next_piece};
use sat_log::literal_word;

fn is_of_number(b: u8) -> bool
    ensures { result ≡ is_of_number b }
{
    (b >= b'0' && b <= b'9') || b == b'-'
}

fn are_of_number(word: &[u8]) -> bool
    ensures { result ≡ list_all is_of_number word.now }
{
    for b in word {
        if !is_of_number(*b) {
            return false;
        }
    }
    true
}

// Why a word isn't a literal.
fn kind_of(word: &[u8]) -> DimacsKind
    ensures { result ≡ kind_of word.now }
{
    if are_of_number(word) {
        DimacsKind::Number
    } else {
        DimacsKind::Character
    }
}

// Takes in a word: none, a literal, or the 0 that ends a clause.
fn read_word(
    word: &[u8],
    at: u64,
    formula: &mut Cnf,
    literals: &mut Vec<i32>,
) -> Result<(), DimacsError>
    requires literals { AreLiterals formula.old.vars literals.old.items }
    ensures due { IsDue result formula.new literals.new.items (word_from at (state formula.old literals.old.items) word.now) }
    ensures literals { AreLiterals formula.new.vars literals.new.items }
{
    if word.is_empty() {
        return Ok(());
    }
    if is_byte(b'0', word) {
        formula.add(literals.as_slice())?;
        literals.clear();
        return Ok(());
    }
    let Some(literal) = literal_word(word) else {
        let kind = kind_of(word);
        return Err(DimacsError::Refused(DimacsFault { kind, at }));
    };
    if literal.unsigned_abs() > formula.vars() {
        let kind = DimacsKind::Number;
        return Err(DimacsError::Refused(DimacsFault { kind, at }));
    }
    literals.push(literal)?;
    Ok(())
}

// Takes in a line that begins at a byte.
#[tactic(auto, unfolding(crate::specs::Texts::words_from))]
fn read_line(
    line: &[u8],
    first: u64,
    formula: &mut Cnf,
    literals: &mut Vec<i32>,
) -> Result<(), DimacsError>
    requires few { first + length line.now < 2 ^ 64 }
    requires literals { AreLiterals formula.old.vars literals.old.items }
    ensures due { IsDue result formula.new literals.new.items (line_from first (state formula.old literals.old.items) line.now) }
    ensures literals { AreLiterals formula.new.vars literals.new.items }
{
    if is_comment(line) {
        return Ok(());
    }
    let mut rest = line;
    let mut at = first;
    while let Some((word, after)) = next_piece(rest, b' ') {
        read_word(word, at, formula, literals)?;
        at += word.len() as u64 + 1;
        rest = after;
    }
    read_word(rest, at, formula, literals)
}

/// Takes in the lines that begin at a byte.
#[tactic(auto, unfolding(crate::specs::Texts::lines_from))]
pub(crate) fn read_lines(
    bytes: &[u8],
    first: u64,
    formula: &mut Cnf,
    literals: &mut Vec<i32>,
) -> Result<(), DimacsError>
    requires few { first + length bytes.now < 2 ^ 64 }
    requires literals { AreLiterals formula.old.vars literals.old.items }
    ensures due { IsDue result formula.new literals.new.items (lines_from first (state formula.old literals.old.items) (pieces 10 bytes.now) (last_of 10 bytes.now)) }
    ensures literals { AreLiterals formula.new.vars literals.new.items }
{
    let mut rest = bytes;
    let mut at = first;
    while let Some((line, after)) = next_piece(rest, b'\n') {
        read_line(line, at, formula, literals)?;
        at += line.len() as u64 + 1;
        rest = after;
    }
    read_line(rest, at, formula, literals)
}
