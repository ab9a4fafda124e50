//! The words of a line, and the header.
ghost use Rattle.std.specs.Prelude.{◌≡◌, ◌≤◌, ◌<◌, ◌∷◌, [], IfSome, MatchOption, length};
ghost use Rattle.dimacs_text.specs.Words.{words, is_comment, is_cnf, count_word, header_of};

use plain_text::{is_byte, next_piece, number_word};

/// What a header says.
#[derive(Clone, Copy)]
pub struct Header {
    /// At most 2,147,483,647.
    pub vars: u32,
    pub clauses: u64,
}

/// The first word of a line, and the bytes after it.
#[tactic(auto, unfolding(crate::specs::Words::words), using(crate::proofs::LastWord::last_word))]
pub(crate) fn next_word(line: &[u8]) -> Option<(&[u8], &[u8])>
    ensures { MatchOption result (words line.entry.now ≡ []) (λ r. words line.entry.now ≡ r.0.now ∷ words r.1.now) }
{
    let mut rest = line;
    while let Some((word, after)) = next_piece(rest, b' ') {
        if !word.is_empty() {
            return Some((word, after));
        }
        rest = after;
    }
    if rest.is_empty() {
        return None;
    }
    Some((rest, b"".as_slice()))
}

/// Whether a line is a comment.
pub(crate) fn is_comment(line: &[u8]) -> bool
    ensures { result ≡ is_comment line.now }
{
    line.len() > 0 && line[0] == b'c'
}

fn is_cnf(word: &[u8]) -> bool
    ensures { result ≡ is_cnf word.now }
{
    word.len() == 3 && word[0] == b'c' && word[1] == b'n' && word[2] == b'f'
}

// A count: a number up to a limit, or 0.
fn count_word(limit: u64, word: &[u8]) -> Option<u64>
    ensures is { result ≡ count_word limit word.now }
    ensures within { IfSome result (λ n. n ≤ limit) }
{
    if is_byte(b'0', word) {
        return Some(0);
    }
    number_word(limit, word)
}

/// The header that a line is.
pub(crate) fn header_of(line: &[u8]) -> Option<Header>
    ensures is { result ≡ header_of line.now }
    ensures few { IfSome result (λ h. h.vars ≤ 2147483647) }
{
    let (problem, rest) = next_word(line)?;
    let (format, rest) = next_word(rest)?;
    let (vars, rest) = next_word(rest)?;
    let (clauses, rest) = next_word(rest)?;
    if next_word(rest).is_some() || !is_byte(b'p', problem) || !is_cnf(format) {
        return None;
    }
    let vars = count_word(2147483647, vars)? as u32;
    let clauses = count_word(18446744073709551615, clauses)?;
    Some(Header { vars, clauses })
}
