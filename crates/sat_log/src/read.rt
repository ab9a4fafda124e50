//! Reading a line of a log.
ghost use Rattle.std.specs.Prelude.{◌≡◌, ◌<◌, IfOk, []};
ghost use Rattle.std.specs.List.{All};
ghost use Rattle.cnf_store.specs.Clauses.{AreLiterals};
ghost use Rattle.plain_text.specs.Pieces.{pieces, last_of};
ghost use Rattle.sat_log.specs.Texts.{hints_from, step_from, step_of, Parses};

use crate::words::literal_word;
use plain_text::{is_byte, next_piece, number_word};
use std::alloc::AllocError;

#[tactic(auto, unfolding(crate::specs::Texts::hints_from))]
fn read_hints(line: &[u8], literals: &[i32], hints: &mut Vec<u64>) -> Result<bool, AllocError>
    requires { All (λ h. 0 < h) hints.old.items }
    ensures due { IfOk result (λ yes. Parses yes literals.now hints.new.items (hints_from literals.now hints.old.items (pieces 32 line.now) (last_of 32 line.now))) }
    ensures given { All (λ h. 0 < h) hints.new.items }
{
    let mut rest = line;
    loop {
        let Some((word, after)) = next_piece(rest, b' ') else {
            return Ok(is_byte(b'0', rest));
        };
        let Some(hint) = number_word(18446744073709551615, word) else {
            return Ok(false);
        };
        hints.push(hint)?;
        rest = after;
    }
}

/// Whether a line without its LF is a line of a log; if so, its literals and hints are added to the two lists.
#[tactic(auto, unfolding(crate::specs::Texts::step_from))]
pub fn read_step(
    line: &[u8],
    literals: &mut Vec<i32>,
    hints: &mut Vec<u64>,
) -> Result<bool, AllocError>
    requires literals { literals.old.items ≡ [] }
    requires hints { hints.old.items ≡ [] }
    ensures due { IfOk result (λ yes. Parses yes literals.new.items hints.new.items (step_of line.now)) }
    ensures literals { AreLiterals 2147483647 literals.new.items }
    ensures given { All (λ h. 0 < h) hints.new.items }
{
    let mut rest = line;
    loop {
        let Some((word, after)) = next_piece(rest, b' ') else {
            return Ok(false);
        };
        rest = after;
        if is_byte(b'0', word) {
            break;
        }
        let Some(literal) = literal_word(word) else {
            return Ok(false);
        };
        literals.push(literal)?;
    }
    read_hints(rest, literals.as_slice(), hints)
}
