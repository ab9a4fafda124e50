//! The literals of a log line.
ghost use Rattle.std.specs.Prelude.{◌≡◌, IfSome};
ghost use Rattle.cnf_store.specs.Clauses.{IsLiteral};
ghost use Rattle.sat_log.specs.Words.{literal_word};

use plain_text::number_word;

/// The literal that a word is: a variable's number, with `-` before it for the complement.
pub fn literal_word(word: &[u8]) -> Option<i32>
    ensures is { result ≡ literal_word word.now }
    ensures literal { IfSome result (IsLiteral 2147483647) }
{
    if word.len() > 0 && word[0] == b'-' {
        let number = number_word(2147483647, &word[1..])?;
        return Some(-(number as i32));
    }
    let number = number_word(2147483647, word)?;
    Some(number as i32)
}
