//! Words that are numbers without leading zeros.
ghost use Rattle.std.specs.Prelude.{◌≡◌, ◌<◌, ◌≤◌, IfSome};
ghost use Rattle.plain_text.specs.Words.{number_word};

/// The number from 1 to a limit that a word is, without leading zeros.
pub fn number_word(limit: u64, word: &[u8]) -> Option<u64>
    ensures is { result ≡ number_word limit word.now }
    ensures some { IfSome result (λ n. (0 < n) × (n ≤ limit)) }
{
    if word.len() == 0 || word[0] == b'0' {
        return None;
    }
    let mut value: u64 = 0;
    for digit in word {
        if *digit < b'0' || *digit > b'9' {
            return None;
        }
        let next = value as u128 * 10 + (*digit - b'0') as u128;
        if next > limit as u128 {
            return None;
        }
        value = next as u64;
    }
    Some(value)
}
