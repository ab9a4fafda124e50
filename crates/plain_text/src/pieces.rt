//! The pieces of a text between separators: its lines, or the words of a line.
ghost use Rattle.std.specs.Prelude.{◌≡◌, ◌<◌, ◌≤◌, ◌+◌, [], ◌∷◌, take, drop, length, MatchOption, slice_index};
ghost use Rattle.plain_text.specs.Pieces.{pieces, last_of, is_byte, HasNone};

// The place of the first separator.
fn place_of(bytes: &[u8], separator: u8) -> Option<usize>
    ensures { MatchOption result (HasNone separator bytes.now (length bytes.now)) (λ at. (at < length bytes.now) × HasNone separator bytes.now at × (slice_index bytes.now at ≡ separator)) }
{
    for at in 0..bytes.len() {
        if bytes[at] == separator {
            return Some(at);
        }
    }
    None
}

/// The piece up to the first separator, and what follows that separator; none where there is no separator.
pub fn next_piece(bytes: &[u8], separator: u8) -> Option<(&[u8], &[u8])>
    ensures { MatchOption result ((pieces separator bytes.entry.now ≡ []) × (last_of separator bytes.entry.now ≡ bytes.entry.now)) (λ r. (pieces separator bytes.entry.now ≡ r.0.now ∷ pieces separator r.1.now) × (last_of separator bytes.entry.now ≡ last_of separator r.1.now) × (length r.1.now + 1 + length r.0.now ≡ length bytes.entry.now)) }
{
    let Some(at) = place_of(bytes, separator) else {
        return None;
    };
    Some((&bytes[..at], &bytes[at + 1..]))
}

/// Whether a text is this byte alone.
pub fn is_byte(b: u8, text: &[u8]) -> bool
    ensures { result ≡ is_byte b text.now }
{
    text.len() == 1 && text[0] == b
}
