//! A line, and the names in it.
ghost use Rattle.std.specs.Prelude.{◌≡◌, ℕ, List, ◌+◌, ◌<◌, ◌++◌, ◌∷◌, take, drop, length, MatchOption, slice_index};
ghost use Rattle.pair_list.specs.Lists.{AreNames, HasNone, IsName, line_of};

const SPACE: u8 = 32;

const LF: u8 = 10;

// The first place of a byte.
fn first_place(bytes: &[u8], byte: u8) -> Option<usize>
    ensures { MatchOption result (HasNone byte bytes.now) (λ at. (at < length bytes.now) × HasNone byte (take at bytes.now) × (slice_index bytes.now at ≡ byte)) }
{
    for at in 0..bytes.len() {
        if bytes[at] == byte {
            return Some(at);
        }
    }
    None
}

// What stands before the first such byte, and after it.
fn cut(bytes: &[u8], byte: u8) -> Option<(&[u8], &[u8])>
    ensures { MatchOption result (HasNone byte bytes.entry.now) (λ r. HasNone byte r.0.now × (bytes.entry.now ≡ r.0.now ++ byte ∷ r.1.now)) }
{
    let Some(at) = first_place(bytes, byte) else {
        return None;
    };
    Some((&bytes[..at], &bytes[at + 1..]))
}

/// The first line without its end, and what follows it. None where no line ends.
pub(crate) fn next_line(bytes: &[u8]) -> Option<(&[u8], &[u8])>
    ensures { MatchOption result (HasNone 10 bytes.entry.now) (λ r. HasNone 10 r.0.now × (bytes.entry.now ≡ r.0.now ++ 10 ∷ r.1.now)) }
{
    cut(bytes, LF)
}

// Bytes of a line, as a name.
fn name_in(bytes: &[u8]) -> Option<&str>
    requires { HasNone 10 bytes.now }
    ensures { MatchOption result (IsName bytes.now → ⊥) (λ s. (s.now ≡ bytes.now) × IsName bytes.now) }
{
    if bytes.len() == 0 || first_place(bytes, SPACE).is_some() {
        return None;
    }
    match std::str::from_utf8(bytes) {
        Ok(name) => Some(name),
        Err(_) => None,
    }
}

/// The two names of a line.
pub(crate) fn names_in(line: &[u8]) -> Option<(&str, &str)>
    requires { HasNone 10 line.now }
    ensures { MatchOption result ((p : List ℕ × List ℕ) → AreNames p → line.entry.now ≡ line_of p → ⊥) (λ r. AreNames (r.0.now, r.1.now) × (line.entry.now ≡ line_of (r.0.now, r.1.now))) }
{
    let Some((before, after)) = cut(line, SPACE) else {
        return None;
    };
    let Some(left) = name_in(before) else {
        return None;
    };
    let Some(right) = name_in(after) else {
        return None;
    };
    Some((left, right))
}
