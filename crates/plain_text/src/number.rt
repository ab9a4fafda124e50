//! Decimal numbers inside a longer text. A value past 4294967295 counts as that.
ghost use Rattle.std.specs.Prelude.{◌≡◌};
ghost use Rattle.plain_text.specs.Numbers.{number_at};

/// The number at a place, and the place after it.
pub fn read_number(bytes: &[u8], at: u64) -> Option<(u32, u64)>
    ensures { result ≡ number_at bytes.now at }
{
    let (value, end) = number_from(bytes, usize::try_from(at).ok()?)?;
    Some((value, end as u64))
}

/// The number at an index, and the index after it.
#[tactic(auto, unfolding(crate::specs::Numbers::number_at))]
pub fn number_from(bytes: &[u8], start: usize) -> Option<(u32, usize)>
    ensures { result ≡ number_at bytes.now start }
{
    let len = bytes.len();
    if start >= len {
        return None;
    }
    let mut end = start;
    let mut value: u64 = 0;
    while end < len {
        let digit = bytes[end];
        if digit < b'0' || digit > b'9' {
            break;
        }
        value = (value * 10 + (digit - b'0') as u64).min(4294967295);
        end += 1;
    }
    if end == start {
        return None;
    }
    Some((value as u32, end))
}
