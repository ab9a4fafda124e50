//! Lines of numbers. They go into an array that outlives the lines, so that a line costs no memory.
ghost use Rattle.std.specs.Prelude.{◌≡◌, ◌≤◌, ◌<◌, take, drop, length, MatchOption, MatchResult, IfSome, Some, None, Ok, Err, IsTrue};
ghost use Rattle.plain_text.specs.Numbers.{number_at};
ghost use Rattle.aiger_codec.specs.Lines.{has_end, numbers_at, line_at};

use crate::fault::{NetFault, NetKind};
use plain_text::number_from;

pub fn ends(bytes: &[u8]) -> bool
    ensures { result ≡ has_end bytes.now }
{
    for b in bytes {
        if *b == b'\n' {
            return true;
        }
    }
    false
}

// Up to so many numbers into the array: how many, and the place after the line.
pub fn numbers_from(
    bytes: &[u8],
    start: usize,
    most: usize,
    into: &mut [u32; 9],
) -> Option<(usize, usize)>
    requires { most ≤ 9 }
    ensures within { IfSome result (λ r. r.1 ≤ length bytes.now) }
    ensures value { MatchOption result (numbers_at most bytes.now start ≡ None) (λ r. (r.0 ≤ most) × (numbers_at most bytes.now start ≡ Some (take r.0 into.new, r.1))) }
{
    let mut at = start;
    for i in 0..most {
        let Some((number, end)) = number_from(bytes, at) else {
            return None;
        };
        into[i] = number;
        if end >= bytes.len() {
            return None;
        }
        let separator = bytes[end];
        if separator == b'\n' {
            return Some((i + 1, end + 1));
        }
        if separator != b' ' {
            return None;
        }
        at = end + 1;
    }
    None
}

/// The numbers of the line at a place: how many, and the place after it.
#[tactic(auto, unfolding(crate::specs::Lines::line_at))]
pub fn read_line(
    bytes: &[u8],
    start: usize,
    least: usize,
    most: usize,
    into: &mut [u32; 9],
) -> Result<(usize, usize), NetFault>
    requires { most ≤ 9 }
    ensures { MatchResult result (λ r. (r.0 ≤ most) × (line_at least most bytes.now start ≡ Ok (take r.0 into.new, r.1))) (λ e. line_at least most bytes.now start ≡ Err e) }
{
    if let Some((count, end)) = numbers_from(bytes, start, most, into) {
        if least <= count {
            return Ok((count, end));
        }
    }
    let kind = if start < bytes.len() && ends(&bytes[start..]) {
        NetKind::Line
    } else {
        NetKind::Truncated
    };
    Err(NetFault {
        kind,
        at: start as u64,
    })
}
