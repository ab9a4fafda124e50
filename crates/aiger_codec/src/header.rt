//! The header, read and checked in the order in which its faults come.
ghost use Rattle.std.specs.Prelude.{◌≡◌, ◌≤◌, ◌<◌, take, length, slice_index, MatchOption, IfSome, IfOk, Some, None};
ghost use Rattle.aiger_codec.specs.Header.{form_of, header_numbers, refused, checked, header_at, IsWithinLimits};

use crate::fault::{NetFault, NetKind};
use crate::line::{ends, numbers_from};

/// The first line of a file: `aag` or `aig`, then the numbers `M I L O A`.
#[derive(Clone, Copy, Debug, PartialEq, Eq)]
pub struct Header {
    /// Whether the body is binary.
    pub binary: bool,
    /// The greatest variable.
    pub m: u32,
    /// How many inputs there are.
    pub i: u32,
    /// How many latches.
    pub l: u32,
    /// How many outputs.
    pub o: u32,
    /// How many gates.
    pub a: u32,
    /// The place after the line.
    pub end: u64,
}

fn form(bytes: &[u8]) -> Option<bool>
    ensures { result ≡ form_of bytes.now }
{
    if bytes.len() < 3 || bytes[0] != b'a' || bytes[2] != b'g' {
        return None;
    }
    match bytes[1] {
        b'i' => Some(true),
        b'a' => Some(false),
        _ => None,
    }
}

// A fault of the header stands at the file's first byte.
fn refuse(kind: NetKind) -> Result<Header, NetFault>
    ensures { result ≡ refused kind }
{
    Err(NetFault { kind, at: 0 })
}

// A number of the line, or 0 where it has no more.
pub fn number_or_none(numbers: &[u32; 9], count: usize, place: usize) -> u32
    requires { place < 9 }
    ensures { result ≡ slice_index (take count numbers.now) place }
{
    if place < count { numbers[place] } else { 0 }
}

#[tactic(auto, unfolding(crate::specs::Header::header_numbers))]
fn header_numbers_from(bytes: &[u8], into: &mut [u32; 9]) -> Option<(usize, usize)>
    ensures value { MatchOption result (header_numbers bytes.now ≡ None) (λ r. (r.0 ≤ 9) × (header_numbers bytes.now ≡ Some (take r.0 into.new, r.1))) }
    ensures within { IfSome result (λ r. r.1 ≤ length bytes.now) }
{
    if bytes.len() < 4 || bytes[3] != b' ' {
        return None;
    }
    numbers_from(bytes, 4, 9, into)
}

#[tactic(auto, unfolding(crate::specs::Header::checked))]
fn check(binary: bool, numbers: &[u32; 9], count: usize, end: usize) -> Result<Header, NetFault>
    ensures value { result ≡ checked binary (take count numbers.now) end }
    ensures limits { IfOk result IsWithinLimits }
    ensures place { IfOk result (λ h. h.end ≡ end) }
{
    if number_or_none(numbers, count, 5) != 0 {
        return refuse(NetKind::Bad);
    }
    if number_or_none(numbers, count, 6) != 0 {
        return refuse(NetKind::Constraint);
    }
    if number_or_none(numbers, count, 7) != 0 {
        return refuse(NetKind::Justice);
    }
    if number_or_none(numbers, count, 8) != 0 {
        return refuse(NetKind::Fairness);
    }
    let m = number_or_none(numbers, count, 0);
    let o = number_or_none(numbers, count, 3);
    if m > 1000000 || o > 1000000 {
        return refuse(NetKind::Limit);
    }
    let i = number_or_none(numbers, count, 1);
    let l = number_or_none(numbers, count, 2);
    let a = number_or_none(numbers, count, 4);
    let sum = i as u64 + l as u64 + a as u64;
    let miscounts = if binary {
        sum != m as u64
    } else {
        sum > m as u64
    };
    if miscounts {
        return refuse(NetKind::Count);
    }
    Ok(Header {
        binary,
        m,
        i,
        l,
        o,
        a,
        end: end as u64,
    })
}

/// The header, or its first fault.
#[tactic(auto, unfolding(crate::specs::Header::header_at))]
pub fn read_header(bytes: &[u8]) -> Result<Header, NetFault>
    ensures value { result ≡ header_at bytes.now }
    ensures limits { IfOk result IsWithinLimits }
    ensures within { IfOk result (λ h. h.end ≤ length bytes.now) }
{
    let Some(binary) = form(bytes) else {
        return refuse(NetKind::Header);
    };
    let mut numbers = [0u32; 9];
    if let Some((count, end)) = header_numbers_from(bytes, &mut numbers) {
        if count >= 5 {
            return check(binary, &numbers, count, end);
        }
    }
    let kind = if ends(bytes) {
        NetKind::Header
    } else {
        NetKind::Truncated
    };
    refuse(kind)
}
