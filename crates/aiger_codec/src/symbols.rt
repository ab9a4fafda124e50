//! What stands after the body: symbol lines, whose names are not kept, and a comment, which is not read.
ghost use Rattle.std.specs.Prelude.{◌≡◌, ◌<◌, ◌≤◌, drop, length, IfSome};
ghost use Rattle.aiger_codec.specs.Symbols.{first_end, count_of, symbol_at, symbols_at};

use crate::fault::{NetFault, NetKind};
use plain_text::number_from;

/// How many inputs, latches and outputs a netlist has.
#[derive(Clone, Copy, Debug, PartialEq, Eq)]
pub struct Counts {
    pub inputs: u32,
    pub latches: u32,
    pub outputs: u32,
}

fn line_end(bytes: &[u8], start: usize) -> Option<usize>
    ensures is { result ≡ first_end (drop start bytes.now) start }
    ensures within { IfSome result (λ end. end < length bytes.now) }
{
    for at in start..bytes.len() {
        if bytes[at] == b'\n' {
            return Some(at);
        }
    }
    None
}

fn count_of(counts: &Counts, kind: u8) -> u32
    ensures { result ≡ count_of counts.now kind }
{
    match kind {
        b'i' => counts.inputs,
        b'l' => counts.latches,
        b'o' => counts.outputs,
        _ => 0,
    }
}

#[tactic(auto, unfolding(crate::specs::Symbols::symbol_at))]
fn read_symbol(counts: &Counts, bytes: &[u8], at: usize) -> Result<usize, NetFault>
    requires { at < length bytes.now }
    ensures { result ≡ symbol_at counts.now bytes.now at }
{
    let Some(end) = line_end(bytes, at) else {
        return Err(NetFault {
            kind: NetKind::Truncated,
            at: at as u64,
        });
    };
    let count = count_of(counts, bytes[at]);
    if let Some((position, after)) = number_from(bytes, at + 1) {
        if position < count && after < bytes.len() && bytes[after] == b' ' {
            return Ok(end + 1);
        }
    }
    Err(NetFault {
        kind: NetKind::Symbol,
        at: at as u64,
    })
}

/// Where reading ends: at the end of the bytes or at a comment.
pub fn read_symbols(counts: &Counts, bytes: &[u8], start: usize) -> Result<usize, NetFault>
    ensures { result ≡ symbols_at (length bytes.now) counts.now bytes.now start }
{
    let mut at = start;
    'lines: while at < bytes.len() && bytes[at] != b'c' {
        at = read_symbol(counts, bytes, at)?;
    }
    Ok(at)
}
