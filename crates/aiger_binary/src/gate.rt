//! The gates of a binary body: two numbers each.
ghost use Rattle.std.specs.Prelude.{◌≡◌, ◌+◌, ◌<◌, ◌^◌};
ghost use Rattle.aiger_codec.specs.Deltas.{delta_at};
ghost use Rattle.aiger_codec.specs.Sections.{Reads, Fails};
ghost use Rattle.aiger_binary.specs.Binary.{taken, gate_at, each_from};

use aig_graph::NetBuilder;
use aiger_codec::{Delta, NetError, NetFault, NetKind, error_of, read_delta};
use circ_model::Lit;

// A number of the gate that begins at a place, and the place after it.
fn take(bytes: &[u8], from: u64, at: u64) -> Result<(u32, u64), NetFault>
    ensures { result ≡ taken at (delta_at bytes.now from) }
{
    let kind = match read_delta(bytes, from) {
        Delta::Value(n, end) => return Ok((n, end)),
        Delta::Cut => NetKind::Truncated,
        Delta::Wide => NetKind::Line,
    };
    Err(NetFault { kind, at })
}

#[tactic(auto, unfolding(crate::specs::Binary::gate_at))]
fn read_gate(var: u32, bytes: &[u8], at: u64, builder: &mut NetBuilder) -> Result<u64, NetError>
    requires { var < 2 ^ 31 }
    ensures { Reads result builder.new (gate_at bytes.now var (builder.old, at)) }
{
    let (first, middle) = take(bytes, at, at)?;
    let (second, end) = take(bytes, middle, at)?;
    let own = 2 * var;
    if first == 0 || first > own || second > own - first {
        return Err(NetError::Refused(NetFault {
            kind: NetKind::Order,
            at,
        }));
    }
    match builder.gate(
        var,
        Lit::from_number(own - first),
        Lit::from_number(own - first - second),
    ) {
        Err(fault) => Err(error_of(fault, at)),
        Ok(()) => Ok(end),
    }
}

// So many gates from a variable up, and the place after their numbers.
pub fn read_gates(
    count: u32,
    first: u32,
    bytes: &[u8],
    start: u64,
    builder: &mut NetBuilder,
) -> Result<u64, NetError>
    requires { first + count < 2 ^ 31 }
    ensures { Reads result builder.new (each_from (gate_at bytes.now) count first (builder.old, start)) }
{
    let mut at = start;
    for i in 0..count {
        at = read_gate(first + i, bytes, at, builder)?;
    }
    Ok(at)
}
