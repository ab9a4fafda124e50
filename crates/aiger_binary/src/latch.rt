//! The latches of a binary body: a line each, of the next literal and perhaps a reset.
ghost use Rattle.std.specs.Prelude.{◌≡◌, ◌+◌, ◌<◌, ◌^◌};
ghost use Rattle.aiger_codec.specs.Sections.{Reads, Fails};
ghost use Rattle.aiger_binary.specs.Binary.{latch_at, each_from};

use aig_graph::NetBuilder;
use aiger_codec::{NetError, error_of, literal, read_line};

#[tactic(auto, unfolding(crate::specs::Binary::latch_at))]
fn read_latch(
    var: u32,
    bytes: &[u8],
    at: usize,
    numbers: &mut [u32; 9],
    builder: &mut NetBuilder,
) -> Result<usize, NetError>
    ensures { Reads result builder.new (latch_at bytes.now var (builder.old, at)) }
{
    let (count, end) = read_line(bytes, at, 1, 2, numbers)?;
    let next = literal(numbers, count, 0);
    let reset = literal(numbers, count, 1);
    match builder.latch(var, next, reset) {
        Err(fault) => Err(error_of(fault, at as u64)),
        Ok(()) => Ok(end),
    }
}

// So many latches from a variable up, and the place after their lines.
pub fn read_latches(
    count: u32,
    first: u32,
    bytes: &[u8],
    start: usize,
    builder: &mut NetBuilder,
) -> Result<usize, NetError>
    requires { first + count < 2 ^ 31 }
    ensures { Reads result builder.new (each_from (latch_at bytes.now) count first (builder.old, start)) }
{
    let mut numbers = [0u32; 9];
    let mut at = start;
    for i in 0..count {
        at = read_latch(first + i, bytes, at, &mut numbers, builder)?;
    }
    Ok(at)
}
