//! The body of a binary file.
ghost use Rattle.std.specs.Prelude.{◌≡◌, ◌+◌, ◌≤◌, ◌<◌, ◌^◌, IfOk};
ghost use Rattle.aiger_codec.specs.Sections.{items_at, Reads, ReadsBody};
ghost use Rattle.aiger_binary.specs.Binary.{of_inputs, latch_at, gate_at, each_from, binary_at};
ghost use Rattle.aiger_binary.specs.Grammar.{IsBinary, SpelledIsRead};

use crate::gate::read_gates;
use crate::latch::read_latches;
use aig_graph::NetBuilder;
use aiger_codec::{Header, NetError, Section, read_items};
use std::alloc::{AllocError, Global};

// A builder with the inputs: the variables from 1 up.
fn define_inputs(alloc: Global, header: &Header) -> Result<NetBuilder, AllocError>
    requires max_var { header.now.m ≤ 1000000 }
    requires inputs { header.now.i ≤ header.now.m }
    ensures { IfOk result (λ b. b ≡ of_inputs header.now.m header.now.i) }
{
    let mut builder = NetBuilder::new(alloc, header.m)?;
    for i in 0..header.i {
        match builder.input(i + 1) {
            Err(_) => return Err(AllocError),
            Ok(()) => {}
        }
    }
    Ok(builder)
}

/// The body of a binary file, as it was given to a builder, and the place after it, or the first fault. The header is the
/// file's own.
#[tactic(auto, unfolding(crate::specs::Binary::binary_at))]
pub fn read_binary(
    alloc: Global,
    bytes: &[u8],
    header: &Header,
) -> Result<(NetBuilder, u64), NetError>
    requires max_var { header.now.m ≤ 1000000 }
    requires outputs { header.now.o ≤ 1000000 }
    requires sections { header.now.i + header.now.l + header.now.a ≤ header.now.m }
    ensures reads { ReadsBody result (binary_at header.now bytes.now) }
    ensures spelled { IfOk result (λ r. IsBinary header.now bytes.now r.0 r.1) }
{
    let mut builder = define_inputs(alloc, header)?;
    let first = header.i + 1;
    let at = read_latches(header.l, first, bytes, header.end as usize, &mut builder)?;
    let at = read_items(Section::Outputs, header.o, bytes, at, &mut builder)?;
    let first = first + header.l;
    let end = read_gates(header.a, first, bytes, at as u64, &mut builder)?;
    Ok((builder, end))
}

/// What the grammar of a binary body spells is read, whatever follows it.
pub fn spelled_binary_is_read()
    ensures { SpelledIsRead }
{}
