//! The body of a text file.
ghost use Rattle.std.specs.Prelude.{◌≡◌, ◌≤◌, ◌<◌, ◌^◌, IfOk};
ghost use Rattle.aiger_text.specs.Grammar.{IsSpelled, SpelledIsRead};
ghost use Rattle.aiger_codec.specs.Sections.{body_at, items_at, ReadsBody, Reads, nothing_given};

use aig_graph::NetBuilder;
use aiger_codec::{Header, NetError, Section, read_items};
use std::alloc::Global;

/// The body of a text file, as it was given to a builder, and the place after it, or the first fault. The header is the file's own.
#[tactic(auto, unfolding(aiger_codec::specs::Sections::body_at))]
pub fn read_text(
    alloc: Global,
    bytes: &[u8],
    header: &Header,
) -> Result<(NetBuilder, u64), NetError>
    requires max_var { header.now.m ≤ 1000000 }
    requires outputs { header.now.o ≤ 1000000 }
    ensures reads { ReadsBody result (body_at header.now bytes.now) }
    ensures spelled { IfOk result (λ r. IsSpelled header.now bytes.now r.0 r.1) }
{
    let mut builder = NetBuilder::new(alloc, header.m)?;
    let at = read_items(
        Section::Inputs,
        header.i,
        bytes,
        header.end as usize,
        &mut builder,
    )?;
    let at = read_items(Section::Latches, header.l, bytes, at, &mut builder)?;
    let at = read_items(Section::Outputs, header.o, bytes, at, &mut builder)?;
    let at = read_items(Section::Gates, header.a, bytes, at, &mut builder)?;
    Ok((builder, at as u64))
}

/// What the grammar of a text body spells is read, whatever follows it.
pub fn spelled_text_is_read()
    ensures { SpelledIsRead }
{}
