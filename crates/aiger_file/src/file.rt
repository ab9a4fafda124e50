//! A whole file: its header, its body in either form, and what stands after it.
ghost use Rattle.std.specs.Prelude.{◌≡◌, Result};
ghost use Rattle.aig_graph.specs.Finish.{Finishes};
ghost use Rattle.aiger_codec.specs.Header.{IsWithinLimits};
ghost use Rattle.aiger_codec.specs.Sections.{ReadsBody};
ghost use Rattle.aiger_file.specs.Files.{IsReading, counts_of, in_form, after_symbols, IsFinish};

use aig_graph::{BuildFault, NetBuilder, Netlist};
use aiger_binary::read_binary;
use aiger_codec::{Counts, Header, NetError, NetFault, NetKind, read_header, read_symbols};
use aiger_text::read_text;
use std::alloc::Global;

// The body, in the form that the header says.
fn read_body(alloc: Global, bytes: &[u8], header: &Header) -> Result<(NetBuilder, u64), NetError>
    requires { IsWithinLimits header.now }
    ensures { ReadsBody result (in_form header.now.binary header.now bytes.now) }
{
    if header.binary {
        read_binary(alloc, bytes, header)
    } else {
        read_text(alloc, bytes, header)
    }
}

/// The netlist of a file, text or binary, or its first fault in reading order. A use without a definition and gates that
/// wait for each other come after the whole file, at byte 0.
pub fn read_netlist(alloc: Global, bytes: &[u8]) -> Result<Netlist, NetError>
    ensures { IsReading bytes.now result }
{
    let header = read_header(bytes)?;
    let (builder, end) = read_body(alloc, bytes, &header)?;
    let counts = Counts {
        inputs: header.i,
        latches: header.l,
        outputs: header.o,
    };
    read_symbols(&counts, bytes, end as usize)?;
    finish(alloc, builder)
}

// The netlist, or what is wrong with the whole.
fn finish(alloc: Global, builder: NetBuilder) -> Result<Netlist, NetError>
    ensures { IsFinish builder result }
{
    let kind = match builder.finish(alloc) {
        Ok(net) => return Ok(net),
        Err(BuildFault::Undefined(_)) => NetKind::Undefined,
        Err(BuildFault::Cyclic) => NetKind::Cyclic,
        Err(_) => return Err(NetError::Memory),
    };
    Err(NetError::Refused(NetFault { kind, at: 0 }))
}
