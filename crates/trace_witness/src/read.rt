//! Reading a trace: each line is checked before the next is looked at, so the fault that is answered is the first.
ghost use Rattle.std.specs.Prelude.{◌≡◌, ◌<◌, length, IfOk};
ghost use Rattle.circ_model.specs.Meaning.{outputs_of, IsRun};
ghost use Rattle.trace_witness.specs.declared.fault.TraceError.TheVariants.{Refused};
ghost use Rattle.trace_witness.specs.Lines.{lines_of};
ghost use Rattle.trace_witness.specs.Texts.{fault, output_named, frames_of, trace_of, IsDue, FramesDue};

use crate::bits::{bits_fault, row_of, start_fault};
use crate::fault::{TraceError, TraceFault, TraceKind};
use bit_rows::Rows;
use plain_text::{is_byte, next_piece, read_number};
use product_machine::{Path, Product};
use std::alloc::Global;

/// An output's number and a run.
#[derive(Drop)]
pub struct Trace {
    pub output: u32,
    pub run: Path,
}

fn output_named(outputs: u32, line: &[u8]) -> Option<u32>
    ensures { result ≡ output_named outputs line.now }
{
    if line.len() == 0 || line[0] != b'b' {
        return None;
    }
    let Some((number, end)) = read_number(line, 1) else {
        return None;
    };
    if end == line.len() as u64 && number < outputs {
        Some(number)
    } else {
        None
    }
}

fn refused(kind: TraceKind, line: u64) -> TraceError
    ensures { result ≡ Refused (fault kind line) }
{
    TraceError::Refused(TraceFault { kind, line })
}

/// The trace that a text spells, or its first fault. What follows the line `.` is unread.
pub fn read_trace(alloc: Global, product: &Product, bytes: &[u8]) -> Result<Trace, TraceError>
    ensures due { IsDue result (trace_of product.now (lines_of bytes.now)) }
    ensures run { IfOk result (λ t. IsRun product.now t.run) }
    ensures output { IfOk result (λ t. t.output < outputs_of product.now) }
{
    read_lines(alloc, product, bytes)
}

// Line by line.
#[tactic(auto, unfolding(crate::specs::Texts::trace_of))]
fn read_lines(alloc: Global, product: &Product, bytes: &[u8]) -> Result<Trace, TraceError>
    ensures { IsDue result (trace_of product.now (lines_of bytes.now)) }
{
    let Some((first, second)) = next_piece(bytes, b'\n') else {
        return Err(refused(TraceKind::Truncated, 1));
    };
    if !is_byte(b'1', first) {
        return Err(refused(TraceKind::Line, 1));
    }
    let Some((name, third)) = next_piece(second, b'\n') else {
        return Err(refused(TraceKind::Truncated, 2));
    };
    let Some(output) = output_named(product.outputs(), name) else {
        return Err(refused(TraceKind::Line, 2));
    };
    let Some((bits, rest)) = next_piece(third, b'\n') else {
        return Err(refused(TraceKind::Truncated, 3));
    };
    if let Some(kind) = start_fault(product, bits) {
        return Err(refused(kind, 3));
    }
    let Ok(start) = row_of(alloc, bits, product.latches()) else {
        return Err(TraceError::Memory);
    };
    let mut inputs = Rows::new(alloc);
    read_frames(alloc, product.inputs(), rest, &mut inputs)?;
    Ok(Trace {
        output,
        run: Path { start, inputs },
    })
}

// Adds the input rows up to the line `.`.
#[tactic(auto, unfolding(crate::specs::Texts::frames_of))]
fn read_frames(alloc: Global, width: u32, bytes: &[u8], inputs: &mut Rows) -> Result<(), TraceError>
    ensures { FramesDue result inputs.new (frames_of width 4 inputs.old (lines_of bytes.now)) }
{
    let mut rest = bytes;
    let mut line: u64 = 4;
    loop {
        let Some((bits, after)) = next_piece(rest, b'\n') else {
            return Err(refused(TraceKind::Truncated, line));
        };
        if is_byte(b'.', bits) {
            return Ok(());
        }
        if let Some(kind) = bits_fault(bits, width) {
            return Err(refused(kind, line));
        }
        let Ok(row) = row_of(alloc, bits, width) else {
            return Err(TraceError::Memory);
        };
        if inputs.push(row).is_err() {
            return Err(TraceError::Memory);
        }
        rest = after;
        line += 1;
    }
}
