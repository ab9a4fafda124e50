//! Writing a trace. The text is a function of the output and the run.
ghost use Rattle.std.specs.Prelude.{◌≡◌, ◌<◌, ◌++◌, Ok, IfOk, OnOk};
ghost use Rattle.circ_model.specs.Meaning.{outputs_of, IsRun};
ghost use Rattle.trace_witness.specs.Texts.{bytes_of, frames_text, trace_of, trace_text};
ghost use Rattle.trace_witness.specs.Lines.{lines_of};

use bit_rows::{BitRow, Rows};
use product_machine::{Path, Product};
use std::alloc::{AllocError, Global};

fn push_bits(bits: &BitRow, into: &mut Vec<u8>) -> Result<(), AllocError>
    ensures { OnOk result (into.new.items ≡ into.old.items ++ bytes_of bits.now) }
{
    for i in 0..bits.len() {
        into.push(if bits.get(i) { b'1' } else { b'0' })?;
    }
    Ok(())
}

#[tactic(auto, unfolding(crate::specs::Texts::frames_text))]
fn push_frames(inputs: &Rows, into: &mut Vec<u8>) -> Result<(), AllocError>
    ensures { OnOk result (into.new.items ≡ into.old.items ++ frames_text inputs.now) }
{
    for t in 0..inputs.len() {
        push_bits(inputs.row(t), into)?;
        into.push(b'\n')?;
    }
    into.extend_from_slice(b".\n")?;
    Ok(())
}

/// The text of a trace: of a run of the pair, with the number of one of its outputs. Read again, it is that output and run.
pub fn write_trace(
    alloc: Global,
    product: &Product,
    output: u32,
    run: &Path,
) -> Result<Vec<u8>, AllocError>
    requires run { IsRun product.now run.now }
    requires output { output < outputs_of product.now }
    ensures text { IfOk result (λ text. text.items ≡ trace_text output run.now) }
    ensures again { IfOk result (λ text. trace_of product.now (lines_of text.items) ≡ Ok (record { output = output; run = run.now })) }
{
    let text = text_of(alloc, output, run)?;
    Ok(text)
}

fn text_of(alloc: Global, output: u32, run: &Path) -> Result<Vec<u8>, AllocError>
    ensures { IfOk result (λ text. text.items ≡ trace_text output run.now) }
{
    let number = format!(in alloc; "{output}")?;
    let mut text = Vec::from_slice(alloc, b"1\nb")?;
    text.extend_from_slice(number.as_bytes())?;
    text.push(b'\n')?;
    push_bits(&run.start, &mut text)?;
    text.push(b'\n')?;
    push_frames(&run.inputs, &mut text)?;
    Ok(text)
}
