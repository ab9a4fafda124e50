//! A netlist as the text of a file. Numbers go through an array of the longest number's length, so that a line costs no
//! memory but its bytes.
ghost use Rattle.std.specs.Prelude.{◌≡◌, ◌++◌, ◌∷◌, [], length, decimal, OnOk, IfOk};
ghost use Rattle.aiger_codec.specs.Writing.{more_text, line_text, lines_text, input_text, reset_numbers, latch_text, output_text, gate_text, net_text};

use aig_graph::Netlist;
use circ_model::{Gate, Latch, Lit, Reset};
use plain_text::decimal_digits;
use std::alloc::{AllocError, Global};

/// The text of a netlist: its header, inputs, latches, outputs and gates in their order; a zero reset is left out.
pub fn write_text_net(alloc: Global, net: &Netlist) -> Result<Vec<u8>, AllocError>
    ensures { IfOk result (λ text. text.items ≡ net_text net.now) }
{
    let counts = [
        net.inputs().len() as u64,
        net.latches().len() as u64,
        net.outputs().len() as u64,
        net.gates().len() as u64,
    ];
    let mut text = Vec::from_slice(alloc, b"aag ")?;
    push_line(net.max_var() as u64, &counts, &mut text)?;
    push_inputs(net.inputs(), &mut text)?;
    push_latches(net.latches(), &mut text)?;
    push_outputs(net.outputs(), &mut text)?;
    push_gates(net.gates(), &mut text)?;
    Ok(text)
}

#[tactic(auto, unfolding(crate::specs::Writing::lines_text))]
fn push_inputs(inputs: &[u32], into: &mut Vec<u8>) -> Result<(), AllocError>
    ensures { OnOk result (into.new.items ≡ into.old.items ++ lines_text input_text inputs.now) }
{
    for i in 0..inputs.len() {
        push_line(2 * inputs[i] as u64, &[], into)?;
    }
    Ok(())
}

#[tactic(auto, unfolding(crate::specs::Writing::lines_text))]
fn push_latches(latches: &[Latch], into: &mut Vec<u8>) -> Result<(), AllocError>
    ensures { OnOk result (into.new.items ≡ into.old.items ++ lines_text latch_text latches.now) }
{
    for i in 0..latches.len() {
        push_latch(latches[i], into)?;
    }
    Ok(())
}

fn push_latch(latch: Latch, into: &mut Vec<u8>) -> Result<(), AllocError>
    ensures { OnOk result (into.new.items ≡ into.old.items ++ latch_text latch) }
{
    let own = 2 * latch.var as u64;
    let next = number_of(latch.next);
    match latch.reset {
        Reset::Zero => push_line(own, &[next], into),
        Reset::One => push_line(own, &[next, 1], into),
        Reset::Free => push_line(own, &[next, own], into),
    }
}

#[tactic(auto, unfolding(crate::specs::Writing::lines_text))]
fn push_outputs(outputs: &[Lit], into: &mut Vec<u8>) -> Result<(), AllocError>
    ensures { OnOk result (into.new.items ≡ into.old.items ++ lines_text output_text outputs.now) }
{
    for i in 0..outputs.len() {
        push_line(number_of(outputs[i]), &[], into)?;
    }
    Ok(())
}

#[tactic(auto, unfolding(crate::specs::Writing::lines_text))]
fn push_gates(gates: &[Gate], into: &mut Vec<u8>) -> Result<(), AllocError>
    ensures { OnOk result (into.new.items ≡ into.old.items ++ lines_text gate_text gates.now) }
{
    for i in 0..gates.len() {
        push_gate(gates[i], into)?;
    }
    Ok(())
}

fn push_gate(gate: Gate, into: &mut Vec<u8>) -> Result<(), AllocError>
    ensures { OnOk result (into.new.items ≡ into.old.items ++ gate_text gate) }
{
    let right = [number_of(gate.left), number_of(gate.right)];
    push_line(2 * gate.var as u64, &right, into)
}

fn number_of(lit: Lit) -> u64
    ensures { result ≡ lit }
{
    2 * lit.var() as u64 + lit.complement() as u64
}

// A line of a number and others.
#[tactic(auto, unfolding(crate::specs::Writing::more_text))]
pub(crate) fn push_line(first: u64, others: &[u64], into: &mut Vec<u8>) -> Result<(), AllocError>
    ensures { OnOk result (into.new.items ≡ into.old.items ++ line_text first others.now) }
{
    push_number(first, into)?;
    for i in 0..others.len() {
        into.push(b' ')?;
        push_number(others[i], into)?;
    }
    into.push(b'\n')?;
    Ok(())
}

fn push_number(n: u64, into: &mut Vec<u8>) -> Result<(), AllocError>
    ensures { OnOk result (into.new.items ≡ into.old.items ++ decimal n) }
{
    let mut digits = [0u8; 20];
    let start = decimal_digits(n, &mut digits);
    into.extend_from_slice(&digits[start..])
}
