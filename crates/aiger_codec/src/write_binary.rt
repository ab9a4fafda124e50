//! A netlist as the bytes of a binary file. The variables are numbered anew, since the form tells a variable by its place
//! alone: each input, latch and gate is the next one.
ghost use Rattle.std.specs.Prelude.{◌≡◌, ◌<◌, ◌++◌, map, All, OnOk, IfOk};
ghost use Rattle.circ_model.specs.Meaning.{literal_by};
ghost use Rattle.aiger_codec.specs.Writing.{lines_text, output_text};
ghost use Rattle.aiger_codec.specs.Renumbering.{latch_by, gate_by, renumbered, says, IsLatchOf, IsGateOf};
ghost use Rattle.aiger_codec.specs.BinaryWriting.{next_text, deltas_text, binary_text};
ghost use Rattle.std.specs.Prelude.{◌/◌, length};

use crate::delta::write_delta;
use crate::renumber::{numbering, renamed};
use crate::write::push_line;
use aig_graph::Netlist;
use circ_model::{Gate, Latch, Lit, Reset};
use std::alloc::{AllocError, Global};

/// The bytes of a netlist in the binary form, numbered anew: the inputs, the latches and the gates are the variables from 1
/// up, in their order. A zero reset is left out, and of a gate's right literals the greater comes first.
pub fn write_binary_net(alloc: Global, net: &Netlist) -> Result<Vec<u8>, AllocError>
    ensures { IfOk result (λ bytes. bytes.items ≡ binary_text (renumbered net.now)) }
{
    let inputs = net.inputs().len() as u64;
    let table = numbering(alloc, net)?;
    let counts = [
        inputs,
        net.latches().len() as u64,
        net.outputs().len() as u64,
        net.gates().len() as u64,
    ];
    let mut bytes = Vec::from_slice(alloc, b"aig ")?;
    push_line(inputs + counts[1] + counts[3], &counts, &mut bytes)?;
    push_nexts(net.latches(), table.as_slice(), &mut bytes)?;
    push_outputs(net.outputs(), table.as_slice(), &mut bytes)?;
    push_gates(net.gates(), table.as_slice(), &mut bytes)?;
    Ok(bytes)
}

#[tactic(auto, unfolding(crate::specs::Writing::lines_text))]
fn push_nexts(latches: &[Latch], table: &[u32], into: &mut Vec<u8>) -> Result<(), AllocError>
    requires each { All (IsLatchOf table.now) latches.now }
    requires room { All (λ p. p < 2147483648) table.now }
    ensures { OnOk result (into.new.items ≡ into.old.items ++ lines_text next_text (map (latch_by (says table.now)) latches.now)) }
{
    for i in 0..latches.len() {
        push_next(latches[i], table, into)?;
    }
    Ok(())
}

fn push_next(latch: Latch, table: &[u32], into: &mut Vec<u8>) -> Result<(), AllocError>
    requires is { IsLatchOf table.now latch }
    requires room { All (λ p. p < 2147483648) table.now }
    ensures { OnOk result (into.new.items ≡ into.old.items ++ next_text (latch_by (says table.now) latch)) }
{
    let own = 2 * table[latch.var as usize] as u64;
    let next = renamed(table, latch.next) as u64;
    match latch.reset {
        Reset::Zero => push_line(next, &[], into),
        Reset::One => push_line(next, &[1], into),
        Reset::Free => push_line(next, &[own], into),
    }
}

#[tactic(auto, unfolding(crate::specs::Writing::lines_text))]
fn push_outputs(outputs: &[Lit], table: &[u32], into: &mut Vec<u8>) -> Result<(), AllocError>
    requires each { All (λ lit. lit / 2 < length table.now) outputs.now }
    requires room { All (λ p. p < 2147483648) table.now }
    ensures { OnOk result (into.new.items ≡ into.old.items ++ lines_text output_text (map (literal_by (says table.now)) outputs.now)) }
{
    for i in 0..outputs.len() {
        let output = renamed(table, outputs[i]) as u64;
        push_line(output, &[], into)?;
    }
    Ok(())
}

#[tactic(auto, unfolding(crate::specs::Writing::lines_text))]
fn push_gates(gates: &[Gate], table: &[u32], into: &mut Vec<u8>) -> Result<(), AllocError>
    requires each { All (IsGateOf table.now) gates.now }
    requires room { All (λ p. p < 2147483648) table.now }
    ensures { OnOk result (into.new.items ≡ into.old.items ++ lines_text deltas_text (map (gate_by (says table.now)) gates.now)) }
{
    for i in 0..gates.len() {
        push_gate(gates[i], table, into)?;
    }
    Ok(())
}

fn push_gate(gate: Gate, table: &[u32], into: &mut Vec<u8>) -> Result<(), AllocError>
    requires is { IsGateOf table.now gate }
    requires room { All (λ p. p < 2147483648) table.now }
    ensures { OnOk result (into.new.items ≡ into.old.items ++ deltas_text (gate_by (says table.now) gate)) }
{
    let own = 2 * table[gate.var as usize];
    let first = renamed(table, gate.left);
    let second = renamed(table, gate.right);
    let greater = first.max(second);
    write_delta(into, own - greater)?;
    write_delta(into, greater - first.min(second))
}
