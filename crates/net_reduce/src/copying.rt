//! What stays of a netlist, given to a builder with other literals.
ghost use Rattle.std.specs.Prelude.{◌≡◌, ◌≤◌, ◌<◌, ◌+◌, ◌/◌, ◌++◌, ◌∷◌, [], length, map, filter, cond, All, Some, OnOk, IfOk, if◌then◌else◌, slice_index};
ghost use Rattle.circ_model.specs.Meaning.{is_odd, negated};
ghost use Rattle.net_reduce.specs.Reduced.{latch_with, gate_with};
ghost use Rattle.net_reduce.specs.Table.{through, stays_by};

use aig_graph::{BuildFault, NetBuilder, reset_literal};
use circ_model::{Gate, Latch, Lit};

// What stands for a literal.
fn replaced(table: &[Lit], lit: Lit) -> Lit
    requires { lit / 2 < length table.now }
    ensures { result ≡ through table.now lit }
{
    let least = table[lit.var() as usize];
    if lit.complement() { least.not() } else { least }
}

// Whether a variable is what stands for it.
fn stays(table: &[Lit], var: u32) -> bool
    requires { var < length table.now }
    ensures { result ≡ stays_by table.now var }
{
    table[var as usize].var() == var
}

// All inputs.
pub(crate) fn push_inputs(inputs: &[u32], builder: &mut NetBuilder) -> Result<(), BuildFault>
    ensures { OnOk result (builder.new ≡ record builder.old { inputs = builder.old.inputs ++ inputs.now }) }
{
    for i in 0..inputs.len() {
        builder.input(inputs[i])?;
    }
    Ok(())
}

// A latch, where it stays.
fn push_latch(latch: Latch, table: &[Lit], builder: &mut NetBuilder) -> Result<(), BuildFault>
    requires var { latch.var < length table.now }
    requires next { latch.next / 2 < length table.now }
    requires few { length table.now ≤ 1000001 }
    ensures { OnOk result (builder.new ≡ record builder.old { latches = builder.old.latches ++ cond (stays_by table.now latch.var) (latch_with (through table.now) latch ∷ []) [] }) }
{
    if !stays(table, latch.var) {
        return Ok(());
    }
    let next = replaced(table, latch.next);
    builder.latch(latch.var, next, reset_literal(latch.var, latch.reset))
}

// The latches that stay.
pub(crate) fn push_latches(
    latches: &[Latch],
    table: &[Lit],
    builder: &mut NetBuilder,
) -> Result<(), BuildFault>
    requires vars { All (λ l. l.var < length table.now) latches.now }
    requires nexts { All (λ l. l.next / 2 < length table.now) latches.now }
    requires few { length table.now ≤ 1000001 }
    ensures { OnOk result (builder.new ≡ record builder.old { latches = builder.old.latches ++ map (latch_with (through table.now)) (filter (λ l. stays_by table.now l.var) latches.now) }) }
{
    for i in 0..latches.len() {
        push_latch(latches[i], table, builder)?;
    }
    Ok(())
}

// All outputs.
pub(crate) fn push_outputs(
    outputs: &[Lit],
    table: &[Lit],
    builder: &mut NetBuilder,
) -> Result<(), BuildFault>
    requires within { All (λ o. o / 2 < length table.now) outputs.now }
    requires room { length builder.old.outputs + length outputs.now ≤ 1000000 }
    ensures { OnOk result (builder.new ≡ record builder.old { outputs = builder.old.outputs ++ map (through table.now) outputs.now }) }
{
    for i in 0..outputs.len() {
        builder.output(replaced(table, outputs[i]))?;
    }
    Ok(())
}

// A gate, where it stays.
fn push_gate(gate: Gate, table: &[Lit], builder: &mut NetBuilder) -> Result<(), BuildFault>
    requires var { gate.var < length table.now }
    requires left { gate.left / 2 < length table.now }
    requires right { gate.right / 2 < length table.now }
    ensures { OnOk result (builder.new ≡ record builder.old { gates = builder.old.gates ++ cond (stays_by table.now gate.var) (gate_with (through table.now) gate ∷ []) [] }) }
{
    if !stays(table, gate.var) {
        return Ok(());
    }
    let left = replaced(table, gate.left);
    let right = replaced(table, gate.right);
    builder.gate(gate.var, left, right)
}

// The gates that stay.
pub(crate) fn push_gates(
    gates: &[Gate],
    table: &[Lit],
    builder: &mut NetBuilder,
) -> Result<(), BuildFault>
    requires vars { All (λ g. g.var < length table.now) gates.now }
    requires lefts { All (λ g. g.left / 2 < length table.now) gates.now }
    requires rights { All (λ g. g.right / 2 < length table.now) gates.now }
    ensures { OnOk result (builder.new ≡ record builder.old { gates = builder.old.gates ++ map (gate_with (through table.now)) (filter (λ g. stays_by table.now g.var) gates.now) }) }
{
    for i in 0..gates.len() {
        push_gate(gates[i], table, builder)?;
    }
    Ok(())
}
