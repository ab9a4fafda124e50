//! The right netlist of a demo pair: a copy of the left one, in which the chosen latches are complemented, and with them every
//! literal of theirs.
ghost use Rattle.std.specs.Prelude.{◌≡◌, ◌≤◌, ◌<◌, ◌+◌, ◌++◌, ◌∷◌, [], length, map, All, Some, OnOk, IfOk};
ghost use Rattle.aig_graph.specs.Finish.{IsFinished};
ghost use Rattle.demo_pair.specs.Demo.{is_chosen, negated_if, turned, reset_if, copied_latch, copied_gate, copied};

use aig_graph::{BuildFault, NetBuilder, Netlist, reset_literal};
use circ_model::{Gate, Latch, Lit, Reset};
use std::alloc::Global;

// Whether the variable is that of a chosen latch.
fn is_chosen(n: u32, chosen: &[bool], var: u32) -> bool
    requires { n ≤ 100000 }
    ensures { result ≡ is_chosen n chosen.now var }
{
    if var <= n {
        return false;
    }
    let at = (var - (n + 1)) as usize;
    at < chosen.len() && chosen[at]
}

fn negated_if(negate: bool, lit: Lit) -> Lit
    ensures { result ≡ negated_if negate lit }
{
    if negate { lit.not() } else { lit }
}

fn turned(n: u32, chosen: &[bool], lit: Lit) -> Lit
    requires { n ≤ 100000 }
    ensures { result ≡ turned n chosen.now lit }
{
    negated_if(is_chosen(n, chosen, lit.var()), lit)
}

fn reset_if(other: bool, reset: Reset) -> Reset
    ensures { result ≡ reset_if other reset }
{
    if !other {
        return reset;
    }
    match reset {
        Reset::Zero => Reset::One,
        Reset::One => Reset::Zero,
        Reset::Free => Reset::Free,
    }
}

fn copy_inputs(inputs: &[u32], builder: &mut NetBuilder) -> Result<(), BuildFault>
    ensures { OnOk result (builder.new ≡ record builder.old { inputs = builder.old.inputs ++ inputs.now }) }
{
    for i in 0..inputs.len() {
        builder.input(inputs[i])?;
    }
    Ok(())
}

fn copy_latch(
    n: u32,
    chosen: &[bool],
    latch: Latch,
    builder: &mut NetBuilder,
) -> Result<(), BuildFault>
    requires size { n ≤ 100000 }
    requires few { latch.var ≤ 1000000 }
    ensures { OnOk result (builder.new ≡ record builder.old { latches = builder.old.latches ++ copied_latch n chosen.now latch ∷ [] }) }
{
    let own = is_chosen(n, chosen, latch.var);
    let next = negated_if(own, turned(n, chosen, latch.next));
    let reset = reset_literal(latch.var, reset_if(own, latch.reset));
    builder.latch(latch.var, next, reset)
}

fn copy_latches(
    n: u32,
    chosen: &[bool],
    latches: &[Latch],
    builder: &mut NetBuilder,
) -> Result<(), BuildFault>
    requires size { n ≤ 100000 }
    requires few { All (λ l. l.var ≤ 1000000) latches.now }
    ensures { OnOk result (builder.new ≡ record builder.old { latches = builder.old.latches ++ map (copied_latch n chosen.now) latches.now }) }
{
    for i in 0..latches.len() {
        copy_latch(n, chosen, latches[i], builder)?;
    }
    Ok(())
}

fn copy_outputs(
    n: u32,
    chosen: &[bool],
    outputs: &[Lit],
    builder: &mut NetBuilder,
) -> Result<(), BuildFault>
    requires size { n ≤ 100000 }
    requires room { length builder.old.outputs + length outputs.now ≤ 1000000 }
    ensures { OnOk result (builder.new ≡ record builder.old { outputs = builder.old.outputs ++ map (turned n chosen.now) outputs.now }) }
{
    for i in 0..outputs.len() {
        builder.output(turned(n, chosen, outputs[i]))?;
    }
    Ok(())
}

fn copy_gates(
    n: u32,
    chosen: &[bool],
    gates: &[Gate],
    builder: &mut NetBuilder,
) -> Result<(), BuildFault>
    requires size { n ≤ 100000 }
    ensures { OnOk result (builder.new ≡ record builder.old { gates = builder.old.gates ++ map (copied_gate n chosen.now) gates.now }) }
{
    for i in 0..gates.len() {
        let left = turned(n, chosen, gates[i].left);
        let right = turned(n, chosen, gates[i].right);
        builder.gate(gates[i].var, left, right)?;
    }
    Ok(())
}

// The copy of a netlist in which the chosen latches are complemented.
pub(crate) fn copy_of(
    alloc: Global,
    n: u32,
    chosen: &[bool],
    left: &Netlist,
) -> Result<Netlist, BuildFault>
    requires size { n ≤ 100000 }
    ensures { IfOk result (λ net. IsFinished (copied n chosen.now left.now) net) }
{
    let mut builder = NetBuilder::new(alloc, left.max_var())?;
    copy_inputs(left.inputs(), &mut builder)?;
    copy_latches(n, chosen, left.latches(), &mut builder)?;
    copy_outputs(n, chosen, left.outputs(), &mut builder)?;
    copy_gates(n, chosen, left.gates(), &mut builder)?;
    let copy = builder.finish(alloc)?;
    Ok(copy)
}
