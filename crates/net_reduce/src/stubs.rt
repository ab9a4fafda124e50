//! The other side of a pair that is to have the signals of one netlist alone.
ghost use Rattle.std.specs.Prelude.{◌≡◌, ◌≤◌, ◌++◌, ◌∷◌, [], length, replicate, OnOk, IfOk};
ghost use Rattle.std.specs.List.{range_with_len};
ghost use Rattle.net_reduce.specs.Stub.{stub_of};

use aig_graph::{BuildFault, NetBuilder, Netlist};
use circ_model::Lit;
use std::alloc::{AllocError, Global};

// An input.
fn push_input(var: u32, builder: &mut NetBuilder) -> Result<(), BuildFault>
    ensures { OnOk result (builder.new ≡ record builder.old { inputs = builder.old.inputs ++ var ∷ [] }) }
{
    builder.input(var)
}

// The inputs are the variables from 1 up.
fn number_inputs(count: u32, builder: &mut NetBuilder) -> Result<(), BuildFault>
    requires few { count ≤ 1000000 }
    ensures { OnOk result (builder.new ≡ record builder.old { inputs = builder.old.inputs ++ range_with_len 1 count }) }
{
    for i in 0..count {
        push_input(1 + i, builder)?;
    }
    Ok(())
}

// All outputs are 0.
fn clear_outputs(count: u32, builder: &mut NetBuilder) -> Result<(), BuildFault>
    requires none { builder.old.outputs ≡ [] }
    requires few { count ≤ 1000000 }
    ensures { OnOk result (builder.new ≡ record builder.old { outputs = replicate count 0 }) }
{
    for _ in 0..count {
        builder.output(Lit::of(0, false))?;
    }
    Ok(())
}

// That netlist, where nothing is wanting.
fn stub_like(alloc: Global, net: &Netlist) -> Result<Netlist, BuildFault>
    ensures { IfOk result (λ s. s ≡ stub_of net.now) }
{
    let inputs = net.inputs().len() as u32;
    let outputs = net.outputs().len() as u32;
    let mut builder = NetBuilder::new(alloc, inputs)?;
    number_inputs(inputs, &mut builder)?;
    clear_outputs(outputs, &mut builder)?;
    let stub = builder.finish(alloc)?;
    Ok(stub)
}

/// The stub of a netlist: as many inputs, which are the variables from 1 up, and as many outputs, which are all 0. It has no
/// latches and no gates, so that a pair with it costs what the netlist alone costs.
pub fn stub(alloc: Global, net: &Netlist) -> Result<Netlist, AllocError>
    ensures { IfOk result (λ s. s ≡ stub_of net.now) }
{
    stub_like(alloc, net).map_err(|_| AllocError)
}
