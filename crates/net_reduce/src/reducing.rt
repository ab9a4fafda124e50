//! Replacing each signal by the least of its class.
ghost use Rattle.std.specs.Prelude.{◌≡◌, ◌+◌, length, OnOk, IfOk};
ghost use Rattle.circ_model.specs.Netlist.{IsSound};
ghost use Rattle.aig_graph.specs.Finish.{IsFinished};
ghost use Rattle.circ_model.specs.Meaning.{IsSoundPair, places_of};
ghost use Rattle.class_partition.specs.Classes.{AreOfGreatest};
ghost use Rattle.net_reduce.specs.Stub.{stub_of};
ghost use Rattle.net_reduce.specs.Reduced.{netlist_with, IsReduced, FreeLatchesStay, tied_pair, OutputsAgree};
ghost use Rattle.net_reduce.specs.Table.{through, stays_by};

use crate::copying::{push_gates, push_inputs, push_latches, push_outputs};
use crate::table::table_of;
use aig_graph::{BuildFault, NetBuilder, Netlist};
use circ_model::Lit;
use class_partition::Classes;
use product_machine::Product;
use std::alloc::{AllocError, Global};

// The netlist by what stands for its variables.
fn rebuilt(alloc: Global, net: &Netlist, table: &[Lit]) -> Result<Netlist, BuildFault>
    requires sound { IsSound net.now }
    requires size { length table.now ≡ net.now.max_var + 1 }
    ensures { IfOk result (IsFinished (netlist_with (stays_by table.now) (through table.now) net.now)) }
{
    let mut builder = NetBuilder::new(alloc, net.max_var())?;
    push_inputs(net.inputs(), &mut builder)?;
    push_latches(net.latches(), table, &mut builder)?;
    push_outputs(net.outputs(), table, &mut builder)?;
    push_gates(net.gates(), table, &mut builder)?;
    let reduced = builder.finish(alloc)?;
    Ok(reduced)
}

// The reduced netlist: its builder has no cause to refuse but want of memory.
fn replacing(alloc: Global, net: &Netlist, table: &[Lit]) -> Result<Netlist, AllocError>
    requires sound { IsSound net.now }
    requires size { length table.now ≡ net.now.max_var + 1 }
    ensures { IfOk result (IsFinished (netlist_with (stays_by table.now) (through table.now) net.now)) }
{
    rebuilt(alloc, net, table).map_err(|_| AllocError)
}

/// The left netlist of a pair with its stub, reduced by the classes of the greatest correspondence: latches and gates that are
/// the least of their class stay under their variables, each literal becomes its class's least with the relative phase, and
/// inputs, outputs and the greatest variable stay. Gates are put into the order of their new levels.
pub fn reduce(
    alloc: Global,
    product: &Product,
    k: u32,
    classes: &Classes,
) -> Result<Netlist, AllocError>
    requires stub { product.now.right ≡ stub_of product.now.left }
    requires places { length classes.now.least ≡ places_of product.now }
    requires greatest { AreOfGreatest product.now k classes.now }
    ensures reduced { IfOk result (IsReduced product.now.left classes.now) }
    ensures free { OnOk result (FreeLatchesStay product.now.left classes.now) }
    ensures pair { IfOk result (λ r. IsSoundPair (tied_pair product.now.left r)) }
    ensures agree { IfOk result (OutputsAgree product.now.left) }
{
    let _cells = product.cells();
    let _places = classes.len();
    let net = product.left();
    let table = table_of(alloc, net, classes)?;
    replacing(alloc, net, table.as_slice())
}
