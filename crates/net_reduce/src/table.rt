//! For each variable the literal that stands for it: the least of its class, with the relative phase.
ghost use Rattle.std.specs.Prelude.{◌≡◌, ◌<◌, ◌+◌, length, IfOk};
ghost use Rattle.circ_model.specs.Netlist.{variables, IsSound};
ghost use Rattle.net_reduce.specs.Table.{standing, IsTable};

use aig_graph::Netlist;
use circ_model::Lit;
use class_partition::Classes;
use std::alloc::{AllocError, Global};

// What stands for the variable at a place.
fn standing_at(net: &Netlist, classes: &Classes, place: u32) -> Lit
    requires sound { IsSound net.now }
    requires place { place < length (variables net.now) }
    requires places { length classes.now.least ≡ length (variables net.now) }
    ensures { result ≡ standing (variables net.now) classes.now place }
{
    let _places = classes.len();
    let least = classes.rep(place);
    Lit::of(
        net.variable_at(least),
        classes.phase(least) != classes.phase(place),
    )
}

// What stands for each variable.
pub(crate) fn table_of(
    alloc: Global,
    net: &Netlist,
    classes: &Classes,
) -> Result<Vec<Lit>, AllocError>
    requires sound { IsSound net.now }
    requires places { length classes.now.least ≡ length (variables net.now) }
    ensures { IfOk result (λ t. IsTable net.now classes.now (length (variables net.now)) t.items) }
{
    let size = net.max_var() as usize + 1;
    let mut table = vec![in alloc; Lit::of(0, false); size]?;
    for place in 0..classes.len() {
        table[net.variable_at(place) as usize] = standing_at(net, classes, place);
    }
    Ok(table)
}
