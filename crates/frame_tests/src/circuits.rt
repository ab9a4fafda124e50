//! The netlists of worked pairs, as AIGER texts.
ghost use Rattle.std.specs.Prelude.{◌≤◌};

use aig_graph::{BuildFault, NetBuilder, Netlist};
use aiger_file::read_netlist;
use circ_model::Lit;
use product_machine::{PairFault, Product};
use std::alloc::Global;

// The constant false, shown once and twice.
pub(crate) const LOW: &str = "aag 0 0 0 1 0\n0\n";

pub(crate) const LOW_TWICE: &str = "aag 0 0 0 2 0\n0\n0\n";

// An input that isn't shown.
pub(crate) const SILENT: &str = "aag 1 1 0 1 0\n2\n0\n";

// A latch that toggles and is shown: from 0, from 1 and from either.
pub(crate) const TOGGLE: &str = "aag 1 0 1 1 0\n2 3\n2\n";

pub(crate) const TOGGLE_FROM_ONE: &str = "aag 1 0 1 1 0\n2 3 1\n2\n";

pub(crate) const TOGGLE_FROM_EITHER: &str = "aag 1 0 1 1 0\n2 3 2\n2\n";

// A latch that keeps the bit that it starts with, which is free, and is shown.
pub(crate) const KEPT: &str = "aag 1 0 1 1 0\n2 2 2\n2\n";

// Two latches that keep the bits that they start with, and the first variable shown: the first latch starts at 0 and the second is
// free, both are free, and both are free the other way round.
pub(crate) const LOW_AND_KEPT: &str = "aag 2 0 2 1 0\n2 2\n4 4 4\n2\n";

pub(crate) const BOTH_KEPT: &str = "aag 2 0 2 1 0\n2 2 2\n4 4 4\n2\n";

pub(crate) const BOTH_KEPT_CROSSED: &str = "aag 2 0 2 1 0\n4 4 4\n2 2 2\n2\n";

// A latch that is true from frame 1 on, and one that follows it: the second is shown first.
pub(crate) const DELAYS: &str = "aag 2 0 2 2 0\n2 1\n4 2\n4\n2\n";

// The product of two inputs, each delayed by a latch, and delayed by one latch.
pub(crate) const PRODUCT_OF_LATCHES: &str = "aag 5 2 2 1 1\n2\n4\n6 2\n8 4\n10\n10 6 8\n";

pub(crate) const LATCH_OF_PRODUCT: &str = "aag 4 2 1 1 1\n2\n4\n6 8\n6\n8 2 4\n";

pub(crate) fn pair_of(alloc: Global, left: &str, right: &str) -> Result<Product, PairFault> {
    match (
        read_netlist(alloc, left.as_bytes()),
        read_netlist(alloc, right.as_bytes()),
    ) {
        (Ok(left), Ok(right)) => Product::new(alloc, left, right),
        _ => Err(PairFault::Memory),
    }
}

fn tied_pair_of(alloc: Global, left: &str, right: &str) -> Result<Product, PairFault> {
    match (
        read_netlist(alloc, left.as_bytes()),
        read_netlist(alloc, right.as_bytes()),
    ) {
        (Ok(left), Ok(right)) => Product::tied(alloc, left, right),
        _ => Err(PairFault::Memory),
    }
}

// Whether the pair of two texts is as it is asked for. Tests lend pairs so: none owns one where it may end.
pub(crate) fn pair_is<F: FnOnce(Global, &Product) -> bool>(
    alloc: Global,
    left: &str,
    right: &str,
    is_so: F,
) -> bool
    requires { F.IsAlwaysCallable is_so }
{
    match pair_of(alloc, left, right) {
        Ok(product) => is_so(alloc, &product),
        Err(_) => false,
    }
}

pub(crate) fn tied_pair_is<F: FnOnce(Global, &Product) -> bool>(
    alloc: Global,
    left: &str,
    right: &str,
    is_so: F,
) -> bool
    requires { F.IsAlwaysCallable is_so }
{
    match tied_pair_of(alloc, left, right) {
        Ok(product) => is_so(alloc, &product),
        Err(_) => false,
    }
}

// An input that is shown from a frame on: a chain of so many latches tells when.
fn shown_from(alloc: Global, frame: u32) -> Result<Netlist, BuildFault>
    requires { frame ≤ 60 }
{
    let mut net = NetBuilder::new(alloc, frame + 2)?;
    net.output(Lit::of(frame + 2, false))?;
    net.input(1)?;
    let mut last = Lit::of(0, true);
    for i in 0..frame {
        net.latch(i + 2, last, Lit::of(0, false))?;
        last = Lit::of(i + 2, false);
    }
    net.gate(frame + 2, last, Lit::of(1, false))?;
    net.finish(alloc)
}

// The pair of that and an input that isn't shown.
pub(crate) fn late_pair(alloc: Global, frame: u32) -> Result<Product, PairFault>
    requires { frame ≤ 60 }
{
    match (
        shown_from(alloc, frame),
        read_netlist(alloc, SILENT.as_bytes()),
    ) {
        (Ok(left), Ok(right)) => Product::new(alloc, left, right),
        _ => Err(PairFault::Memory),
    }
}
