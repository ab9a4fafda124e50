//! Pairs of files' netlists, and what their netlists are reduced to.
ghost use Rattle.std.specs.Prelude.{◌≡◌, ◌<◌, ◌≤◌, IfOk};
ghost use Rattle.net_reduce.specs.Stub.{stub_of};

use aig_graph::Netlist;
use aiger_file::read_netlist;
use circ_model::Lit;
use class_partition::Classes;
use net_reduce::{reduce, stub};
use product_machine::Product;
use std::alloc::{AllocError, Global};
use verdict_stamp::greatest_classes;

// The netlist of a file.
pub(crate) fn netlist_of(alloc: Global, file: &[u8]) -> Result<Netlist, AllocError> {
    match read_netlist(alloc, file) {
        Ok(net) => Ok(net),
        Err(_) => Err(AllocError),
    }
}

// A file's netlist with its stub.
fn beside_stub(alloc: Global, file: &[u8]) -> Result<Product, AllocError>
    ensures { IfOk result (λ p. p.right ≡ stub_of p.left) }
{
    let net = netlist_of(alloc, file)?;
    let other = stub(alloc, &net)?;
    match Product::new(alloc, net, other) {
        Ok(product) => Ok(product),
        Err(_) => Err(AllocError),
    }
}

// What the left netlist is reduced to, and how many classes the pair has.
fn reduced_left(alloc: Global, product: &Product, k: u32) -> Result<(Netlist, u32), AllocError>
    requires stub { product.now.right ≡ stub_of product.now.left }
    requires some { 0 < k }
    requires few { k ≤ 16 }
{
    let version = greatest_classes(alloc, product, k)?;
    let net = reduce(alloc, product, k, version.classes())?;
    Ok((net, version.classes().count()))
}

// A reduced netlist, with the numbers of signals and classes of the pair with the stub.
#[derive(Drop)]
pub(crate) struct Reduction {
    pub net: Netlist,
    pub signals: u32,
    pub classes: u32,
}

// What a file's netlist is reduced to.
pub(crate) fn reduced(alloc: Global, file: &[u8], k: u32) -> Result<Reduction, AllocError>
    requires some { 0 < k }
    requires few { k ≤ 16 }
{
    let product = beside_stub(alloc, file)?;
    let (net, classes) = reduced_left(alloc, &product, k)?;
    Ok(Reduction {
        net,
        signals: product.len(),
        classes,
    })
}

// Whether the classes pair two literals.
fn are_paired(classes: &Classes, left: Lit, right: Lit) -> bool {
    let places = classes.len();
    left.var() < places && right.var() < places && classes.paired(left, right)
}

// Whether the classes of a pair, its free latches tied, pair all outputs.
fn pairs_all(alloc: Global, product: &Product, k: u32) -> Result<bool, AllocError>
    requires some { 0 < k }
    requires few { k ≤ 16 }
{
    let version = greatest_classes(alloc, product, k)?;
    for j in 0..product.outputs() {
        let (left, right) = product.output(j);
        if !are_paired(version.classes(), left, right) {
            return Ok(false);
        }
    }
    Ok(true)
}

// Whether two files' netlists, their free latches tied, have outputs that the classes pair.
pub(crate) fn are_equivalent(
    alloc: Global,
    left: &[u8],
    right: &[u8],
    k: u32,
) -> Result<bool, AllocError>
    requires some { 0 < k }
    requires few { k ≤ 16 }
{
    let left = netlist_of(alloc, left)?;
    let right = netlist_of(alloc, right)?;
    match Product::tied(alloc, left, right) {
        Ok(product) => pairs_all(alloc, &product, k),
        Err(_) => Ok(false),
    }
}
