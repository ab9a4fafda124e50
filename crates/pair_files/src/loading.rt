//! From names to the pair of netlists that stand in their files, or why there is none.
ghost use Rattle.std.specs.Prelude.{◌≡◌, ◌≢◌, ◌≤◌, ◌<◌, ◌^◌, ℕ, List, [], ◌∷◌, IsTrue, IfOk, IfErr, length, IsErrOf};
ghost use Rattle.sec_base.specs.Faults.{Rose, appended};
ghost use Rattle.circ_model.specs.Meaning.{IsSoundPair};
ghost use Rattle.product_machine.specs.Faults.{Pairs};
ghost use Rattle.pair_files.specs.Files.{IsRead};
ghost use Rattle.pair_files.specs.Pairs.{ArePair, AreAccepted, AreApart, IsNoPair, IsLoadFailed, unread_as};
ghost use Rattle.pair_files.specs.Loads.{failed_load, failed_loads};
ghost use Rattle.pair_files.specs.declared.fault.Unread.TheVariants as Unread;

use crate::fault::{Side, Unpaired, Unread};
use aig_graph::Netlist;
use aiger_file::read_netlist;
use product_machine::{PairFault, Product};
use sec_base::Shelf;
use std::alloc::Global;

/// As many bytes as the file of a netlist may have.
pub const LONGEST_NETLIST: u64 = 67_108_864;

/// The netlist of a file.
pub fn load_netlist<S: Shelf>(alloc: Global, shelf: &mut S, name: &str) -> Result<Netlist, Unread>
    ensures read { IsTrue S.tells → IsRead (S.file shelf.old name.now) result }
    ensures failed { IsErrOf result Unread.Failed → Rose (S.load_faults shelf.old) (S.load_faults shelf.new) }
    ensures files { S.file shelf.new ≡ S.file shelf.old }
    ensures names { S.failed shelf.new ≡ appended (S.failed shelf.old) (failed_load result name.now) }
    ensures load_count { S.load_faults shelf.old ≤ S.load_faults shelf.new }
    ensures store_count { S.store_faults shelf.new ≡ S.store_faults shelf.old }
{
    let mut bytes = Vec::new(alloc);
    shelf.load(name, LONGEST_NETLIST, &mut bytes)?;
    Ok(read_netlist(alloc, bytes.as_slice())?)
}

/// There is no netlist of this file, and so no pair.
pub fn unread_as(side: Side, unread: Unread) -> Unpaired
    ensures { result ≡ unread_as side unread }
{
    match unread {
        Unread::Failed => Unpaired::LoadFailed(side),
        Unread::Refused(fault) => Unpaired::Refused(side, fault),
        Unread::Memory => Unpaired::Memory,
    }
}

// The two netlists on shared inputs, tied or not.
fn paired(alloc: Global, left: Netlist, right: Netlist, tied: bool) -> Result<Product, PairFault>
    ensures { Pairs tied left right result }
{
    if tied {
        Product::tied(alloc, left, right)
    } else {
        Product::new(alloc, left, right)
    }
}

// The pair of two netlists.
fn pair_of(alloc: Global, left: Netlist, right: Netlist, tied: bool) -> Result<Product, Unpaired>
    ensures pair { IfOk result (λ p. (p ≡ record { left = left; right = right; tied = tied }) × IsSoundPair p) }
    ensures apart { IfErr result (AreApart (record { left = left; right = right; tied = tied })) }
{
    let product = paired(alloc, left, right, tied)?;
    let _sound = product.cells();
    Ok(product)
}

/// The pair of two files, tied or not. The left one is loaded and read first.
pub fn load_pair<S: Shelf>(
    alloc: Global,
    shelf: &mut S,
    left: &str,
    right: &str,
    tied: bool,
) -> Result<Product, Unpaired>
    ensures pair { IsTrue S.tells → IfOk result (ArePair tied (S.file shelf.old left.now) (S.file shelf.old right.now)) }
    ensures none { IsTrue S.tells → IfErr result (IsNoPair tied (S.file shelf.old left.now) (S.file shelf.old right.now)) }
    ensures failed { IfErr result (λ u. IsLoadFailed u → Rose (S.load_faults shelf.old) (S.load_faults shelf.new)) }
    ensures files { S.file shelf.new ≡ S.file shelf.old }
    ensures names { S.failed shelf.new ≡ appended (S.failed shelf.old) (failed_loads left.now right.now result) }
    ensures load_count { S.load_faults shelf.old ≤ S.load_faults shelf.new }
    ensures store_count { S.store_faults shelf.new ≡ S.store_faults shelf.old }
{
    let first = match load_netlist(alloc, shelf, left) {
        Ok(net) => net,
        Err(unread) => return Err(unread_as(Side::Left, unread)),
    };
    match load_netlist(alloc, shelf, right) {
        Ok(second) => pair_of(alloc, first, second, tied),
        Err(unread) => Err(unread_as(Side::Right, unread)),
    }
}
