//! The products of a list's pairs. All files are loaded and read in the list's order, each pair's left one first.
ghost use Rattle.std.specs.Prelude.{◌≡◌, ◌≢◌, ◌≤◌, ◌<◌, ◌+◌, length, false, IsTrue, IfOk, IfErr};
ghost use Rattle.sec_base.specs.Faults.{Rose, appended};
ghost use Rattle.pair_files.specs.Pairs.{IsNoPair, IsLoadFailed};
ghost use Rattle.run_texts.specs.Told.{unpaired_status};
ghost use Rattle.batch_run.specs.Loads.{AreLoaded, AreWithinProducts, Extends, IsLoaded, IsStopped, IsWithinProducts, failed_one, failed_stop};

use pair_files::{Unpaired, load_pair};
use pair_list::Names;
use product_machine::Product;
use run_texts::unpaired_status;
use sec_base::Shelf;
use std::alloc::Global;

/// What a pair of files was found to be.
#[derive(Clone, Copy)]
pub(crate) enum Loaded {
    /// The product at this place of the products.
    Product(usize),
    /// None, as a check tells with status 4.
    Refused(Unpaired),
}

/// The products, and what each pair of the list was found to be.
#[derive(Drop)]
pub(crate) struct Pairs {
    pub(crate) products: Vec<Product>,
    pub(crate) loaded: Vec<Loaded>,
}

/// Where loading stopped, and why.
#[derive(Clone, Copy)]
pub(crate) struct Stop {
    pub(crate) at: usize,
    pub(crate) why: Unpaired,
}

// Loads one pair of the list.
fn load_one<S: Shelf>(
    alloc: Global,
    shelf: &mut S,
    names: &Names,
    products: &mut Vec<Product>,
) -> Result<Loaded, Unpaired>
    ensures loaded { IsTrue S.tells → IfOk result (IsLoaded (S.file shelf.old) products.new.items names.now) }
    ensures extends { Extends products.old.items products.new.items }
    ensures within { IfOk result (IsWithinProducts products.new.items) }
    ensures few { length products.new.items ≤ length products.old.items + 1 }
    ensures stopped { IsTrue S.tells → IfErr result (IsNoPair false (S.file shelf.old names.now.0) (S.file shelf.old names.now.1)) }
    ensures high { IfErr result (λ u. unpaired_status u ≢ 4) }
    ensures failed { IfErr result (λ u. IsLoadFailed u → Rose (S.load_faults shelf.old) (S.load_faults shelf.new)) }
    ensures files { S.file shelf.new ≡ S.file shelf.old }
    ensures names { S.failed shelf.new ≡ appended (S.failed shelf.old) (failed_one names.now result) }
    ensures load_count { S.load_faults shelf.old ≤ S.load_faults shelf.new }
    ensures store_count { S.store_faults shelf.new ≡ S.store_faults shelf.old }
{
    match load_pair(alloc, shelf, names.left(), names.right(), false) {
        Ok(product) => {
            let at = products.len();
            products.push(product)?;
            Ok(Loaded::Product(at))
        }
        Err(unpaired) => {
            if unpaired_status(unpaired) == 4 {
                Ok(Loaded::Refused(unpaired))
            } else {
                Err(unpaired)
            }
        }
    }
}

/// Loads all pairs of the list, up to the first that can't be loaded.
pub(crate) fn load_all<S: Shelf>(
    alloc: Global,
    shelf: &mut S,
    list: &[Names],
) -> Result<Pairs, Stop>
    ensures loaded { IsTrue S.tells → IfOk result (λ p. AreLoaded (S.file shelf.old) p.products.items list.now p.loaded.items) }
    ensures within { IfOk result (λ p. AreWithinProducts p.products.items p.loaded.items) }
    ensures all { IfOk result (λ p. length p.loaded.items ≡ length list.now) }
    ensures few { IfOk result (λ p. length p.products.items ≤ length list.now) }
    ensures place { IfErr result (λ s. s.at < length list.now) }
    ensures stopped { IsTrue S.tells → IfErr result (IsStopped (S.file shelf.old) list.now) }
    ensures high { IfErr result (λ s. unpaired_status s.why ≢ 4) }
    ensures failed { IfErr result (λ s. IsLoadFailed s.why → Rose (S.load_faults shelf.old) (S.load_faults shelf.new)) }
    ensures files { S.file shelf.new ≡ S.file shelf.old }
    ensures names { S.failed shelf.new ≡ appended (S.failed shelf.old) (failed_stop list.now result) }
    ensures load_count { S.load_faults shelf.old ≤ S.load_faults shelf.new }
    ensures store_count { S.store_faults shelf.new ≡ S.store_faults shelf.old }
{
    let mut products = Vec::new(alloc);
    let mut loaded = Vec::new(alloc);
    for at in 0..list.len() {
        match load_one(alloc, shelf, &list[at], &mut products) {
            Ok(one) => {
                let Ok(()) = loaded.push(one) else {
                    return Err(Stop {
                        at,
                        why: Unpaired::Memory,
                    });
                };
            }
            Err(why) => return Err(Stop { at, why }),
        }
    }
    Ok(Pairs { products, loaded })
}
