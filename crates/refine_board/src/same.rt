//! Whether two versions are of one pair of netlists, one k and equal classes. What tells most is compared first.
ghost use Rattle.std.specs.Prelude.{◌≡◌, ◌↔◌, IsTrue};
ghost use Rattle.refine_board.specs.Running.{IsUnder};

use class_partition::Classes;
use product_machine::Product;
use verdict_stamp::Version;

// Whether two partitions are equal.
pub(crate) fn same_classes(a: &Classes, b: &Classes) -> bool
    ensures { IsTrue result ↔ (a.now ≡ b.now) }
{
    let n = a.len();
    if n != b.len() {
        return false;
    }
    for p in 0..n {
        if a.rep(p) != b.rep(p) {
            return false;
        }
        if a.phase(p) != b.phase(p) {
            return false;
        }
    }
    true
}

// Whether a version is of this pair of netlists and this k, with these classes.
pub(crate) fn is_under(version: &Version<'_>, product: &Product, k: u32, classes: &Classes) -> bool
    ensures { IsTrue result ↔ IsUnder product.now k classes.now version.now }
{
    if version.k() != k {
        return false;
    }
    if version.classes().count() != classes.count() {
        return false;
    }
    if !same_classes(version.classes(), classes) {
        return false;
    }
    version.product().same(product)
}
