//! The netlists of worked pairs, as AIGER texts.
use aiger_file::read_netlist;
use product_machine::{PairFault, Product};
use std::alloc::Global;

// No signals but the constant, with no output and with one.
pub(crate) const NOTHING: &str = "aag 0 0 0 0 0\n";

pub(crate) const LOW: &str = "aag 0 0 0 1 0\n0\n";

// A latch that toggles from 0 or from 1, and is shown.
pub(crate) const TOGGLE: &str = "aag 1 0 1 1 0\n2 3\n2\n";

pub(crate) const TOGGLE_FROM_ONE: &str = "aag 1 0 1 1 0\n2 3 1\n2\n";

// A ring of three latches with a single one, and the product of two of them.
pub(crate) const RING: &str = "aag 4 0 3 1 1\n2 6 1\n4 2\n6 4\n8\n8 2 4\n";

// The product of two inputs, each delayed by a latch, and delayed by one latch.
pub(crate) const PRODUCT_OF_LATCHES: &str = "aag 5 2 2 1 1\n2\n4\n6 2\n8 4\n10\n10 6 8\n";

pub(crate) const LATCH_OF_PRODUCT: &str = "aag 4 2 1 1 1\n2\n4\n6 8\n6\n8 2 4\n";

// A latch that keeps the input, plainly, and as the exclusive or of the input and two other latches, of which one keeps the
// input and one is always set.
pub(crate) const DELAY: &str = "aag 2 1 1 1 0\n2\n4 2\n4\n";

pub(crate) const LATE_DELAY: &str =
    "aag 10 1 3 1 6\n2\n4 2\n6 21\n8 1\n6\n10 4 9\n12 5 8\n14 11 13\n16 2 14\n18 3 15\n20 17 19\n";

// A latch that stays at 0, beside an input.
pub(crate) const STUCK: &str = "aag 2 1 1 1 0\n2\n4 4\n4\n";

// An input and a latch that stays at 0, or keeps the input; neither is shown.
pub(crate) const HIDDEN_STUCK: &str = "aag 2 1 1 0 0\n2\n4 0\n";

pub(crate) const HIDDEN_DELAY: &str = "aag 2 1 1 0 0\n2\n4 2\n";

// The product of twenty inputs, and twenty inputs beside the constant: they differ on one row of a million.
pub(crate) const RARE: &str =
    "aag 39 20 0 1 19\n2\n4\n6\n8\n10\n12\n14\n16\n18\n20\n22\n24\n26\n28\n30\n32\n34\n36\n38\n40\n\
    78\n42 2 4\n44 42 6\n46 44 8\n48 46 10\n50 48 12\n52 50 14\n54 52 16\n56 54 18\n58 56 20\n\
    60 58 22\n62 60 24\n64 62 26\n66 64 28\n68 66 30\n70 68 32\n72 70 34\n74 72 36\n76 74 38\n\
    78 76 40\n";

pub(crate) const NEVER: &str =
    "aag 20 20 0 1 0\n2\n4\n6\n8\n10\n12\n14\n16\n18\n20\n22\n24\n26\n28\n30\n32\n34\n36\n38\n40\n0\n";

// Two inputs, their product twice, and the product of their complements; and their product once, and its complement.
pub(crate) const PRODUCT_TWICE: &str = "aag 5 2 0 2 3\n2\n4\n6\n8\n6 2 4\n8 4 2\n10 3 5\n";

pub(crate) const PRODUCT_AND_COMPLEMENT: &str = "aag 4 2 0 2 2\n2\n4\n6\n9\n6 4 2\n8 7 1\n";

// The product of an input and its complement, and the input.
pub(crate) const CONTRADICTION: &str = "aag 2 1 0 1 1\n2\n4\n4 2 3\n";

pub(crate) const WIRE: &str = "aag 1 1 0 1 0\n2\n2\n";

pub(crate) fn pair_of(alloc: Global, left: &str, right: &str) -> Result<Product, PairFault> {
    match (
        read_netlist(alloc, left.as_bytes()),
        read_netlist(alloc, right.as_bytes()),
    ) {
        (Ok(left), Ok(right)) => Product::new(alloc, left, right),
        _ => Err(PairFault::Memory),
    }
}

// Whether the pair of two texts is as it is asked for. Tests lend pairs so: none owns one where it may end.
pub(crate) fn pair_is<F: FnOnce(Global, &Product) -> bool>(
    alloc: Global,
    left: &str,
    right: &str,
    is_so: F,
) -> bool
    requires { F.IsAlwaysCallable is_so }
{
    match pair_of(alloc, left, right) {
        Ok(product) => is_so(alloc, &product),
        Err(_) => false,
    }
}
