//! Whether two pairs of netlists are equal.
ghost use Rattle.std.specs.Prelude.{◌≡◌, ◌<◌, ◌+◌, ℕ, List, Bool, true, false, IsTrue, ◌↔◌, length};

use crate::product::Product;
use aig_graph::Netlist;
use circ_model::{Gate, Latch, Lit, Reset};

impl Product {
    /// Whether both netlists are equal, section by section, and both pairs are tied or neither.
    pub fn same(&self, other: &Product) -> bool
        ensures { IsTrue result ↔ (self.now ≡ other.now) }
    {
        self.is_tied() == other.is_tied()
            && same_netlist(self.left(), other.left())
            && same_netlist(self.right(), other.right())
    }
}

fn same_netlist(a: &Netlist, b: &Netlist) -> bool
    ensures { IsTrue result ↔ (a.now ≡ b.now) }
{
    a.max_var() == b.max_var()
        && same_variables(a.inputs(), b.inputs())
        && same_latches(a.latches(), b.latches())
        && same_literals(a.outputs(), b.outputs())
        && same_gates(a.gates(), b.gates())
}

fn same_variables(a: &[u32], b: &[u32]) -> bool
    ensures { IsTrue result ↔ (a.now ≡ b.now) }
{
    if a.len() != b.len() {
        return false;
    }
    for i in 0..a.len() {
        if a[i] != b[i] {
            return false;
        }
    }
    true
}

fn same_literals(a: &[Lit], b: &[Lit]) -> bool
    ensures { IsTrue result ↔ (a.now ≡ b.now) }
{
    if a.len() != b.len() {
        return false;
    }
    for i in 0..a.len() {
        if a[i] != b[i] {
            return false;
        }
    }
    true
}

fn same_latches(a: &[Latch], b: &[Latch]) -> bool
    ensures { IsTrue result ↔ (a.now ≡ b.now) }
{
    if a.len() != b.len() {
        return false;
    }
    for i in 0..a.len() {
        if !same_latch(&a[i], &b[i]) {
            return false;
        }
    }
    true
}

fn same_gates(a: &[Gate], b: &[Gate]) -> bool
    ensures { IsTrue result ↔ (a.now ≡ b.now) }
{
    if a.len() != b.len() {
        return false;
    }
    for i in 0..a.len() {
        if !same_gate(&a[i], &b[i]) {
            return false;
        }
    }
    true
}

fn same_latch(a: &Latch, b: &Latch) -> bool
    ensures { IsTrue result ↔ (a.now ≡ b.now) }
{
    a.var == b.var && a.next == b.next && same_reset(a.reset, b.reset)
}

fn same_gate(a: &Gate, b: &Gate) -> bool
    ensures { IsTrue result ↔ (a.now ≡ b.now) }
{
    a.var == b.var && a.left == b.left && a.right == b.right
}

fn same_reset(a: Reset, b: Reset) -> bool
    ensures { IsTrue result ↔ (a ≡ b) }
{
    match (a, b) {
        (Reset::Zero, Reset::Zero) => true,
        (Reset::One, Reset::One) => true,
        (Reset::Free, Reset::Free) => true,
        _ => false,
    }
}
