//! Structural hashing: a gate whose canonical operands are those of an earlier node is that node.
//!
//! The table only hints at a node to compare with: what is concluded comes from the comparison of operands. A gate that is
//! merged into another stays in it.
ghost use Rattle.std.specs.Prelude.{◌≡◌, ◌<◌, ◌≤◌, ◌/◌, ◌^◌, ℕ, Bool, IsTrue, IfSome, length};
ghost use Rattle.circ_model.specs.Meaning.{literal_value};
ghost use Rattle.and_graph.specs.Graphs.{Agrees, AreSound, node_at, product_of};

use crate::canonical::canonical_of;
use crate::node::Node;
use circ_model::Lit;
use std::alloc::{AllocError, Global};

// What a slot without a node holds.
const FREE: u32 = u32::MAX;

// Two literals in the order of their nodes.
fn ordered(left: Lit, right: Lit) -> (Lit, Lit)
    ensures value { (v : ℕ → Bool) → product_of v result.0 result.1 ≡ product_of v left right }
    ensures lower { (n : ℕ) → left / 2 < n → right / 2 < n → (result.0 / 2 < n) × (result.1 / 2 < n) }
{
    if left.var() <= right.var() {
        (left, right)
    } else {
        (right, left)
    }
}

// The canonical literals of both operands, in the order of their nodes.
pub(crate) fn canonical_operands(nodes: &[Node], left: Lit, right: Lit) -> (Lit, Lit)
    requires left { left / 2 < length nodes.now }
    requires right { right / 2 < length nodes.now }
    requires sound { AreSound nodes.now }
    requires few { length nodes.now < 2 ^ 31 }
    ensures lower { (result.0 / 2 < length nodes.now) × (result.1 / 2 < length nodes.now) }
    ensures value { (v : ℕ → Bool) → Agrees nodes.now v → product_of v result.0 result.1 ≡ product_of v left right }
{
    ordered(canonical_of(nodes, left), canonical_of(nodes, right))
}

// A number that other operands seldom have: multipliers mix each into the high bits.
fn hash_of(a: Lit, b: Lit) -> usize {
    let left = (a.var() as u64).wrapping_mul(0x9e37_79b9_7f4a_7c15);
    let right = (b.var() as u64).wrapping_mul(0xc2b2_ae3d_27d4_eb4f);
    let signs = 2 * (a.complement() as u64) + b.complement() as u64;
    (((left ^ right) >> 20) ^ signs) as usize
}

// The slot of a hash: the slots are a power of two.
fn slot_in(slots: usize, hash: usize) -> usize
    requires { 0 < slots }
    ensures { result < slots }
{
    hash & (slots - 1)
}

// Whether a node has these operands.
fn has(nodes: &[Node], n: u32, a: Lit, b: Lit) -> bool
    ensures within { IsTrue result → n < length nodes.now }
    ensures left { IsTrue result → (node_at nodes.now n).left ≡ a }
    ensures right { IsTrue result → (node_at nodes.now n).right ≡ b }
{
    (n as usize) < nodes.len() && nodes[n as usize].left == a && nodes[n as usize].right == b
}

/// A table of gates by their operands, with open addressing and linear probing.
#[derive(Drop)]
pub(crate) struct Table {
    // a power of two of slots, at most three quarters of which hold a gate
    slots: Vec<u32>,
    ghost some: { 0 < length slots.items },
}

impl Table {
    /// Room for so many gates before it grows.
    pub fn new(alloc: Global, gates: u32) -> Result<Table, AllocError> {
        let mut size: usize = 64;
        for _ in 0..32 {
            if size / 2 < gates as usize {
                size = 2 * size;
            }
        }
        Ok(Table {
            slots: vec![in alloc; FREE; size]?,
        })
    }

    // The slot of a gate with these operands, or else one that is free.
    fn slot_of(&self, nodes: &[Node], a: Lit, b: Lit) -> usize
        ensures { result < length self.now.slots.items }
    {
        let size = self.slots.len();
        let mut at = slot_in(size, hash_of(a, b));
        for _ in 0..size {
            let n = self.slots[at];
            if n == FREE || has(nodes, n, a, b) {
                return at;
            }
            at = slot_in(size, at + 1);
        }
        at
    }

    /// A node with these operands, where one is known.
    pub fn find(&self, nodes: &[Node], a: Lit, b: Lit) -> Option<u32>
        ensures within { IfSome result (λ n. n < length nodes.now) }
        ensures operands { IfSome result (λ n. ((node_at nodes.now n).left ≡ a) × ((node_at nodes.now n).right ≡ b)) }
    {
        let n = self.slots[self.slot_of(nodes, a, b)];
        if has(nodes, n, a, b) { Some(n) } else { None }
    }

    /// Has a gate be found.
    pub fn insert(&mut self, nodes: &[Node], n: u32)
        requires { n < length nodes.now }
    {
        let node = nodes[n as usize];
        let at = self.slot_of(nodes, node.left, node.right);
        self.slots[at] = n;
    }

    /// Doubles the slots where three quarters would be taken.
    pub fn make_room(&mut self, nodes: &[Node]) -> Result<(), AllocError>
        requires { length nodes.now < 2 ^ 31 }
    {
        let size = self.slots.len();
        if nodes.len() < size / 4 * 3 || size > 1 << 32 {
            return Ok(());
        }
        self.slots.resize(2 * size, FREE)?;
        self.slots.fill(FREE);
        for n in 0..nodes.len() {
            if nodes[n].left.var() as usize != n {
                self.insert(nodes, n as u32);
            }
        }
        Ok(())
    }
}
