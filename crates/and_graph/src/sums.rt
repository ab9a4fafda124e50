//! Sums modulo 2, which a solver finds hard to compare where they are bracketed in two ways: codes that check or scramble what passes are
//! made of them. Two literals are added, and the highest node of the sum is replaced by what it is the exclusive or of, until nothing
//! is left of it, or a node that is no exclusive or. (Elimination of linear terms, as in algebraic checking of arithmetic: C. Yu, M.
//! Ciesielski, IEEE TCAD 38(2), 2019.)
ghost use Rattle.std.specs.Prelude.{◌≡◌, ◌<◌, ◌≤◌, ◌/◌, ◌&&◌, ℕ, Bool, not, IfOk, IfSome, IsTrue, OnOk, length};
ghost use Rattle.circ_model.specs.Meaning.{literal_value, signed};
ghost use Rattle.and_graph.specs.Graphs.{AreEqual, IsGraph, Obeys, product_of};
ghost use Rattle.and_graph.specs.Sums.{sum_of};

use crate::cone::operands_of;
use crate::node::Node;
use circ_model::Lit;
use std::alloc::{AllocError, Global};

// So many nodes are replaced at most.
const MOST: u32 = 2000;

// What a complemented literal of a gate is the complement of: the product of these two.
fn factors(nodes: &[Node], lit: Lit) -> Option<(Lit, Lit)>
    requires graph { IsGraph nodes.now }
    requires within { lit / 2 < length nodes.now }
    ensures value { IfSome result (λ s. (v : ℕ → Bool) → Obeys nodes.now v → literal_value v lit ≡ not (product_of v s.0 s.1)) }
{
    if lit.complement() {
        Some(operands_of(nodes, lit.var()))
    } else {
        None
    }
}

// Whether two literals are the complements of two, in either order: then their product says that both are false.
fn are_both_false(a: Lit, b: Lit, left: Lit, right: Lit) -> bool
    ensures { IsTrue result → (v : ℕ → Bool) → product_of v a b ≡ (not (literal_value v left) && not (literal_value v right)) }
{
    let (x, y) = (left.not(), right.not());
    (a == x && b == y) || (a == y && b == x)
}

// The two literals of which a node is the exclusive or, where it is one: neither both are true nor both are false.
fn summands(nodes: &[Node], n: u32) -> Option<(Lit, Lit)>
    requires graph { IsGraph nodes.now }
    requires within { n < length nodes.now }
    ensures value { IfSome result (λ s. (v : ℕ → Bool) → Obeys nodes.now v → v n ≡ signed (literal_value v s.0) (literal_value v s.1)) }
{
    let (g, h) = operands_of(nodes, n);
    let both = factors(nodes, g)?;
    let neither = factors(nodes, h)?;
    if are_both_false(neither.0, neither.1, both.0, both.1) {
        Some(both)
    } else {
        None
    }
}

/// A sum of nodes, each of them once, the highest last, and of the constant.
#[derive(Drop)]
pub(crate) struct Sum {
    terms: Vec<u32>,
    is_odd: bool,
}

impl Sum {
    /// Nothing is added yet.
    pub fn new(alloc: Global) -> Sum {
        Sum {
            terms: Vec::new(alloc),
            is_odd: false,
        }
    }

    // Where a node stands, or would stand.
    fn place_of(&self, n: u32) -> usize
        ensures { result ≤ length self.now.terms.items }
    {
        let size = self.terms.len();
        for k in 0..size {
            if self.terms[size - 1 - k] < n {
                return size - k;
            }
        }
        0
    }

    // Adds a node: it is gone where it was there.
    fn add_node(&mut self, n: u32) -> Result<(), AllocError>
        ensures sum { OnOk result ((v : ℕ → Bool) → sum_of v self.new.terms.items ≡ signed (v n) (sum_of v self.old.terms.items)) }
        ensures odd { self.new.is_odd ≡ self.old.is_odd }
    {
        let at = self.place_of(n);
        if at < self.terms.len() && self.terms[at] == n {
            self.terms.remove(at);
        } else {
            self.terms.insert(at, n)?;
        }
        Ok(())
    }

    // Adds a literal.
    fn add(&mut self, lit: Lit) -> Result<(), AllocError>
        ensures { OnOk result ((v : ℕ → Bool) → signed self.new.is_odd (sum_of v self.new.terms.items) ≡ signed (literal_value v lit) (signed self.old.is_odd (sum_of v self.old.terms.items))) }
    {
        self.is_odd = self.is_odd != lit.complement();
        self.add_node(lit.var())
    }

    // Replaces the highest node by what it is the exclusive or of. None where it is none.
    fn reduce(&mut self, nodes: &[Node]) -> Result<bool, AllocError>
        requires graph { IsGraph nodes.now }
        ensures { IfOk result (λ goes. IsTrue goes → (v : ℕ → Bool) → Obeys nodes.now v → signed self.new.is_odd (sum_of v self.new.terms.items) ≡ signed self.old.is_odd (sum_of v self.old.terms.items)) }
    {
        let Some(n) = self.terms.pop() else {
            return Ok(false);
        };
        if n as usize >= nodes.len() {
            return Ok(false);
        }
        let Some(both) = summands(nodes, n) else {
            return Ok(false);
        };
        self.add(both.0)?;
        self.add(both.1)?;
        Ok(true)
    }

    /// Whether two literals are seen to be equal so. That they aren't says nothing.
    pub fn are_equal(&mut self, nodes: &[Node], x: Lit, y: Lit) -> Result<bool, AllocError>
        requires graph { IsGraph nodes.now }
        ensures { IfOk result (λ same. IsTrue same → AreEqual nodes.now x y) }
    {
        self.terms.clear();
        self.is_odd = false;
        self.add(x)?;
        self.add(y)?;
        for _ in 0..MOST {
            if self.terms.len() == 0 {
                return Ok(!self.is_odd);
            }
            if !self.reduce(nodes)? {
                return Ok(false);
            }
        }
        Ok(false)
    }
}
