//! A question that was put aside, looked at in the graph as it stands by then: whether each clause that its answer rests on holds
//! under each valuation of the nodes. Operands of a node never change and canonical literals only go on, so what was laid of this
//! very graph stands; how it was laid is a hint here.
ghost use Rattle.std.specs.Prelude.{◌≡◌, ◌≤◌, ◌<◌, ◌/◌, ◌^◌, ◌+◌, [], ℕ, ℤ, List, Bool, true, false, not, IsTrue, length, slice_index_or};
ghost use Rattle.circ_model.specs.Meaning.{literal_value};
ghost use Rattle.cnf_store.specs.Clauses.{AreLiterals, clause_true, literal_true};
ghost use Rattle.and_graph.specs.Graphs.{IsGraph, Obeys, product_of};
ghost use Rattle.and_graph.specs.Cones.{AreWithin, Shows};
ghost use Rattle.and_graph.specs.Lemmas.{AreLemmas, ClauseHolds, GivenHold, SomeHolds};
ghost use Rattle.and_graph.specs.Questions.{IsQuestion};

use crate::canonical::canonical_of;
use crate::cone::{Cone, operands_of};
use crate::lemmas::{Lemmas, node_literal};
use crate::node::Node;
use circ_model::Lit;

// The node's literal for which a clause's literal stands.
fn own_at(members: &[u32], clause: &[i32], k: usize) -> Lit
    requires within { k < length clause.now }
    requires literals { AreLiterals (length members.now) clause.now }
    requires few { length members.now ≤ 2147483647 }
    requires nodes { AreWithin (2 ^ 31) members.now }
    ensures place { (size : ℕ) → AreWithin size members.now → result / 2 < size }
    ensures value { (v : ℕ → Bool) (a : List Bool) (d : ℤ) → Shows members.now v a → literal_value v result ≡ literal_true a (slice_index_or clause.now k d) }
{
    node_literal(members, clause[k])
}

// Its canonical literal by now.
fn literal_at(nodes: &[Node], members: &[u32], clause: &[i32], k: usize) -> Lit
    requires graph { IsGraph nodes.now }
    requires within { k < length clause.now }
    requires literals { AreLiterals (length members.now) clause.now }
    requires few { length members.now ≤ 2147483647 }
    requires members { AreWithin (length nodes.now) members.now }
    ensures value { (v : ℕ → Bool) (a : List Bool) (d : ℤ) → Obeys nodes.now v → Shows members.now v a → literal_value v result ≡ literal_true a (slice_index_or clause.now k d) }
{
    canonical_of(nodes, own_at(members, clause, k))
}

// Whether a clause says that a member is the constant, and it is.
fn says_low(nodes: &[Node], members: &[u32], clause: &[i32]) -> bool
    requires graph { IsGraph nodes.now }
    requires size { length clause.now ≡ 1 }
    requires literals { AreLiterals (length members.now) clause.now }
    requires few { length members.now ≤ 2147483647 }
    requires members { AreWithin (length nodes.now) members.now }
    ensures { IsTrue result → ClauseHolds nodes.now members.now clause.now }
{
    literal_at(nodes, members, clause, 0) == Lit::of(0, true)
}

// Whether a clause says that a gate is true only where an operand is, and it is one of its operands.
fn says_operand(nodes: &[Node], members: &[u32], clause: &[i32]) -> bool
    requires graph { IsGraph nodes.now }
    requires size { length clause.now ≡ 2 }
    requires literals { AreLiterals (length members.now) clause.now }
    requires few { length members.now ≤ 2147483647 }
    requires members { AreWithin (length nodes.now) members.now }
    ensures { IsTrue result → ClauseHolds nodes.now members.now clause.now }
{
    let own = own_at(members, clause, 0);
    let other = literal_at(nodes, members, clause, 1);
    let (left, right) = operands_of(nodes, own.var());
    own.complement() && (other == left || other == right)
}

// Whether a clause says that one of two literals is true that are complements.
fn says_equal(nodes: &[Node], members: &[u32], clause: &[i32]) -> bool
    requires graph { IsGraph nodes.now }
    requires size { length clause.now ≡ 2 }
    requires literals { AreLiterals (length members.now) clause.now }
    requires few { length members.now ≤ 2147483647 }
    requires members { AreWithin (length nodes.now) members.now }
    ensures { IsTrue result → ClauseHolds nodes.now members.now clause.now }
{
    let a = literal_at(nodes, members, clause, 0);
    let b = literal_at(nodes, members, clause, 1);
    a == b.not()
}

// Whether two literals are the complements of two, in either order.
fn are_complements(a: Lit, b: Lit, left: Lit, right: Lit) -> bool
    ensures { IsTrue result → (v : ℕ → Bool) → literal_value v a ≡ false → literal_value v b ≡ false → product_of v left right ≡ true }
{
    let (x, y) = (left.not(), right.not());
    (a == x && b == y) || (a == y && b == x)
}

// Whether a clause says that a gate is true where both operands are, and they are its operands.
fn says_gate(nodes: &[Node], members: &[u32], clause: &[i32]) -> bool
    requires graph { IsGraph nodes.now }
    requires size { length clause.now ≡ 3 }
    requires literals { AreLiterals (length members.now) clause.now }
    requires few { length members.now ≤ 2147483647 }
    requires members { AreWithin (length nodes.now) members.now }
    ensures { IsTrue result → ClauseHolds nodes.now members.now clause.now }
{
    let own = own_at(members, clause, 0);
    let a = literal_at(nodes, members, clause, 1);
    let b = literal_at(nodes, members, clause, 2);
    let (left, right) = operands_of(nodes, own.var());
    !own.complement() && are_complements(a, b, left, right)
}

// Whether a clause's literal is a lemma's by now.
fn same_at(nodes: &[Node], members: &[u32], clause: &[i32], lemma: &[Lit], k: usize) -> bool
    requires graph { IsGraph nodes.now }
    requires within { k < length clause.now }
    requires in_lemma { k < length lemma.now }
    requires literals { AreLiterals (length members.now) clause.now }
    requires few { length members.now ≤ 2147483647 }
    requires members { AreWithin (length nodes.now) members.now }
    ensures { IsTrue result → (v : ℕ → Bool) (a : List Bool) (d : ℤ) → Obeys nodes.now v → Shows members.now v a → literal_true a (slice_index_or clause.now k d) ≡ literal_value v (slice_index_or lemma.now k 0) }
{
    let lit = lemma[k];
    if lit.var() as usize >= nodes.len() {
        return false;
    }
    literal_at(nodes, members, clause, k) == canonical_of(nodes, lit)
}

// Whether a clause is a lemma, literal by literal.
fn says_lemma(nodes: &[Node], members: &[u32], clause: &[i32], lemma: &[Lit]) -> bool
    requires graph { IsGraph nodes.now }
    requires holds { (v : ℕ → Bool) → Obeys nodes.now v → SomeHolds v lemma.now }
    requires literals { AreLiterals (length members.now) clause.now }
    requires few { length members.now ≤ 2147483647 }
    requires members { AreWithin (length nodes.now) members.now }
    ensures { IsTrue result → ClauseHolds nodes.now members.now clause.now }
{
    if clause.len() != lemma.len() {
        return false;
    }
    for k in 0..clause.len() {
        if !same_at(nodes, members, clause, lemma, k) {
            return false;
        }
    }
    true
}

// Whether a clause of a gate or of the constant is found to hold.
fn says_nodes(nodes: &[Node], members: &[u32], clause: &[i32]) -> bool
    requires graph { IsGraph nodes.now }
    requires literals { AreLiterals (length members.now) clause.now }
    requires few { length members.now ≤ 2147483647 }
    requires members { AreWithin (length nodes.now) members.now }
    ensures { IsTrue result → ClauseHolds nodes.now members.now clause.now }
{
    match clause.len() {
        1 => says_low(nodes, members, clause),
        2 => { says_operand(nodes, members, clause) || says_equal(nodes, members, clause) }
        3 => says_gate(nodes, members, clause),
        _ => false,
    }
}

// Whether a clause is found to hold: as this lemma, if there is one of this number, else by the nodes.
fn clause_holds(
    nodes: &[Node],
    lemmas: &Lemmas,
    members: &[u32],
    clause: &[i32],
    number: u32,
) -> bool
    requires graph { IsGraph nodes.now }
    requires lemmas { AreLemmas nodes.now lemmas.now.clauses }
    requires literals { AreLiterals (length members.now) clause.now }
    requires few { length members.now ≤ 2147483647 }
    requires members { AreWithin (length nodes.now) members.now }
    ensures { IsTrue result → ClauseHolds nodes.now members.now clause.now }
{
    if (number as usize) < lemmas.clauses.len() {
        says_lemma(nodes, members, clause, lemmas.clauses.get(number as usize))
    } else {
        says_nodes(nodes, members, clause)
    }
}

// Whether each member is one of so many nodes.
fn are_within(members: &[u32], size: usize) -> bool
    ensures { IsTrue result → AreWithin size members.now }
{
    for n in members {
        if *n as usize >= size {
            return false;
        }
    }
    true
}

// Whether a clause has two literals, which stand for these two.
fn has_both(members: &[u32], clause: &[i32], x: Lit, y: Lit) -> bool
    requires literals { AreLiterals (length members.now) clause.now }
    requires few { length members.now ≤ 2147483647 }
    requires nodes { AreWithin (2 ^ 31) members.now }
    ensures { IsTrue result → (v : ℕ → Bool) (a : List Bool) → Shows members.now v a → literal_value v x ≡ not (literal_value v y) → clause_true a clause.now ≡ true }
{
    if clause.len() != 2 {
        return false;
    }
    own_at(members, clause, 0) == x && own_at(members, clause, 1) == y
}

impl Cone {
    // The lemma that clause h is, counted from 0 among so many. A hint.
    fn number_at(&self, given: u64, h: u64) -> u32 {
        let back = given.saturating_sub(h) as usize;
        if back <= self.recalled.len() && back > 0 {
            self.recalled[self.recalled.len() - back]
        } else {
            u32::MAX
        }
    }

    // Whether the first so many clauses are found to hold.
    fn all_hold(&self, nodes: &[Node], lemmas: &Lemmas, given: u64) -> bool
        requires graph { IsGraph nodes.now }
        requires lemmas { AreLemmas nodes.now lemmas.now.clauses }
        requires vars { self.now.cnf.vars ≡ length self.now.members.items }
        requires members { AreWithin (length nodes.now) self.now.members.items }
        requires given { given ≤ length self.now.cnf.clauses }
        ensures { IsTrue result → GivenHold nodes.now self.now.members.items self.now.cnf.clauses given }
    {
        let members = self.members.as_slice();
        let _vars = self.cnf.vars();
        for h in 0..given {
            let number = self.number_at(given, h);
            if !clause_holds(nodes, lemmas, members, self.cnf.clause(h + 1), number) {
                return false;
            }
        }
        true
    }

    // Whether two clauses behind the first so many are the last, and say that two literals differ.
    fn says_apart(&self, x: Lit, y: Lit, given: u64) -> bool
        requires vars { self.now.cnf.vars ≡ length self.now.members.items }
        requires nodes { AreWithin (2 ^ 31) self.now.members.items }
        ensures size { IsTrue result → length self.now.cnf.clauses ≡ given + 2 }
        ensures first { IsTrue result → (v : ℕ → Bool) (a : List Bool) → Shows self.now.members.items v a → literal_value v x ≡ not (literal_value v y)
            → clause_true a (slice_index_or self.now.cnf.clauses given []) ≡ true }
        ensures last { IsTrue result → (v : ℕ → Bool) (a : List Bool) → Shows self.now.members.items v a → literal_value v x ≡ not (literal_value v y)
            → clause_true a (slice_index_or self.now.cnf.clauses (given + 1) []) ≡ true }
    {
        let members = self.members.as_slice();
        let total = self.cnf.len();
        let _vars = self.cnf.vars();
        if total < 2 || total - 2 != given {
            return false;
        }
        has_both(members, self.cnf.clause(given + 1), x, y)
            && has_both(members, self.cnf.clause(given + 2), x.not(), y.not())
    }

    /// Whether a question, laid of this graph or of an earlier state of it or of none, is found to be one of these nodes.
    pub fn stands(&self, nodes: &[Node], lemmas: &Lemmas, x: Lit, y: Lit, given: u64) -> bool
        requires graph { IsGraph nodes.now }
        requires lemmas { AreLemmas nodes.now lemmas.now.clauses }
        ensures left { IsTrue result → x / 2 < length nodes.now }
        ensures right { IsTrue result → y / 2 < length nodes.now }
        ensures question { IsTrue result → IsQuestion nodes.now self.now.members.items self.now.cnf x y given }
    {
        let size = nodes.len();
        let members = self.members.as_slice();
        if self.cnf.vars() as usize != members.len() {
            return false;
        }
        if x.var() as usize >= size || y.var() as usize >= size {
            return false;
        }
        if !are_within(members, size) || !self.says_apart(x, y, given) {
            return false;
        }
        self.all_hold(nodes, lemmas, given)
    }
}
