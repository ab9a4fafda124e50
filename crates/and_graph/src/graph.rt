//! The graph.
ghost use Rattle.std.specs.Prelude.{◌≡◌, ◌<◌, ◌≤◌, ◌/◌, ◌+◌, ◌^◌, ℕ, Bool, false, true, IsTrue, IfErr, IfNone, IfOk, OnOk, OnErr, is_some, length};
ghost use Rattle.and_graph.specs.Askers.{IsHalted, IsTaken};
ghost use Rattle.circ_model.specs.Meaning.{literal, literal_value};
ghost use Rattle.and_graph.specs.Graphs.{AreEqual, GrowsTo, IsGraph, IsLeaf, Obeys, node_at, product_of};

use crate::asking::Asker;
use crate::canonical::{canonical_of, folded, turned};
use crate::cone::operands_of;
use crate::halt::Halt;
use crate::hashing::{Table, canonical_operands};
use crate::lemmas::Lemmas;
use crate::node::Node;
use crate::pattern::Pattern;
use circ_model::Lit;
use std::alloc::{AllocError, Global};
use std::marker::Model;

/// An and-inverter graph. Contracts see its nodes.
#[derive(Drop)]
pub struct Graph {
    nodes: Vec<Node>,
    table: Table,
    lemmas: Lemmas,
}

impl Model for Graph {
    ghost use Rattle.std.specs.Prelude.{◌<◌, List, length};
    ghost use Rattle.and_graph.specs.declared.node.Node.{Node};
    ghost use Rattle.and_graph.specs.Graphs.{IsGraph};
    ghost use Rattle.and_graph.specs.Lemmas.{AreLemmas};

    ghost Value = { List Node };

    ghost view = { λ g. g.nodes.items };

    ghost invariant = { λ g. IsGraph g.nodes.items × AreLemmas g.nodes.items g.lemmas.clauses };
}

/// How many nodes a graph has at most.
const MOST_NODES: usize = 0x7fff_ffff;

// A new gate.
#[tactic(auto, using(crate::proofs::Nodes::grown, crate::proofs::Nodes::no_growth))]
fn add_gate(nodes: &mut Vec<Node>, a: Lit, b: Lit) -> Result<Lit, AllocError>
    requires graph { IsGraph nodes.old.items }
    requires left { a / 2 < length nodes.old.items }
    requires right { b / 2 < length nodes.old.items }
    ensures graph { IsGraph nodes.new.items }
    ensures within { IfOk result (λ lit. lit / 2 < length nodes.new.items) }
    ensures on { GrowsTo nodes.old.items nodes.new.items }
    ensures value { IfOk result (λ lit. (v : ℕ → Bool) → Obeys nodes.new.items v → literal_value v lit ≡ product_of v a b) }
    ensures unchanged { OnErr result (nodes.new.items ≡ nodes.old.items) }
{
    let n = nodes.len();
    if n >= MOST_NODES {
        return Err(AllocError);
    }
    let own = Lit::of(n as u32, false);
    nodes.push(Node {
        left: a,
        right: b,
        canonical: own,
    })?;
    Ok(own)
}

impl Graph {
    /// The constant alone, and room for so many gates before the table of gates grows.
    pub fn new(alloc: Global, gates: u32) -> Result<Graph, AllocError>
        ensures { IfOk result (λ g. length g ≡ 1) }
    {
        let low = Lit::of(0, false);
        let table = Table::new(alloc, gates)?;
        let mut nodes = Vec::new(alloc);
        nodes.push(Node {
            left: low,
            right: low,
            canonical: low,
        })?;
        let lemmas = Lemmas::new(alloc);
        Ok(Graph {
            nodes,
            table,
            lemmas,
        })
    }

    /// How many nodes there are.
    pub fn len(&self) -> u32
        ensures value { result ≡ length self.now }
        ensures graph { IsGraph self.now }
    {
        self.nodes.len() as u32
    }

    /// The canonical literal of a literal: it doesn't stand after it, and has its value under each valuation.
    pub fn canonical(&self, lit: Lit) -> Lit
        requires within { lit / 2 < length self.now }
        ensures lower { result / 2 ≤ lit / 2 }
        ensures equal { AreEqual self.now lit result }
    {
        canonical_of(self.nodes.as_slice(), lit)
    }

    /// The operands of a node by now, as canonical literals: it has the value of their product under each valuation. A leaf that isn't
    /// merged has itself as both.
    pub fn operands(&self, n: u32) -> (Lit, Lit)
        requires { n < length self.now }
        ensures within { (result.0 / 2 < length self.now) × (result.1 / 2 < length self.now) }
        ensures value { (v : ℕ → Bool) → Obeys self.now v → v n ≡ product_of v result.0 result.1 }
    {
        operands_of(self.nodes.as_slice(), n)
    }

    /// A new leaf: no valuation of the nodes before binds it. An `Err`, here and below, is want of memory or of node numbers,
    /// of which there are 2^31 - 1.
    #[tactic(auto, using(crate::proofs::Nodes::grown, crate::proofs::Nodes::no_growth))]
    pub fn leaf(&mut self) -> Result<Lit, AllocError>
        ensures is { IfOk result (λ lit. lit ≡ literal (length self.old) false) }
        ensures size { OnOk result (length self.new ≡ length self.old + 1) }
        ensures leaf { OnOk result (IsLeaf (length self.old) (node_at self.new (length self.old))) }
        ensures on { GrowsTo self.old self.new }
        ensures unchanged { OnErr result (self.new ≡ self.old) }
    {
        let n = self.nodes.len();
        if n >= MOST_NODES {
            return Err(AllocError);
        }
        let own = Lit::of(n as u32, false);
        self.nodes.push(Node {
            left: own,
            right: own,
            canonical: own,
        })?;
        Ok(own)
    }

    // A node with these operands: one that is known, or else a new one.
    #[tactic(auto, using(crate::proofs::Nodes::no_growth))]
    fn known_gate(&mut self, a: Lit, b: Lit) -> Result<Lit, AllocError>
        requires left { a / 2 < length self.old }
        requires right { b / 2 < length self.old }
        ensures within { IfOk result (λ lit. lit / 2 < length self.new) }
        ensures on { GrowsTo self.old self.new }
        ensures value { IfOk result (λ lit. (v : ℕ → Bool) → Obeys self.new v → literal_value v lit ≡ product_of v a b) }
        ensures unchanged { OnErr result (self.new ≡ self.old) }
    {
        if let Some(n) = self.table.find(self.nodes.as_slice(), a, b) {
            return Ok(canonical_of(self.nodes.as_slice(), Lit::of(n, false)));
        }
        self.table.make_room(self.nodes.as_slice())?;
        let lit = add_gate(&mut self.nodes, a, b)?;
        self.table.insert(self.nodes.as_slice(), lit.var());
        Ok(lit)
    }

    /// The product of two literals: under each valuation the result has their product's value.
    #[tactic(auto, using(crate::proofs::Nodes::no_growth))]
    pub fn and(&mut self, a: Lit, b: Lit) -> Result<Lit, AllocError>
        requires left { a / 2 < length self.old }
        requires right { b / 2 < length self.old }
        ensures within { IfOk result (λ lit. lit / 2 < length self.new) }
        ensures on { GrowsTo self.old self.new }
        ensures value { IfOk result (λ lit. (v : ℕ → Bool) → Obeys self.new v → literal_value v lit ≡ product_of v a b) }
        ensures unchanged { OnErr result (self.new ≡ self.old) }
    {
        let (x, y) = canonical_operands(self.nodes.as_slice(), a, b);
        match folded(x, y) {
            Some(lit) => Ok(lit),
            None => self.known_gate(x, y),
        }
    }

    /// Whether two literals have one canonical literal: then they are equal under each valuation.
    pub fn same(&self, a: Lit, b: Lit) -> bool
        requires left { a / 2 < length self.now }
        requires right { b / 2 < length self.now }
        ensures { IsTrue result → AreEqual self.now a b }
    {
        canonical_of(self.nodes.as_slice(), a) == canonical_of(self.nodes.as_slice(), b)
    }

    // Takes in that a node has the value of a literal that doesn't stand after it, under each valuation.
    fn merge(&mut self, n: u32, to: Lit)
        requires within { n < length self.old }
        requires lower { to / 2 ≤ n }
        requires equal { AreEqual self.old (literal n false) to }
        ensures size { length self.new ≡ length self.old }
        ensures operands { (p : ℕ) → ((node_at self.new p).left ≡ (node_at self.old p).left) × ((node_at self.new p).right ≡ (node_at self.old p).right) }
        ensures valuations { (v : ℕ → Bool) → (Obeys self.old v → Obeys self.new v) × (Obeys self.new v → Obeys self.old v) }
    {
        let lit = canonical_of(self.nodes.as_slice(), to);
        self.nodes[n as usize].canonical = lit;
        self.lemmas.note_merged(n);
    }

    /// Asks the solver whether two literals can differ, over the nodes on which they rest. None: they are equal under each
    /// valuation, and may be merged. Else it has leaves under which they seem to differ. What a refutation shows of the nodes on
    /// the way, later ones begin with.
    pub fn difference(
        &mut self,
        alloc: Global,
        asker: &mut Asker,
        a: Lit,
        b: Lit,
    ) -> Result<Option<Pattern>, AllocError>
        requires left { a / 2 < length self.old }
        requires right { b / 2 < length self.old }
        ensures kept { self.new ≡ self.old }
        ensures equal { IfOk result (λ found. IfNone found (AreEqual self.old a b)) }
        ensures most { asker.new.most ≡ asker.old.most }
    {
        asker.difference(alloc, self.nodes.as_slice(), &mut self.lemmas, a, b)
    }

    /// The same, where the asker may put the question aside: then it is the asker's, which solves it without the graph, and is asked
    /// again once its answer is taken in.
    pub fn difference_or_pose(
        &mut self,
        alloc: Global,
        asker: &mut Asker,
        a: Lit,
        b: Lit,
    ) -> Result<Option<Pattern>, Halt>
        requires left { a / 2 < length self.old }
        requires right { b / 2 < length self.old }
        ensures kept { self.new ≡ self.old }
        ensures equal { IfOk result (λ found. IfNone found (AreEqual self.old a b)) }
        ensures most { asker.new.most ≡ asker.old.most }
        ensures halt { IfErr result (IsHalted asker.old asker.new) }
    {
        asker.difference_or_pose(alloc, self.nodes.as_slice(), &mut self.lemmas, a, b)
    }

    /// Whether an asker has put a question aside that two literals are near which aren't merged yet: their nodes are in its cone, or
    /// rest on what is, with a few gates between, so that it is better asked once they are. A hint.
    pub fn rests_on(&self, asker: &Asker, a: Lit, b: Lit) -> bool
        requires left { a / 2 < length self.now }
        requires right { b / 2 < length self.now }
        ensures { IsTrue result → is_some asker.now.aside ≡ true }
    {
        let x = canonical_of(self.nodes.as_slice(), a);
        let y = canonical_of(self.nodes.as_slice(), b);
        x != y && asker.rests_on(self.nodes.as_slice(), x.var(), y.var())
    }

    /// How much the questions took that were answered so far: the nodes of their cones, and the lines of their refutations. A hint.
    pub fn work(&self) -> u64 {
        self.lemmas.work.total()
    }

    /// Takes in the answer to the question that the asker had put aside, of this graph or of an earlier state of it: where it says
    /// that two literals are equal, and what it rests on is found to stand, they are merged. It errs for want of memory alone.
    pub fn take_answer(&mut self, alloc: Global, asker: &mut Asker) -> Result<(), AllocError>
        ensures size { length self.new ≡ length self.old }
        ensures operands { (p : ℕ) → ((node_at self.new p).left ≡ (node_at self.old p).left) × ((node_at self.new p).right ≡ (node_at self.old p).right) }
        ensures valuations { (v : ℕ → Bool) → (Obeys self.old v → Obeys self.new v) × (Obeys self.new v → Obeys self.old v) }
        ensures taken { OnOk result (IsTaken asker.old asker.new) }
    {
        let found = asker.take_answer(alloc, self.nodes.as_slice(), &mut self.lemmas)?;
        if let Some(same) = found {
            self.merge_equal(same.0, same.1);
        }
        Ok(())
    }

    /// Merges two literals that are equal under each valuation: of the nodes that they stand for by now, the later one into the
    /// earlier.
    pub fn merge_equal(&mut self, a: Lit, b: Lit)
        requires left { a / 2 < length self.old }
        requires right { b / 2 < length self.old }
        requires equal { AreEqual self.old a b }
        ensures size { length self.new ≡ length self.old }
        ensures operands { (p : ℕ) → ((node_at self.new p).left ≡ (node_at self.old p).left) × ((node_at self.new p).right ≡ (node_at self.old p).right) }
        ensures valuations { (v : ℕ → Bool) → (Obeys self.old v → Obeys self.new v) × (Obeys self.new v → Obeys self.old v) }
    {
        let x = canonical_of(self.nodes.as_slice(), a);
        let y = canonical_of(self.nodes.as_slice(), b);
        if x.var() < y.var() {
            self.merge(y.var(), turned(y.complement(), x))
        } else {
            self.merge(x.var(), turned(x.complement(), y))
        }
    }
}
