//! The solver over a graph.

ghost use Rattle.std.specs.Prelude.{◌≡◌, ◌<◌, ◌/◌, ◌⊎◌, ◌++◌, ◌∷◌, ℕ, Bool, [], IfOk, OnOk, length};
ghost use Rattle.circ_model.specs.Meaning.{literal_value};
ghost use Rattle.and_graph.specs.Graphs.{AllEqual};
ghost use Rattle.graph_solver.specs.Known.{IsAnswer, IsKept, IsSettled};

use crate::told::Told;
use crate::walk::Walk;
use and_graph::{Graph, LeafValue, Pattern};
use circ_model::Lit;
use kept_solver::Outcome;
use std::alloc::{AllocError, Global};
use std::marker::Model;

/// Whether two literals are equal where the facts hold.
#[derive(Drop)]
pub enum Answer {
    /// They are.
    Equal,
    /// They seem to differ under these values of the leaves on which they rest: a hint.
    Apart(Pattern),
    /// The search was left.
    Unknown,
}

/// The solver, with what it was told of a graph. Contracts see the facts, each a pair of literals that are taken to be equal, and the
/// clauses.
#[derive(Drop)]
pub struct GraphSolver {
    told: Told,
    walk: Walk,
}

impl Model for GraphSolver {
    ghost use Rattle.graph_solver.specs.Known.{Known};

    ghost Value = { Known };

    ghost view = { λ s. s.told };
}

// Gives the clauses of a node, where they aren't given yet.
fn lay_once(told: &mut Told, walk: &mut Walk, graph: &Graph, node: u32) -> Result<(), AllocError>
    requires told { IsKept graph.now told.old }
    ensures told { IsKept graph.now told.new }
    ensures facts { told.new.facts ≡ told.old.facts }
{
    if node >= graph.len() || !walk.is_new(node) {
        return Ok(());
    }
    told.lay(graph, node)?;
    walk.note(node, is_leaf(graph, node))
}

// Gives the clauses of the nodes on which those rest that were met.
fn approach(told: &mut Told, walk: &mut Walk, graph: &Graph) -> Result<(), AllocError>
    requires told { IsKept graph.now told.old }
    ensures told { IsKept graph.now told.new }
    ensures facts { told.new.facts ≡ told.old.facts }
{
    for _ in 0..usize::MAX {
        let Some(node) = walk.next()? else {
            return Ok(());
        };
        lay_once(told, walk, graph, node)?;
        walk.descend(graph, node)?;
    }
    Ok(())
}

// Gives the clauses of the nodes on which two rest.
fn reach(told: &mut Told, walk: &mut Walk, graph: &Graph, a: u32, b: u32) -> Result<(), AllocError>
    requires told { IsKept graph.now told.old }
    ensures told { IsKept graph.now told.new }
    ensures facts { told.new.facts ≡ told.old.facts }
{
    walk.begin(graph.len())?;
    walk.meet(a)?;
    walk.meet(b)?;
    approach(told, walk, graph)
}

// Gives the clauses of a fact, and of the nodes on which it rests, which are decided in each question.
fn tell_fact(
    told: &mut Told,
    walk: &mut Walk,
    graph: &Graph,
    a: Lit,
    b: Lit,
) -> Result<(), AllocError>
    requires left { a / 2 < length graph.now }
    requires right { b / 2 < length graph.now }
    requires told { IsKept graph.now told.old }
    requires equal { (v : ℕ → Bool) → AllEqual v told.old.facts → literal_value v a ≡ literal_value v b }
    ensures told { IsKept graph.now told.new }
    ensures facts { told.new.facts ≡ told.old.facts }
{
    let (x, y) = (graph.canonical(a), graph.canonical(b));
    reach(told, walk, graph, x.var(), y.var())?;
    told.decide_too(walk.cone.as_slice())?;
    told.tell_equal(graph, x, y)
}

// Whether two literals can differ where the facts hold.
fn ask(
    told: &mut Told,
    walk: &mut Walk,
    graph: &Graph,
    a: Lit,
    b: Lit,
) -> Result<Outcome, AllocError>
    requires left { a / 2 < length graph.now }
    requires right { b / 2 < length graph.now }
    requires told { IsKept graph.now told.old }
    ensures told { IsKept graph.now told.new }
    ensures facts { told.new.facts ≡ told.old.facts }
    ensures settled { IfOk result (IsSettled graph.now told.old.facts a b) }
{
    let (x, y) = (graph.canonical(a), graph.canonical(b));
    let _nodes = graph.len();
    reach(told, walk, graph, x.var(), y.var())?;
    told.turn_to(walk.cone.as_slice())?;
    let outcome = told.apart(x, y)?;
    Ok(outcome)
}

impl GraphSolver {
    /// Nothing is told yet. An `Err`, here and below, is want of memory.
    pub fn new(alloc: Global) -> Result<GraphSolver, AllocError>
        ensures { IfOk result (λ s. s ≡ record { facts = []; clauses = [] }) }
    {
        Ok(GraphSolver {
            told: Told::new(alloc)?,
            walk: Walk::new(alloc),
        })
    }

    /// Forgets all that it was told.
    pub fn clear(&mut self) -> Result<(), AllocError>
        ensures { OnOk result (self.new ≡ record { facts = []; clauses = [] }) }
    {
        self.told.clear()?;
        self.walk.clear();
        Ok(())
    }

    /// Whether something is taken to be equal.
    pub fn has_facts(&self) -> bool {
        self.told.has_facts()
    }

    /// Takes two literals to be equal from now on.
    pub fn assume(&mut self, graph: &Graph, a: Lit, b: Lit) -> Result<(), AllocError>
        requires left { a / 2 < length graph.now }
        requires right { b / 2 < length graph.now }
        requires told { IsKept graph.now self.old }
        ensures told { IsKept graph.now self.new }
        ensures facts { (self.new.facts ≡ self.old.facts) ⊎ (self.new.facts ≡ self.old.facts ++ (a, b) ∷ []) }
    {
        self.told.note(graph, a, b)?;
        tell_fact(&mut self.told, &mut self.walk, graph, a, b)
    }

    /// Whether two literals are equal where the facts hold.
    pub fn difference(
        &mut self,
        alloc: Global,
        graph: &Graph,
        a: Lit,
        b: Lit,
    ) -> Result<Answer, AllocError>
        requires left { a / 2 < length graph.now }
        requires right { b / 2 < length graph.now }
        requires told { IsKept graph.now self.old }
        ensures told { IsKept graph.now self.new }
        ensures facts { self.new.facts ≡ self.old.facts }
        ensures answer { IfOk result (IsAnswer graph.now self.old.facts a b) }
    {
        match ask(&mut self.told, &mut self.walk, graph, a, b)? {
            Outcome::Refuted => Ok(Answer::Equal),
            Outcome::Model => {
                let pattern = self.pattern_of(alloc, graph, self.walk.cone.as_slice())?;
                Ok(Answer::Apart(pattern))
            }
            Outcome::Unknown => Ok(Answer::Unknown),
        }
    }

    // The values of those nodes that are leaves.
    fn pattern_of(
        &self,
        alloc: Global,
        graph: &Graph,
        nodes: &[u32],
    ) -> Result<Pattern, AllocError> {
        let mut leaves = Vec::new(alloc);
        for node in nodes {
            if is_leaf(graph, *node) {
                if let Some(value) = self.told.value_of(*node) {
                    leaves.push(LeafValue { leaf: *node, value })?;
                }
            }
        }
        Ok(Pattern { leaves })
    }

    /// Values of all leaves on which questions or facts rested so far, in the model that was found last: there the facts hold, too. A
    /// hint.
    pub fn whole_model(&self, alloc: Global, graph: &Graph) -> Result<Pattern, AllocError> {
        self.pattern_of(alloc, graph, self.walk.leaves.as_slice())
    }
}

// Whether a node is a leaf.
fn is_leaf(graph: &Graph, node: u32) -> bool {
    node > 0 && node < graph.len() && graph.operands(node).0.var() == node
}
