//! What the solver is told: the facts, and clauses that hold where these do.

ghost use Rattle.std.specs.Prelude.{◌≡◌, ◌<◌, ◌/◌, ◌⊎◌, ◌++◌, ◌∷◌, ℕ, Bool, [], IfOk, OnOk, OnErr, length, true};
ghost use Rattle.circ_model.specs.Meaning.{literal_value};
ghost use Rattle.and_graph.specs.Graphs.{AllEqual, Obeys, product_of};
ghost use Rattle.graph_solver.specs.Known.{IsBothWays, IsKept, IsTold};

use and_graph::Graph;
use circ_model::Lit;
use kept_solver::{KeptSolver, Outcome, Value};
use std::alloc::{AllocError, Global};
use std::marker::Model;

/// A solver over nodes, and the facts. Contracts see the facts and the clauses.
#[derive(Drop)]
pub(crate) struct Told {
    facts: Vec<(Lit, Lit)>,
    solver: KeptSolver,
}

impl Model for Told {
    ghost use Rattle.graph_solver.specs.Known.{Known};

    ghost Value = { Known };

    ghost view = { λ s. record { facts = s.facts.items; clauses = s.solver } };
}

// The code of a literal.
fn code_of(lit: Lit) -> u32
    ensures { result ≡ lit }
{
    2 * lit.var() + if lit.complement() { 1 } else { 0 }
}

// Has a solver decide these variables, too, in each question.
fn add_all(solver: &mut KeptSolver, variables: &[u32]) -> Result<(), AllocError>
    ensures { solver.new ≡ solver.old }
{
    for variable in variables {
        solver.add_beside(*variable)?;
    }
    Ok(())
}

impl Told {
    /// Nothing is told yet.
    pub fn new(alloc: Global) -> Result<Told, AllocError>
        ensures { IfOk result (λ s. s ≡ record { facts = []; clauses = [] }) }
    {
        Ok(Told {
            facts: Vec::new(alloc),
            solver: KeptSolver::new(alloc)?,
        })
    }

    /// Forgets all.
    pub fn clear(&mut self) -> Result<(), AllocError>
        ensures { OnOk result (self.new ≡ record { facts = []; clauses = [] }) }
    {
        self.solver.clear()?;
        self.facts.clear();
        Ok(())
    }

    /// Whether there is a fact.
    pub fn has_facts(&self) -> bool {
        self.facts.len() > 0
    }

    /// Takes two literals to be equal.
    pub fn note(&mut self, graph: &Graph, a: Lit, b: Lit) -> Result<(), AllocError>
        requires told { IsKept graph.now self.old }
        ensures told { IsKept graph.now self.new }
        ensures ok { OnOk result (self.new.facts ≡ self.old.facts ++ (a, b) ∷ []) }
        ensures err { OnErr result (self.new.facts ≡ self.old.facts) }
    {
        self.facts.push((a, b))?;
        Ok(())
    }

    // Gives a clause that holds.
    fn tell(&mut self, graph: &Graph, clause: &[u32]) -> Result<(), AllocError>
        requires told { IsKept graph.now self.old }
        requires holds { IsTold graph.now self.old.facts clause.now }
        ensures told { IsKept graph.now self.new }
        ensures facts { self.new.facts ≡ self.old.facts }
    {
        self.solver.give(clause)?;
        Ok(())
    }

    // Gives a clause of two literals.
    fn tell_pair(&mut self, graph: &Graph, p: Lit, q: Lit) -> Result<(), AllocError>
        requires first { p / 2 < length graph.now }
        requires second { q / 2 < length graph.now }
        requires told { IsKept graph.now self.old }
        requires holds { (v : ℕ → Bool) → Obeys graph.now v → AllEqual v self.old.facts → (literal_value v p ≡ true) ⊎ (literal_value v q ≡ true) }
        ensures told { IsKept graph.now self.new }
        ensures facts { self.new.facts ≡ self.old.facts }
    {
        self.tell(graph, &[code_of(p), code_of(q)])
    }

    // Gives the clauses of a gate: the node is the product of two literals.
    fn tell_gate(&mut self, graph: &Graph, node: u32, a: Lit, b: Lit) -> Result<(), AllocError>
        requires within { node < length graph.now }
        requires left { a / 2 < length graph.now }
        requires right { b / 2 < length graph.now }
        requires value { (v : ℕ → Bool) → Obeys graph.now v → v node ≡ product_of v a b }
        requires told { IsKept graph.now self.old }
        ensures told { IsKept graph.now self.new }
        ensures facts { self.new.facts ≡ self.old.facts }
    {
        let _nodes = graph.len();
        let own = Lit::of(node, false);
        self.tell_pair(graph, own.not(), a)?;
        self.tell_pair(graph, own.not(), b)?;
        self.tell(graph, &[code_of(own), code_of(a.not()), code_of(b.not())])
    }

    /// Gives the clauses of a node.
    pub fn lay(&mut self, graph: &Graph, node: u32) -> Result<(), AllocError>
        requires within { node < length graph.now }
        requires told { IsKept graph.now self.old }
        ensures told { IsKept graph.now self.new }
        ensures facts { self.new.facts ≡ self.old.facts }
    {
        if node == 0 {
            return self.tell(graph, &[1]);
        }
        let (a, b) = graph.operands(node);
        if a.var() == node {
            return Ok(());
        }
        self.tell_gate(graph, node, a, b)
    }

    /// Gives the clauses that say of two literals that they are equal.
    pub fn tell_equal(&mut self, graph: &Graph, x: Lit, y: Lit) -> Result<(), AllocError>
        requires left { x / 2 < length graph.now }
        requires right { y / 2 < length graph.now }
        requires told { IsKept graph.now self.old }
        requires equal { (v : ℕ → Bool) → Obeys graph.now v → AllEqual v self.old.facts → literal_value v x ≡ literal_value v y }
        ensures told { IsKept graph.now self.new }
        ensures facts { self.new.facts ≡ self.old.facts }
    {
        let _nodes = graph.len();
        self.tell_pair(graph, x.not(), y)?;
        self.tell_pair(graph, x, y.not())
    }

    /// Has the search decide these nodes, too, in each question.
    pub fn decide_too(&mut self, nodes: &[u32]) -> Result<(), AllocError>
        ensures { self.new ≡ self.old }
    {
        add_all(&mut self.solver, nodes)
    }

    /// Turns to questions that rest on these nodes.
    pub fn turn_to(&mut self, nodes: &[u32]) -> Result<(), AllocError>
        ensures { self.new ≡ self.old }
    {
        self.solver.turn_to(nodes)
    }

    /// A node's value in the model that was found last, where it has one. A hint.
    pub fn value_of(&self, node: u32) -> Option<bool> {
        match self.solver.value(node.saturating_mul(2)) {
            Value::True => Some(true),
            Value::False => Some(false),
            Value::Free => None,
        }
    }

    /// Whether two literals can differ.
    pub fn apart(&mut self, x: Lit, y: Lit) -> Result<Outcome, AllocError>
        ensures kept { self.new ≡ self.old }
        ensures outcome { IfOk result (IsBothWays self.old.clauses x y) }
    {
        match self.solver.decide(code_of(x), code_of(y.not()))? {
            Outcome::Refuted => {}
            Outcome::Model => return Ok(Outcome::Model),
            Outcome::Unknown => return Ok(Outcome::Unknown),
        }
        let second = self.solver.decide(code_of(x.not()), code_of(y))?;
        Ok(second)
    }
}
