//! The cone of a question: nodes on which it rests, with variables of their own, so that a question costs what it rests on.
//!
//! Each node of the cone that is expanded has the clauses of a gate over its operands (Tseitin). One that isn't is free: what
//! can't be under these clauses can't be under any valuation, however little was expanded.
ghost use Rattle.std.specs.Prelude.{◌≡◌, ◌<◌, ◌/◌, ℕ, List, Bool, OnOk, IfOk, length};
ghost use Rattle.and_graph.specs.declared.node.Node.{Node as GraphNode};
ghost use Rattle.and_graph.specs.Graphs.{IsGraph, Obeys, product_of};
ghost use Rattle.and_graph.specs.Cones.{AreWithin, GoesOn, IsCone, member_at};

use crate::clauses::{add_gate, add_low};
use crate::frontier::Frontier;
use crate::hashing::canonical_operands;
use crate::node::Node;
use circ_model::Lit;
use cnf_store::Cnf;
use std::alloc::{AllocError, Global};

/// Members, each a node with a variable, and clauses over them.
#[derive(Drop)]
pub(crate) struct Cone {
    pub members: Vec<u32>,
    pub cnf: Cnf,
    pub frontier: Frontier,
    // of the clauses that lemmas are, which these were: hints
    pub recalled: Vec<u32>,
}

// The operands of a node by now: the canonical literals of those that it was made with.
#[tactic(auto, using(crate::proofs::ConeMembers::operand_within, crate::proofs::ConeMembers::node_value))]
pub(crate) fn operands_of(nodes: &[Node], n: u32) -> (Lit, Lit)
    requires graph { IsGraph nodes.now }
    requires within { n < length nodes.now }
    ensures within { (result.0 / 2 < length nodes.now) × (result.1 / 2 < length nodes.now) }
    ensures value { (v : ℕ → Bool) → Obeys nodes.now v → v n ≡ product_of v result.0 result.1 }
{
    let left = nodes[n as usize].left;
    let right = nodes[n as usize].right;
    canonical_operands(nodes, left, right)
}

impl Cone {
    /// No members.
    pub fn new(alloc: Global) -> Result<Cone, AllocError> {
        Ok(Cone {
            members: Vec::new(alloc),
            cnf: Cnf::new(alloc, 0)?,
            frontier: Frontier::new(alloc),
            recalled: Vec::new(alloc),
        })
    }

    /// No members, in the memory of those that there were.
    #[tactic(auto, using(crate::proofs::ConeMembers::cone_empty))]
    pub fn clear(&mut self)
        ensures { (nodes : List GraphNode) → IsCone nodes self.new.members.items self.new.cnf }
    {
        self.members.clear();
        self.cnf.cut(0, 0);
        self.frontier.clear();
        self.recalled.clear();
    }

    // A new member, and a variable for it.
    fn new_member(&mut self, n: u32) -> Result<u32, AllocError>
        requires vars { self.old.cnf.vars ≡ length self.old.members.items }
        ensures vars { OnOk result (self.new.cnf.vars ≡ length self.new.members.items) }
        ensures clauses { self.new.cnf.clauses ≡ self.old.cnf.clauses }
        ensures on { OnOk result (GoesOn self.old.members.items self.new.members.items) }
        ensures within { IfOk result (λ j. j < length self.new.members.items) }
        ensures at { IfOk result (λ j. member_at self.new.members.items j ≡ n) }
        ensures members { OnOk result ((size : ℕ) → AreWithin size self.old.members.items → n < size → AreWithin size self.new.members.items) }
    {
        let j = self.cnf.vars();
        if j >= 2_000_000_000 {
            return Err(AllocError);
        }
        self.members.push(n)?;
        self.cnf.add_vars(1);
        self.frontier.meet(n, j)?;
        Ok(j)
    }

    /// The member for a node: one that is known, or else a new one, which is still to be expanded.
    pub fn member_of(&mut self, n: u32) -> Result<u32, AllocError>
        requires vars { self.old.cnf.vars ≡ length self.old.members.items }
        ensures vars { OnOk result (self.new.cnf.vars ≡ length self.new.members.items) }
        ensures clauses { self.new.cnf.clauses ≡ self.old.cnf.clauses }
        ensures on { OnOk result (GoesOn self.old.members.items self.new.members.items) }
        ensures within { IfOk result (λ j. j < length self.new.members.items) }
        ensures at { IfOk result (λ j. member_at self.new.members.items j ≡ n) }
        ensures members { OnOk result ((size : ℕ) → AreWithin size self.old.members.items → n < size → AreWithin size self.new.members.items) }
    {
        let known = self.frontier.number_of(n);
        if known < self.cnf.vars() && self.members[known as usize] == n {
            return Ok(known);
        }
        self.new_member(n)
    }

    // The clauses of a gate at member j, and the members for its operands.
    fn expand_gate(&mut self, j: u32, a: Lit, b: Lit) -> Result<(), AllocError>
        requires member { j < length self.old.members.items }
        requires vars { self.old.cnf.vars ≡ length self.old.members.items }
        ensures on { OnOk result (GoesOn self.old.members.items self.new.members.items) }
        ensures cone { OnOk result ((nodes : List GraphNode) → IsCone nodes self.old.members.items self.old.cnf → a / 2 < length nodes → b / 2 < length nodes
            → ((v : ℕ → Bool) → Obeys nodes v → v (member_at self.old.members.items j) ≡ product_of v a b) → IsCone nodes self.new.members.items self.new.cnf) }
    {
        let left = self.member_of(a.var())?;
        let right = self.member_of(b.var())?;
        let _vars = self.cnf.vars();
        add_gate(
            &mut self.cnf,
            j,
            (left, a.complement()),
            (right, b.complement()),
        )
    }

    // The clauses of member j, and the members on which it rests.
    #[tactic(auto, using(crate::proofs::ConeMembers::cone_low, crate::proofs::ConeMembers::goes_on_same))]
    fn expand(&mut self, nodes: &[Node], j: u32) -> Result<(), AllocError>
        requires graph { IsGraph nodes.now }
        requires member { j < length self.old.members.items }
        requires cone { IsCone nodes.now self.old.members.items self.old.cnf }
        ensures on { OnOk result (GoesOn self.old.members.items self.new.members.items) }
        ensures cone { OnOk result (IsCone nodes.now self.new.members.items self.new.cnf) }
    {
        let n = self.members[j as usize];
        let _vars = self.cnf.vars();
        if n == 0 {
            return add_low(&mut self.cnf, j);
        }
        let (a, b) = operands_of(nodes, n);
        if a.var() == n {
            return Ok(());
        }
        self.expand_gate(j, a, b)
    }

    /// Expands so many members, those of the highest nodes first, or all.
    #[tactic(auto, using(crate::proofs::ConeMembers::goes_on_twice, crate::proofs::ConeMembers::goes_on_same))]
    pub fn grow(&mut self, nodes: &[Node], most: u32) -> Result<(), AllocError>
        requires graph { IsGraph nodes.now }
        requires cone { IsCone nodes.now self.old.members.items self.old.cnf }
        ensures on { OnOk result (GoesOn self.old.members.items self.new.members.items) }
        ensures cone { OnOk result (IsCone nodes.now self.new.members.items self.new.cnf) }
    {
        for _ in 0..most {
            let Some(j) = self.frontier.pop() else {
                return Ok(());
            };
            if j < self.cnf.vars() {
                self.expand(nodes, j)?;
            }
        }
        Ok(())
    }
}
