//! Equal nodes in a cone. A merge drops the later node's gate from all cones, and with it what that says of the nodes beneath: the
//! sums of two adders say much of their carries, with which they share gates. So of two merged nodes both have their gates in a
//! whole cone, and clauses say that they are equal, as in a solver that is kept while it sweeps (Mishchenko, Chatterjee, Jiang and
//! Brayton, FRAIGs, 2005), where what they rest on is mostly there. Neither has to be a member.
ghost use Rattle.std.specs.Prelude.{◌≡◌, ◌<◌, ◌/◌, IfOk, OnOk, false, length};
ghost use Rattle.circ_model.specs.Meaning.{literal};
ghost use Rattle.and_graph.specs.Graphs.{AreEqual, IsGraph};
ghost use Rattle.and_graph.specs.Cones.{GoesOn, IsCone, member_at};

use crate::canonical::canonical_of;
use crate::clauses::add_equal;
use crate::cone::{Cone, operands_of};
use crate::lemmas::Lemmas;
use crate::node::Node;
use circ_model::Lit;
use std::alloc::AllocError;

// So many new members at most two equal nodes bring with them.
const MOST_NEW: usize = 20;

// How many nodes are noted at most.
const ROOM: usize = MOST_NEW + 3;

// A few nodes.
#[derive(Drop)]
struct Few {
    nodes: [u32; ROOM],
    len: usize,
}

impl Few {
    fn none() -> Few {
        Few {
            nodes: [0; ROOM],
            len: 0,
        }
    }

    // The node that was noted as this one.
    fn at(&self, i: usize) -> Option<u32> {
        if i < self.len && i < ROOM {
            Some(self.nodes[i])
        } else {
            None
        }
    }

    // Notes a node once, where there is room.
    fn note(&mut self, n: u32) {
        for i in 0..ROOM {
            if i >= self.len {
                self.nodes[i] = n;
                self.len = i + 1;
                return;
            }
            if self.nodes[i] == n {
                return;
            }
        }
    }
}

impl Cone {
    // Whether a node is a member.
    fn has(&self, n: u32) -> bool {
        let known = self.frontier.number_of(n) as usize;
        known < self.members.len() && self.members[known] == n
    }

    // Notes a node, where it is no member.
    fn note_new(&self, fresh: &mut Few, n: u32) {
        if !self.has(n) {
            fresh.note(n);
        }
    }

    // Whether the noted nodes rest on members, with a few gates between.
    fn reaches(&self, nodes: &[Node], fresh: &mut Few) -> bool
        requires graph { IsGraph nodes.now }
    {
        for next in 0..ROOM {
            let Some(n) = fresh.at(next) else {
                return fresh.len <= MOST_NEW;
            };
            if n as usize >= nodes.len() {
                return false;
            }
            if n == 0 {
                continue;
            }
            let (a, b) = operands_of(nodes, n);
            if a.var() == n || fresh.len > MOST_NEW {
                return false;
            }
            self.note_new(fresh, a.var());
            self.note_new(fresh, b.var());
        }
        false
    }

    /// Whether two nodes rest on members, with a few gates between.
    pub fn is_near(&self, nodes: &[Node], n: u32, other: u32) -> bool
        requires graph { IsGraph nodes.now }
    {
        let mut fresh = Few::none();
        self.note_new(&mut fresh, n);
        self.note_new(&mut fresh, other);
        self.reaches(nodes, &mut fresh)
    }

    // The members for two nodes, with the gates beneath them.
    #[tactic(auto, using(crate::proofs::ConeMembers::goes_on_twice))]
    fn meet_both(&mut self, nodes: &[Node], n: u32, other: u32) -> Result<(u32, u32), AllocError>
        requires graph { IsGraph nodes.now }
        requires left { n < length nodes.now }
        requires right { other < length nodes.now }
        requires cone { IsCone nodes.now self.old.members.items self.old.cnf }
        ensures on { OnOk result (GoesOn self.old.members.items self.new.members.items) }
        ensures cone { OnOk result (IsCone nodes.now self.new.members.items self.new.cnf) }
        ensures within { IfOk result (λ s. (s.0 < length self.new.members.items) × (s.1 < length self.new.members.items)) }
        ensures left { IfOk result (λ s. member_at self.new.members.items s.0 ≡ n) }
        ensures right { IfOk result (λ s. member_at self.new.members.items s.1 ≡ other) }
    {
        let left = self.member_of(n)?;
        let right = self.member_of(other)?;
        self.grow(nodes, u32::MAX)?;
        Ok((left, right))
    }

    // Takes in that a node is equal to a literal, with the gates of both.
    fn recall_equal(&mut self, nodes: &[Node], n: u32, lit: Lit) -> Result<(), AllocError>
        requires graph { IsGraph nodes.now }
        requires left { n < length nodes.now }
        requires right { lit / 2 < length nodes.now }
        requires equal { AreEqual nodes.now (literal n false) lit }
        requires cone { IsCone nodes.now self.old.members.items self.old.cnf }
        ensures on { OnOk result (GoesOn self.old.members.items self.new.members.items) }
        ensures cone { OnOk result (IsCone nodes.now self.new.members.items self.new.cnf) }
    {
        let (left, right) = self.meet_both(nodes, n, lit.var())?;
        let _vars = self.cnf.vars();
        add_equal(&mut self.cnf, (left, false), (right, lit.complement()))?;
        Ok(())
    }

    // Takes in a node that was merged, where it is near.
    #[tactic(auto, using(crate::proofs::ConeMembers::goes_on_same, crate::proofs::ConeMembers::goes_on_to))]
    fn recall_merged(&mut self, nodes: &[Node], n: u32) -> Result<(), AllocError>
        requires graph { IsGraph nodes.now }
        requires cone { IsCone nodes.now self.old.members.items self.old.cnf }
        ensures on { OnOk result (GoesOn self.old.members.items self.new.members.items) }
        ensures cone { OnOk result (IsCone nodes.now self.new.members.items self.new.cnf) }
    {
        if n as usize >= nodes.len() {
            return Ok(());
        }
        let lit = canonical_of(nodes, Lit::of(n, false));
        if lit.var() != 0 && self.is_near(nodes, n, lit.var()) {
            self.recall_equal(nodes, n, lit)?;
        }
        Ok(())
    }

    /// Takes in the merged nodes that are near.
    #[tactic(auto, using(crate::proofs::ConeMembers::goes_on_twice, crate::proofs::ConeMembers::goes_on_same))]
    pub fn recall_equals(&mut self, nodes: &[Node], lemmas: &Lemmas) -> Result<(), AllocError>
        requires graph { IsGraph nodes.now }
        requires cone { IsCone nodes.now self.old.members.items self.old.cnf }
        ensures on { OnOk result (GoesOn self.old.members.items self.new.members.items) }
        ensures cone { OnOk result (IsCone nodes.now self.new.members.items self.new.cnf) }
    {
        for i in 0..lemmas.merges() {
            self.recall_merged(nodes, lemmas.merged(i))?;
        }
        Ok(())
    }
}
