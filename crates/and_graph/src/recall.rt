//! Lemmas in a cone: those of which each node is a member are clauses of it from the beginning.
ghost use Rattle.std.specs.Prelude.{◌≡◌, ◌≤◌, ◌<◌, ℕ, ℤ, List, Bool, IfOk, IfSome, IsTrue, OnOk, length, slice_index_or};
ghost use Rattle.circ_model.specs.Meaning.{literal_value};
ghost use Rattle.cnf_store.specs.Clauses.{AreLiterals, IsLiteral, literal_true};
ghost use Rattle.and_graph.specs.Graphs.{IsGraph, Obeys};
ghost use Rattle.and_graph.specs.Cones.{GoesOn, IsCone, Shows, member_at};
ghost use Rattle.and_graph.specs.Lemmas.{AreLemmas, SomeHolds};

use crate::canonical::canonical_of;
use crate::clauses::literal_of;
use crate::cone::Cone;
use crate::lemmas::Lemmas;
use crate::node::Node;
use circ_model::Lit;
use std::alloc::AllocError;

// Equal nodes are taken in too where the last refutations over whole cones had at least a line for so many members: laying them
// costs what the cone does, and saves where the search is long.
const MEMBERS_A_LINE: u64 = 8;

impl Cone {
    // The member for a node, where there is one.
    fn known_member(&self, n: u32) -> Option<u32>
        requires vars { self.now.cnf.vars ≡ length self.now.members.items }
        ensures within { IfSome result (λ j. j < length self.now.members.items) }
        ensures few { IfSome result (λ j. j < 2147483647) }
        ensures at { IfSome result (λ j. member_at self.now.members.items j ≡ n) }
    {
        let known = self.frontier.number_of(n);
        if known < self.cnf.vars() && self.members[known as usize] == n {
            return Some(known);
        }
        None
    }

    // The literal of a member for a node's literal, where its canonical node is one.
    fn member_literal(&self, nodes: &[Node], lit: Lit) -> Option<i32>
        requires graph { IsGraph nodes.now }
        requires vars { self.now.cnf.vars ≡ length self.now.members.items }
        ensures literal { IfSome result (λ x. IsLiteral self.now.cnf.vars x) }
        ensures value { IfSome result (λ x. (v : ℕ → Bool) (a : List Bool) → Obeys nodes.now v → Shows self.now.members.items v a → literal_true a x ≡ literal_value v lit) }
    {
        if lit.var() as usize >= nodes.len() {
            return None;
        }
        let own = canonical_of(nodes, lit);
        match self.known_member(own.var()) {
            Some(j) => Some(literal_of(j, own.complement())),
            None => None,
        }
    }

    // Writes a lemma as a clause over members. Answers whether each of its nodes is one.
    fn write(
        &self,
        nodes: &[Node],
        lemma: &[Lit],
        clause: &mut Vec<i32>,
    ) -> Result<bool, AllocError>
        requires graph { IsGraph nodes.now }
        requires vars { self.now.cnf.vars ≡ length self.now.members.items }
        ensures size { IfOk result (λ all. IsTrue all → length clause.new.items ≡ length lemma.now) }
        ensures literals { IfOk result (λ all. IsTrue all → AreLiterals self.now.cnf.vars clause.new.items) }
        ensures each { IfOk result (λ all. IsTrue all → (v : ℕ → Bool) (a : List Bool) (j : ℕ) (d : ℤ) → Obeys nodes.now v → Shows self.now.members.items v a → j < length clause.new.items
            → literal_true a (slice_index_or clause.new.items j d) ≡ literal_value v (slice_index_or lemma.now j 0)) }
    {
        clause.clear();
        for i in 0..lemma.len() {
            match self.member_literal(nodes, lemma[i]) {
                Some(x) => clause.push(x)?,
                None => return Ok(false),
            }
        }
        Ok(true)
    }

    // Takes in a lemma, the one of this number, where each of its nodes is a member.
    #[tactic(auto, using(crate::proofs::Learning::cone_lemma))]
    fn recall(
        &mut self,
        nodes: &[Node],
        lemma: &[Lit],
        number: u32,
        clause: &mut Vec<i32>,
    ) -> Result<(), AllocError>
        requires graph { IsGraph nodes.now }
        requires holds { (v : ℕ → Bool) → Obeys nodes.now v → SomeHolds v lemma.now }
        requires cone { IsCone nodes.now self.old.members.items self.old.cnf }
        ensures members { self.new.members.items ≡ self.old.members.items }
        ensures cone { OnOk result (IsCone nodes.now self.new.members.items self.new.cnf) }
    {
        if self.write(nodes, lemma, clause)? {
            self.cnf.add(clause.as_slice())?;
            self.recalled.push(number)?;
        }
        Ok(())
    }

    // Takes in the lemmas of which a node is the highest.
    fn recall_at(
        &mut self,
        nodes: &[Node],
        lemmas: &Lemmas,
        n: u32,
        clause: &mut Vec<i32>,
    ) -> Result<(), AllocError>
        requires graph { IsGraph nodes.now }
        requires lemmas { AreLemmas nodes.now lemmas.now.clauses }
        requires cone { IsCone nodes.now self.old.members.items self.old.cnf }
        ensures members { self.new.members.items ≡ self.old.members.items }
        ensures cone { OnOk result (IsCone nodes.now self.new.members.items self.new.cnf) }
    {
        let mut at = lemmas.last_at(n);
        for _ in 0..lemmas.clauses.len() {
            if at as usize >= lemmas.clauses.len() {
                return Ok(());
            }
            let lemma = lemmas.clauses.get(at as usize);
            self.recall(nodes, lemma, at, clause)?;
            at = lemmas.before(at);
        }
        Ok(())
    }

    /// Takes in the lemmas of which each node is a member.
    pub fn recall_all(
        &mut self,
        nodes: &[Node],
        lemmas: &Lemmas,
        clause: &mut Vec<i32>,
    ) -> Result<(), AllocError>
        requires graph { IsGraph nodes.now }
        requires lemmas { AreLemmas nodes.now lemmas.now.clauses }
        requires cone { IsCone nodes.now self.old.members.items self.old.cnf }
        ensures members { self.new.members.items ≡ self.old.members.items }
        ensures cone { OnOk result (IsCone nodes.now self.new.members.items self.new.cnf) }
    {
        for j in 0..self.members.len() {
            let n = self.members[j];
            self.recall_at(nodes, lemmas, n, clause)?;
        }
        Ok(())
    }

    /// Expands so many members, those of the highest nodes first; or all, and then it takes in lemmas.
    #[tactic(auto, using(crate::proofs::ConeMembers::goes_on_to, crate::proofs::ConeMembers::goes_on_twice))]
    pub fn lay(
        &mut self,
        nodes: &[Node],
        most: u32,
        lemmas: &Lemmas,
        clause: &mut Vec<i32>,
    ) -> Result<(), AllocError>
        requires graph { IsGraph nodes.now }
        requires lemmas { AreLemmas nodes.now lemmas.now.clauses }
        requires cone { IsCone nodes.now self.old.members.items self.old.cnf }
        ensures on { OnOk result (GoesOn self.old.members.items self.new.members.items) }
        ensures cone { OnOk result (IsCone nodes.now self.new.members.items self.new.cnf) }
    {
        self.grow(nodes, most)?;
        if most == u32::MAX {
            if lemmas
                .toil
                .is_of(self.members.len() as u64 / MEMBERS_A_LINE)
            {
                self.recall_equals(nodes, lemmas)?;
            }
            self.recall_all(nodes, lemmas, clause)?;
        }
        Ok(())
    }
}
