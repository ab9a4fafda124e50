//! Questions whether two literals can differ, over a cone: how they are laid, and what their answers say.
ghost use Rattle.std.specs.Prelude.{◌≡◌, ◌<◌, ◌/◌, IfOk, IfNone, OnOk, length};
ghost use Rattle.sat_core.specs.Answers.{IsAnswer};
ghost use Rattle.and_graph.specs.Graphs.{AreEqual, IsGraph};
ghost use Rattle.and_graph.specs.Cones.{IsCone, member_at};
ghost use Rattle.and_graph.specs.Lemmas.{AreLemmas};
ghost use Rattle.and_graph.specs.Questions.{IsQuestion};

use crate::clauses::add_apart;
use crate::cone::Cone;
use crate::lemmas::Lemmas;
use crate::node::Node;
use crate::pattern::{LeafValue, Pattern, pattern_of};
use circ_model::Lit;
use sat_core::Answer;
use std::alloc::{AllocError, Global};

/// So many lines of a refutation count at most for how hard questions were.
pub(crate) const MOST_LINES: u64 = 4000;

/// A question: its literals, and how many clauses its cone had before those that say that they differ.
#[derive(Clone, Copy)]
pub(crate) struct Posed {
    pub x: Lit,
    pub y: Lit,
    pub given: u64,
}

/// A pattern under which two literals differ: a hint.
#[derive(Drop)]
pub(crate) struct Differing {
    pub x: Lit,
    pub y: Lit,
    pub leaves: Vec<LeafValue>,
}

impl Differing {
    /// A pattern, kept for later.
    pub fn of(alloc: Global, x: Lit, y: Lit, pattern: &Pattern) -> Result<Differing, AllocError> {
        let mut leaves = Vec::new(alloc);
        leaves.extend_from_slice(pattern.leaves.as_slice())?;
        Ok(Differing { x, y, leaves })
    }

    /// The pattern, where it is of these literals.
    pub fn pattern(&self, alloc: Global, x: Lit, y: Lit) -> Result<Option<Pattern>, AllocError> {
        if self.x != x || self.y != y {
            return Ok(None);
        }
        let mut leaves = Vec::new(alloc);
        leaves.extend_from_slice(self.leaves.as_slice())?;
        Ok(Some(Pattern { leaves }))
    }
}

impl Cone {
    // The two literals alone, not expanded; answers the members for their nodes.
    fn seed(&mut self, nodes: &[Node], x: Lit, y: Lit) -> Result<(u32, u32), AllocError>
        requires left { x / 2 < length nodes.now }
        requires right { y / 2 < length nodes.now }
        ensures cone { OnOk result (IsCone nodes.now self.new.members.items self.new.cnf) }
        ensures within { IfOk result (λ s. (s.0 < length self.new.members.items) × (s.1 < length self.new.members.items)) }
        ensures left { IfOk result (λ s. member_at self.new.members.items s.0 ≡ x / 2) }
        ensures right { IfOk result (λ s. member_at self.new.members.items s.1 ≡ y / 2) }
    {
        self.clear();
        let left = self.member_of(x.var())?;
        let right = self.member_of(y.var())?;
        Ok((left, right))
    }

    /// Lays the cone of a question, so many nodes of it, the highest first. Where it is all, lemmas are taken in. Answers how many
    /// clauses it has before those that say that the literals differ.
    pub fn pose(
        &mut self,
        nodes: &[Node],
        lemmas: &Lemmas,
        x: Lit,
        y: Lit,
        most: u32,
        clause: &mut Vec<i32>,
    ) -> Result<u64, AllocError>
        requires graph { IsGraph nodes.now }
        requires left { x / 2 < length nodes.now }
        requires right { y / 2 < length nodes.now }
        requires lemmas { AreLemmas nodes.now lemmas.now.clauses }
        ensures { IfOk result (IsQuestion nodes.now self.new.members.items self.new.cnf x y) }
    {
        let (left, right) = self.seed(nodes, x, y)?;
        self.lay(nodes, most, lemmas, clause)?;
        let given = self.cnf.len();
        let _vars = self.cnf.vars();
        add_apart(
            &mut self.cnf,
            (left, x.complement()),
            (right, y.complement()),
        )?;
        Ok(given)
    }

    /// Takes in a question's answer: what a refutation shows of the nodes on the way is learned, else it has a pattern.
    pub fn take(
        &self,
        alloc: Global,
        nodes: &[Node],
        lemmas: &mut Lemmas,
        posed: Posed,
        answer: &Answer,
    ) -> Result<Option<Pattern>, AllocError>
        requires graph { IsGraph nodes.now }
        requires question { IsQuestion nodes.now self.now.members.items self.now.cnf posed.x posed.y posed.given }
        requires answer { IsAnswer self.now.cnf answer.now }
        requires lemmas { AreLemmas nodes.now lemmas.old.clauses }
        ensures lemmas { AreLemmas nodes.now lemmas.new.clauses }
        ensures equal { IfOk result (λ found. IfNone found (AreEqual nodes.now posed.x posed.y)) }
    {
        let members = &self.members;
        lemmas.work.note(members.len(), answer);
        if self.frontier.is_empty() {
            lemmas.toil.note(answer, MOST_LINES);
        }
        match answer {
            Answer::Unsat(log) => {
                lemmas.learn(alloc, nodes, members, &self.cnf, posed.given, log)?;
                Ok(None)
            }
            Answer::Sat(row) => Ok(Some(pattern_of(alloc, nodes, members, row)?)),
        }
    }
}
