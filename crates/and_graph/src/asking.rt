//! Questions to the solver over cones: whether two literals can differ.
//!
//! First a window is asked about, the highest nodes of the cone over whatever values the nodes below may take, since most
//! equal literals are equal for a reason near by (Kuehlmann and Krohm, DAC 1997). Where that doesn't settle it, the cone is. A
//! question over a large cone may be put aside: it is solved without the graph, which others change meanwhile, and its answer is
//! taken in once what it rests on is found to stand.
ghost use Rattle.std.specs.Prelude.{◌≡◌, ◌<◌, ◌/◌, ◌⊎◌, IfErr, IfOk, IfNone, IfSome, IsTrue, None, OnErr, OnOk, Some, false, is_some, length, true};
ghost use Rattle.and_graph.specs.Askers.{IsHalted, IsTaken, solved};
ghost use Rattle.and_graph.specs.Graphs.{AreEqual, IsGraph};
ghost use Rattle.and_graph.specs.Lemmas.{AreLemmas};

use crate::canonical::canonical_of;
use crate::cone::Cone;
use crate::cone_solver::ConeSolver;
use crate::halt::Halt;
use crate::lemmas::Lemmas;
use crate::node::Node;
use crate::pattern::{Pattern, pattern_of};
use crate::posed::{Differing, MOST_LINES, Posed};
use crate::sums::Sum;
use circ_model::Lit;
use sat_core::Answer;
use std::alloc::{AllocError, Global};
use std::marker::Model;
use std::mem;

/// How many nodes a window has.
const WINDOW: u32 = 50;

/// Memory that questions share, of any graphs: each costs what its cone does. What was asked before changes no answer's meaning.
/// Contracts see which questions may be put aside, what is, and whether that is solved.
#[derive(Drop)]
pub struct Asker {
    cone: Cone,
    clause: Vec<i32>,
    solver: ConeSolver,
    sum: Sum,
    // a question over a cone of more nodes may be put aside, where refutations of late had so many lines and more
    most: Option<u32>,
    hard: u64,
    // what is put aside, of the cone; and its answer, once there is one
    posed: Option<Posed>,
    answer: Option<Answer>,
    found: Option<Differing>,
}

impl Model for Asker {
    ghost use Rattle.std.specs.Prelude.{◌≡◌, [], IfSome, is_some, length, option_map, true};
    ghost use Rattle.sat_core.specs.Answers.{IsAnswer};
    ghost use Rattle.and_graph.specs.Askers.{Asking};

    ghost Value = { Asking };

    ghost view = { λ a. record { most = a.most; aside = option_map (λ _. length a.cone.members.items) a.posed; solved = is_some a.answer } };

    ghost invariant = { λ a. IfSome a.answer (IsAnswer a.cone.cnf) × (is_some a.answer ≡ true → is_some a.posed ≡ true) };
}

impl Asker {
    /// Nothing was asked yet. It answers each question at once.
    pub fn new(alloc: Global) -> Result<Asker, AllocError>
        ensures { IfOk result (λ a. a ≡ record { most = None; aside = None; solved = false }) }
    {
        Asker::putting_aside(alloc, None, 0)
    }

    /// Nothing was asked yet. A question over a cone of more nodes than so many is put aside, where it may be, once refutations over
    /// such cones had so many lines and more of late.
    pub fn posing(alloc: Global, most: u32, hard: u64) -> Result<Asker, AllocError>
        ensures { IfOk result (λ a. a ≡ record { most = Some most; aside = None; solved = false }) }
    {
        Asker::putting_aside(alloc, Some(most), hard)
    }

    // Nothing was asked yet.
    fn putting_aside(alloc: Global, most: Option<u32>, hard: u64) -> Result<Asker, AllocError>
        ensures { IfOk result (λ a. a ≡ record { most = most; aside = None; solved = false }) }
    {
        Ok(Asker {
            cone: Cone::new(alloc)?,
            clause: Vec::new(alloc),
            solver: ConeSolver::new(alloc)?,
            sum: Sum::new(alloc),
            most,
            hard,
            posed: None,
            answer: None,
            found: None,
        })
    }

    // Whether a question is put aside whose cone has two nodes, or what they rest on with a few gates between.
    pub(crate) fn rests_on(&self, nodes: &[Node], n: u32, other: u32) -> bool
        requires graph { IsGraph nodes.now }
        ensures { IsTrue result → is_some self.now.aside ≡ true }
    {
        self.posed.is_some() && self.cone.is_near(nodes, n, other)
    }

    /// Solves the question that is put aside, if there is one. It errs for want of memory alone.
    pub fn solve(&mut self, alloc: Global) -> Result<(), AllocError>
        ensures solved { OnOk result (self.new ≡ solved self.old) }
        ensures unsolved { OnErr result (self.new ≡ self.old) }
    {
        if self.posed.is_some() {
            let answer = self.solver.decide(alloc, &self.cone)?;
            self.answer = Some(answer);
        }
        Ok(())
    }

    // Asks about so many nodes of the cone, the highest first. Where all are asked about, lemmas are taken in.
    fn ask(
        &mut self,
        alloc: Global,
        nodes: &[Node],
        lemmas: &mut Lemmas,
        x: Lit,
        y: Lit,
        most: u32,
    ) -> Result<Option<Pattern>, AllocError>
        requires graph { IsGraph nodes.now }
        requires left { x / 2 < length nodes.now }
        requires right { y / 2 < length nodes.now }
        requires lemmas { AreLemmas nodes.now lemmas.old.clauses }
        ensures lemmas { AreLemmas nodes.now lemmas.new.clauses }
        ensures equal { IfOk result (λ found. IfNone found (AreEqual nodes.now x y)) }
        ensures most { self.new.most ≡ self.old.most }
    {
        self.posed = None;
        drop(self.answer.take());
        let is_whole = most == u32::MAX;
        if is_whole && self.sum.are_equal(nodes, x, y)? {
            return Ok(None);
        }
        let cone = &mut self.cone;
        let given = cone.pose(nodes, lemmas, x, y, most, &mut self.clause)?;
        let answer = self
            .solver
            .decide_on(alloc, cone, is_whole, &mut lemmas.activity)?;
        let found = cone.take(alloc, nodes, lemmas, Posed { x, y, given }, &answer);
        drop(answer);
        found
    }

    // Asks about the whole cone, or puts that aside where it is large.
    fn ask_or_pose(
        &mut self,
        alloc: Global,
        nodes: &[Node],
        lemmas: &mut Lemmas,
        x: Lit,
        y: Lit,
    ) -> Result<Option<Pattern>, Halt>
        requires graph { IsGraph nodes.now }
        requires left { x / 2 < length nodes.now }
        requires right { y / 2 < length nodes.now }
        requires lemmas { AreLemmas nodes.now lemmas.old.clauses }
        ensures lemmas { AreLemmas nodes.now lemmas.new.clauses }
        ensures equal { IfOk result (λ found. IfNone found (AreEqual nodes.now x y)) }
        ensures most { self.new.most ≡ self.old.most }
        ensures halt { IfErr result (IsHalted self.old self.new) }
    {
        self.posed = None;
        drop(self.answer.take()); // it was another cone's
        if self.sum.are_equal(nodes, x, y)? {
            return Ok(None);
        }
        let cone = &mut self.cone;
        let given = cone.pose(nodes, lemmas, x, y, u32::MAX, &mut self.clause)?;
        let mut is_large = false;
        if let Some(most) = self.most {
            is_large = cone.members.len() > most as usize;
            if is_large && lemmas.effort.is_of(self.hard) {
                self.solver
                    .begin_with(&lemmas.activity, cone.members.as_slice())?;
                self.posed = Some(Posed { x, y, given });
                return Err(Halt::Posed);
            }
        }
        let answer = self
            .solver
            .decide_on(alloc, cone, true, &mut lemmas.activity)?;
        if is_large {
            lemmas.effort.note(&answer, self.hard.saturating_mul(4));
        }
        let taken = cone.take(alloc, nodes, lemmas, Posed { x, y, given }, &answer);
        drop(answer);
        let found = taken?;
        if let Some(pattern) = &found {
            let differing = Differing::of(alloc, x, y, pattern)?;
            drop(mem::replace(&mut self.found, Some(differing)));
        }
        Ok(found)
    }

    // The pattern that was found last, where it is of these literals.
    fn found_of(&self, alloc: Global, x: Lit, y: Lit) -> Result<Option<Pattern>, AllocError> {
        match &self.found {
            Some(found) => found.pattern(alloc, x, y),
            None => Ok(None),
        }
    }

    // Asks about a window, and then about the whole cone.
    pub(crate) fn difference(
        &mut self,
        alloc: Global,
        nodes: &[Node],
        lemmas: &mut Lemmas,
        a: Lit,
        b: Lit,
    ) -> Result<Option<Pattern>, AllocError>
        requires graph { IsGraph nodes.now }
        requires left { a / 2 < length nodes.now }
        requires right { b / 2 < length nodes.now }
        requires lemmas { AreLemmas nodes.now lemmas.old.clauses }
        ensures lemmas { AreLemmas nodes.now lemmas.new.clauses }
        ensures equal { IfOk result (λ found. IfNone found (AreEqual nodes.now a b)) }
        ensures most { self.new.most ≡ self.old.most }
    {
        let x = canonical_of(nodes, a);
        let y = canonical_of(nodes, b);
        let near = self.ask(alloc, nodes, lemmas, x, y, WINDOW)?;
        if near.is_none() || self.cone.frontier.is_empty() {
            return Ok(near);
        }
        self.ask(alloc, nodes, lemmas, x, y, u32::MAX)
    }

    // Whether two literals differ, as above, where the question may be put aside. What was found of it last is answered again.
    pub(crate) fn difference_or_pose(
        &mut self,
        alloc: Global,
        nodes: &[Node],
        lemmas: &mut Lemmas,
        a: Lit,
        b: Lit,
    ) -> Result<Option<Pattern>, Halt>
        requires graph { IsGraph nodes.now }
        requires left { a / 2 < length nodes.now }
        requires right { b / 2 < length nodes.now }
        requires lemmas { AreLemmas nodes.now lemmas.old.clauses }
        ensures lemmas { AreLemmas nodes.now lemmas.new.clauses }
        ensures equal { IfOk result (λ found. IfNone found (AreEqual nodes.now a b)) }
        ensures most { self.new.most ≡ self.old.most }
        ensures halt { IfErr result (IsHalted self.old self.new) }
    {
        let x = canonical_of(nodes, a);
        let y = canonical_of(nodes, b);
        if let Some(pattern) = self.found_of(alloc, x, y)? {
            return Ok(Some(pattern));
        }
        let near = self.ask(alloc, nodes, lemmas, x, y, WINDOW)?;
        if near.is_none() || self.cone.frontier.is_empty() {
            return Ok(near);
        }
        self.ask_or_pose(alloc, nodes, lemmas, x, y)
    }

    // Takes in the answer to what is put aside, as below. It stays aside.
    fn take_in(
        &mut self,
        alloc: Global,
        nodes: &[Node],
        lemmas: &mut Lemmas,
    ) -> Result<Option<(Lit, Lit)>, AllocError>
        requires graph { IsGraph nodes.now }
        requires lemmas { AreLemmas nodes.now lemmas.old.clauses }
        ensures lemmas { AreLemmas nodes.now lemmas.new.clauses }
        ensures left { IfOk result (λ r. IfSome r (λ s. s.0 / 2 < length nodes.now)) }
        ensures right { IfOk result (λ r. IfSome r (λ s. s.1 / 2 < length nodes.now)) }
        ensures equal { IfOk result (λ r. IfSome r (λ s. AreEqual nodes.now s.0 s.1)) }
        ensures most { (self.new.most ≡ self.old.most) ⊎ (self.new.most ≡ None) }
    {
        let Some(posed) = self.posed else {
            return Ok(None);
        };
        let Some(answer) = &self.answer else {
            return Ok(None);
        };
        let Posed { x, y, given } = posed;
        let cone = &self.cone;
        lemmas.effort.note(answer, self.hard.saturating_mul(4));
        lemmas.toil.note(answer, MOST_LINES);
        lemmas.work.note(cone.members.len(), answer);
        self.solver
            .leave(&mut lemmas.activity, cone.members.as_slice())?;
        match answer {
            Answer::Sat(row) => {
                let pattern = pattern_of(alloc, nodes, &cone.members, row)?;
                let differing = Differing::of(alloc, x, y, &pattern)?;
                drop(mem::replace(&mut self.found, Some(differing)));
                Ok(None)
            }
            Answer::Unsat(log) => {
                if !cone.stands(nodes, lemmas, x, y, given) {
                    self.most = None;
                    return Ok(None);
                }
                lemmas.learn(alloc, nodes, &cone.members, &cone.cnf, given, log)?;
                Ok(Some((x, y)))
            }
        }
    }

    // Takes in the answer to what was put aside, if there is one: two literals that are equal, where what that rests on is found
    // to stand; else questions are answered at once from then on. Or what was found, for when it is asked again.
    pub(crate) fn take_answer(
        &mut self,
        alloc: Global,
        nodes: &[Node],
        lemmas: &mut Lemmas,
    ) -> Result<Option<(Lit, Lit)>, AllocError>
        requires graph { IsGraph nodes.now }
        requires lemmas { AreLemmas nodes.now lemmas.old.clauses }
        ensures lemmas { AreLemmas nodes.now lemmas.new.clauses }
        ensures left { IfOk result (λ r. IfSome r (λ s. s.0 / 2 < length nodes.now)) }
        ensures right { IfOk result (λ r. IfSome r (λ s. s.1 / 2 < length nodes.now)) }
        ensures equal { IfOk result (λ r. IfSome r (λ s. AreEqual nodes.now s.0 s.1)) }
        ensures taken { OnOk result (IsTaken self.old self.new) }
    {
        if self.answer.is_none() {
            return Ok(None);
        }
        let taken = self.take_in(alloc, nodes, lemmas);
        drop(self.answer.take());
        self.posed = None; // it is answered
        taken
    }
}
