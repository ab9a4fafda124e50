//! What refutations learned on the way: clauses over nodes that hold under each valuation. Another question over the same nodes
//! begins with them, as an incremental solver does with its learned clauses (N. Eén, N. Sörensson, Temporal induction by
//! incremental SAT solving, BMC 2003). A line of a derivation is one where it rests on the clauses of the cone alone, and not on
//! those that say that two literals differ.
ghost use Rattle.std.specs.Prelude.{◌≡◌, ◌≤◌, ◌<◌, ◌/◌, ◌^◌, ◌++◌, ◌∷◌, [], ℕ, ℤ, List, Bool, IfSome, IsTrue, OnOk, OnErr, length, slice_index_or};
ghost use Rattle.circ_model.specs.Meaning.{literal_value};
ghost use Rattle.cnf_store.specs.Clauses.{AreLiterals, IsLiteral, literal_true};
ghost use Rattle.sat_log.specs.Derivations.{AllFollow, line_at};
ghost use Rattle.and_graph.specs.Cones.{AreWithin, Shows};
ghost use Rattle.and_graph.specs.Lemmas.{AreLemmas, ArePureHints, ClauseHolds, GivenHold, IsPureHint, PureHold};

use crate::activity::Activity;
use crate::effort::{Effort, Work};
use crate::node::Node;
use circ_model::Lit;
use cnf_store::{Arena, Cnf};
use sat_log::Log;
use std::alloc::{AllocError, Global};

// A clause of more literals is not worth keeping.
const LONGEST: usize = 8;

// A refutation of fewer lines was easy.
const EASY: u64 = 20;

// No lemma.
const NONE: u32 = u32::MAX;

/// Clauses over nodes.
#[derive(Drop)]
pub(crate) struct Lemmas {
    pub clauses: Arena<Lit>,
    // by node, the last lemma of which it is the highest; by lemma, the one before it with the same: hints
    last: Vec<u32>,
    before: Vec<u32>,
    row: Vec<Lit>,
    // the nodes that were merged into others: hints
    merged: Vec<u32>,
    // what questions left of the nodes beside, and how hard they were
    pub activity: Activity,
    pub effort: Effort,
    // how hard questions over whole cones were, large or not
    pub toil: Effort,
    pub work: Work,
}

// The node's literal for which a literal of a member stands.
pub(crate) fn node_literal(members: &[u32], lit: i32) -> Lit
    requires literal { IsLiteral (length members.now) lit }
    requires few { AreWithin (2 ^ 31) members.now }
    ensures place { (size : ℕ) → AreWithin size members.now → result / 2 < size }
    ensures value { (v : ℕ → Bool) (a : List Bool) → Shows members.now v a → literal_value v result ≡ literal_true a lit }
{
    let n = members[(lit.unsigned_abs() - 1) as usize];
    Lit::of(n, lit < 0)
}

// Writes a clause over members as one over nodes.
fn write(members: &[u32], clause: &[i32], row: &mut Vec<Lit>) -> Result<(), AllocError>
    requires literals { AreLiterals (length members.now) clause.now }
    requires small { AreLiterals 2147483647 clause.now }
    requires few { AreWithin (2 ^ 31) members.now }
    ensures size { OnOk result (length row.new.items ≡ length clause.now) }
    ensures each { OnOk result ((v : ℕ → Bool) (a : List Bool) (j : ℕ) (d : ℤ) → Shows members.now v a → j < length clause.now → literal_value v (slice_index_or row.new.items j 0) ≡ literal_true a (slice_index_or clause.now j d)) }
{
    row.clear();
    for lit in clause {
        row.push(node_literal(members, *lit))?;
    }
    Ok(())
}

// Whether a hint names one of the first clauses, or a line that rests on them alone.
fn is_pure_hint(pure: &[bool], given: u64, total: u64, hint: u64) -> bool
    ensures { IsTrue result → IsPureHint pure.now given total hint }
{
    if hint <= given {
        return true;
    }
    if hint <= total {
        return false;
    }
    let line = hint - total - 1;
    line < pure.len() as u64 && pure[line as usize]
}

// Whether all hints do.
fn are_pure(pure: &[bool], given: u64, total: u64, hints: &[u64]) -> bool
    ensures { IsTrue result → ArePureHints pure.now given total hints.now }
{
    for hint in hints {
        if !is_pure_hint(pure, given, total, *hint) {
            return false;
        }
    }
    true
}

impl Lemmas {
    /// None yet.
    pub fn new(alloc: Global) -> Lemmas
        ensures { result.clauses ≡ [] }
    {
        Lemmas {
            clauses: Arena::new(alloc),
            last: Vec::new(alloc),
            before: Vec::new(alloc),
            row: Vec::new(alloc),
            merged: Vec::new(alloc),
            activity: Activity::new(alloc),
            effort: Effort::new(),
            toil: Effort::new(),
            work: Work::new(),
        }
    }

    /// The last lemma of which a node is the highest. A hint.
    pub fn last_at(&self, n: u32) -> u32 {
        if (n as usize) < self.last.len() {
            self.last[n as usize]
        } else {
            NONE
        }
    }

    /// The one before a lemma with the same highest node. A hint.
    pub fn before(&self, i: u32) -> u32 {
        if (i as usize) < self.before.len() {
            self.before[i as usize]
        } else {
            NONE
        }
    }

    /// Notes that a node was merged into another. A hint, which goes where memory runs out.
    pub fn note_merged(&mut self, n: u32)
        ensures { self.new.clauses ≡ self.old.clauses }
    {
        let _ = self.merged.push(n);
    }

    /// How many nodes were merged into others.
    pub fn merges(&self) -> usize {
        self.merged.len()
    }

    /// The node that was merged as this one of them.
    pub fn merged(&self, i: usize) -> u32 {
        if i < self.merged.len() {
            self.merged[i]
        } else {
            0
        }
    }

    // Has the last lemma stand with its highest node.
    fn file(&mut self) -> Result<(), AllocError>
        ensures { self.new.clauses ≡ self.old.clauses }
    {
        let mut top = 0;
        for lit in self.row.as_slice() {
            top = lit.var().max(top);
        }
        let row = top as usize;
        if row >= self.last.len() {
            self.last.resize(2 * row + 64, NONE)?;
        }
        let i = self.before.len().min(NONE as usize) as u32;
        self.before.push(self.last[row])?;
        self.last[row] = i;
        Ok(())
    }

    // Takes in a clause over members.
    #[tactic(auto, using(crate::proofs::Learning::lemma_added))]
    fn take(&mut self, nodes: &[Node], members: &[u32], clause: &[i32]) -> Result<(), AllocError>
        requires literals { AreLiterals (length members.now) clause.now }
        requires small { AreLiterals 2147483647 clause.now }
        requires few { AreWithin (2 ^ 31) members.now }
        requires holds { ClauseHolds nodes.now members.now clause.now }
        requires lemmas { AreLemmas nodes.now self.old.clauses }
        ensures lemmas { AreLemmas nodes.now self.new.clauses }
    {
        write(members, clause, &mut self.row)?;
        self.clauses.add(self.row.as_slice())?;
        self.file()
    }

    #[tactic(auto, using(crate::proofs::Learning::line_holds, crate::proofs::Learning::pure_pushed))]
    /// Takes in the lines of a derivation that rest on the first so many clauses alone, where these hold under each valuation.
    pub fn learn(
        &mut self,
        alloc: Global,
        nodes: &[Node],
        members: &[u32],
        cnf: &Cnf,
        given: u64,
        log: &Log,
    ) -> Result<(), AllocError>
        requires few { AreWithin (2 ^ 31) members.now }
        requires vars { cnf.now.vars ≡ length members.now }
        requires given { given ≤ length cnf.now.clauses }
        requires hold { GivenHold nodes.now members.now cnf.now.clauses given }
        requires follow { AllFollow cnf.now.vars cnf.now.clauses log.now }
        requires lemmas { AreLemmas nodes.now self.old.clauses }
        ensures lemmas { AreLemmas nodes.now self.new.clauses }
    {
        if log.len() < EASY {
            return Ok(());
        }
        let total = cnf.len();
        let mut pure = Vec::new(alloc);
        for i in 0..log.len() {
            let is_pure = are_pure(pure.as_slice(), given, total, log.hints(i));
            pure.push(is_pure)?;
            if is_pure && log.clause(i).len() <= LONGEST {
                self.take(nodes, members, log.clause(i))?;
            }
        }
        Ok(())
    }
}
