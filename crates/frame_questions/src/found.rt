//! One question over frames that stay as they are: the clauses of the question stand beside theirs, and the solver reads
//! both. It tells the least frame of a path in which two literals differ, or gives a log that there is no such path.
ghost use Rattle.std.specs.Prelude.{◌≡◌, ◌<◌, ◌≤◌, ◌+◌, ◌*◌, ◌/◌, ℕ, true, false, not, length, IfOk, None, Some};
ghost use Rattle.circ_model.specs.Correspondence.{IsLiteral};
ghost use Rattle.circ_model.specs.Meaning.{places_of, literal_value};
ghost use Rattle.cnf_store.specs.Clauses.{satisfies};
ghost use Rattle.frame_questions.specs.Found.{IsSeen, IsFound, EqualIn, DiffersIn};
ghost use Rattle.frame_unroll.specs.Frames.{values};
ghost use Rattle.frame_unroll.specs.Unrolled.{AreFramesOf, after_classes, asking, asks, clauses_of, from_reset, variables_of};

use bit_rows::BitRow;
use circ_model::Lit;
use class_partition::Classes;
use frame_unroll::{Outline, Question, Unrolled};
use product_machine::{Path, Product};
use sat_core::{Answer, Ready, Workspace};
use sat_log::Log;
use std::alloc::{AllocError, Global};
use std::marker::Model;

/// A path on which two literals differ: the least frame of those asked in which they do, and the values of all places there.
#[derive(Drop)]
pub struct Seen {
    /// The path, of all the frames.
    pub path: Path,
    /// The frame, counted from 0.
    pub frame: u32,
    /// A bit for each place.
    pub bits: BitRow,
}

/// Whether a path that is sought has two literals apart.
#[derive(Drop)]
pub enum Separation {
    /// None has: the log derives the empty clause.
    None(Log),
    /// This one has.
    Path(Seen),
}

/// Frames without a question, made ready for the solver once for many: their clauses stand in its codes alone.
#[derive(Drop)]
pub struct Prepared<'p> {
    pub(crate) frames: Outline<'p>,
    pub(crate) ready: Ready,
}

impl<'p> Model for Prepared<'p> {
    ghost use Rattle.frame_questions.specs.Found.{ArePrepared};
    ghost use Rattle.frame_unroll.specs.Unrolled.{Unrolling};

    ghost Value = { Unrolling };

    ghost view = { λ p. p.frames };

    ghost invariant = { λ p. ArePrepared p.frames p.ready };
}

impl<'p> Prepared<'p> {
    /// Makes frames ready.
    pub fn new(alloc: Global, frames: Unrolled<'p>) -> Result<Prepared<'p>, AllocError>
        requires none { frames.asked ≡ None }
        ensures { IfOk result (λ p. p ≡ frames.entry) }
    {
        let ready = Ready::new(alloc, frames.cnf())?;
        let frames = frames.into_outline();
        Ok(Prepared { frames, ready })
    }

    /// The first t frames from reset, ready.
    pub fn reset_frames(
        alloc: Global,
        product: &'p Product,
        t: u32,
    ) -> Result<Prepared<'p>, AllocError>
        requires some { 0 < t }
        requires few { t ≤ 64 }
        ensures { IfOk result (λ p. p ≡ from_reset product.entry.now t) }
    {
        Prepared::new(alloc, Unrolled::reset_frames(alloc, product, t)?)
    }

    /// k frames from any state in which the needed pairs of the classes hold, and one more, ready.
    pub fn step_frames(
        alloc: Global,
        product: &'p Product,
        k: u32,
        classes: &Classes,
    ) -> Result<Prepared<'p>, AllocError>
        requires few { k < 64 }
        requires places { length classes.now.least ≡ places_of product.now }
        ensures { IfOk result (λ p. p ≡ after_classes product.entry.now k classes.now) }
    {
        Prepared::new(alloc, Unrolled::step_frames(alloc, product, k, classes)?)
    }

    /// How many frames there are.
    pub fn count(&self) -> u32
        ensures { result ≡ self.now.frames }
    {
        self.frames.count()
    }

    /// Whether two literals differ, in some of the frames first to last, on some path that the frames ask for: counted from 0,
    /// both included. It tells the first of those frames in which they do. An `Err` is want of memory. It works in the memory
    /// of earlier questions, of any frames: one over the same frames costs what it touches.
    pub fn find_in(
        &self,
        alloc: Global,
        work: &mut Workspace,
        a: Lit,
        b: Lit,
        first: u32,
        last: u32,
    ) -> Result<Separation, AllocError>
        requires left { IsLiteral self.now.pair a }
        requires right { IsLiteral self.now.pair b }
        requires order { first ≤ last }
        requires within { last < self.now.frames }
        ensures { IfOk result (IsFound self.now (asks a b first last)) }
    {
        let _frames = self.frames.count();
        let question = Question {
            a,
            b,
            first,
            count: last - first + 1,
        };
        let own = self.frames.beside(alloc, question)?;
        let answer = self.ready.solve_in(alloc, work, &own);
        drop(own);
        match answer? {
            Answer::Unsat(log) => Ok(Separation::None(log)),
            Answer::Sat(row) => Ok(Separation::Path(self.seen_in(alloc, &row, question)?)),
        }
    }

    /// What `find_in` finds, in memory of its own.
    pub fn find(
        &self,
        alloc: Global,
        a: Lit,
        b: Lit,
        first: u32,
        last: u32,
    ) -> Result<Separation, AllocError>
        requires left { IsLiteral self.now.pair a }
        requires right { IsLiteral self.now.pair b }
        requires order { first ≤ last }
        requires within { last < self.now.frames }
        ensures { IfOk result (IsFound self.now (asks a b first last)) }
    {
        let mut work = Workspace::new();
        let found = self.find_in(alloc, &mut work, a, b, first, last);
        drop(work);
        found
    }

    // What a row that satisfies the frames and a question shows.
    fn seen_in(&self, alloc: Global, row: &BitRow, question: Question) -> Result<Seen, AllocError>
        requires asked { AreFramesOf self.now.frames self.now.pair (Some question) }
        requires size { length row.now ≡ variables_of (asking self.now question) }
        requires satisfied { satisfies row.now (clauses_of (asking self.now question)) ≡ true }
        ensures { IfOk result (IsSeen self.now question) }
    {
        let _frames = self.frames.count();
        let Question { a, b, first, count } = question;
        let n = self.frames.product().len();
        let path = self.frames.path_beside(alloc, row, question)?;
        let frame = frame_of(row, n, a, b, first, count);
        let bits = self.frames.frame_row(alloc, row, frame)?;
        Ok(Seen { path, frame, bits })
    }
}

// The first frame of those asked in which the literals differ, where there are n places a frame.
fn frame_of(row: &BitRow, n: u32, a: Lit, b: Lit, first: u32, count: u32) -> u32
    requires left { a / 2 < n }
    requires right { b / 2 < n }
    requires within { (first + count) * n ≤ length row.now }
    requires room { (first + count) * n < 4294967296 }
    requires frames { first + count < 4294967296 }
    requires one { (i : ℕ) × (i < count) × DiffersIn n row.now (first + i) a b }
    ensures from { first ≤ result }
    ensures to { result < first + count }
    ensures apart { DiffersIn n row.now result a b }
    ensures before { (t : ℕ) → first ≤ t → t < result → EqualIn n row.now t a b }
{
    for i in 0..count {
        let t = first + i;
        if differ(value_at(row, t, t * n, n, a), value_at(row, t, t * n, n, b)) {
            return t;
        }
    }
    unreachable!()
}

// A literal's value in frame t, whose bits begin at `base`.
fn value_at(row: &BitRow, t: u32, base: u32, n: u32, lit: Lit) -> bool
    requires base { base ≡ t * n }
    requires within { base + lit / 2 < length row.now }
    requires room { base + lit / 2 < 4294967296 }
    ensures { result ≡ literal_value (values row.now n t) lit }
{
    let value = row.get(base + lit.var());
    if lit.complement() { !value } else { value }
}

// Whether two values differ.
fn differ(x: bool, y: bool) -> bool
    ensures yes { result ≡ true → x ≡ not y }
    ensures no { result ≡ false → x ≡ y }
{
    x != y
}
