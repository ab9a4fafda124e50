//! Frames of a pair, with a question or none, without their clauses: what makes these, and those of a question beside them, and
//! reads the path of a row that satisfies both.
ghost use Rattle.std.specs.Prelude.{◌≡◌, ◌<◌, ◌≤◌, ◌+◌, ◌*◌, ℕ, true, length, IfOk, Some};
ghost use Rattle.circ_model.specs.Meaning.{IsSoundPair, bit, places_of};
ghost use Rattle.circ_model.specs.Correspondence.{IsLiteral};
ghost use Rattle.product_machine.specs.Cells.{Shows};
ghost use Rattle.cnf_store.specs.Clauses.{IsLiteral as IsClauseLiteral, satisfies};
ghost use Rattle.frame_unroll.specs.Frames.{literal_in, values};
ghost use Rattle.frame_unroll.specs.Pairs.{pairs_of};
ghost use Rattle.frame_unroll.specs.Ready.{IsOutline};
ghost use Rattle.frame_unroll.specs.Unrolled.{IsSought, IsUnrolling, AreFramesOf, asked_clauses, asking, clauses_of, plain_clauses, variables_of, from_reset, after_classes};

use crate::adding::Frame;
use crate::cells::add_frames;
use crate::equalities::{add_classes, needed_of};
use crate::path::{part_of, read_path};
use crate::question::{Question, add_asked};
use bit_rows::BitRow;
use circ_model::Lit;
use class_partition::Classes;
use cnf_store::Cnf;
use product_machine::{Path, Product};
use std::alloc::{AllocError, Global};
use std::marker::Model;

/// Frames of a pair, with a question or none, without their clauses. Contracts see it as what the clauses ask: the pair, whether
/// its frames are from reset, their number, the needed pairs that hold in all frames but the last, and the question.
#[derive(Drop)]
pub struct Outline<'p> {
    product: &'p Product,
    reset: bool,
    count: u32,
    pairs: Vec<(Lit, Lit)>,
    question: Option<Question>,
}

impl<'p> Model for Outline<'p> {
    ghost use Rattle.frame_unroll.specs.Ready.{unrolling, IsOutline};
    ghost use Rattle.frame_unroll.specs.Unrolled.{Unrolling};

    ghost Value = { Unrolling };

    ghost view = { λ o. unrolling o.product.now o.reset o.count o.pairs.items o.question };

    ghost invariant = { λ o. IsOutline (unrolling o.product.now o.reset o.count o.pairs.items o.question) };
}

impl<'p> Outline<'p> {
    // The first t frames from reset.
    pub(crate) fn reset_frames(alloc: Global, product: &'p Product, t: u32) -> Outline<'p>
        requires some { 0 < t }
        requires few { t ≤ 64 }
        ensures { result ≡ from_reset product.entry.now t }
    {
        let _cells = product.cells();
        Outline {
            product,
            reset: true,
            count: t,
            pairs: Vec::new(alloc),
            question: None,
        }
    }

    // k frames from any state in which the needed pairs of the classes hold, and one more.
    pub(crate) fn step_frames(
        alloc: Global,
        product: &'p Product,
        k: u32,
        classes: &Classes,
    ) -> Result<Outline<'p>, AllocError>
        requires few { k < 64 }
        requires places { length classes.now.least ≡ places_of product.now }
        ensures { IfOk result (λ o. o ≡ after_classes product.entry.now k classes.now) }
    {
        let _cells = product.cells();
        let _places = classes.len();
        let _few = product.len();
        let pairs = needed_of(alloc, classes)?;
        Ok(Outline {
            product,
            reset: false,
            count: k + 1,
            pairs,
            question: None,
        })
    }

    // The clauses of the frames, in the order of frames and places, and those of the needed pairs.
    pub(crate) fn clauses(&self, alloc: Global) -> Result<Cnf, AllocError>
        ensures clauses { IfOk result (λ cnf. cnf ≡ record { vars = self.now.frames * places_of self.now.pair; clauses = plain_clauses self.now }) }
        ensures outline { IsOutline self.now }
    {
        let product = self.product;
        let table = product.cells();
        let n = product.len();
        let mut cnf = Cnf::new(alloc, self.count * n)?;
        add_frames(&mut cnf, table, self.reset, self.count)?;
        add_classes(&mut cnf, n, self.count - 1, self.pairs.as_slice())?;
        Ok(cnf)
    }

    /// The pair.
    pub fn product(&self) -> &Product
        ensures { result.now ≡ self.entry.now.pair }
    {
        self.product
    }

    /// How many frames there are.
    pub fn count(&self) -> u32
        ensures value { result ≡ self.now.frames }
        ensures few { result ≤ 64 }
    {
        self.count
    }

    /// The literal of the clauses for a literal of the pair in a frame, counted from 0.
    pub fn literal(&self, lit: Lit, frame: u32) -> i32
        requires literal { IsLiteral self.now.pair lit }
        requires within { frame < self.now.frames }
        ensures value { result ≡ literal_in (places_of self.now.pair) frame lit }
        ensures is { IsClauseLiteral (self.now.frames * places_of self.now.pair) result }
    {
        let places = self.product.len();
        let at = Frame {
            places,
            number: frame,
            base: frame * places,
        };
        at.literal(lit)
    }

    // Puts a question, or none, in the place of the one before.
    pub(crate) fn set_question(&mut self, question: Option<Question>)
        requires { AreFramesOf self.old.frames self.old.pair question }
        ensures { self.new ≡ record self.old { asked = question } }
    {
        self.question = question;
    }

    /// The clauses of a question, to stand beside those of the frames: over their variables and its own.
    pub fn beside(&self, alloc: Global, question: Question) -> Result<Cnf, AllocError>
        requires asked { AreFramesOf self.now.frames self.now.pair (Some question) }
        ensures vars { IfOk result (λ own. own.vars ≡ variables_of (asking self.now question)) }
        ensures clauses { IfOk result (λ own. own.clauses ≡ asked_clauses (places_of self.now.pair) (self.now.frames * places_of self.now.pair) (Some question)) }
        ensures pair { IsSoundPair self.now.pair }
        ensures fine { IsUnrolling (asking self.now question) }
    {
        let product = self.product;
        let n = product.len();
        let used = self.count * n;
        let mut own = Cnf::new(alloc, used + question.count)?;
        add_asked(alloc, &mut own, n, used, question)?;
        Ok(own)
    }

    // The path whose frames have the bits of a row that satisfies the clauses.
    pub(crate) fn path_of(&self, alloc: Global, row: &BitRow) -> Result<Path, AllocError>
        requires size { length row.now ≡ variables_of self.now }
        requires satisfied { satisfies row.now (clauses_of self.now) ≡ true }
        ensures sought { IfOk result (λ path. IsSought self.now path) }
        ensures shown { IfOk result (λ path. Shows self.now.pair self.now.frames (values row.now (places_of self.now.pair)) path) }
    {
        let product = self.product;
        read_path(alloc, product, row, self.count)
    }

    /// The path whose frames have the bits of a row that satisfies the clauses of the frames and a question's beside them.
    pub fn path_beside(
        &self,
        alloc: Global,
        row: &BitRow,
        question: Question,
    ) -> Result<Path, AllocError>
        requires asked { AreFramesOf self.now.frames self.now.pair (Some question) }
        requires size { length row.now ≡ variables_of (asking self.now question) }
        requires satisfied { satisfies row.now (clauses_of (asking self.now question)) ≡ true }
        ensures sought { IfOk result (IsSought (asking self.now question)) }
        ensures shown { IfOk result (λ path. Shows self.now.pair self.now.frames (values row.now (places_of self.now.pair)) path) }
    {
        let product = self.product;
        read_path(alloc, product, row, self.count)
    }

    // The needed pair that a clause, counted from 1, says is equal in a frame; so many clauses come before the question's.
    pub(crate) fn pairs_of(&self, plain: u64, clause: u64) -> &[(Lit, Lit)]
        requires { plain ≡ length (plain_clauses self.now) }
        ensures { result.now ≡ pairs_of self.entry.now clause }
    {
        let pairs = self.pairs.as_slice();
        let count = pairs.len() as u64;
        let first = plain - 2 * (self.count - 1) as u64 * count;
        if clause <= first || clause > plain {
            return &pairs[..0];
        }
        let i = ((clause - first - 1) / 2 % count) as usize;
        &pairs[i..i + 1]
    }

    /// The bits of the places in a frame, counted from 0, which stand in a row for the variables of the frames.
    pub fn frame_row(&self, alloc: Global, row: &BitRow, frame: u32) -> Result<BitRow, AllocError>
        requires within { frame < self.now.frames }
        requires size { self.now.frames * places_of self.now.pair ≤ length row.now }
        ensures size { IfOk result (λ r. length r ≡ places_of self.now.pair) }
        ensures bits { IfOk result (λ r. (p : ℕ) → p < places_of self.now.pair → bit r p ≡ values row.now (places_of self.now.pair) frame p) }
    {
        let n = self.product.len();
        part_of(alloc, row, frame * n, n)
    }
}
