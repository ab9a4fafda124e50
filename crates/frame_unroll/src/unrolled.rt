//! Frames of a pair as clauses, with a question or none. The frames' clauses are made once; a question is a few clauses at
//! the end, which go when it is dropped.
ghost use Rattle.std.specs.Prelude.{◌≡◌, ◌<◌, ◌≤◌, ◌+◌, ◌-◌, List, Bool, true, length, IfOk, OnOk, OnErr, None, Some};
ghost use Rattle.circ_model.specs.Meaning.{Path as Steps, places_of};
ghost use Rattle.circ_model.specs.Correspondence.{IsLiteral};
ghost use Rattle.product_machine.specs.Cells.{Shows};
ghost use Rattle.cnf_store.specs.Clauses.{IsFormula, satisfies};
ghost use Rattle.frame_unroll.specs.Frames.{values};
ghost use Rattle.frame_unroll.specs.Pairs.{pairs_of};
ghost use Rattle.frame_unroll.specs.Unrolled.{IsSought, clauses_of, variables_of, formula_of, from_reset, after_classes};

use crate::outline::Outline;
use crate::question::{Question, add_asked};
use bit_rows::BitRow;
use circ_model::Lit;
use class_partition::Classes;
use cnf_store::Cnf;
use product_machine::{Path, Product};
use std::alloc::{AllocError, Global};
use std::marker::Model;

/// Clauses of frames of a pair, with a question or none. Contracts see it as its outline, which is what it asks.
#[derive(Drop)]
pub struct Unrolled<'p> {
    outline: Outline<'p>,
    cnf: Cnf,
    plain: u64,
}

impl<'p> Model for Unrolled<'p> {
    ghost use Rattle.frame_unroll.specs.Ready.{IsReady};
    ghost use Rattle.frame_unroll.specs.Unrolled.{Unrolling};

    ghost Value = { Unrolling };

    ghost view = { λ u. u.outline };

    ghost invariant = { λ u. IsReady u.outline u.cnf u.plain };
}

impl<'p> Unrolled<'p> {
    /// The first t frames from reset.
    pub fn reset_frames(
        alloc: Global,
        product: &'p Product,
        t: u32,
    ) -> Result<Unrolled<'p>, AllocError>
        requires some { 0 < t }
        requires few { t ≤ 64 }
        ensures { IfOk result (λ u. u ≡ from_reset product.entry.now t) }
    {
        Unrolled::of(alloc, Outline::reset_frames(alloc, product, t))
    }

    /// k frames from any state in which the needed pairs of the classes hold, and one more.
    pub fn step_frames(
        alloc: Global,
        product: &'p Product,
        k: u32,
        classes: &Classes,
    ) -> Result<Unrolled<'p>, AllocError>
        requires few { k < 64 }
        requires places { length classes.now.least ≡ places_of product.now }
        ensures { IfOk result (λ u. u ≡ after_classes product.entry.now k classes.now) }
    {
        Unrolled::of(alloc, Outline::step_frames(alloc, product, k, classes)?)
    }

    // The clauses of frames without a question.
    fn of(alloc: Global, outline: Outline<'p>) -> Result<Unrolled<'p>, AllocError>
        requires none { outline.asked ≡ None }
        ensures { IfOk result (λ u. u ≡ outline.entry) }
    {
        let cnf = outline.clauses(alloc)?;
        let plain = cnf.len();
        Ok(Unrolled {
            outline,
            cnf,
            plain,
        })
    }

    /// The clauses: those of the frames, in the order of frames and places, those of the needed pairs, and those of the
    /// question. Each path that is sought has a row that satisfies them and has its values.
    pub fn cnf(&self) -> &Cnf
        ensures clauses { result.now ≡ formula_of self.entry.now }
        ensures within { IsFormula (formula_of self.entry.now) }
        ensures paths { (path : Steps) → IsSought self.entry.now path → (row : List Bool) × (length row ≡ variables_of self.entry.now)
            × (satisfies row (clauses_of self.entry.now) ≡ true)
            × Shows self.entry.now.pair self.entry.now.frames (values row (places_of self.entry.now.pair)) path }
    {
        let _clauses = self.cnf.len();
        &self.cnf
    }

    /// Asks whether two literals differ in some of the frames first to last. An `Err` changes nothing.
    pub fn ask(
        &mut self,
        alloc: Global,
        a: Lit,
        b: Lit,
        first: u32,
        last: u32,
    ) -> Result<(), AllocError>
        requires none { self.old.asked ≡ None }
        requires left { IsLiteral self.old.pair a }
        requires right { IsLiteral self.old.pair b }
        requires order { first ≤ last }
        requires within { last < self.old.frames }
        ensures ok { OnOk result (self.new ≡ record self.old { asked = Some (record { a = a; b = b; first = first; count = last - first + 1 }) }) }
        ensures err { OnErr result (self.new ≡ self.old) }
    {
        let n = self.outline.product().len();
        let count = last - first + 1;
        let used = self.outline.count() * n;
        let asked = Question { a, b, first, count };
        self.cnf.add_vars(count);
        match add_asked(alloc, &mut self.cnf, n, used, asked) {
            Ok(()) => {
                self.outline
                    .set_question(Some(Question { a, b, first, count }));
                Ok(())
            }
            Err(e) => {
                self.cnf.cut(self.plain, used);
                Err(e)
            }
        }
    }

    /// Leaves the clauses from before the question.
    pub fn drop_question(&mut self)
        ensures { self.new ≡ record self.old { asked = None } }
    {
        let used = self.outline.count() * self.outline.product().len();
        self.cnf.cut(self.plain, used);
        self.outline.set_question(None);
    }

    /// The path whose frames have the bits of a row that satisfies the clauses.
    pub fn path_of(&self, alloc: Global, row: &BitRow) -> Result<Path, AllocError>
        requires size { length row.now ≡ variables_of self.now }
        requires satisfied { satisfies row.now (clauses_of self.now) ≡ true }
        ensures sought { IfOk result (λ path. IsSought self.now path) }
        ensures shown { IfOk result (λ path. Shows self.now.pair self.now.frames (values row.now (places_of self.now.pair)) path) }
    {
        self.outline.path_of(alloc, row)
    }

    /// The needed pair that a clause, counted from 1, says is equal in a frame; no pair where the clause is another one.
    pub fn pairs_of(&self, clause: u64) -> &[(Lit, Lit)]
        ensures { result.now ≡ pairs_of self.entry.now clause }
    {
        self.outline.pairs_of(self.plain, clause)
    }

    /// The outline alone: the clauses go.
    pub fn into_outline(self) -> Outline<'p>
        ensures { result ≡ self.entry }
    {
        let Unrolled { outline, .. } = self;
        outline
    }
}
