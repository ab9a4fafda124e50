//! Whole frames from reset, asked where the graph leaves a frame open. Their clauses are made for the first such question, and made
//! anew, over four times as many, where a later frame is asked for.
ghost use Rattle.std.specs.Prelude.{◌≡◌, ◌<◌, ◌≤◌, IfOk, IfSome};
ghost use Rattle.circ_model.specs.Correspondence.{IsLiteral};
ghost use Rattle.induction_base.specs.Search.{AreOfRuns, IsApartOrNone};

use crate::rows::first_rows;
use circ_model::Lit;
use frame_questions::{Prepared, Separation, Workspace};
use product_machine::{Path, Product};
use std::alloc::{AllocError, Global};
use std::marker::Model;

// Frames of a pair from reset, as many as were asked for, and the solver's memory. Contracts see the pair.
#[derive(Drop)]
pub(crate) struct WholeFrames<'p> {
    product: &'p Product,
    frames: Option<Prepared<'p>>,
    work: Workspace,
}

impl<'p> Model for WholeFrames<'p> {
    ghost use Rattle.std.specs.Prelude.{IfSome};
    ghost use Rattle.circ_model.specs.Meaning.{Pair};
    ghost use Rattle.induction_base.specs.Search.{AreOfRuns};

    ghost Value = { Pair };

    ghost view = { λ w. w.product.now };

    ghost invariant = { λ w. IfSome w.frames (AreOfRuns w.product.now) };
}

// How many frames are made where so many are asked for.
fn room_for(frames: u32) -> u32
    requires { frames ≤ 64 }
    ensures enough { frames ≤ result }
    ensures some { 0 < result }
    ensures few { result ≤ 64 }
{
    if frames <= 1 {
        1
    } else if frames <= 4 {
        4
    } else if frames <= 16 {
        16
    } else {
        64
    }
}

// The frames that are made, where they are enough, or else new ones.
fn enough<'p>(
    alloc: Global,
    product: &'p Product,
    made: Option<Prepared<'p>>,
    frames: u32,
) -> Result<Prepared<'p>, AllocError>
    requires few { frames ≤ 64 }
    requires made { IfSome made (AreOfRuns product.now) }
    ensures are { IfOk result (AreOfRuns product.entry.now) }
    ensures pair { IfOk result (λ u. u.pair ≡ product.entry.now) }
    ensures enough { IfOk result (λ u. frames ≤ u.frames) }
{
    if let Some(old) = made {
        if frames <= old.count() {
            return Ok(old);
        }
        drop(old);
    }
    Prepared::reset_frames(alloc, product, room_for(frames))
}

// A run that ends with a frame in which two literals differ, or none.
fn ask(
    alloc: Global,
    work: &mut Workspace,
    frames: &Prepared<'_>,
    a: Lit,
    b: Lit,
    t: u32,
) -> Result<Option<Path>, AllocError>
    requires runs { AreOfRuns frames.now.pair frames.now }
    requires within { t < frames.now.frames }
    requires left { IsLiteral frames.now.pair a }
    requires right { IsLiteral frames.now.pair b }
    ensures { IfOk result (IsApartOrNone frames.now.pair t a b) }
{
    match frames.find_in(alloc, work, a, b, t, t)? {
        Separation::None(_) => Ok(None),
        Separation::Path(seen) => {
            let rows = first_rows(alloc, &seen.path.inputs, t as u64 + 1)?;
            Ok(Some(Path {
                start: seen.path.start,
                inputs: rows,
            }))
        }
    }
}

impl<'p> WholeFrames<'p> {
    // None are made yet.
    pub(crate) fn new(product: &'p Product) -> WholeFrames<'p>
        ensures { result ≡ product.entry.now }
    {
        WholeFrames {
            product,
            frames: None,
            work: Workspace::new(),
        }
    }

    // A run that ends with a frame in which two literals differ, or none.
    pub(crate) fn find(
        &mut self,
        alloc: Global,
        a: Lit,
        b: Lit,
        t: u32,
    ) -> Result<Option<Path>, AllocError>
        requires few { t < 64 }
        requires left { IsLiteral self.old a }
        requires right { IsLiteral self.old b }
        ensures same { self.new ≡ self.old }
        ensures found { IfOk result (IsApartOrNone self.old t a b) }
    {
        let made = self.frames.take();
        let frames = enough(alloc, self.product, made, t + 1)?;
        let found = ask(alloc, &mut self.work, &frames, a, b, t);
        self.frames = Some(frames);
        found
    }
}
