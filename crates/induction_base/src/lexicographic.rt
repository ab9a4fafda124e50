//! The least run of a difference: one bit after another is fixed, to 0 where some run that differs has the bits before and 0 there.
//! The frames are made ready once, and what is fixed is assumed, so a bit costs at most one question; one that the last run that
//! was found has as 0 costs none. (The lexicographically least model, by a solver under assumptions.)
ghost use Rattle.std.specs.Prelude.{◌≡◌, ◌<◌, ◌≤◌, ◌+◌, ◌*◌, IfOk, OnOk, IfSome, IfNone, All, length, take};
ghost use Rattle.circ_model.specs.Meaning.{latches_of};
ghost use Rattle.circ_model.specs.Correspondence.{IsLiteral};
ghost use Rattle.frame_unroll.specs.Unrolled.{from_reset};
ghost use Rattle.induction_base.specs.Fixing.{IsFixed, IsLower};
ghost use Rattle.induction_base.specs.LeastRun.{IsGivenAtEnd, IsLeastRun, IsLeastRunOf};

use crate::difference::Diff;
use crate::free_bits::{bit_of, zero_at};
use crate::rows::{copy_of, first_rows};
use circ_model::Lit;
use frame_questions::{Prepared, Workspace};
use product_machine::{Path, Product};
use std::alloc::{AllocError, Global};

// The search for the least run of a difference, over the frames up to its own.
#[derive(Drop)]
struct RunSearch<'p> {
    product: &'p Product,
    given: &'p Diff,
    frames: Prepared<'p>,
}

impl RunSearch<'_> {
    // A run that differs on which literals are true in their frames, or none.
    fn lower(
        &self,
        alloc: Global,
        work: &mut Workspace,
        assumed: &[(u32, Lit)],
    ) -> Result<Option<Path>, AllocError>
        requires given { IsGivenAtEnd self.now.product.now self.now.given.now }
        requires frames { self.now.frames ≡ from_reset self.now.product.now (self.now.given.now.frame + 1) }
        requires literals { All (λ p. (p.0 < self.now.given.now.frame + 1) × IsLiteral self.now.product.now p.1) assumed.now }
        ensures { IfOk result (IsLower self.now.product.now self.now.given.now.frame self.now.given.now.output assumed.now) }
    {
        let _cells = self.product.cells();
        let (left, right) = self.product.output(self.given.output);
        self.frames
            .find_under(alloc, work, left, right, self.given.frame, assumed)
    }

    // Fixes bit i after those before it. A run in answer has it as 0, and stands in place of the run so far.
    fn fix_bit(
        &self,
        alloc: Global,
        work: &mut Workspace,
        fixed: &mut Vec<(u32, Lit)>,
        run: &Path,
        i: u32,
    ) -> Result<Option<Path>, AllocError>
        requires few { self.now.given.now.frame < 64 }
        requires given { IsGivenAtEnd self.now.product.now self.now.given.now }
        requires frames { self.now.frames ≡ from_reset self.now.product.now (self.now.given.now.frame + 1) }
        requires bit { i < latches_of self.now.product.now + (self.now.given.now.frame + 1) * length self.now.product.now.left.inputs }
        requires fixed { IsFixed self.now.product.now self.now.given.now.frame self.now.given.now.output i fixed.old.items run.now }
        ensures found { IfOk result (λ r. IfSome r (IsFixed self.now.product.now self.now.given.now.frame self.now.given.now.output (i + 1) fixed.new.items)) }
        ensures kept { IfOk result (λ r. IfNone r (IsFixed self.now.product.now self.now.given.now.frame self.now.given.now.output (i + 1) fixed.new.items run.now)) }
    {
        let rows = self.given.frame + 1;
        let (frame, low) = zero_at(self.product, rows, i);
        let is_one = bit_of(self.product, run, rows, i);
        let held = fixed.len();
        fixed.push((frame, low))?;
        if !is_one {
            return Ok(None);
        }
        match self.lower(alloc, work, fixed.as_slice())? {
            Some(path) => Ok(Some(path)),
            None => {
                fixed.truncate(held);
                fixed.push((frame, low.not()))?;
                Ok(None)
            }
        }
    }

    // Fixes all bits.
    fn fix_all(&self, alloc: Global, work: &mut Workspace) -> Result<Path, AllocError>
        requires few { self.now.given.now.frame < 64 }
        requires given { IsGivenAtEnd self.now.product.now self.now.given.now }
        requires frames { self.now.frames ≡ from_reset self.now.product.now (self.now.given.now.frame + 1) }
        ensures { IfOk result (IsLeastRun self.now.product.now self.now.given.now.frame self.now.given.now.output) }
    {
        let (product, given) = (self.product, self.given);
        let _cells = product.cells();
        let _places = product.len();
        let bits = product.latches() + (given.frame + 1) * product.inputs();
        let mut run = Path {
            start: copy_of(alloc, &given.run.start)?,
            inputs: first_rows(alloc, &given.run.inputs, given.run.inputs.len())?,
        };
        let mut fixed: Vec<(u32, Lit)> = Vec::new(alloc);
        for i in 0..bits {
            if let Some(path) = self.fix_bit(alloc, work, &mut fixed, &run, i)? {
                run = path;
            }
        }
        Ok(run)
    }
}

/// Of all runs that end with a frame in which the sides differ in an output, the one whose bits come first: the start bits, then
/// the input rows, 0 before 1. The frame and the output stay. It takes at most one question a bit, and errs for want of memory
/// alone.
#[tactic(auto, using(crate::proofs::Fixing::least_of))]
pub fn least_run(alloc: Global, product: &Product, given: &Diff) -> Result<Diff, AllocError>
    requires few { given.now.frame < 64 }
    requires given { IsGivenAtEnd product.now given.now }
    ensures { IfOk result (IsLeastRunOf product.now given.now) }
{
    let search = RunSearch {
        product,
        given,
        frames: Prepared::reset_frames(alloc, product, given.frame + 1)?,
    };
    let mut work = Workspace::new();
    let run = search.fix_all(alloc, &mut work);
    drop(work);
    drop(search);
    Ok(Diff {
        frame: given.frame,
        output: given.output,
        run: run?,
    })
}
