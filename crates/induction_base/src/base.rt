//! The base of an induction: whether two literals agree in the first k frames of every run.
ghost use Rattle.std.specs.Prelude.{◌<◌, ◌≤◌, IfOk};
ghost use Rattle.circ_model.specs.Correspondence.{IsLiteral};
ghost use Rattle.induction_base.specs.Base.{IsBase};

use circ_model::Lit;
use frame_questions::{Prepared, Separation};
use product_machine::{Path, Product};
use sat_log::Log;
use std::alloc::{AllocError, Global};

/// Whether two literals agree in the first k frames of every run.
#[derive(Drop)]
pub enum Base {
    /// They do: the log derives the empty clause from the clauses that ask for a run on which they don't.
    Holds(Log),
    /// They don't: a run with k rows, and a frame of it in which they differ, counted from 0.
    Breaks(Path, u32),
}

/// Whether two literals of the pair agree in the first k frames of every run: one question over all the frames. It errs for
/// want of memory alone.
pub fn base_holds(
    alloc: Global,
    product: &Product,
    k: u32,
    a: Lit,
    b: Lit,
) -> Result<Base, AllocError>
    requires some { 0 < k }
    requires few { k ≤ 64 }
    requires left { IsLiteral product.now a }
    requires right { IsLiteral product.now b }
    ensures { IfOk result (IsBase product.now k a b) }
{
    let frames = Prepared::reset_frames(alloc, product, k)?;
    match frames.find(alloc, a, b, 0, k - 1)? {
        Separation::None(log) => Ok(Base::Holds(log)),
        Separation::Path(seen) => Ok(Base::Breaks(seen.path, seen.frame)),
    }
}
