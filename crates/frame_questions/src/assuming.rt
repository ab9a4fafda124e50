//! One question over frames that stay as they are, under assumptions: literals that are to be true in frames, each a clause of
//! one literal beside the question's. (Incremental solving under assumptions: Eén and Sörensson, BMC 2003.)
ghost use Rattle.std.specs.Prelude.{◌≡◌, ◌<◌, ◌≤◌, ◌*◌, ◌++◌, ◌∷◌, [], All, OnOk, IfOk};
ghost use Rattle.circ_model.specs.Correspondence.{IsLiteral};
ghost use Rattle.circ_model.specs.Meaning.{places_of};
ghost use Rattle.frame_questions.specs.Assuming.{IsAssumable, IsFoundUnder, assumed_clause, assumed_clauses};
ghost use Rattle.frame_unroll.specs.Unrolled.{asks};

use crate::found::Prepared;
use circ_model::Lit;
use cnf_store::Cnf;
use frame_unroll::{Outline, Question};
use product_machine::Path;
use sat_core::{Answer, Workspace};
use std::alloc::{AllocError, Global};

// That a literal is true in a frame.
fn add_assumption(
    cnf: &mut Cnf,
    frames: &Outline<'_>,
    frame: u32,
    lit: Lit,
) -> Result<(), AllocError>
    requires frame { frame < frames.now.frames }
    requires literal { IsLiteral frames.now.pair lit }
    requires variables { frames.now.frames * places_of frames.now.pair ≤ cnf.old.vars }
    ensures vars { cnf.new.vars ≡ cnf.old.vars }
    ensures ok { OnOk result (cnf.new.clauses ≡ cnf.old.clauses ++ assumed_clause (places_of frames.now.pair) (frame, lit) ∷ []) }
{
    cnf.add(&[frames.literal(lit, frame)])
}

// That all of these are.
fn add_assumed(
    cnf: &mut Cnf,
    frames: &Outline<'_>,
    assumed: &[(u32, Lit)],
) -> Result<(), AllocError>
    requires assumed { All (IsAssumable frames.now) assumed.now }
    requires variables { frames.now.frames * places_of frames.now.pair ≤ cnf.old.vars }
    ensures vars { cnf.new.vars ≡ cnf.old.vars }
    ensures ok { OnOk result (cnf.new.clauses ≡ cnf.old.clauses ++ assumed_clauses (places_of frames.now.pair) assumed.now) }
{
    for i in 0..assumed.len() {
        add_assumption(cnf, frames, assumed[i].0, assumed[i].1)?;
    }
    Ok(())
}

impl<'p> Prepared<'p> {
    /// A path that the frames ask for, on which two literals differ in one frame and each of these literals is true in its frame,
    /// given as (frame, literal); or none where there is no such path. An `Err` is want of memory. It works in the memory of
    /// earlier questions, of any frames.
    pub fn find_under(
        &self,
        alloc: Global,
        work: &mut Workspace,
        a: Lit,
        b: Lit,
        frame: u32,
        assumed: &[(u32, Lit)],
    ) -> Result<Option<Path>, AllocError>
        requires left { IsLiteral self.now.pair a }
        requires right { IsLiteral self.now.pair b }
        requires within { frame < self.now.frames }
        requires assumed { All (IsAssumable self.now) assumed.now }
        ensures { IfOk result (IsFoundUnder self.now (asks a b frame frame) assumed.now) }
    {
        let question = Question {
            a,
            b,
            first: frame,
            count: 1,
        };
        let mut own = self.frames.beside(alloc, question)?;
        add_assumed(&mut own, &self.frames, assumed)?;
        let answer = self.ready.solve_in(alloc, work, &own);
        drop(own);
        match answer? {
            Answer::Unsat(_) => Ok(None),
            Answer::Sat(row) => Ok(Some(self.frames.path_beside(alloc, &row, question)?)),
        }
    }
}
