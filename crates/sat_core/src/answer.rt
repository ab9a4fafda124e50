//! What the solver answers, and the one call that asks it.

ghost use Rattle.std.specs.Prelude.{◌≤◌, IfOk};
ghost use Rattle.sat_core.specs.Answers.{IsAnswer, joined};

use crate::ready::Ready;
use bit_rows::BitRow;
use cnf_store::Cnf;
use sat_log::Log;
use std::alloc::{AllocError, Global};

/// Whether some assignment satisfies a formula.
#[derive(Drop)]
pub enum Answer {
    /// This one does: bit v - 1 is variable v.
    Sat(BitRow),
    /// None does: the log derives the empty clause.
    Unsat(Log),
}

/// Decides whether some assignment satisfies all clauses. It always returns, and restarts at most 1,000,000 times.
pub fn solve(alloc: Global, cnf: &Cnf) -> Result<Answer, AllocError>
    ensures { IfOk result (IsAnswer cnf.now) }
{
    let none = Cnf::new(alloc, 0)?;
    solve_with(alloc, &none, cnf)
}

/// The same of two formulas together, over the variables of the second: its clauses come after those of the first, which
/// many questions may share.
pub fn solve_with(alloc: Global, shared: &Cnf, own: &Cnf) -> Result<Answer, AllocError>
    requires { shared.now.vars ≤ own.now.vars }
    ensures { IfOk result (IsAnswer (joined shared.now own.now)) }
{
    Ready::new(alloc, shared)?.solve_with(alloc, own)
}
