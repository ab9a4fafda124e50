//! From a text to the text of the answer.
ghost use Rattle.dimacs_text.specs.Answers.{IsSolved};

use crate::answer::{Solution, solve_formula};
use crate::fault::DimacsError;
use crate::read::read_dimacs;
use std::alloc::Global;

/// Reads a formula, and decides whether some assignment satisfies it.
pub fn solve_text(alloc: Global, bytes: &[u8], with_log: bool) -> Result<Solution, DimacsError>
    ensures { IsSolved bytes.now with_log result }
{
    let formula = read_dimacs(alloc, bytes)?;
    let solution = solve_formula(alloc, &formula, with_log)?;
    Ok(solution)
}
