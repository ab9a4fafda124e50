//! Answers as texts.
ghost use Rattle.std.specs.Prelude.{◌≡◌, ◌≤◌, ◌<◌, ◌+◌, ◌++◌, ◌∷◌, [], Bool, List, ℕ, OnOk, IfOk, length, slice_index_or, false};
ghost use Rattle.std.specs.List.{All};
ghost use Rattle.cnf_store.specs.Clauses.{AreLiterals};
ghost use Rattle.sat_log.specs.Derivations.{line_at};
ghost use Rattle.sat_log.specs.Texts.{step_text};
ghost use Rattle.sat_core.specs.Answers.{IsAnswer};
ghost use Rattle.dimacs_text.specs.Answers.{value_line, values_text, sat_text, lrat_line, lrat_text, unsat_text, IsSolution};

use bit_rows::BitRow;
use cnf_store::Cnf;
use itoa::Buffer;
use sat_core::{Answer, solve};
use sat_log::{Log, write_step};
use std::alloc::{AllocError, Global};

/// Whether a formula is satisfiable, and the text that says so.
#[derive(Drop)]
pub struct Solution {
    pub is_satisfiable: bool,
    pub text: Vec<u8>,
}

// Adds the line of a variable's value.
fn push_value(variable: u32, value: bool, into: &mut Vec<u8>) -> Result<(), AllocError>
    ensures { OnOk result (into.new.items ≡ into.old.items ++ value_line variable value) }
{
    let mut buffer = Buffer::new();
    let sign = if value {
        b"v ".as_slice()
    } else {
        b"v -".as_slice()
    };
    into.extend_from_slice(sign)?;
    into.extend_from_slice(buffer.format(variable).as_bytes())?;
    into.push(b'\n')?;
    Ok(())
}

// Adds the lines of all variables' values.
fn push_values(row: &BitRow, into: &mut Vec<u8>) -> Result<(), AllocError>
    ensures { OnOk result (into.new.items ≡ into.old.items ++ values_text 0 row.now) }
{
    for i in 0..row.len() {
        push_value(i + 1, row.get(i), into)?;
    }
    Ok(())
}

fn push_sat(row: &BitRow, into: &mut Vec<u8>) -> Result<(), AllocError>
    ensures { OnOk result (into.new.items ≡ into.old.items ++ sat_text row.now) }
{
    into.extend_from_slice(b"s SATISFIABLE\n")?;
    push_values(row, into)?;
    into.extend_from_slice(b"v 0\n")?;
    Ok(())
}

// Adds a line of a log with its own number before it.
fn push_lrat_line(
    number: u128,
    literals: &[i32],
    hints: &[u64],
    into: &mut Vec<u8>,
) -> Result<(), AllocError>
    requires literals { AreLiterals 2147483647 literals.now }
    requires hints { All (λ h. 0 < h) hints.now }
    ensures { OnOk result (into.new.items ≡ into.old.items ++ lrat_line number literals.now hints.now) }
{
    let mut buffer = Buffer::new();
    into.extend_from_slice(buffer.format(number).as_bytes())?;
    into.push(b' ')?;
    write_step(literals, hints, into)?;
    Ok(())
}

// Adds a log's lines, numbered after so many clauses.
fn push_lrat(clauses: u64, log: &Log, into: &mut Vec<u8>) -> Result<(), AllocError>
    ensures { OnOk result (into.new.items ≡ into.old.items ++ lrat_text (clauses + 1) log.now) }
{
    for i in 0..log.len() {
        let number = clauses as u128 + 1 + i as u128;
        push_lrat_line(number, log.clause(i), log.hints(i), into)?;
    }
    Ok(())
}

fn push_unsat(clauses: u64, log: &Log, with_log: bool, into: &mut Vec<u8>) -> Result<(), AllocError>
    ensures { OnOk result (into.new.items ≡ into.old.items ++ unsat_text with_log clauses log.now) }
{
    into.extend_from_slice(b"s UNSATISFIABLE\n")?;
    if with_log {
        push_lrat(clauses, log, into)?;
    }
    Ok(())
}

/// Decides whether some assignment satisfies a formula. The text has a line `s` with the answer, and then lines `v` with a
/// literal each, true in a satisfying assignment, up to `v 0`; or, where they are asked for, the lines of a derivation of the
/// empty clause, as LRAT has them (Cruz-Filipe, Heule and others, CADE 2017).
pub fn solve_formula(alloc: Global, formula: &Cnf, with_log: bool) -> Result<Solution, AllocError>
    ensures { IfOk result (λ s. IsSolution s.is_satisfiable formula.now with_log s.text.items) }
{
    let mut text = Vec::new(alloc);
    match solve(alloc, formula)? {
        Answer::Sat(row) => {
            push_sat(&row, &mut text)?;
            Ok(Solution {
                is_satisfiable: true,
                text,
            })
        }
        Answer::Unsat(log) => {
            push_unsat(formula.len(), &log, with_log, &mut text)?;
            Ok(Solution {
                is_satisfiable: false,
                text,
            })
        }
    }
}
