//! Formulas as texts, and their answers.
ghost use Rattle.std.specs.Prelude.{◌≡◌, true};
ghost use Rattle.cnf_store.specs.Clauses.{AreLiterals};

use cnf_store::Cnf;
use dimacs_text::{DimacsError, DimacsFault, DimacsKind, read_dimacs, solve_text};
use log_check::check;
use sat_core::{Answer, solve};
use std::alloc::{AllocError, Global};
use std::test::Fail;

// The first fault of a text.
fn fault_of(alloc: Global, text: &[u8]) -> Option<DimacsFault> {
    match read_dimacs(alloc, text) {
        Err(DimacsError::Refused(fault)) => Some(fault),
        _ => None,
    }
}

// Whether this is the answer to a text, and the row is whole or the checker accepts the log.
pub(crate) fn is_answered(alloc: Global, text: &[u8], satisfiable: bool) -> bool {
    match read_dimacs(alloc, text) {
        Ok(formula) => is_decided(alloc, &formula, satisfiable),
        Err(_) => false,
    }
}

// Whether this is the answer to a formula.
fn is_decided(alloc: Global, formula: &Cnf, satisfiable: bool) -> bool {
    match solve(alloc, formula) {
        Ok(Answer::Sat(row)) => satisfiable && row.len() == formula.vars(),
        Ok(Answer::Unsat(log)) => !satisfiable && check(alloc, formula, &log) == Ok(true),
        Err(_) => false,
    }
}

// Whether all of these are literals of so many variables.
fn are_literals(vars: u32, clause: &[i32]) -> bool
    ensures { result ≡ true → AreLiterals vars clause.now }
{
    for lit in clause {
        if *lit == 0 || lit.unsigned_abs() > vars {
            return false;
        }
    }
    true
}

// Adds a clause of the formula's variables.
fn add(formula: &mut Cnf, clause: &[i32]) -> Result<(), AllocError> {
    if are_literals(formula.vars(), clause) {
        formula.add(clause)?;
    }
    Ok(())
}

// The variable that says that a pigeon sits in a hole.
fn sits(pigeon: u32, hole: u32, holes: u32) -> i32 {
    let var = pigeon
        .wrapping_mul(holes)
        .wrapping_add(hole)
        .wrapping_add(1);
    i32::try_from(var).unwrap_or(0)
}

// A pigeon sits in some hole.
fn seat(alloc: Global, formula: &mut Cnf, pigeon: u32, holes: u32) -> Result<(), AllocError> {
    let mut clause = Vec::new(alloc);
    for hole in 0..holes {
        clause.push(sits(pigeon, hole, holes))?;
    }
    add(formula, &clause)
}

// Two pigeons don't sit in the same hole.
fn part(formula: &mut Cnf, one: u32, other: u32, holes: u32) -> Result<(), AllocError> {
    for hole in 0..holes {
        let first = sits(one, hole, holes).wrapping_neg();
        let second = sits(other, hole, holes).wrapping_neg();
        add(formula, &[first, second])?;
    }
    Ok(())
}

// One pigeon more than so many holes, each in a hole of its own.
fn pigeonhole(alloc: Global, holes: u32) -> Result<Cnf, AllocError> {
    let mut formula = Cnf::new(alloc, 42)?;
    let pigeons = holes.saturating_add(1);
    for pigeon in 0..pigeons {
        seat(alloc, &mut formula, pigeon, holes)?;
    }
    for pair in 0..pigeons.saturating_mul(pigeons) {
        let one = pair % pigeons;
        let other = pair / pigeons;
        if one < other {
            part(&mut formula, one, other, holes)?;
        }
    }
    Ok(formula)
}

// Whether this is written of a text.
fn writes(alloc: Global, text: &[u8], with_log: bool, answer: &[u8]) -> bool {
    match solve_text(alloc, text, with_log) {
        Ok(solution) => solution.text.as_slice() == answer,
        Err(_) => false,
    }
}

#[test]
fn formulas_with_known_answers(rt: HostRuntime) -> Result<(), Fail> {
    const FORMULAS: &[(&[u8], bool)] = &[
        // no clause, and no variable
        (b"p cnf 0 0\n", true),
        (b"p cnf 3 0\n", true),
        // the empty clause
        (b"p cnf 0 1\n0\n", false),
        (b"p cnf 2 2\n1 2 0\n0\n", false),
        // opposite units, and a clause of two
        (b"p cnf 1 2\n1 0\n-1 0\n", false),
        (b"p cnf 2 1\n1 2 0\n", true),
        // a chain of units, open at its end and closed
        (b"p cnf 4 4\n1 0\n-1 2 0\n-2 3 0\n-3 4 0\n", true),
        (b"p cnf 4 5\n1 0\n-1 2 0\n-2 3 0\n-3 4 0\n-4 0\n", false),
        // a literal twice, a literal with its complement, a clause twice
        (b"p cnf 2 3\n1 1 0\n-2 -2 0\n-1 2 2 0\n", false),
        (b"p cnf 2 3\n1 -1 0\n2 -2 1 0\n-1 0\n", true),
        (
            b"p cnf 2 6\n1 2 0\n1 2 0\n-1 2 0\n1 -2 0\n-1 -2 0\n-2 -1 0\n",
            false,
        ),
        // the sum of three variables by twos is odd thrice, and even once
        (
            b"p cnf 3 6\n1 2 0\n-1 -2 0\n2 3 0\n-2 -3 0\n1 3 0\n-1 -3 0\n",
            false,
        ),
        (
            b"p cnf 3 6\n1 2 0\n-1 -2 0\n2 3 0\n-2 -3 0\n1 -3 0\n-1 3 0\n",
            true,
        ),
        // chains of sums: an odd sum of three, and one that is odd and even
        (
            b"p cnf 5 9\n-4 1 2 0\n-4 -1 -2 0\n4 -1 2 0\n4 1 -2 0\n-5 4 3 0\n-5 -4 -3 0\n5 -4 3 0\n5 4 -3 0\n5 0\n",
            true,
        ),
        (
            b"p cnf 4 8\n1 2 -4 0\n1 -2 4 0\n-1 2 4 0\n-1 -2 -4 0\n1 2 4 0\n1 -2 -4 0\n-1 2 -4 0\n-1 -2 4 0\n",
            false,
        ),
        // three pigeons in two holes
        (
            b"p cnf 6 9\n1 2 0\n3 4 0\n5 6 0\n-1 -3 0\n-1 -5 0\n-3 -5 0\n-2 -4 0\n-2 -6 0\n-4 -6 0\n",
            false,
        ),
    ];
    for &(text, satisfiable) in FORMULAS {
        assert!(rt; is_answered(rt.alloc(), text, satisfiable));
    }
    Ok(())
}

#[test]
fn one_pigeon_too_many_for_three_to_six_holes(rt: HostRuntime) -> Result<(), Fail> {
    const HOLES_AND_CLAUSES: &[(u32, u64)] = &[(3, 22), (4, 45), (5, 81), (6, 133)];
    for &(holes, clauses) in HOLES_AND_CLAUSES {
        let formula = pigeonhole(rt.alloc(), holes)?;
        assert!(rt; formula.len() == clauses && is_decided(rt.alloc(), &formula, false));
    }
    Ok(())
}

#[test]
fn faults_stand_at_their_words(rt: HostRuntime) -> Result<(), Fail> {
    const TEXTS: &[(&[u8], DimacsKind, u64)] = &[
        (b"", DimacsKind::Header, 0),
        (b"c no more\n\n", DimacsKind::Header, 11),
        (b"p cnf 1 1", DimacsKind::Header, 0),
        (b"c\np dnf 1 1\n1 0\n", DimacsKind::Header, 2),
        (b"p cnf 2147483648 0\n", DimacsKind::Header, 0),
        (b"p cnf 1 1 1\n1 0\n", DimacsKind::Header, 0),
        (b"p cnf 2 1\n1 3 0\n", DimacsKind::Number, 12),
        (b"p cnf 2 1\n1 -0 0\n", DimacsKind::Number, 12),
        (b"p cnf 2 1\n1 02 0\n", DimacsKind::Number, 12),
        (b"p cnf 2 1\n1 %\n0\n", DimacsKind::Character, 12),
        (b"p cnf 2 1\n1\t0\n", DimacsKind::Character, 10),
        (b"p cnf 2 1\n1 c 0\n", DimacsKind::Character, 12),
        (b"p cnf 2 1\n1 2\n", DimacsKind::Open, 14),
        (b"p cnf 2 2\n1 2 0\n", DimacsKind::Count, 16),
        (b"p cnf 2 1\n1 0 2 0", DimacsKind::Count, 17),
    ];
    for &(text, kind, at) in TEXTS {
        assert!(rt; fault_of(rt.alloc(), text) == Some(DimacsFault { kind, at }));
    }
    Ok(())
}

#[test]
fn answers_are_written(rt: HostRuntime) -> Result<(), Fail> {
    // a text, whether the log is asked for, and what is written
    const ANSWERS: &[(&[u8], bool, &[u8])] = &[
        (
            b"p  cnf 2 2 \nc one way\n 1  0\n\n-2 0\n",
            false,
            b"s SATISFIABLE\nv 1\nv -2\nv 0\n",
        ),
        (b"p cnf 1 2\n1 0 -1 0", false, b"s UNSATISFIABLE\n"),
        (
            b"p cnf 1 2\n1 0 -1 0",
            true,
            b"s UNSATISFIABLE\n3 0 1 2 0\n",
        ),
    ];
    for &(text, with_log, answer) in ANSWERS {
        assert!(rt; writes(rt.alloc(), text, with_log, answer));
    }
    Ok(())
}
