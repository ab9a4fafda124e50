//! The answers of the solver.
ghost use Rattle.std.specs.Prelude.{◌≡◌};

use crate::formulas::is_answered;
use cnf_store::Cnf;
use dimacs_text::read_dimacs;
use sat_core::{Answer, Ready, Workspace, solve_with};
use std::alloc::{AllocError, Global};
use std::test::Fail;

// Whether an answer is that some assignment satisfies, or that none does.
fn is_told(answer: Result<Answer, AllocError>, satisfiable: bool) -> bool {
    match answer {
        Ok(Answer::Sat(_)) => satisfiable,
        Ok(Answer::Unsat(_)) => !satisfiable,
        Err(_) => false,
    }
}

// Whether this is the answer to two formulas together.
fn are_answered(alloc: Global, shared: &[u8], own: &[u8], satisfiable: bool) -> bool {
    match (read_dimacs(alloc, shared), read_dimacs(alloc, own)) {
        (Ok(shared), Ok(own)) => {
            shared.vars() <= own.vars() && is_told(solve_with(alloc, &shared, &own), satisfiable)
        }
        _ => false,
    }
}

#[test]
fn two_formulas_are_satisfied_together_or_apart_alone(rt: HostRuntime) -> Result<(), Fail> {
    const SHARED: &[u8] = b"p cnf 1 1\n1 0\n";
    const LOOSER: &[u8] = b"p cnf 2 1\n-1 2 0\n";
    const OWN: &[u8] = b"p cnf 2 2\n-1 2 0\n-2 0\n";
    assert!(rt; are_answered(rt.alloc(), SHARED, LOOSER, true));
    assert!(rt; is_answered(rt.alloc(), SHARED, true) && is_answered(rt.alloc(), OWN, true));
    assert!(rt; are_answered(rt.alloc(), SHARED, OWN, false));
    Ok(())
}

// Whether this is the answer to a formula that is ready and another, in a workspace.
fn is_answered_in(
    alloc: Global,
    work: &mut Workspace,
    over: (&Cnf, &Ready),
    own: &[u8],
    satisfiable: bool,
) -> bool
    requires { over.1.now ≡ over.0.now }
{
    let (shared, ready) = over;
    match read_dimacs(alloc, own) {
        Ok(own) => {
            shared.vars() <= own.vars() && is_told(ready.solve_in(alloc, work, &own), satisfiable)
        }
        Err(_) => false,
    }
}

// Whether questions over one formula, in turn, have these answers in a workspace.
fn are_answered_in(
    alloc: Global,
    work: &mut Workspace,
    shared: &[u8],
    questions: &[(&'static [u8], bool)],
) -> bool {
    let Ok(shared) = read_dimacs(alloc, shared) else {
        return false;
    };
    let Ok(ready) = Ready::new(alloc, &shared) else {
        return false;
    };
    for (own, satisfiable) in questions {
        if !is_answered_in(alloc, work, (&shared, &ready), own, *satisfiable) {
            return false;
        }
    }
    true
}

#[test]
fn questions_in_one_workspace_are_answered_each_for_itself(rt: HostRuntime) -> Result<(), Fail> {
    const CHAIN: &[u8] = b"p cnf 3 2\n-1 2 0\n-2 3 0\n";
    const UNLIKE: &[u8] = b"p cnf 2 2\n1 2 0\n-1 -2 0\n";
    const FIRST: &[(&[u8], bool)] = &[
        (b"p cnf 3 1\n1 0\n", true),
        (b"p cnf 3 2\n1 0\n-3 0\n", false),
        (b"p cnf 4 2\n1 4 0\n-3 0\n", true),
        (b"p cnf 4 3\n1 4 0\n-3 0\n-4 0\n", false),
    ];
    const SECOND: &[(&[u8], bool)] = &[
        (b"p cnf 2 1\n1 -2 0\n", true),
        (b"p cnf 2 2\n1 -2 0\n-1 2 0\n", false),
    ];
    const AGAIN: &[(&[u8], bool)] = &[(b"p cnf 3 2\n1 0\n-3 0\n", false)];
    let alloc = rt.alloc();
    let mut work = Workspace::new();
    assert!(rt; are_answered_in(alloc, &mut work, CHAIN, FIRST));
    assert!(rt; are_answered_in(alloc, &mut work, UNLIKE, SECOND));
    assert!(rt; are_answered_in(alloc, &mut work, CHAIN, AGAIN));
    Ok(())
}
