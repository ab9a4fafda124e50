//! The solver that is kept, asked between clauses that are given. What holds of up to six variables is tried on all their rows, as
//! the bits of a word.
use cnf_store::Value;
use kept_solver::{KeptSolver, Outcome};
use std::alloc::{AllocError, Global};
use std::test::Fail;

const ALL: &[u32] = &[0, 1, 2, 3, 4, 5];

// Gives clauses, and asks about two literals.
fn ask(
    solver: &mut KeptSolver,
    clauses: &[&'static [u32]],
    a: u32,
    b: u32,
) -> Result<Outcome, AllocError> {
    for clause in clauses {
        solver.give(*clause)?;
    }
    solver.turn_to(ALL)?;
    solver.decide(a, b)
}

#[test]
fn questions_come_to_what_holds_of_the_clauses_given_so_far(rt: HostRuntime) -> Result<(), Fail> {
    const YES: Outcome = Outcome::Model;
    const NO: Outcome = Outcome::Refuted;
    const NONE: &[&[u32]] = &[];
    // variables x, y, z and w from 0 on; clauses that are given, the two literals, and the outcome
    const STEPS: &[(&[&[u32]], u32, u32, Outcome)] = &[
        (NONE, 0, 2, YES),
        // x or y, and not x or z: one clause, the other, or both
        (&[&[0, 2], &[1, 4]], 1, 3, NO),
        (NONE, 1, 2, YES),
        (NONE, 0, 5, NO),
        (NONE, 3, 5, NO),
        (NONE, 5, 3, NO),
        (NONE, 3, 6, YES),
        // a literal twice, in a question and in a clause, and one with its complement
        (NONE, 3, 3, YES),
        (&[&[7, 7, 7], &[0, 1, 5]], 4, 6, NO),
        (NONE, 6, 6, NO),
        (NONE, 7, 0, YES),
        // not y, in a clause of its own: y is false on the lowest level, and so are not x and not z
        (&[&[3]], 2, 4, NO),
        (NONE, 4, 2, NO),
        (NONE, 4, 1, NO),
        (NONE, 5, 7, NO),
        (NONE, 0, 4, YES),
        // and not z: nothing is left
        (&[&[5]], 0, 4, NO),
        (NONE, 3, 7, NO),
        (&[&[8, 10]], 8, 10, NO),
    ];
    let mut solver = KeptSolver::new(rt.alloc())?;
    for &(clauses, a, b, outcome) in STEPS {
        assert!(rt; ask(&mut solver, clauses, a, b)? == outcome);
    }
    Ok(())
}

#[test]
fn where_the_clauses_contradict_each_other_all_is_refuted(rt: HostRuntime) -> Result<(), Fail> {
    const CLAUSES: &[&[&[u32]]] = &[
        &[&[]],
        &[&[2], &[3]],
        &[&[2, 2], &[3, 3]],
        &[&[0, 2], &[0, 3], &[1, 2], &[1, 3]],
        &[&[0], &[1, 2], &[3, 4], &[5, 1]],
    ];
    for clauses in CLAUSES {
        let mut solver = KeptSolver::new(rt.alloc())?;
        for (a, b) in [(0, 2), (1, 3), (3, 0), (6, 8), (8, 8)] {
            assert!(rt; ask(&mut solver, *clauses, a, b)? == Outcome::Refuted);
        }
    }
    Ok(())
}

// The rows in which a literal is true.
pub(crate) fn rows_of(lit: u32) -> u64 {
    let rows = match lit / 2 {
        0 => 0xAAAA_AAAA_AAAA_AAAA,
        1 => 0xCCCC_CCCC_CCCC_CCCC,
        2 => 0xF0F0_F0F0_F0F0_F0F0,
        3 => 0xFF00_FF00_FF00_FF00,
        4 => 0xFFFF_0000_FFFF_0000,
        _ => 0xFFFF_FFFF_0000_0000,
    };
    if lit % 2 == 0 { rows } else { !rows }
}

// The rows that are as the solver tells.
fn rows_told(solver: &KeptSolver) -> u64 {
    let mut rows = u64::MAX;
    for lit in [0, 2, 4, 6, 8, 10] {
        rows = match solver.value(lit) {
            Value::True => rows & rows_of(lit),
            Value::False => rows & !rows_of(lit),
            Value::Free => rows,
        };
    }
    rows
}

// Whether a question is answered as it must be where these rows satisfy the clauses: refuted only where none of them is sought, and
// else by values with which all clauses are satisfied, whatever the variables have that it tells none of.
fn is_right(solver: &mut KeptSolver, rows: u64, a: u32, b: u32) -> Result<bool, AllocError> {
    let sought = rows_of(a) & rows_of(b);
    match solver.decide(a, b)? {
        Outcome::Refuted => Ok(rows & sought == 0),
        Outcome::Model => {
            let told = rows_told(solver);
            Ok(told & !rows == 0 && told & sought != 0)
        }
        Outcome::Unknown => Ok(false),
    }
}

// Whether all questions about literals of different variables are.
fn are_right(solver: &mut KeptSolver, rows: u64) -> Result<bool, AllocError> {
    for a in 0..12 {
        for b in 0..12 {
            if a / 2 != b / 2 && !is_right(solver, rows, a, b)? {
                return Ok(false);
            }
        }
    }
    Ok(true)
}

// The next of the numbers that are drawn.
pub(crate) fn drawn(seed: u32) -> u32 {
    seed.wrapping_mul(1664525).wrapping_add(1013904223)
}

// Three literals of a number that was drawn. They may be of the same variable.
fn clause_of(seed: u32) -> [u32; 3] {
    let number = seed >> 12;
    [number % 12, number / 12 % 12, number / 144 % 12]
}

// Whether questions are answered as they must be between clauses that are drawn, till long after no row satisfies them. The search
// decides these variables first.
fn is_right_throughout(
    solver: &mut KeptSolver,
    seed: u32,
    first: &[u32],
) -> Result<bool, AllocError> {
    let mut rows = u64::MAX;
    let mut number = seed;
    for _ in 0..16 {
        for _ in 0..3 {
            number = drawn(number);
            let [x, y, z] = clause_of(number);
            solver.give(&[x, y, z])?;
            rows = rows & (rows_of(x) | rows_of(y) | rows_of(z));
        }
        solver.turn_to(first)?;
        if !are_right(solver, rows)? {
            return Ok(false);
        }
    }
    Ok(true)
}

#[test]
fn drawn_formulas_are_refuted_exactly_where_no_row_is_left(rt: HostRuntime) -> Result<(), Fail> {
    for seed in 0..30 {
        let mut solver = KeptSolver::new(rt.alloc())?;
        assert!(rt; is_right_throughout(&mut solver, seed, ALL)?);
    }
    Ok(())
}

#[test]
fn variables_beside_a_question_have_values_in_its_models(rt: HostRuntime) -> Result<(), Fail> {
    for seed in 100..120 {
        let mut solver = KeptSolver::new(rt.alloc())?;
        for var in 0..5 {
            solver.add_beside(var)?;
        }
        assert!(rt; is_right_throughout(&mut solver, seed, &[5, 2])?);
    }
    Ok(())
}

#[test]
fn an_emptied_solver_knows_nothing_of_what_it_was_given(rt: HostRuntime) -> Result<(), Fail> {
    let mut solver = KeptSolver::new(rt.alloc())?;
    for seed in 200..220 {
        assert!(rt; is_right_throughout(&mut solver, seed, ALL)?);
        solver.clear()?;
        solver.turn_to(ALL)?;
        assert!(rt; are_right(&mut solver, u64::MAX)?);
        solver.clear()?;
    }
    Ok(())
}

// A pigeon sits in a hole.
fn sits(pigeon: u32, hole: u32, holes: u32) -> u32 {
    pigeon
        .wrapping_mul(holes)
        .wrapping_add(hole)
        .wrapping_mul(2)
}

// A pigeon sits in some hole, or a literal is true.
fn seat(
    alloc: Global,
    solver: &mut KeptSolver,
    pigeon: u32,
    holes: u32,
    or: u32,
) -> Result<(), AllocError> {
    let mut clause = Vec::new(alloc);
    for hole in 0..holes {
        clause.push(sits(pigeon, hole, holes))?;
    }
    clause.push(or)?;
    solver.give(&clause)
}

// Two pigeons don't sit in the same hole.
fn part(solver: &mut KeptSolver, one: u32, other: u32, holes: u32) -> Result<(), AllocError> {
    for hole in 0..holes {
        solver.give(&[sits(one, hole, holes) | 1, sits(other, hole, holes) | 1])?;
    }
    Ok(())
}

// One pigeon more than so many holes, each in a hole of its own. The first may stay out where one literal is false, and the others
// where another is.
fn pigeonhole(
    alloc: Global,
    solver: &mut KeptSolver,
    holes: u32,
    first: u32,
    others: u32,
) -> Result<(), AllocError> {
    seat(alloc, solver, 0, holes, first | 1)?;
    for one in 1..holes.saturating_add(1) {
        seat(alloc, solver, one, holes, others | 1)?;
        for other in 0..one {
            part(solver, one, other, holes)?;
        }
    }
    Ok(())
}

// Whether pigeons that are all to sit are refuted, before and after they are found where one may stay out.
fn is_refuted_twice(alloc: Global, holes: u32) -> Result<bool, AllocError> {
    let mut solver = KeptSolver::new(alloc)?;
    let first = sits(holes.wrapping_add(1), 0, holes);
    let others = first.wrapping_add(2);
    pigeonhole(alloc, &mut solver, holes, first, others)?;
    let mut question = Vec::new(alloc);
    for var in 0..others / 2 {
        question.push(var)?;
    }
    question.push(others / 2)?;
    solver.turn_to(&question)?;
    let before = solver.decide(first, others)?;
    let without_one = solver.decide(first | 1, others)?;
    let without_others = solver.decide(others | 1, first)?;
    let after = solver.decide(others, first)?;
    Ok(
        before == Outcome::Refuted
            && without_one == Outcome::Model
            && without_others == Outcome::Model
            && after == Outcome::Refuted,
    )
}

#[test]
fn one_pigeon_too_many_is_refuted_where_all_are_to_sit(rt: HostRuntime) -> Result<(), Fail> {
    for holes in 1..7 {
        assert!(rt; is_refuted_twice(rt.alloc(), holes)?);
    }
    Ok(())
}
