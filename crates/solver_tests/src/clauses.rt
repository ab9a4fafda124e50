//! Clauses of a formula.
use cnf_store::Cnf;
use std::alloc::{AllocError, Global};
use std::test::Fail;

// Three clauses, the last of them of a variable that was added.
fn three_clauses(alloc: Global) -> Result<Cnf, AllocError> {
    let mut cnf = Cnf::new(alloc, 2)?;
    cnf.add(&[1, -2])?;
    cnf.add(&[])?;
    cnf.add_vars(1);
    cnf.add(&[-1, 2, 3])?;
    Ok(cnf)
}

// Whether clause i has these literals.
fn is_clause(cnf: &Cnf, i: u64, literals: &[i32]) -> bool {
    0 < i && i <= cnf.len() && cnf.clause(i) == literals
}

#[test]
fn clauses_stand_in_order(rt: HostRuntime) -> Result<(), Fail> {
    let cnf = three_clauses(rt.alloc())?;
    assert!(rt; cnf.vars() == 3 && cnf.len() == 3);
    assert!(rt; is_clause(&cnf, 1, &[1, -2]) && is_clause(&cnf, 2, &[]));
    assert!(rt; is_clause(&cnf, 3, &[-1, 2, 3]));
    Ok(())
}
