//! What is made once of a formula that many questions share.

use crate::cone::Cone;
use cnf_store::Arena;
use std::alloc::{AllocError, Global};

/// Which of a formula's clauses have at most one literal, and on what its variables rest.
#[derive(Drop)]
pub struct Hints {
    /// The clauses of at most one literal, counted from 0.
    pub units: Vec<u32>,
    pub(crate) cone: Cone,
    // by which another formula is told apart
    pub(crate) mark: u64,
}

impl Hints {
    /// Those of a formula over these variables.
    pub fn new(alloc: Global, vars: usize, clauses: &Arena<u32>) -> Result<Hints, AllocError> {
        let mut units = Vec::new(alloc);
        list_units(clauses, 0, &mut units)?;
        Ok(Hints {
            units,
            cone: Cone::new(alloc, vars, clauses)?,
            mark: mark_of(clauses),
        })
    }
}

/// Lists the clauses of at most one literal, where the first of them has this number.
pub fn list_units(
    clauses: &Arena<u32>,
    first: usize,
    units: &mut Vec<u32>,
) -> Result<(), AllocError> {
    for place in 0..clauses.len() {
        if clauses.get(place).len() <= 1 {
            units.push(u32::try_from(first.saturating_add(place)).unwrap_or(0))?;
        }
    }
    Ok(())
}

// A number that other clauses seldom have.
fn mark_of(clauses: &Arena<u32>) -> u64 {
    let mut mark = clauses.len() as u64;
    for place in 0..clauses.len() {
        for lit in clauses.get(place) {
            mark = mixed(mark, *lit as u64);
        }
        mark = mixed(mark, u64::MAX);
    }
    mark
}

// A step of the hash of Fowler, Noll and Vo.
fn mixed(mark: u64, item: u64) -> u64 {
    (mark ^ item).wrapping_mul(1099511628211)
}
