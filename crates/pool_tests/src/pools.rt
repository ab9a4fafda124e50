//! Runs over lists of pairs: two workers that have to meet, and the same answers for each number of workers.
use aiger_file::read_netlist;
use meeting_gate::Meeting;
use pair_pool::{Outcome, Solved, run_pairs};
use product_machine::Product;
use sec_base::FreeGate;
use std::alloc::{AllocError, Global};
use std::test::Fail;

// An output that is low, a latch that toggles and is shown, and a ring of three latches with a single one, of which two are high
// at once never.
const LOW: &str = "aag 0 0 0 1 0\n0\n";

const TOGGLE: &str = "aag 1 0 1 1 0\n2 3\n2\n";

const RING: &str = "aag 4 0 3 1 1\n2 6 1\n4 2\n6 4\n8\n8 2 4\n";

fn pair_of(alloc: Global, left: &str, right: &str) -> Result<Product, AllocError> {
    match (
        read_netlist(alloc, left.as_bytes()),
        read_netlist(alloc, right.as_bytes()),
    ) {
        (Ok(left), Ok(right)) => match Product::new(alloc, left, right) {
            Ok(product) => Ok(product),
            Err(_) => Err(AllocError),
        },
        _ => Err(AllocError),
    }
}

fn products_of(alloc: Global, pairs: &[(&str, &str)]) -> Result<Vec<Product>, AllocError> {
    let mut products = Vec::new(alloc);
    for &(left, right) in pairs {
        products.push(pair_of(alloc, left, right)?)?;
    }
    Ok(products)
}

// Whether an answer is this place and these numbers: a frame and an output, or a number of classes and the outputs left out.
fn is_different(solved: &Solved, index: u32, frame: u64, output: u32) -> bool {
    match &solved.outcome {
        Outcome::Different(t, j) => solved.index == index && *t == frame && *j == output,
        _ => false,
    }
}

fn is_equivalent(solved: &Solved, index: u32, classes: u32) -> bool {
    match &solved.outcome {
        Outcome::Equivalent(n) => solved.index == index && *n == classes,
        _ => false,
    }
}

fn is_undecided(solved: &Solved, index: u32, classes: u32, outputs: &[u32]) -> bool {
    match &solved.outcome {
        Outcome::Undecided(n, unpaired) => {
            solved.index == index && *n == classes && unpaired.as_slice() == outputs
        }
        _ => false,
    }
}

#[test]
fn two_workers_meet_over_two_pairs(rt: HostRuntime) -> Result<(), Fail> {
    const PAIRS: &[(&str, &str)] = &[(TOGGLE, TOGGLE), (TOGGLE, LOW)];
    let alloc = rt.alloc();
    let products = products_of(alloc, PAIRS)?;
    assert!(rt; products.len() == 2);
    let gate = Meeting::new();
    let solved = run_pairs(&rt, alloc, products.as_slice(), 1, 2, &gate)?;
    assert!(rt; gate.is_met());
    assert!(rt; solved.len() == 2);
    assert!(rt; is_equivalent(&solved[0], 0, 2));
    assert!(rt; is_undecided(&solved[1], 1, 2, &[0]));
    Ok(())
}

#[test]
fn any_number_of_workers_answers_in_the_order_of_the_list(rt: HostRuntime) -> Result<(), Fail> {
    const PAIRS: &[(&str, &str)] = &[(TOGGLE, LOW), (LOW, RING), (TOGGLE, TOGGLE)];
    const WORKERS: &[u32] = &[1, 2, 3, 64];
    let alloc = rt.alloc();
    let products = products_of(alloc, PAIRS)?;
    assert!(rt; products.len() == 3);
    for &workers in WORKERS {
        assert!(rt; 0 < workers && workers <= 64);
        let solved = run_pairs(&rt, alloc, products.as_slice(), 2, workers, &FreeGate)?;
        assert!(rt; solved.len() == 3);
        assert!(rt; is_different(&solved[0], 0, 1, 0));
        assert!(rt; is_undecided(&solved[1], 1, 5, &[0]));
        assert!(rt; is_equivalent(&solved[2], 2, 2));
    }
    let none = run_pairs(&rt, alloc, &[], 2, 4, &FreeGate)?;
    assert!(rt; none.is_empty());
    Ok(())
}
