//! Clauses made by resolution.
use implied_clauses::{Implied, Step};
use std::alloc::{AllocError, Global};
use std::test::Fail;

// Whether of x or y, not x or y, and not y or z come y, and z.
fn is_derived(alloc: Global) -> Result<bool, AllocError> {
    let mut store = Implied::new(alloc, 6)?;
    store.give(&[0, 2])?;
    store.give(&[1, 2])?;
    store.give(&[3, 4])?;
    let on_x = Step {
        pivot: 1,
        clause: 1,
    };
    let on_y = Step {
        pivot: 3,
        clause: 2,
    };
    store.derive(0, &[on_x])?;
    store.derive(0, &[on_x, on_y])?;
    let made = store.len() == 5
        && store.clause(3) == [2].as_slice()
        && store.clause(4) == [4].as_slice();
    drop(store);
    Ok(made)
}

// Whether a clause that is given after a derived one, over codes that came later, resolves with that, and whether an emptied store takes
// another.
fn is_given_later(alloc: Global) -> Result<bool, AllocError> {
    let mut store = Implied::new(alloc, 4)?;
    store.give(&[0, 2])?;
    store.give(&[1, 2])?;
    let on_x = Step {
        pivot: 1,
        clause: 1,
    };
    store.derive(0, &[on_x])?;
    store.widen(6)?;
    store.give(&[3, 4])?;
    let on_y = Step {
        pivot: 3,
        clause: 3,
    };
    store.derive(2, &[on_y])?;
    let made = store.codes() == 6 && store.len() == 5 && store.clause(4) == [4].as_slice();
    store.clear();
    store.give(&[5])?;
    let emptied = store.codes() == 6 && store.len() == 1 && store.clause(0) == [5].as_slice();
    drop(store);
    Ok(made && emptied)
}

#[test]
fn chains_of_resolutions_lead_to_their_clauses(rt: HostRuntime) -> Result<(), Fail> {
    assert!(rt; is_derived(rt.alloc()) == Ok(true));
    Ok(())
}

#[test]
fn clauses_are_given_at_any_time(rt: HostRuntime) -> Result<(), Fail> {
    assert!(rt; is_given_later(rt.alloc()) == Ok(true));
    Ok(())
}
