//! What no contract says: that the advice is the one that is meant.
use cnf_store::{Arena, Clauses, Joined, Value};
use sat_guide::{Near, Order, Pace, Uses, Watches, spread_of};
use std::alloc::{AllocError, Global};
use std::test::Fail;

// Watches the clause of three plain literals.
fn watch_one(alloc: Global, watches: &mut Watches) -> Result<(), AllocError> {
    let none = Arena::new(alloc);
    let mut own = Arena::new(alloc);
    own.add(&[0, 2, 4])?;
    let db = Clauses::new(Joined::new(&none, &own)?, Arena::new(alloc));
    watches.attach(&db, &[], &[])
}

// Whether the fall of a literal leads first to this clause, or to none.
fn leads_to(
    alloc: Global,
    watches: &mut Watches,
    fallen: u32,
    values: &[Value],
    clause: Option<usize>,
) -> bool {
    let Ok(mut near) = Near::new(alloc, 0) else {
        return false;
    };
    near.open();
    let mut sweep = watches.begin(alloc, fallen);
    let due = watches.advance(&mut sweep, values, &near);
    watches.end(sweep);
    due == Ok(clause)
}

#[test]
fn a_clause_is_due_when_one_literal_is_left(rt: HostRuntime) -> Result<(), Fail> {
    const LOW: Value = Value::False;
    const HIGH: Value = Value::True;
    const FREE: Value = Value::Free;
    const ONE_LEFT: &[Value] = &[LOW, HIGH, LOW, HIGH, FREE, FREE];
    // the literal that falls, the values, and the clause that is due
    const FALLS: &[(u32, &[Value], Option<usize>)] = &[
        (0, &[LOW, HIGH, FREE, FREE, FREE, FREE], None),
        (2, ONE_LEFT, Some(0)),
        (2, &[LOW, HIGH, LOW, HIGH, HIGH, LOW], None),
    ];
    let mut watches = Watches::new(rt.alloc(), 3)?;
    watch_one(rt.alloc(), &mut watches)?;
    for &(fallen, values, due) in FALLS {
        assert!(rt; leads_to(rt.alloc(), &mut watches, fallen, values, due));
    }
    watches.clear(1);
    assert!(rt; leads_to(rt.alloc(), &mut watches, 2, ONE_LEFT, None));
    Ok(())
}

#[test]
fn what_is_raised_most_is_decided_first_by_its_last_value(rt: HostRuntime) -> Result<(), Fail> {
    let mut order = Order::new(rt.alloc(), 3)?;
    order.raise(2);
    order.raise(1);
    order.grow();
    order.raise(1);
    let free = [Value::Free; 6];
    assert!(rt; order.pick(&free) == Some(1) && order.pick(&free) == Some(2));
    assert!(rt; !order.phase_of(1));
    order.release(2)?;
    assert!(rt; order.phase_of(1) && order.pick(&free) == Some(1));
    Ok(())
}

// Whether a restart is due after so many conflicts on few levels, and then so many on many.
fn is_due_after(few: u32, many: u32) -> bool {
    let mut pace = Pace::new();
    for _ in 0..few {
        pace.note(2);
    }
    for _ in 0..many {
        pace.note(9);
    }
    pace.is_due()
}

#[test]
fn a_restart_comes_where_clauses_spread_further_than_before(rt: HostRuntime) -> Result<(), Fail> {
    const RUNS: &[(u32, u32, bool)] = &[
        (0, 0, false),
        (100, 0, false),
        (0, 100, false),
        (100, 3, true),
        (5, 2, false),
    ];
    for &(few, many, due) in RUNS {
        assert!(rt; is_due_after(few, many) == due);
    }
    Ok(())
}

// Which of three clauses that spread so far are kept where the first and the third were used.
fn kept_of_three(alloc: Global, spreads: [u32; 3]) -> Result<[bool; 3], AllocError> {
    let mut uses = Uses::new(alloc, 0);
    for spread in spreads {
        uses.add(spread)?;
    }
    uses.raise(0);
    uses.raise(2);
    uses.choose()?;
    Ok([uses.keeps(0), uses.keeps(1), uses.keeps(2)])
}

#[test]
fn the_less_used_half_is_forgotten_but_for_what_spreads_little(
    rt: HostRuntime,
) -> Result<(), Fail> {
    for (spreads, kept) in [
        ([4, 4, 4], [true, false, true]),
        ([9, 3, 4], [false, true, true]),
    ] {
        assert!(rt; kept_of_three(rt.alloc(), spreads)? == kept);
    }
    Ok(())
}

#[test]
fn a_clause_spreads_over_the_levels_of_its_literals(rt: HostRuntime) -> Result<(), Fail> {
    // variables 0 to 7 stand on the trail in their order, in levels that begin at 1, 3 and 6
    const STARTS: &[usize] = &[1, 3, 6];
    const AT: &[usize] = &[1, 2, 3, 4, 5, 6, 7, 8];
    const LEARNED: &[(&[u32], u32)] = &[
        (&[14], 1),
        (&[6, 14], 2),
        (&[10, 8, 15], 2),
        (&[11, 6, 4, 2, 12], 3),
        (&[8, 4, 0, 12], 4),
    ];
    for &(learned, spread) in LEARNED {
        assert!(rt; spread_of(STARTS, AT, learned) == spread);
    }
    Ok(())
}
