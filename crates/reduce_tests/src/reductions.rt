//! Worked netlists, and what they are reduced to.
use crate::making::{are_equivalent, netlist_of, reduced};
use aiger_codec::{write_binary_net, write_text_net};
use net_reduce::stub;
use std::test::Fail;

// Three latches: one toggles from 0, one from 1, and one stays low.
const TOGGLES: &str = "aag 3 0 3 1 0\n2 3\n4 5 1\n6 0\n4\n";

const ONE_TOGGLE: &str = "aag 3 0 1 1 0\n2 3\n3\n";

// A latch that toggles and is shown.
const TOGGLE: &str = "aag 1 0 1 1 0\n2 3\n2\n";

// A ring of three latches with a single one, and the product of two of them, which three frames show low.
const RING: &str = "aag 4 0 3 1 1\n2 6 1\n4 2\n6 4\n8\n8 2 4\n";

const RING_ALONE: &str = "aag 4 0 3 1 0\n2 6 1\n4 2\n6 4\n0\n";

// The product of an input and its complement, taken up by a free latch.
const NO_PRODUCT: &str = "aag 3 1 1 2 1\n2\n6 4 6\n4\n7\n4 2 3\n";

const FREE_LATCH: &str = "aag 3 1 1 2 0\n2\n6 0 6\n0\n7\n";

// Two free latches that keep their values, and a gate that repeats the complement of one.
const KEPT: &str = "aag 3 0 2 3 1\n2 2 2\n4 4 4\n2\n4\n7\n6 3 3\n";

const KEPT_ALONE: &str = "aag 3 0 2 3 0\n2 2 2\n4 4 4\n2\n4\n2\n";

// Gate 5 repeats gate 4, so that gate 3 comes down to the level of gate 6, and before it.
const LEVELS: &str = "aag 7 3 0 2 4\n2\n4\n14\n6\n12\n8 2 4\n10 8 8\n12 8 15\n6 10 14\n";

const FEWER_LEVELS: &str = "aag 7 3 0 2 3\n2\n4\n14\n6\n12\n8 2 4\n6 8 14\n12 8 15\n";

#[test]
fn worked_netlists_lose_their_equal_signals(rt: HostRuntime) -> Result<(), Fail> {
    // a source, over how many frames it is reduced, what is left, and the signals and classes of its pair with the stub
    const REDUCTIONS: &[(&str, u32, &str, u32, u32)] = &[
        (TOGGLES, 1, ONE_TOGGLE, 4, 2),
        (TOGGLE, 1, TOGGLE, 2, 2),
        (RING, 1, RING, 5, 5),
        (RING, 3, RING_ALONE, 5, 4),
        (NO_PRODUCT, 1, FREE_LATCH, 4, 3),
        (KEPT, 1, KEPT_ALONE, 4, 3),
        (LEVELS, 1, FEWER_LEVELS, 8, 7),
    ];
    let alloc = rt.alloc();
    for &(source, k, left, signals, classes) in REDUCTIONS {
        assert!(rt; 0 < k && k <= 16);
        let made = reduced(alloc, source.as_bytes(), k)?;
        let text = write_text_net(alloc, &made.net)?;
        assert!(rt; text.as_slice() == left.as_bytes());
        assert!(rt; made.signals == signals && made.classes == classes);
    }
    Ok(())
}

#[test]
fn a_reduced_netlist_is_equivalent_to_its_source_and_stays(rt: HostRuntime) -> Result<(), Fail> {
    const SOURCES: &[(&str, u32)] = &[
        (TOGGLES, 1),
        (RING, 3),
        (NO_PRODUCT, 1),
        (KEPT, 1),
        (LEVELS, 1),
    ];
    let alloc = rt.alloc();
    for &(source, k) in SOURCES {
        assert!(rt; 0 < k && k <= 16);
        let first = reduced(alloc, source.as_bytes(), k)?;
        let text = write_text_net(alloc, &first.net)?;
        assert!(rt; are_equivalent(alloc, source.as_bytes(), text.as_slice(), k)?);
        let second = reduced(alloc, text.as_slice(), k)?;
        let again = write_text_net(alloc, &second.net)?;
        assert!(rt; again.as_slice() == text.as_slice());
    }
    Ok(())
}

#[test]
fn as_binary_the_variables_are_numbered_anew(rt: HostRuntime) -> Result<(), Fail> {
    let alloc = rt.alloc();
    let made = reduced(alloc, TOGGLES.as_bytes(), 1)?;
    let bytes = write_binary_net(alloc, &made.net)?;
    assert!(rt; bytes.as_slice() == "aig 1 0 1 1 0\n3\n3\n".as_bytes());
    Ok(())
}

#[test]
fn a_stub_has_inputs_and_low_outputs_alone(rt: HostRuntime) -> Result<(), Fail> {
    const STUBS: &[(&str, &str)] = &[
        (TOGGLE, "aag 0 0 0 1 0\n0\n"),
        (LEVELS, "aag 3 3 0 2 0\n2\n4\n6\n0\n0\n"),
        ("aag 0 0 0 0 0\n", "aag 0 0 0 0 0\n"),
    ];
    let alloc = rt.alloc();
    for &(source, left) in STUBS {
        let net = netlist_of(alloc, source.as_bytes())?;
        let text = write_text_net(alloc, &stub(alloc, &net)?)?;
        assert!(rt; text.as_slice() == left.as_bytes());
    }
    Ok(())
}
