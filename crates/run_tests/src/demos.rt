//! Demo pairs.
use aig_graph::Netlist;
use circ_model::{Lit, Reset};
use demo_pair::make_demo;
use std::test::Fail;

// Whether a netlist has nothing.
fn is_empty(net: &Netlist) -> bool {
    net.max_var() == 0
        && net.inputs().is_empty()
        && net.latches().is_empty()
        && net.outputs().is_empty()
        && net.gates().is_empty()
}

#[test]
fn a_pair_of_no_size_is_empty(rt: HostRuntime) -> Result<(), Fail> {
    match make_demo(rt.alloc(), 0) {
        Ok((left, right)) => assert!(rt; is_empty(&left) && is_empty(&right)),
        Err(_) => assert!(rt; false),
    }
    Ok(())
}

// The literals' numbers were made by a program outside this repository, of the same generator: a gate's variable, its left operand in
// the netlist and in its copy, and its right one in both.
const GATES: &[(u32, u32, u32, u32)] = &[
    (3, 4, 5, 2),
    (4, 6, 6, 2),
    (5, 8, 8, 2),
    (6, 8, 8, 6),
    (7, 9, 9, 3),
    (8, 15, 15, 3),
];

// Whether a netlist has those gates, with the left operands of the copy or not.
fn has_gates(net: &Netlist, is_copy: bool) -> bool {
    if net.gates().len() != GATES.len() {
        return false;
    }
    for (found, gate) in net.gates().iter().zip(GATES) {
        let left = if is_copy { gate.2 } else { gate.1 };
        if found.var != gate.0
            || found.left != Lit::from_number(left)
            || found.right != Lit::from_number(gate.3)
        {
            return false;
        }
    }
    true
}

// Whether it has one latch with this next literal and reset, and shows this literal alone.
fn has_latch(net: &Netlist, next: u32, reset: Reset, shown: u32) -> bool {
    if net.latches().len() != 1 || net.outputs().len() != 1 {
        return false;
    }
    for latch in net.latches() {
        if latch.var != 2 || latch.next != Lit::from_number(next) || latch.reset != reset {
            return false;
        }
    }
    net.outputs()[0] == Lit::from_number(shown)
}

#[test]
fn a_chosen_latch_is_complemented_in_the_copy(rt: HostRuntime) -> Result<(), Fail> {
    match make_demo(rt.alloc(), 1) {
        Ok((left, right)) => assert!(rt;
            has_gates(&left, false)
                && has_gates(&right, true)
                && has_latch(&left, 17, Reset::Zero, 5)
                && has_latch(&right, 16, Reset::One, 4)
        ),
        Err(_) => assert!(rt; false),
    }
    Ok(())
}
