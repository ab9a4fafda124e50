//! Netlists that are built call by call.
ghost use Rattle.std.specs.Prelude.{◌≤◌};

use aig_graph::{BuildFault, NetBuilder, Netlist};
use bit_rows::BitRow;
use circ_model::Lit;
use std::alloc::{AllocError, Global};
use std::test::Fail;

enum Call {
    Input(u32),
    Latch(u32, u32, u32),
    Gate(u32, u32, u32),
}

fn give(builder: &mut NetBuilder, call: &Call) -> Result<(), BuildFault> {
    match call {
        Call::Input(var) => builder.input(*var),
        Call::Latch(var, next, reset) => builder.latch(
            *var,
            Lit::from_number(*next),
            Lit::from_number(*reset),
        ),
        Call::Gate(var, left, right) => builder.gate(
            *var,
            Lit::from_number(*left),
            Lit::from_number(*right),
        ),
    }
}

fn build(alloc: Global, max_var: u32, output: u32, calls: &[Call]) -> Result<Netlist, BuildFault>
    requires { max_var ≤ 1000000 }
{
    let mut builder = NetBuilder::new(alloc, max_var)?;
    builder.output(Lit::from_number(output))?;
    for call in calls {
        give(&mut builder, call)?;
    }
    builder.finish(alloc)
}

// The first refusal, or how many gates the netlist has.
fn outcome(alloc: Global, max_var: u32, output: u32, calls: &[Call]) -> (&'static str, usize)
    requires { max_var ≤ 1000000 }
{
    match build(alloc, max_var, output, calls) {
        Ok(net) => ("netlist", net.gates().len()),
        Err(BuildFault::Literal) => ("literal", 0),
        Err(BuildFault::Redefined) => ("redefined", 0),
        Err(BuildFault::Reset) => ("reset", 0),
        Err(BuildFault::Undefined(var)) => ("undefined", var as usize),
        Err(BuildFault::Cyclic) => ("cyclic", 0),
        Err(BuildFault::Memory) => ("memory", 0),
    }
}

// Each gate is the square of the one below it; the top one is given first.
fn chain(alloc: Global) -> Result<Netlist, BuildFault> {
    let mut builder = NetBuilder::new(alloc, 100001)?;
    for k in 0..100000u32 {
        let below = Lit::of(100000 - k, false);
        builder.gate(100001 - k, below, below)?;
    }
    builder.input(1)?;
    builder.finish(alloc)
}

#[test]
fn each_refusal_comes_where_its_rule_is_the_first_to_fail(rt: HostRuntime) {
    const ROWS: &[(u8, u32, &[Call], (&str, usize))] = &[
        (1, 0, &[Call::Input(0)], ("literal", 0)),
        (1, 4, &[], ("literal", 0)),
        (
            1,
            3,
            &[Call::Input(1), Call::Latch(1, 4, 3)],
            ("literal", 0),
        ),
        (2, 0, &[Call::Input(1), Call::Input(1)], ("redefined", 0)),
        (
            1,
            0,
            &[Call::Input(1), Call::Latch(1, 0, 3)],
            ("redefined", 0),
        ),
        (1, 0, &[Call::Latch(1, 2, 3)], ("reset", 0)),
        (3, 4, &[Call::Latch(1, 7, 2)], ("undefined", 2)),
        (
            2,
            2,
            &[Call::Gate(1, 4, 4), Call::Gate(2, 2, 2)],
            ("cyclic", 0),
        ),
        (
            3,
            2,
            &[
                Call::Gate(1, 4, 6),
                Call::Gate(3, 4, 4),
                Call::Latch(2, 2, 1),
            ],
            ("netlist", 2),
        ),
    ];
    for &(max_var, output, calls, wanted) in ROWS {
        assert!(rt; outcome(rt.alloc(), u32::from(max_var), output, calls) == wanted);
    }
}

// Whether the net of the chain has its gates, and its top one is one where the input is.
fn is_chain(alloc: Global, net: &Netlist) -> Result<bool, AllocError> {
    let mut row = BitRow::with_len(alloc, 100002)?;
    if row.len() != net.max_var() + 1 || net.gates().len() != 100000 {
        return Ok(false);
    }
    row.set(1, true);
    net.eval(&mut row);
    Ok(row.get(100001))
}

#[test]
fn a_long_chain_of_gates_has_its_levels_and_values(rt: HostRuntime) -> Result<(), Fail> {
    match chain(rt.alloc()) {
        Ok(net) => assert!(rt; is_chain(rt.alloc(), &net)?),
        Err(_) => assert!(rt; false),
    }
    Ok(())
}
