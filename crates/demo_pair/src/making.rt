//! The left netlist of a demo pair, item by item, and the pair.
ghost use Rattle.std.specs.Prelude.{◌≡◌, ◌≤◌, ◌<◌, ◌+◌, ◌*◌, ◌^◌, length, OnOk, IfOk};
ghost use Rattle.std.specs.Prelude.{ℕ};
ghost use Rattle.rand_core.specs.Pcg32Seed.{pcg32_seed};
ghost use Rattle.rand_pcg.specs.Lcg.{Lcg};
ghost use Rattle.rand_pcg.specs.Pcg.{pcg32_of_seed};
ghost use Rattle.demo_pair.specs.Demo.{drawn, drawn_literal, choices, input_made, gate_made, latch_made, output_made, made_reset, each, circuit, IsDemo};

use crate::copying::copy_of;
use aig_graph::{BuildFault, NetBuilder, Netlist};
use circ_model::Lit;
use rand_core::SeedableRng;
use rand_core::utils::NextWord;
use rand_pcg::Lcg64Xsh32;
use std::alloc::{AllocError, Global};

// The next word modulo a number.
#[tactic(auto, unfolding(crate::specs::Demo::drawn))]
fn draw(generator: &mut Lcg64Xsh32, bound: u32) -> u32
    requires { 0 < bound }
    ensures number { result ≡ (drawn bound generator.old).0 }
    ensures after { generator.new ≡ (drawn bound generator.old).1 }
    ensures below { result < bound }
{
    generator.next_word() % bound
}

// The next literal of the variables from 1 to a number.
#[tactic(auto, unfolding(crate::specs::Demo::drawn_literal))]
fn draw_literal(generator: &mut Lcg64Xsh32, variables: u32) -> u32
    requires some { 0 < variables }
    requires few { variables ≤ 1000000 }
    ensures number { result ≡ (drawn_literal variables generator.old).0 }
    ensures after { generator.new ≡ (drawn_literal variables generator.old).1 }
{
    let variable = 1 + draw(generator, variables);
    2 * variable + draw(generator, 2)
}

// The inputs, which draw nothing.
fn make_inputs(count: u32, builder: &mut NetBuilder) -> Result<(), BuildFault>
    requires { count ≤ 1000000 }
    ensures { OnOk result ((g : Lcg) → (builder.new, g) ≡ each input_made count 1 (builder.old, g)) }
{
    for i in 0..count {
        builder.input(1 + i)?;
    }
    Ok(())
}

// A gate of two literals of the variables below it, the greater first.
#[tactic(auto, unfolding(crate::specs::Demo::gate_made))]
fn make_gate(
    var: u32,
    generator: &mut Lcg64Xsh32,
    builder: &mut NetBuilder,
) -> Result<(), BuildFault>
    requires some { 1 < var }
    requires few { var ≤ 1000000 }
    ensures { OnOk result ((builder.new, generator.new) ≡ gate_made var (builder.old, generator.old)) }
{
    let first = draw_literal(generator, var - 1);
    let second = draw_literal(generator, var - 1);
    let left = Lit::from_number(first.max(second));
    let right = Lit::from_number(first.min(second));
    builder.gate(var, left, right)
}

fn make_gates(
    count: u32,
    first: u32,
    generator: &mut Lcg64Xsh32,
    builder: &mut NetBuilder,
) -> Result<(), BuildFault>
    requires some { 0 < count → 1 < first }
    requires few { first + count ≤ 1000000 }
    ensures { OnOk result ((builder.new, generator.new) ≡ each gate_made count first (builder.old, generator.old)) }
{
    for i in 0..count {
        make_gate(first + i, generator, builder)?;
    }
    Ok(())
}

// A latch, whose reset is 0 or 1.
#[tactic(auto, unfolding(crate::specs::Demo::latch_made))]
fn make_latch(
    variables: u32,
    var: u32,
    generator: &mut Lcg64Xsh32,
    builder: &mut NetBuilder,
) -> Result<(), BuildFault>
    requires some { 0 < variables }
    requires few { variables ≤ 1000000 }
    ensures { OnOk result ((builder.new, generator.new) ≡ latch_made variables var (builder.old, generator.old)) }
{
    let next = Lit::from_number(draw_literal(generator, variables));
    let reset = Lit::of(0, draw(generator, 2) == 1);
    builder.latch(var, next, reset)
}

fn make_latches(
    variables: u32,
    count: u32,
    first: u32,
    generator: &mut Lcg64Xsh32,
    builder: &mut NetBuilder,
) -> Result<(), BuildFault>
    requires some { 0 < count → 0 < variables }
    requires few { variables ≤ 1000000 }
    requires room { first + count ≤ 1000000 }
    ensures { OnOk result ((builder.new, generator.new) ≡ each (latch_made variables) count first (builder.old, generator.old)) }
{
    for i in 0..count {
        make_latch(variables, first + i, generator, builder)?;
    }
    Ok(())
}

#[tactic(auto, unfolding(crate::specs::Demo::output_made))]
fn make_output(
    variables: u32,
    generator: &mut Lcg64Xsh32,
    builder: &mut NetBuilder,
) -> Result<(), BuildFault>
    requires some { 0 < variables }
    requires few { variables ≤ 1000000 }
    requires room { length builder.old.outputs < 1000000 }
    ensures made { OnOk result ((j : ℕ) → (builder.new, generator.new) ≡ output_made variables j (builder.old, generator.old)) }
{
    let lit = Lit::from_number(draw_literal(generator, variables));
    builder.output(lit)
}

fn make_outputs(
    variables: u32,
    count: u32,
    generator: &mut Lcg64Xsh32,
    builder: &mut NetBuilder,
) -> Result<(), BuildFault>
    requires some { 0 < count → 0 < variables }
    requires few { variables ≤ 1000000 }
    requires room { length builder.old.outputs + count ≤ 1000000 }
    ensures { OnOk result ((builder.new, generator.new) ≡ each (output_made variables) count 0 (builder.old, generator.old)) }
{
    for _ in 0..count {
        make_output(variables, generator, builder)?;
    }
    Ok(())
}

// The left netlist, as it is given to a builder.
#[tactic(auto, unfolding(crate::specs::Demo::circuit))]
fn make_left(alloc: Global, n: u32, generator: &mut Lcg64Xsh32) -> Result<NetBuilder, BuildFault>
    requires few { n ≤ 100000 }
    requires fresh { generator.old ≡ pcg32_of_seed (pcg32_seed 16 n) }
    ensures { IfOk result (λ b. (b, generator.new) ≡ circuit n) }
{
    let mut builder = NetBuilder::new(alloc, 8 * n)?;
    make_inputs(n, &mut builder)?;
    make_gates(6 * n, 2 * n + 1, generator, &mut builder)?;
    make_latches(8 * n, n, n + 1, generator, &mut builder)?;
    make_outputs(8 * n, n, generator, &mut builder)?;
    Ok(builder)
}

// Which latches are complemented in the copy.
#[tactic(auto, unfolding(crate::specs::Demo::choices))]
fn choose(alloc: Global, count: u32, generator: &mut Lcg64Xsh32) -> Result<Vec<bool>, AllocError>
    ensures { IfOk result (λ v. v.items ≡ choices count generator.old) }
{
    let mut chosen = Vec::new(alloc);
    for i in 0..count {
        chosen.push(draw(generator, 2) == 1)?;
    }
    Ok(chosen)
}

// Both netlists of a size.
fn made(alloc: Global, n: u32) -> Result<(Netlist, Netlist), BuildFault>
    requires { n ≤ 100000 }
    ensures { IfOk result (λ p. IsDemo n p.0 p.1) }
{
    let mut generator = Lcg64Xsh32::seed_from_u64(n as u64);
    let builder = make_left(alloc, n, &mut generator)?;
    let chosen = choose(alloc, n, &mut generator)?;
    let left = builder.finish(alloc)?;
    let right = copy_of(alloc, n, chosen.as_slice(), &left)?;
    Ok((left, right))
}

/// The demo pair of a size: n inputs, n latches, 6 n gates and n outputs on each side.
pub fn make_demo(alloc: Global, n: u32) -> Result<(Netlist, Netlist), AllocError>
    requires { n ≤ 100000 }
    ensures { IfOk result (λ p. IsDemo n p.0 p.1) }
{
    made(alloc, n).map_err(|_| AllocError)
}
