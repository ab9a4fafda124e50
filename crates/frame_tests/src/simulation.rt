//! Simulation of 64 runs at once, and of 512.
ghost use Rattle.std.specs.Prelude.{◌≡◌, ◌<◌, Some, length};
ghost use Rattle.sim_words.specs.Simulation.{HasFrame, HasNext, next_frame};

use crate::circuits::{TOGGLE_FROM_EITHER, TOGGLE_FROM_ONE, pair_is};
use crate::rows::has_bits;
use bit_rows::BitRow;
use product_machine::Product;
use sim_words::{SimState, Stimulus, WideState};
use std::alloc::{AllocError, Global};
use std::test::Fail;

// Goes to the next frame of a pair without inputs, and says whether it has these words.
fn next_is(sim: &mut SimState<'_>, words: &[u64]) -> bool
    requires inputs { length sim.old.pair.left.inputs ≡ 0 }
    requires frame { HasNext sim.old.frame }
    ensures pair { sim.new.pair ≡ sim.old.pair }
    ensures frame { sim.new.frame ≡ Some (next_frame sim.old.frame) }
{
    sim.step(&[]);
    sim.words() == words
}

// Whether the row of a run's frame has these bits, lowest first.
fn is_column(alloc: Global, product: &Product, sim: &SimState<'_>, run: u32, bits: u32) -> bool
    requires pair { sim.now.pair ≡ product.now }
    requires frame { HasFrame sim.now.frame }
    requires run { run < 64 }
{
    match BitRow::with_len(alloc, product.len()) {
        Ok(mut row) => {
            sim.column(run, &mut row);
            has_bits(&row, bits)
        }
        Err(_) => false,
    }
}

// Whether two toggling latches of which the left one is free have the words of three frames.
fn toggles_from(alloc: Global, product: &Product, start: u64) -> Result<bool, AllocError> {
    let mut sim = SimState::new(alloc, product)?;
    if sim.free_latches() != 1 || product.inputs() != 0 || product.len() != 3 {
        return Ok(false);
    }
    sim.reset(&[start]);
    let first = next_is(&mut sim, &[0, start, !0]) && sim.frame() == 0;
    let second = next_is(&mut sim, &[0, !start, 0]) && sim.word(1) == !start;
    let runs = is_column(alloc, product, &sim, 3, 0b000)
        && is_column(alloc, product, &sim, 63, 0b010);
    let third = next_is(&mut sim, &[0, start, !0]) && sim.frame() == 2;
    Ok(first && second && runs && third)
}

fn toggle_where_lanes_say(alloc: Global, product: &Product) -> bool {
    toggles_from(alloc, product, 0x00ff_0000_1234_5678) == Ok(true)
}

#[test]
fn toggling_latches_start_where_their_lanes_say(rt: HostRuntime) -> Result<(), Fail> {
    assert!(rt;
        pair_is(
            rt.alloc(),
            TOGGLE_FROM_EITHER,
            TOGGLE_FROM_ONE,
            toggle_where_lanes_say
        )
    );
    Ok(())
}

// The words j that two toggling latches of which the left one is free have in frame 1, where they start with eight.
fn wide_words(
    alloc: Global,
    product: &Product,
    start: &[u64; 8],
    j: u32,
) -> Result<Vec<u64>, AllocError>
    requires { j < 8 }
{
    let mut words = vec![in alloc; 7u64; product.len() as usize]?;
    let mut sim = WideState::new(alloc, product)?;
    if sim.free_latches() == 1 && product.inputs() == 0 {
        sim.reset(start);
        sim.step(&[]);
        sim.step(&[]);
        sim.write_words(j, words.as_mut_slice());
    }
    drop(sim);
    Ok(words)
}

// Whether word j of each place is as in a simulation of 64 runs.
fn is_simulated(alloc: Global, product: &Product, start: &[u64; 8], j: u32) -> bool
    requires { j < 8 }
{
    match wide_words(alloc, product, start, j) {
        Ok(words) => words.as_slice() == [0, !start[j as usize], 0].as_slice(),
        Err(_) => false,
    }
}

// Whether each of the eight is.
fn are_simulated(alloc: Global, product: &Product) -> bool {
    const START: &[u64; 8] = &[0, !0, 1, 2, 0x00ff_0000_1234_5678, 5, 1 << 63, 7];
    for j in 0..8u32 {
        if !is_simulated(alloc, product, START, j) {
            return false;
        }
    }
    true
}

#[test]
fn each_of_eight_words_has_runs_of_its_own(rt: HostRuntime) -> Result<(), Fail> {
    assert!(rt;
        pair_is(
            rt.alloc(),
            TOGGLE_FROM_EITHER,
            TOGGLE_FROM_ONE,
            are_simulated
        )
    );
    Ok(())
}

#[test]
fn a_seed_repeats_its_words(rt: HostRuntime) {
    let mut whole = [0; 3];
    Stimulus::new(1).fill(&mut whole);
    let mut again = Stimulus::new(1);
    let mut first = [0; 2];
    let mut last = [0; 1];
    again.fill(&mut first);
    again.fill(&mut last);
    assert!(rt; [first[0], first[1], last[0]] == whole);
    let mut other = [0; 3];
    Stimulus::new(2).fill(&mut other);
    assert!(rt; other != whole);
}
