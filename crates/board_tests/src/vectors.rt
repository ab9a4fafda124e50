//! Vectors of a run and of a simulation's lane, and what they tell apart.
ghost use Rattle.std.specs.Prelude.{◌≡◌, ◌<◌, IfOk, None, length};
ghost use Rattle.sim_words.specs.Simulation.{HasFrame};
ghost use Rattle.circ_model.specs.Meaning.{places_of};

use crate::circuits::{DELAY, LATE_DELAY, pair_is};
use bit_rows::{BitRow, Rows};
use product_machine::{Path, Product};
use sim_words::SimState;
use std::alloc::{AllocError, Global};
use std::test::Fail;
use verdict_stamp::{Vector, Version};

// Three frames on which all inputs are 0.
fn quiet_inputs(alloc: Global, product: &Product) -> Result<Rows, AllocError> {
    let mut inputs = Rows::new(alloc);
    for _frame in 0..3u32 {
        inputs.push(BitRow::with_len(alloc, product.inputs())?)?;
    }
    Ok(inputs)
}

// The path of them on which all latches are 0 at first.
fn quiet_path(alloc: Global, product: &Product) -> Result<Path, AllocError> {
    let start = BitRow::with_len(alloc, product.latches())?;
    match quiet_inputs(alloc, product) {
        Ok(inputs) => Ok(Path { start, inputs }),
        Err(e) => Err(e),
    }
}

// Whether the first version has the places 2 and 4 together, and a vector tells them apart.
fn tells_apart(alloc: Global, product: &Product, vector: &Vector<'_>) -> Result<bool, AllocError>
    requires pair { vector.now.pair ≡ product.now }
    requires k { vector.now.k ≡ 3 }
{
    let mut version = Version::first(alloc, product, 3)?;
    if product.len() < 5 {
        return Ok(false);
    }
    let together = version.classes().rep(2) == version.classes().rep(4);
    let added = version.split_by(vector);
    Ok(together && added == 1 && version.classes().rep(2) != version.classes().rep(4))
}

// The same of a vector that there is.
fn some_tells_apart(
    alloc: Global,
    product: &Product,
    vector: Result<Vector<'_>, AllocError>,
) -> bool
    requires pair { IfOk vector (λ v. v.pair ≡ product.now) }
    requires k { IfOk vector (λ v. v.k ≡ 3) }
{
    match vector {
        Ok(vector) => tells_apart(alloc, product, &vector) == Ok(true),
        Err(_) => false,
    }
}

// Whether frame 2 of a run tells them apart.
fn frame_tells_apart(alloc: Global, product: &Product, run: &Path) -> bool {
    if !product.is_path(run) || !product.is_run(run) || run.inputs.len() < 3 {
        return false;
    }
    some_tells_apart(alloc, product, Vector::from_run(alloc, product, 3, run, 2))
}

// Whether that of the quiet run does.
fn run_tells_apart(alloc: Global, product: &Product) -> bool {
    match quiet_path(alloc, product) {
        Ok(run) => frame_tells_apart(alloc, product, &run),
        Err(_) => false,
    }
}

// Whether the last frame of a simulation does in a lane.
fn lane_tells_apart(
    alloc: Global,
    product: &Product,
    sim: &SimState<'_>,
    lane: u32,
) -> Result<bool, AllocError>
    requires pair { sim.now.pair ≡ product.now }
    requires frame { HasFrame sim.now.frame }
    requires lane { lane < 64 }
{
    let vector = Vector::of_lane(alloc, product, 3, sim, lane)?;
    tells_apart(alloc, product, &vector)
}

// Whether frame 2 of a simulation does, in the lane whose inputs are 0, and not in one whose inputs are 1.
fn lanes_tell_apart(alloc: Global, product: &Product, sim: &mut SimState<'_>) -> bool
    requires pair { sim.old.pair ≡ product.now }
    requires inputs { length product.now.left.inputs ≡ 1 }
    requires frame { sim.old.frame ≡ None }
{
    sim.step(&[!1]);
    sim.step(&[!1]);
    sim.step(&[!1]);
    lane_tells_apart(alloc, product, sim, 0) == Ok(true)
        && lane_tells_apart(alloc, product, sim, 63) == Ok(false)
}

fn simulation_tells_apart(alloc: Global, product: &Product) -> bool {
    match SimState::new(alloc, product) {
        Ok(mut sim) => product.inputs() == 1 && lanes_tell_apart(alloc, product, &mut sim),
        Err(_) => false,
    }
}

// Whether both do.
fn both_tell_apart(alloc: Global, product: &Product) -> bool {
    run_tells_apart(alloc, product) && simulation_tells_apart(alloc, product)
}

#[test]
fn the_third_frame_of_a_run_tells_two_delays_apart(rt: HostRuntime) -> Result<(), Fail> {
    assert!(rt; pair_is(rt.alloc(), DELAY, LATE_DELAY, both_tell_apart));
    Ok(())
}
