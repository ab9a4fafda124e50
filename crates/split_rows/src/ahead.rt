//! Runs that go on after the opening.
ghost use Rattle.std.specs.Prelude.{◌≡◌, ◌<◌, ◌≤◌, ◌+◌, IfOk, OnOk, None, Some, length};
ghost use Rattle.sim_words.specs.Simulation.{HasNext, next_frame};

use crate::rows::SplitRows;
use crate::words::latch_words;
use product_machine::Product;
use sim_words::{SimState, Stimulus};
use std::alloc::{AllocError, Global};
use step_lanes::LaneRows;

// So many frames are simulated at most.
const MOST: u32 = 1024;

// Each step of so many frames has to add a part.
const STEP: u32 = 32;

// A reset of all runs, whose free latches are drawn.
fn draw_reset(
    alloc: Global,
    sim: &mut SimState<'_>,
    stimulus: &mut Stimulus,
) -> Result<(), AllocError>
    ensures pair { sim.new.pair ≡ sim.old.pair }
    ensures frame { OnOk result (sim.new.frame ≡ None) }
{
    let mut free = vec![in alloc; 0u64; sim.free_latches() as usize]?;
    stimulus.fill(free.as_mut_slice());
    sim.reset(free.as_slice());
    Ok(())
}

// The rows of the next frame, whose inputs are drawn.
fn next_rows<'p>(
    alloc: Global,
    product: &'p Product,
    k: u32,
    sim: &mut SimState<'_>,
    stimulus: &mut Stimulus,
    inputs: &mut [u64],
) -> Result<LaneRows<'p>, AllocError>
    requires pair { sim.old.pair ≡ product.now }
    requires frame { HasNext sim.old.frame }
    requires inputs { length inputs.old ≡ length product.now.left.inputs }
    ensures pair { sim.new.pair ≡ sim.old.pair }
    ensures frame { sim.new.frame ≡ Some (next_frame sim.old.frame) }
    ensures inputs { length inputs.new ≡ length inputs.old }
    ensures rows { IfOk result (λ b. (b.pair ≡ product.entry.now) × (b.k ≡ k)) }
{
    stimulus.fill(inputs);
    sim.step(inputs);
    LaneRows::of_runs(alloc, product, k, sim)
}

// How many parts the frames since the last step added, and whether runs go on.
#[derive(Drop)]
struct Pace {
    added: u32,
    goes: bool,
}

impl Pace {
    // Whether runs are to go on after so many frames.
    fn goes_on(&mut self, frames: u32) -> bool {
        if frames > 0 && frames % STEP == 0 {
            self.goes = self.goes && self.added > 0;
            self.added = 0;
        }
        self.goes
    }
}

impl<'p> SplitRows<'p> {
    // Goes on with runs while they split the classes.
    fn run_while(
        &mut self,
        alloc: Global,
        sim: &mut SimState<'_>,
        stimulus: &mut Stimulus,
        inputs: &mut [u64],
    ) -> Result<(), AllocError>
        requires pair { sim.old.pair ≡ self.old.pair }
        requires frame { sim.old.frame ≡ None }
        requires inputs { length inputs.old ≡ length self.old.pair.left.inputs }
        ensures kept { self.new ≡ self.old }
        ensures pair { sim.new.pair ≡ sim.old.pair }
        ensures frame { next_frame sim.new.frame ≤ MOST }
        ensures inputs { length inputs.new ≡ length inputs.old }
    {
        let (product, k) = (self.product, self.k);
        let mut pace = Pace {
            added: 0,
            goes: true,
        };
        for t in 0..MOST {
            if pace.goes_on(t) {
                let rows = next_rows(alloc, product, k, sim, stimulus, inputs)?;
                pace.added = pace.added.saturating_add(self.take(alloc, rows)?);
            }
        }
        Ok(())
    }

    // The same once, from a reset of all runs of a simulation.
    fn run_from_reset(
        &mut self,
        alloc: Global,
        sim: &mut SimState<'_>,
        stimulus: &mut Stimulus,
    ) -> Result<(), AllocError>
        requires pair { sim.old.pair ≡ self.old.pair }
        ensures { self.new ≡ self.old }
    {
        let (product, k) = (self.product, self.k);
        draw_reset(alloc, sim, stimulus)?;
        let mut inputs = vec![in alloc; 0u64; product.inputs() as usize]?;
        self.run_while(alloc, sim, stimulus, inputs.as_mut_slice())?;
        for t in 0..k {
            let rows = next_rows(alloc, product, k, sim, stimulus, inputs.as_mut_slice())?;
            if t == 0 {
                self.reached = latch_words(alloc, product, rows.words())?;
            }
            self.take(alloc, rows)?;
        }
        Ok(())
    }

    /// Simulates 64 runs from reset while they split the classes, once, and takes in the rows that do. An `Err` is want of memory.
    pub fn run_ahead(&mut self, alloc: Global) -> Result<(), AllocError>
        ensures { self.new ≡ self.old }
    {
        if self.is_ahead {
            return Ok(());
        }
        self.is_ahead = true;
        let mut stimulus = Stimulus::new(3);
        let mut sim = SimState::new(alloc, self.product)?;
        let ran = self.run_from_reset(alloc, &mut sim, &mut stimulus);
        drop(sim);
        ran
    }
}
