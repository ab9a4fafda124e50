//! The opening of a refinement: one class of all places, split by the first frames of 512 runs. What splits there needs no
//! question to the solver.
ghost use Rattle.std.specs.Prelude.{◌≡◌, ◌<◌, ◌≤◌, IfOk};
ghost use Rattle.verdict_stamp.specs.Opening.{AreFramesThatAdd, AreOpened};

use crate::version::Version;
use product_machine::Product;
use sim_words::{Stimulus, WideState};
use std::alloc::{AllocError, Global};

impl<'p> Version<'p> {
    /// The first version, split by frames 0 to 15 of 512 runs, whose free latches and inputs are the words of a stimulus with
    /// seed 1: first eight words for each free latch, in a tied pair for the left netlist's alone, then for each frame eight for
    /// each input, where bit b of word j is that of one run. Places are together exactly where they are equal, each with its
    /// phase, in all these frames; the number counts the frames that added classes.
    pub fn opening(alloc: Global, product: &'p Product, k: u32) -> Result<Version<'p>, AllocError>
        requires some { 0 < k }
        requires few { k ≤ 16 }
        ensures product { IfOk result (λ v. v.pair ≡ product.entry.now) }
        ensures k { IfOk result (λ v. v.k ≡ k) }
        ensures classes { IfOk result (λ v. AreOpened product.entry.now 16 v.classes) }
        ensures number { IfOk result (λ v. AreFramesThatAdd product.entry.now 16 v.number) }
    {
        let mut version = Version::first(alloc, product, k)?;
        let mut sim = WideState::new(alloc, product)?;
        let mut stimulus = Stimulus::new(1);
        let mut free = vec![in alloc; 0u64; 8 * sim.free_latches() as usize]?;
        stimulus.fill(free.as_mut_slice());
        sim.reset(free.as_slice());
        let mut inputs = vec![in alloc; 0u64; 8 * product.inputs() as usize]?;
        for frame in 0..16u32 {
            stimulus.fill(inputs.as_mut_slice());
            sim.step(inputs.as_slice());
            version.split_by_wide(alloc, &sim)?;
        }
        Ok(version)
    }
}
