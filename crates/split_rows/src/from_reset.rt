//! What a model of the first frames from reset leads to: 64 runs with its bits, which go on.
ghost use Rattle.std.specs.Prelude.{◌≡◌, ◌≤◌, ◌*◌, None, length};

use crate::rows::SplitRows;
use crate::words::{free_among, lay};
use pair_sweep::FreeBit;
use sim_words::SimState;
use std::alloc::{AllocError, Global};
use step_lanes::LaneRows;

// So many frames are simulated after the first k.
const MORE: u32 = 8;

impl<'p> SplitRows<'p> {
    // Goes through so many frames from reset, and takes in the rows of each.
    fn take_runs(
        &mut self,
        alloc: Global,
        sim: &mut SimState<'_>,
        inputs: &[u64],
        frames: u32,
    ) -> Result<(), AllocError>
        requires pair { sim.old.pair ≡ self.old.pair }
        requires frame { sim.old.frame ≡ None }
        requires few { frames ≤ 64 }
        requires inputs { length inputs.now ≡ frames * length self.old.pair.left.inputs }
        ensures { self.new ≡ self.old }
    {
        let (product, k) = (self.product, self.k);
        let each = product.inputs() as usize;
        for t in 0..frames {
            let begin = t as usize * each;
            sim.step(&inputs[begin..begin + each]);
            let rows = LaneRows::of_runs(alloc, product, k, sim)?;
            self.take(alloc, rows)?;
        }
        Ok(())
    }

    /// Simulates 64 runs from reset with these free bits, which a model of the solver has for the first k frames, and takes in the rows
    /// of these frames and of some later ones.
    pub fn run_from(&mut self, alloc: Global, bits: &[FreeBit]) -> Result<(), AllocError>
        requires few { self.old.k ≤ 16 }
        ensures { self.new ≡ self.old }
    {
        let product = self.product;
        let each = product.inputs() as usize;
        let frames = self.k + MORE;
        let mut start = vec![in alloc; 0u64; product.latches() as usize]?;
        let mut inputs = vec![in alloc; 0u64; frames as usize * each]?;
        self.stimulus.fill(start.as_mut_slice());
        self.stimulus.fill(inputs.as_mut_slice());
        lay(bits, start.as_mut_slice(), inputs.as_mut_slice(), each);
        let mut sim = SimState::new(alloc, product)?;
        let mut free = vec![in alloc; 0u64; sim.free_latches() as usize]?;
        free_among(product, start.as_slice(), free.as_mut_slice());
        sim.reset(free.as_slice());
        self.take_runs(alloc, &mut sim, inputs.as_slice(), frames)
    }
}
