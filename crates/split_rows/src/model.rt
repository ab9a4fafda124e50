//! What a model of the solver leads to: 64 paths with its bits, run on.
ghost use Rattle.std.specs.Prelude.{◌≡◌, ◌<◌, ◌≤◌, ◌+◌, ◌*◌, IfOk, length};
ghost use Rattle.circ_model.specs.Meaning.{latches_of, places_of};
ghost use Rattle.class_partition.specs.Classes.{KeepsGreatest};
ghost use Rattle.split_rows.specs.Rows.{AllBroken};

use crate::rows::SplitRows;
use crate::words::{add_broken, agree, drawn_among, lay};
use class_partition::Classes;
use pair_sweep::FreeBit;
use std::alloc::{AllocError, Global};
use step_lanes::{LaneRows, StepLanes};

// So many frames are simulated after that of a model.
const MORE: u32 = 8;

// The places that break the classes in the first k frames of the first path, a few of them.
fn broken_places(
    alloc: Global,
    lanes: &mut StepLanes<'_, '_>,
    classes: &Classes,
    inputs: &[u64],
    frames: u32,
) -> Result<Vec<(u32, u32)>, AllocError>
    requires inputs { length inputs.now ≡ frames * length lanes.old.pair.left.inputs }
    requires few { frames ≤ 17 }
    requires begin { lanes.old.frames ≡ 0 }
    ensures { IfOk result (λ b. AllBroken frames (length classes.now.least) b.items) }
{
    let each = lanes.product().inputs() as usize;
    let mut broken = Vec::new(alloc);
    for t in 0..frames {
        let begin = t as usize * each;
        lanes.step(&inputs[begin..begin + each]);
        add_broken(classes, lanes.words(), t, &mut broken)?;
    }
    Ok(broken)
}

// Goes through so many frames.
fn step_frames(lanes: &mut StepLanes<'_, '_>, inputs: &[u64], frames: u32)
    requires inputs { length inputs.now ≡ frames * length lanes.old.pair.left.inputs }
    requires few { frames ≤ 17 }
    requires begin { lanes.old.frames ≡ 0 }
    ensures pair { lanes.new.pair ≡ lanes.old.pair }
    ensures k { lanes.new.k ≡ lanes.old.k }
    ensures classes { lanes.new.classes ≡ lanes.old.classes }
    ensures frames { lanes.new.frames ≡ frames }
{
    let each = lanes.product().inputs() as usize;
    for t in 0..frames {
        let begin = t as usize * each;
        lanes.step(&inputs[begin..begin + each]);
    }
}

impl<'p> SplitRows<'p> {
    // Takes in the rows at which paths stand. Answers whether they split anything.
    fn take_step(&mut self, alloc: Global, lanes: &StepLanes<'_, 'p>) -> Result<bool, AllocError>
        requires pair { lanes.now.pair ≡ self.old.pair }
        requires k { lanes.now.k ≡ self.old.k }
        requires frame { lanes.now.k < lanes.now.frames }
        requires keeps { KeepsGreatest lanes.now.pair lanes.now.k lanes.now.classes }
        ensures { self.new ≡ self.old }
    {
        let splitting = self.split_by(lanes.words(), lanes.lanes())?;
        if splitting == 0 {
            return Ok(false);
        }
        if let Some(block) = LaneRows::of_step(alloc, lanes)? {
            self.keep(alloc, block, splitting)?;
        }
        Ok(true)
    }

    // Draws the words of a start and of the inputs of so many frames.
    fn draw(&mut self, start: &mut [u64], inputs: &mut [u64])
        ensures kept { self.new ≡ self.old }
        ensures start { length start.new ≡ length start.old }
        ensures inputs { length inputs.new ≡ length inputs.old }
    {
        let SplitRows {
            stimulus,
            reached,
            ..
        } = self;
        stimulus.fill(start);
        stimulus.fill(inputs);
        drawn_among(reached.as_slice(), start);
    }

    /// Simulates 64 paths with these free bits, which a model of the solver has for the step of classes that separate no pair of
    /// the greatest correspondence, and takes in the rows of those on which the classes hold in the first k frames: of frame k, and
    /// of some later ones. Where there are none it answers some of the places that break the classes, each with its frame.
    pub fn run_on(
        &mut self,
        alloc: Global,
        classes: &Classes,
        bits: &[FreeBit],
    ) -> Result<Vec<(u32, u32)>, AllocError>
        requires places { length classes.now.least ≡ places_of self.old.pair }
        requires few { self.old.k ≤ 16 }
        requires keeps { KeepsGreatest self.old.pair self.old.k classes.now }
        ensures kept { self.new ≡ self.old }
        ensures broken { IfOk result (λ b. AllBroken self.old.k (places_of self.old.pair) b.items) }
    {
        let product = self.product;
        let each = product.inputs() as usize;
        let mut start = vec![in alloc; 0u64; product.latches() as usize]?;
        let mut inputs = vec![in alloc; 0u64; (self.k as usize + 1) * each]?;
        self.draw(start.as_mut_slice(), inputs.as_mut_slice());
        lay(bits, start.as_mut_slice(), inputs.as_mut_slice(), each);
        self.run_paths(alloc, classes, start.as_mut_slice(), inputs.as_mut_slice())
    }

    // The same with the words of a start, which is to agree with the classes, and of the inputs of the first k + 1 frames.
    fn run_paths(
        &mut self,
        alloc: Global,
        classes: &Classes,
        start: &mut [u64],
        inputs: &mut [u64],
    ) -> Result<Vec<(u32, u32)>, AllocError>
        requires places { length classes.now.least ≡ places_of self.old.pair }
        requires few { self.old.k ≤ 16 }
        requires keeps { KeepsGreatest self.old.pair self.old.k classes.now }
        requires start { length start.old ≡ latches_of self.old.pair }
        requires inputs { length inputs.old ≡ (self.old.k + 1) * length self.old.pair.left.inputs }
        ensures kept { self.new ≡ self.old }
        ensures broken { IfOk result (λ b. AllBroken self.old.k (places_of self.old.pair) b.items) }
    {
        let product = self.product;
        let each = product.inputs() as usize;
        agree(alloc, product, classes, inputs, start)?;
        let mut lanes = StepLanes::new(alloc, product, self.k, classes, start)?;
        step_frames(&mut lanes, inputs, self.k + 1);
        if lanes.lanes() == 0 {
            drop(lanes);
            let mut again = StepLanes::new(alloc, product, self.k, classes, start)?;
            let before = self.k as usize * each;
            let broken = broken_places(alloc, &mut again, classes, &inputs[..before], self.k);
            drop(again);
            return broken;
        }
        let gone = self.go_on(alloc, &mut lanes, &mut inputs[..each]);
        drop(lanes);
        gone?;
        Ok(Vec::new(alloc))
    }

    // Takes in the rows at which paths stand, and simulates some frames more while they split, with inputs that are drawn.
    fn go_on(
        &mut self,
        alloc: Global,
        lanes: &mut StepLanes<'_, 'p>,
        inputs: &mut [u64],
    ) -> Result<(), AllocError>
        requires pair { lanes.old.pair ≡ self.old.pair }
        requires k { lanes.old.k ≡ self.old.k }
        requires frame { (lanes.old.k < lanes.old.frames) × (lanes.old.frames ≤ 17) }
        requires keeps { KeepsGreatest lanes.old.pair lanes.old.k lanes.old.classes }
        requires inputs { length inputs.old ≡ length self.old.pair.left.inputs }
        ensures { self.new ≡ self.old }
    {
        self.take_step(alloc, lanes)?;
        for _ in 0..MORE {
            self.stimulus.fill(inputs);
            lanes.step(inputs);
            if !self.take_step(alloc, lanes)? {
                return Ok(());
            }
        }
        Ok(())
    }
}
