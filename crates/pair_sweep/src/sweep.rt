//! A sweep of one version's needed pairs, and what it leaves to that of the next version.
ghost use Rattle.std.specs.Prelude.{◌≡◌, ◌<◌, ◌≤◌, ◌+◌, ◌*◌, ◌/◌, ℕ, IfErr, IfNone, IfOk, IsTrue, OnOk, is_some, length, true};
ghost use Rattle.and_graph.specs.Askers.{IsHalted, IsTaken};
ghost use Rattle.circ_model.specs.Meaning.{places_of};
ghost use Rattle.frame_graph.specs.Inductions.{BasePasses, HoldsInFrame, StepPasses};
ghost use Rattle.pair_sweep.specs.Sweeps.{IsSweep, PassesIfEqual};

use crate::free_bit::{Difference, FreeBit, decoded, free_bits};
use and_graph::{Asker, Graph, Halt};
use circ_model::Lit;
use class_partition::Classes;
use frame_graph::FrameMap;
use graph_solver::{Answer, GraphSolver};
use product_machine::Product;
use std::alloc::{AllocError, Global};
use std::marker::Model;

/// A graph with the frames of a pair from reset: what holds of its nodes holds for good, whatever the classes are.
#[derive(Drop)]
pub struct SweepMemory<'p> {
    k: u32,
    graph: Graph,
    resets: FrameMap<'p>,
    steps: FrameMap<'p>,
    solver: GraphSolver,
}

impl<'p> Model for SweepMemory<'p> {
    ghost use Rattle.pair_sweep.specs.Sweeps.{Extent, IsMemory};

    ghost Value = { Extent };

    ghost view = { λ m. record { pair = m.resets.leaves.pair; k = m.k } };

    ghost invariant = { λ m. IsMemory m.graph m.resets m.steps m.k };
}

impl<'p> SweepMemory<'p> {
    /// A new graph, and the first k frames from reset, with leaves for induction over so many frames at most. It errs for want of
    /// memory alone, and so it is below.
    pub fn new(
        alloc: Global,
        product: &'p Product,
        k: u32,
        most: u32,
    ) -> Result<SweepMemory<'p>, AllocError>
        requires few { most ≤ 16 }
        requires within { k ≤ most }
        ensures { IfOk result (λ m. m ≡ record { pair = product.entry.now; k = k }) }
    {
        let mut graph = Graph::new(alloc, 1023)?;
        let mut resets = FrameMap::new(alloc, product, &mut graph, most + 1)?;
        resets.map_reset(&mut graph, k)?;
        let steps = resets.beside(alloc);
        let solver = GraphSolver::new(alloc)?;
        Ok(SweepMemory {
            k,
            graph,
            resets,
            steps,
            solver,
        })
    }

    /// For induction over one frame more: what was found of the graph holds for it too, so the graph goes on with one frame from
    /// reset more. Where its leaves are used up, a new one begins.
    pub fn deeper(self, alloc: Global) -> Result<SweepMemory<'p>, AllocError>
        requires few { self.k < 16 }
        ensures { IfOk result (λ m. m ≡ record { pair = self.entry.pair; k = self.entry.k + 1 }) }
    {
        let SweepMemory {
            k,
            mut graph,
            mut resets,
            steps,
            solver,
        } = self;
        if resets.frames() == k + 1 {
            return SweepMemory::new(alloc, resets.product(), k + 1, k + 1);
        }
        resets.next_reset(&mut graph)?;
        Ok(SweepMemory {
            k: k + 1,
            graph,
            resets,
            steps,
            solver,
        })
    }

    /// The pair of netlists.
    pub fn product(&self) -> &'p Product
        ensures { result.now ≡ self.now.pair }
    {
        self.resets.product()
    }

    /// Over how many frames the induction goes.
    pub fn k(&self) -> u32
        ensures { result ≡ self.now.k }
    {
        self.k
    }
}

/// The frames of a pair for one version of the classes on such a graph. Contracts see the pair, k and the classes.
#[derive(Drop)]
pub struct Sweep<'v, 'p> {
    classes: &'v Classes,
    k: u32,
    graph: Graph,
    resets: FrameMap<'p>,
    steps: FrameMap<'p>,
    // what is assumed in this version of the frames in which the classes hold
    solver: GraphSolver,
}

impl<'v, 'p> Model for Sweep<'v, 'p> {
    ghost use Rattle.frame_graph.specs.Inductions.{Induction};
    ghost use Rattle.pair_sweep.specs.Sweeps.{IsSweep};

    ghost Value = { Induction };

    ghost view = { λ s. record { pair = s.resets.leaves.pair; k = s.k; classes = s.classes.now } };

    ghost invariant = { λ s. IsSweep s.graph s.resets s.steps s.solver s.k s.classes.now };
}

impl<'v, 'p> Sweep<'v, 'p> {
    /// Maps the frames of the step for these classes: the first k with each place by the least place of its class. It errs for
    /// want of memory alone, and the memory of the sweep before is then gone.
    pub fn new(memory: SweepMemory<'p>, classes: &'v Classes) -> Result<Sweep<'v, 'p>, AllocError>
        requires places { length classes.now.least ≡ places_of memory.pair }
        ensures { IfOk result (λ s. s ≡ record { pair = memory.entry.pair; k = memory.entry.k; classes = classes.entry.now }) }
    {
        let SweepMemory {
            k,
            mut graph,
            resets,
            mut steps,
            mut solver,
        } = memory;
        solver.clear()?;
        steps.map_step(&mut graph, classes, k)?;
        Ok(Sweep {
            classes,
            k,
            graph,
            resets,
            steps,
            solver,
        })
    }

    /// What is left to the sweep of another version.
    pub fn into_memory(self) -> SweepMemory<'p>
        ensures { result ≡ record { pair = self.entry.pair; k = self.entry.k } }
    {
        let Sweep {
            k,
            graph,
            resets,
            steps,
            solver,
            ..
        } = self;
        SweepMemory {
            k,
            graph,
            resets,
            steps,
            solver,
        }
    }

    /// Where a place seems to differ from its class's least place, at their relative phase, in the first k frames of some run: none,
    /// if they are found equal there on every run. It asks the solver of what the graph doesn't show. Free bits with values are a
    /// hint, which is to be simulated. An `Err` is want of memory, or a question is put aside in the asker.
    pub fn base_difference(
        &mut self,
        alloc: Global,
        asker: &mut Asker,
        member: u32,
    ) -> Result<Option<Vec<FreeBit>>, Halt>
        requires place { member < places_of self.old.pair }
        ensures kept { self.new ≡ self.old }
        ensures passes { IfOk result (λ found. IfNone found (BasePasses self.old member)) }
        ensures most { asker.new.most ≡ asker.old.most }
        ensures halt { IfErr result (IsHalted asker.old asker.new) }
    {
        let frames = &self.resets;
        let found = frames.settle_base(alloc, &mut self.graph, asker, self.classes, member)?;
        Ok(decoded(alloc, frames, found)?)
    }

    /// The same of one of these frames.
    pub fn base_difference_in(
        &mut self,
        alloc: Global,
        asker: &mut Asker,
        frame: u32,
        member: u32,
    ) -> Result<Option<Vec<FreeBit>>, Halt>
        requires place { member < places_of self.old.pair }
        requires frame { frame < self.old.k }
        ensures kept { self.new ≡ self.old }
        ensures passes { IfOk result (λ found. IfNone found (HoldsInFrame self.old frame member)) }
        ensures most { asker.new.most ≡ asker.old.most }
        ensures halt { IfErr result (IsHalted asker.old asker.new) }
    {
        let map = &self.resets;
        let found = map.settle_base_in(alloc, &mut self.graph, asker, self.classes, frame, member)?;
        Ok(decoded(alloc, map, found)?)
    }

    /// Where it seems to differ after k frames in which the classes hold: none, if it is found equal there. It asks the solver of
    /// what the graph doesn't show. Free bits with values are a hint: they may be those of a path on which the classes don't hold,
    /// since a member that stands for its class's least place is not asked to be equal to it. An `Err` is want of memory, or
    /// the question is put aside in the asker.
    pub fn step_difference(
        &mut self,
        alloc: Global,
        asker: &mut Asker,
        member: u32,
    ) -> Result<Option<Vec<FreeBit>>, Halt>
        requires place { member < places_of self.old.pair }
        ensures kept { self.new ≡ self.old }
        ensures passes { IfOk result (λ found. IfNone found (StepPasses self.old member)) }
        ensures most { asker.new.most ≡ asker.old.most }
        ensures halt { IfErr result (IsHalted asker.old asker.new) }
    {
        let _places = self.classes.len();
        self.steps.reach(&mut self.graph, member + 1)?;
        let frames = &self.steps;
        let found = frames.settle_step(alloc, &mut self.graph, asker, self.classes, member)?;
        Ok(decoded(alloc, frames, found)?)
    }

    /// Whether the graph shows that it is equal there, with no question. It errs for want of memory alone.
    pub fn is_same(&mut self, member: u32) -> Result<bool, AllocError>
        requires place { member < places_of self.old.pair }
        ensures kept { self.new ≡ self.old }
        ensures passes { IfOk result (λ same. IsTrue same → StepPasses self.old member) }
    {
        let _places = self.classes.len();
        self.steps.reach(&mut self.graph, member + 1)?;
        let (least, other) = self.steps.step_pair(self.classes, member);
        let _nodes = self.graph.len();
        Ok(self.graph.same(least, other))
    }

    /// Assumes from now on what a place owes in one of the first k frames, in which the classes hold. It errs for want of memory alone.
    pub fn assume(&mut self, frame: u32, place: u32) -> Result<(), AllocError>
        requires frame { frame < self.old.k }
        requires place { place < places_of self.old.pair }
        ensures { self.new ≡ self.old }
    {
        let _places = self.classes.len();
        let (own, stands) = self.steps.owed(&mut self.graph, frame, place)?;
        self.solver.assume(&self.graph, own, stands)
    }

    /// Whether something is assumed so. A hint.
    pub fn is_assuming(&self) -> bool {
        self.solver.has_facts()
    }

    /// Whether it is equal there, where what is assumed holds: so asks the solver that is kept for the version. It errs for want of memory
    /// alone.
    pub fn assumed_difference(
        &mut self,
        alloc: Global,
        member: u32,
    ) -> Result<Difference, AllocError>
        requires place { member < places_of self.old.pair }
        ensures kept { self.new ≡ self.old }
        ensures passes { IfOk result (PassesIfEqual self.old member) }
    {
        let _places = self.classes.len();
        self.steps.reach(&mut self.graph, member + 1)?;
        let (least, other) = self.steps.step_pair(self.classes, member);
        let _nodes = self.graph.len();
        match self.solver.difference(alloc, &self.graph, least, other)? {
            Answer::Equal => Ok(Difference::Equal),
            Answer::Apart(pattern) => {
                let bits = free_bits(alloc, &self.steps, &pattern)?;
                Ok(Difference::Apart(bits))
            }
            Answer::Unknown => Ok(Difference::Unknown),
        }
    }

    /// Values of the free bits on which the questions of the version rested so far, or what is assumed, in the model that was found
    /// last. A hint.
    pub fn whole_model(&self, alloc: Global) -> Result<Vec<FreeBit>, AllocError> {
        let pattern = self.solver.whole_model(alloc, &self.graph)?;
        free_bits(alloc, &self.steps, &pattern)
    }

    /// Whether the question that an asker has put aside rests on a place and its class's least place, in some frame in which they are to
    /// be found equal.
    pub fn rests_on(&self, asker: &Asker, member: u32) -> bool
        requires place { member < places_of self.now.pair }
        ensures { IsTrue result → is_some asker.now.aside ≡ true }
    {
        for frame in 0..self.k {
            let (least, other) = self.resets.base_pair(self.classes, frame, member);
            if self.graph.rests_on(asker, least, other) {
                return true;
            }
        }
        if !self.steps.has_reached(member) {
            return false;
        }
        let (least, other) = self.steps.step_pair(self.classes, member);
        self.graph.rests_on(asker, least, other)
    }

    /// How much the questions took that the graph's askers were asked so far. A hint.
    pub fn work(&self) -> u64 {
        self.graph.work()
    }

    /// Takes in the answer to the question that the asker had put aside. It errs for want of memory alone.
    pub fn take_answer(&mut self, alloc: Global, asker: &mut Asker) -> Result<(), AllocError>
        ensures kept { self.new ≡ self.old }
        ensures taken { OnOk result (IsTaken asker.old asker.new) }
    {
        self.graph.take_answer(alloc, asker)
    }

    /// Takes in that it is equal there, however that was shown: what rests on it is mapped over its class's least place. It errs
    /// for want of memory alone.
    pub fn take_passed(&mut self, member: u32) -> Result<(), AllocError>
        requires place { member < places_of self.old.pair }
        requires passes { StepPasses self.old member }
        ensures { self.new ≡ self.old }
    {
        let _places = self.classes.len();
        self.steps.reach(&mut self.graph, member + 1)?;
        self.steps.pass(self.classes, member);
        Ok(())
    }
}
