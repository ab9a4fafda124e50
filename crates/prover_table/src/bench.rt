//! What a worker proves pairs with: the frames of a published version. They are made anew where the worker is given a pair of
//! another version; that they are of a pair's version is seen from two indices.
ghost use Rattle.std.specs.Prelude.{◌≡◌, IfErr, IfOk, IfSome, IsTrue, OnOk, is_some, true};
ghost use Rattle.and_graph.specs.Askers.{IsHalted, IsTaken};
ghost use Rattle.circ_model.specs.Meaning.{places_of};
ghost use Rattle.class_partition.specs.Classes.{IsNeeded, least_of};
ghost use Rattle.boxcar.specs.Table.{Shows};
ghost use Rattle.verdict_stamp.specs.Proofs.{IsSettled, SplitsSome};
ghost use Rattle.prover_table.specs.Tables.{IsBenchOf, IsKnownFor, IsMemoryFor};

use crate::lent::Lent;
use class_partition::Needed;
use refine_board::Run;
use std::alloc::{AllocError, Global};
use std::marker::Model;
use std::mem;
use verdict_stamp::{
    Asker, Halt, Known, Proof, Prover, ProverMemory, Stamp, Vector, Version, Versions,
};

/// The frames of a version, and its stamp.
#[derive(Drop)]
pub(crate) struct Bench<'v, 'p> {
    stamp: Stamp<'p>,
    prover: Prover<'v, 'p>,
}

impl<'v, 'p> Model for Bench<'v, 'p> {
    ghost use Rattle.std.specs.Prelude.{◌≡◌};
    ghost use Rattle.verdict_stamp.specs.Published.{Stamped};

    ghost Value = { Stamped };

    ghost view = { λ b. b.stamp };

    ghost invariant = { λ b. b.stamp.value.version ≡ b.prover };
}

// The frames of a version, which go on with what was proved before where something was.
fn prover_of<'v, 'p>(
    alloc: Global,
    memory: Option<ProverMemory<'p>>,
    version: &'v Version<'p>,
) -> Result<Prover<'v, 'p>, AllocError>
    requires memory { IfSome memory (IsMemoryFor version.now.pair version.now.k) }
    ensures { IfOk result (λ p. p ≡ version.now) }
{
    match memory {
        Some(memory) => Prover::over(alloc, memory, version),
        None => Prover::new(alloc, version),
    }
}

impl<'v, 'p> Bench<'v, 'p> {
    /// The bench of a version, which goes on with what was proved before where something was.
    pub(crate) fn new(
        alloc: Global,
        memory: Option<ProverMemory<'p>>,
        versions: &'v Versions<'p>,
        stamp: &Stamp<'p>,
    ) -> Result<Bench<'v, 'p>, AllocError>
        requires listed { Shows versions.now stamp.now }
        requires memory { IfSome memory (IsMemoryFor stamp.now.value.version.pair stamp.now.value.version.k) }
        ensures listed { IfOk result (λ b. Shows versions.now b) }
        ensures version { IfOk result (λ b. b.value ≡ stamp.now.value) }
    {
        let prover = prover_of(alloc, memory, versions.at(stamp))?;
        Ok(Bench {
            stamp: stamp.copy(),
            prover,
        })
    }

    /// Whether it is of a stamp's version.
    pub(crate) fn is_of(&self, versions: &Versions<'p>, stamp: &Stamp<'p>) -> bool
        requires own { Shows versions.now self.now }
        requires listed { Shows versions.now stamp.now }
        ensures { result ≡ true → self.now.value ≡ stamp.now.value }
    {
        versions.same(&self.stamp, stamp)
    }

    /// The bench of another version of the same pair and k, which goes on with what was proved here.
    pub(crate) fn turned_to(
        self,
        alloc: Global,
        versions: &'v Versions<'p>,
        stamp: &Stamp<'p>,
    ) -> Result<Bench<'v, 'p>, AllocError>
        requires listed { Shows versions.now stamp.now }
        requires pair { self.value.version.pair ≡ stamp.now.value.version.pair }
        requires k { self.value.version.k ≡ stamp.now.value.version.k }
        ensures listed { IfOk result (λ b. Shows versions.now b) }
        ensures version { IfOk result (λ b. b.value ≡ stamp.now.value) }
    {
        let Bench { prover, .. } = self;
        let prover = Prover::over(alloc, prover.into_memory(), versions.at(stamp))?;
        Ok(Bench {
            stamp: stamp.copy(),
            prover,
        })
    }

    /// What was proved here, for the bench of another version.
    pub(crate) fn into_memory(self) -> ProverMemory<'p>
        ensures { IsMemoryFor self.entry.value.version.pair self.entry.value.version.k result }
    {
        let Bench { prover, .. } = self;
        prover.into_memory()
    }

    /// A vector of a row that waits, where there is one.
    pub(crate) fn next_waiting(
        &mut self,
        alloc: Global,
        asker: &mut Asker,
        known: Option<&Known<'_>>,
    ) -> Result<Option<Vector<'p>>, Halt>
        requires earlier { IfSome known (λ n. IsKnownFor self.old.value.version.pair self.old.value.version.k n.now) }
        ensures kept { self.new ≡ self.old }
        ensures vector { IfOk result (λ v. IfSome v (SplitsSome self.old.value.version)) }
        ensures most { asker.new.most ≡ asker.old.most }
        ensures halt { IfErr result (IsHalted asker.old asker.new) }
    {
        self.prover.next_waiting(alloc, asker, known)
    }

    /// Whether what was found apart is better handed in at once. A hint.
    pub(crate) fn is_due(&mut self) -> bool
        ensures { self.new ≡ self.old }
    {
        self.prover.is_due()
    }

    /// Settles a pair of its version: unasked, where the classes of an earlier k are known and pair it.
    pub(crate) fn settle(
        &mut self,
        alloc: Global,
        asker: &mut Asker,
        pair: Needed,
        known: Option<&Known<'_>>,
    ) -> Result<Proof<'v, 'p>, Halt>
        requires needed { IsNeeded (places_of self.old.value.version.pair) self.old.value.version.classes pair.member }
        requires rep { pair.rep ≡ least_of self.old.value.version.classes pair.member }
        requires earlier { IfSome known (λ n. IsKnownFor self.old.value.version.pair self.old.value.version.k n.now) }
        ensures kept { self.new ≡ self.old }
        ensures settled { IfOk result (IsSettled self.old.value.version pair.member) }
        ensures most { asker.new.most ≡ asker.old.most }
        ensures halt { IfErr result (IsHalted asker.old asker.new) }
    {
        match known {
            Some(known) => self.prover.settle_known(alloc, asker, pair, known),
            None => self.prover.settle(alloc, asker, pair),
        }
    }

    /// Whether the question that the asker has put aside rests on the pair of a member.
    pub(crate) fn rests_on(&self, asker: &Asker, member: u32) -> bool
        ensures { IsTrue result → is_some asker.now.aside ≡ true }
    {
        self.prover.rests_on(asker, member)
    }

    /// Takes in the answer to the question that the asker had put aside.
    pub(crate) fn take_answer(&mut self, alloc: Global, asker: &mut Asker) -> Result<(), AllocError>
        ensures kept { self.new ≡ self.old }
        ensures taken { OnOk result (IsTaken asker.old asker.new) }
    {
        self.prover.take_answer(alloc, asker)
    }
}

// The bench of a version: the one that there is, turned to it, or a new one, which takes up what was proved before.
fn bench_for<'v, 'p, L: Run>(
    alloc: Global,
    lent: &Lent<'v, 'p, L>,
    old: Option<Bench<'v, 'p>>,
    memory: &mut Option<ProverMemory<'p>>,
    stamp: &Stamp<'p>,
) -> Result<Bench<'v, 'p>, AllocError>
    requires old { IfSome old (IsBenchOf L.list L.pair L.k) }
    requires memory { IfSome memory.old (IsMemoryFor L.pair L.k) }
    requires listed { IsBenchOf L.list L.pair L.k stamp.now }
    ensures memory { IfSome memory.new (IsMemoryFor L.pair L.k) }
    ensures listed { IfOk result (λ b. Shows L.list b) }
    ensures version { IfOk result (λ b. b.value ≡ stamp.now.value) }
{
    match old {
        Some(bench) => bench.turned_to(alloc, lent.versions, stamp),
        None => Bench::new(alloc, memory.take(), lent.versions, stamp),
    }
}

// Whether there is a bench of a stamp's version.
fn is_at<'p, L: Run>(
    lent: &Lent<'_, 'p, L>,
    bench: &Option<Bench<'_, 'p>>,
    stamp: &Stamp<'p>,
) -> bool
    requires bench { IfSome bench.now (IsBenchOf L.list L.pair L.k) }
    requires listed { IsBenchOf L.list L.pair L.k stamp.now }
    ensures some { result ≡ true → is_some bench.now ≡ true }
    ensures version { result ≡ true → IfSome bench.now (λ b. b.value ≡ stamp.now.value) }
{
    match bench {
        Some(bench) => bench.is_of(lent.versions, stamp),
        None => false,
    }
}

/// Has the bench be of a version: where it is already, nothing moves.
pub(crate) fn turn<'v, 'p, L: Run>(
    alloc: Global,
    lent: &Lent<'v, 'p, L>,
    bench: &mut Option<Bench<'v, 'p>>,
    memory: &mut Option<ProverMemory<'p>>,
    stamp: &Stamp<'p>,
) -> Result<(), AllocError>
    requires bench { IfSome bench.old (IsBenchOf L.list L.pair L.k) }
    requires memory { IfSome memory.old (IsMemoryFor L.pair L.k) }
    requires listed { IsBenchOf L.list L.pair L.k stamp.now }
    ensures memory { IfSome memory.new (IsMemoryFor L.pair L.k) }
    ensures bench { IfSome bench.new (IsBenchOf L.list L.pair L.k) }
    ensures some { OnOk result (is_some bench.new ≡ true) }
    ensures version { OnOk result (IfSome bench.new (λ b. b.value ≡ stamp.now.value)) }
{
    if is_at(lent, bench, stamp) {
        return Ok(());
    }
    let turned = bench_for(alloc, lent, bench.take(), memory, stamp)?;
    drop(mem::replace(bench, Some(turned)));
    Ok(())
}
