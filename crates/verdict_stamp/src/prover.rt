//! Proving the needed pairs of a version by k-induction: by the sweep where that shows it, and else by questions over whole
//! frames, so that the answer is exact whatever the sweep leaves open.
ghost use Rattle.std.specs.Prelude.{◌≡◌, ◌<◌, ◌≤◌, ◌+◌, ◌-◌, ◌/◌, ℕ, IsTrue, IfErr, IfOk, IfNone, IfSome, OnOk, is_some, length, true};
ghost use Rattle.and_graph.specs.Askers.{IsHalted, IsTaken};
ghost use Rattle.circ_model.specs.Meaning.{places_of};
ghost use Rattle.circ_model.specs.Correspondence.{MaySplit};
ghost use Rattle.class_partition.specs.Classes.{IsNeeded, least_of, needed};
ghost use Rattle.frame_graph.specs.Inductions.{BasePasses, StepPasses};
ghost use Rattle.frame_questions.specs.Found.{IsFound};
ghost use Rattle.verdict_stamp.specs.Versions.{IsOf, IsVersion, base_of, step_of, base_question, step_question, induction_of};
ghost use Rattle.split_rows.specs.Rows.{AllBroken};
ghost use Rattle.verdict_stamp.specs.Known.{IsBelow};
ghost use Rattle.verdict_stamp.specs.Proofs.{IsApart, IsListed, IsProof, IsSettled, IsSplitOf, IsToldBy, RestsOnLess, SplitsSome};
ghost use Rattle.used_pairs.specs.Latches.{AreByNext};

use crate::known::Known;
use crate::vector::Vector;
use crate::verdict::Verdict;
use crate::version::Version;
use bit_rows::BitRow;
use class_partition::Needed;
use frame_questions::{Prepared, Separation, Workspace};
use pair_sweep::{Asker, Difference, FreeBit, Halt, Sweep, SweepMemory};
use product_machine::Product;
use split_rows::SplitRows;
use std::alloc::{AllocError, Global};
use std::marker::Model;
use used_pairs::latch_pairs;

// So many models of a pair are run on at most.
const MODELS: u32 = 256;

// Another version takes as much as questions over one node for each so many places.
const TURN: u32 = 32;

// How far the needed pairs of a version were asked for in frames from reset.
#[derive(Drop)]
struct Ahead {
    frame: u32,
    member: u32,
}

/// What a proof of a needed pair comes to.
#[derive(Drop)]
pub enum Proof<'v, 'p> {
    /// The pair passes.
    Holds(Verdict<'v, 'p>),
    /// It doesn't: this vector separates it.
    Splits(Vector<'p>),
}

/// What the proofs of one version leave to those of the next: the graph with all that was proved of it, the frames from reset,
/// and the solver's memory.
#[derive(Drop)]
pub struct ProverMemory<'p> {
    sweep: SweepMemory<'p>,
    rows: SplitRows<'p>,
    base: Option<Prepared<'p>>,
    resets: Workspace,
    steps: Workspace,
}

impl<'p> Model for ProverMemory<'p> {
    ghost use Rattle.std.specs.Prelude.{◌≡◌, IfSome};
    ghost use Rattle.frame_unroll.specs.Unrolled.{from_reset};
    ghost use Rattle.pair_sweep.specs.Sweeps.{Extent};
    ghost use Rattle.verdict_stamp.specs.Versions.{IsOf};

    ghost Value = { Extent };

    ghost view = { λ m. m.sweep };

    ghost invariant = { λ m. (m.rows ≡ m.sweep) × IfSome m.base (IsOf (from_reset m.sweep.pair m.sweep.k)) };
}

impl<'p> ProverMemory<'p> {
    /// Nothing is proved yet of this pair, for induction over k frames; it may go on to so many at most. It errs for want of memory
    /// alone.
    pub fn new(
        alloc: Global,
        product: &'p Product,
        k: u32,
        most: u32,
    ) -> Result<ProverMemory<'p>, AllocError>
        requires few { most ≤ 16 }
        requires within { k ≤ most }
        ensures { IfOk result (λ m. m ≡ record { pair = product.entry.now; k = k }) }
    {
        Ok(ProverMemory {
            sweep: SweepMemory::new(alloc, product, k, most)?,
            rows: SplitRows::new(alloc, product, k),
            base: None,
            resets: Workspace::new(),
            steps: Workspace::new(),
        })
    }

    /// For induction over one frame more, which may go on with the graph and what was proved of it. The rows don't: those of k frames
    /// may separate pairs of the greatest correspondence for k + 1. It errs for want of memory alone.
    pub fn deeper(self, alloc: Global) -> Result<ProverMemory<'p>, AllocError>
        requires few { self.k < 16 }
        ensures { IfOk result (λ m. m ≡ record { pair = self.entry.pair; k = self.entry.k + 1 }) }
    {
        let ProverMemory {
            sweep,
            resets,
            steps,
            ..
        } = self;
        let sweep = sweep.deeper(alloc)?;
        let rows = SplitRows::new(alloc, sweep.product(), sweep.k());
        Ok(ProverMemory {
            sweep,
            rows,
            base: None,
            resets,
            steps,
        })
    }
}

/// A version with what its pairs are proved by: the sweep, and the frames of the questions where they are asked. The version
/// is lent: by a list of published ones, so that workers share it.
#[derive(Drop)]
pub struct Prover<'v, 'p> {
    current: &'v Version<'p>,
    sweep: Sweep<'v, 'p>,
    rows: SplitRows<'p>,
    base: Option<Prepared<'p>>,
    step: Option<Prepared<'p>>,
    resets: Workspace,
    steps: Workspace,
    // for each place of each of the first k frames whether what it owes is assumed: a hint
    assumed: Vec<bool>,
    ahead: Ahead,
    // what questions had taken before the version; whether one found a pair apart since rows were last looked for; whether the
    // version is to be left for that; and whether rows waited when they were last looked for: hints
    began: u64,
    is_fresh: bool,
    is_late: bool,
    waits: bool,
}

impl<'v, 'p> Model for Prover<'v, 'p> {
    ghost use Rattle.std.specs.Prelude.{◌≡◌, IfSome};
    ghost use Rattle.verdict_stamp.specs.Versions.{Standing, IsOf, IsVersion, base_of, step_of, extent_of, induction_of};

    ghost Value = { Standing };

    ghost view = { λ p. p.current.now };

    ghost invariant = { λ p. IsVersion p.current.now × (p.sweep ≡ induction_of p.current.now) × (p.rows ≡ extent_of p.current.now)
        × IfSome p.base (IsOf (base_of p.current.now))
        × IfSome p.step (IsOf (step_of p.current.now)) };
}

// The frames from reset of a version's first question: those that were kept, or else they are made.
fn base_frames<'p>(
    alloc: Global,
    kept: Option<Prepared<'p>>,
    version: &Version<'p>,
) -> Result<Prepared<'p>, AllocError>
    requires kept { IfSome kept (IsOf (base_of version.now)) }
    ensures { IfOk result (IsOf (base_of version.now)) }
{
    match kept {
        Some(made) => Ok(made),
        None => Prepared::reset_frames(alloc, version.product(), version.k()),
    }
}

// Those of its second question, likewise.
fn step_frames<'p>(
    alloc: Global,
    kept: Option<Prepared<'p>>,
    version: &Version<'p>,
) -> Result<Prepared<'p>, AllocError>
    requires kept { IfSome kept (IsOf (step_of version.now)) }
    ensures { IfOk result (IsOf (step_of version.now)) }
{
    match kept {
        Some(made) => Ok(made),
        None => Prepared::step_frames(alloc, version.product(), version.k(), version.classes()),
    }
}

// Whether a run has the pair apart in one of its first k frames, asked over whole frames, which are made where they aren't yet.
fn ask_base<'p>(
    alloc: Global,
    frames: &mut Option<Prepared<'p>>,
    work: &mut Workspace,
    version: &Version<'p>,
    pair: Needed,
) -> Result<Separation, AllocError>
    requires version { IsVersion version.now }
    requires place { pair.member < places_of version.now.pair }
    requires rep { pair.rep ≡ least_of version.now.classes pair.member }
    requires frames { IfSome frames.old (IsOf (base_of version.now)) }
    ensures frames { IfSome frames.new (IsOf (base_of version.now)) }
    ensures found { IfOk result (IsFound (base_of version.now) (base_question version.now pair.member)) }
{
    let product = version.product();
    let _places = product.len();
    let (a, b) = version.classes().needed(pair.member);
    let made = base_frames(alloc, frames.take(), version)?;
    let found = made.find_in(alloc, work, a, b, 0, version.k() - 1);
    *frames = Some(made);
    found
}

// Whether a path has it apart after k frames in which the classes hold.
fn ask_step<'p>(
    alloc: Global,
    frames: &mut Option<Prepared<'p>>,
    work: &mut Workspace,
    version: &Version<'p>,
    pair: Needed,
) -> Result<Separation, AllocError>
    requires version { IsVersion version.now }
    requires place { pair.member < places_of version.now.pair }
    requires rep { pair.rep ≡ least_of version.now.classes pair.member }
    requires frames { IfSome frames.old (IsOf (step_of version.now)) }
    ensures frames { IfSome frames.new (IsOf (step_of version.now)) }
    ensures found { IfOk result (IsFound (step_of version.now) (step_question version.now pair.member)) }
{
    let product = version.product();
    let _places = product.len();
    let k = version.k();
    let (a, b) = version.classes().needed(pair.member);
    let made = step_frames(alloc, frames.take(), version)?;
    let found = made.find_in(alloc, work, a, b, k, k);
    *frames = Some(made);
    found
}

// Whether known classes pair a member of a version's classes with its class's least place, so that nothing has to be asked of it.
fn is_known(version: &Version<'_>, member: u32, known: Option<&Known<'_>>) -> bool
    requires version { IsVersion version.now }
    requires place { member < places_of version.now.pair }
    requires known { IfSome known (λ n. IsBelow n.now version.now) }
{
    let Some(known) = known else {
        return false;
    };
    let _places = version.product().len();
    let (a, b) = version.classes().needed(member);
    let _product = known.product();
    known.classes().paired(a, b)
}

// Marks an item of a row, which grows where it is short. Answers whether it had no mark.
fn mark(row: &mut Vec<bool>, at: usize) -> Result<bool, AllocError> {
    for _ in row.len()..=at {
        row.push(false)?;
    }
    if at >= row.len() || row[at] {
        return Ok(false);
    }
    row[at] = true;
    Ok(true)
}

// The vector of a row of a version's places.
fn vector_under<'p>(version: &Version<'p>, row: BitRow) -> Vector<'p>
    requires size { length row ≡ places_of version.now.pair }
    requires may { MaySplit version.now.pair version.now.k row }
    ensures { result ≡ record { pair = version.now.pair; k = version.now.k; bits = row } }
{
    Vector::of(version.product(), version.k(), row)
}

impl<'v, 'p> Prover<'v, 'p> {
    /// In memory of its own. It errs for want of memory alone.
    pub fn new(alloc: Global, version: &'v Version<'p>) -> Result<Prover<'v, 'p>, AllocError>
        ensures { IfOk result (λ p. p ≡ version.now) }
    {
        let k = version.k();
        let memory = ProverMemory::new(alloc, version.product(), k, k)?;
        Prover::over(alloc, memory, version)
    }

    /// In the memory of earlier proofs, of any version of the same pair and k. It errs for want of memory alone, and what it was
    /// given is then gone.
    pub fn over(
        alloc: Global,
        memory: ProverMemory<'p>,
        version: &'v Version<'p>,
    ) -> Result<Prover<'v, 'p>, AllocError>
        requires pair { memory.pair ≡ version.now.pair }
        requires k { memory.k ≡ version.now.k }
        ensures { IfOk result (λ p. p ≡ version.now) }
    {
        let _product = version.product();
        let mut memory = memory;
        if memory.rows.turn_to(alloc, version.classes()).is_err() {
            drop(memory);
            return Err(AllocError);
        }
        let ProverMemory {
            sweep,
            rows,
            base,
            resets,
            steps,
        } = memory;
        let Ok(sweep) = Sweep::new(sweep, version.classes()) else {
            drop(rows);
            drop(base);
            drop(resets);
            drop(steps);
            return Err(AllocError);
        };
        let began = sweep.work();
        Ok(Prover {
            current: version,
            sweep,
            rows,
            base,
            step: None,
            resets,
            steps,
            assumed: Vec::new(alloc),
            ahead: Ahead {
                frame: 0,
                member: 0,
            },
            began,
            is_fresh: false,
            is_late: false,
            waits: false,
        })
    }

    /// The memory for the proofs of another version.
    pub fn into_memory(self) -> ProverMemory<'p>
        ensures pair { result.pair ≡ self.entry.pair }
        ensures k { result.k ≡ self.entry.k }
    {
        let Prover {
            sweep,
            rows,
            base,
            resets,
            steps,
            ..
        } = self;
        ProverMemory {
            sweep: sweep.into_memory(),
            rows,
            base,
            resets,
            steps,
        }
    }

    /// The version whose pairs are proved.
    pub fn version(&self) -> &'v Version<'p>
        ensures { result.now ≡ self.now }
    {
        self.current
    }

    // A row that has the pair apart in one of the first k frames of a run, or none: asked over whole frames.
    fn base_row(&mut self, alloc: Global, pair: Needed) -> Result<Option<BitRow>, AllocError>
        requires place { pair.member < places_of self.old.pair }
        requires rep { pair.rep ≡ least_of self.old.classes pair.member }
        ensures kept { self.new ≡ self.old }
        ensures none { IfOk result (λ row. IfNone row (BasePasses (induction_of self.old) pair.member)) }
        ensures some { IfOk result (λ row. IfSome row (IsSplitOf self.old pair.member)) }
    {
        match ask_base(alloc, &mut self.base, &mut self.resets, self.current, pair)? {
            Separation::Path(seen) => Ok(Some(seen.bits)),
            Separation::None(_) => Ok(None),
        }
    }

    // A row that has it apart after k frames in which the classes hold, or none: asked over whole frames.
    fn step_row(&mut self, alloc: Global, pair: Needed) -> Result<Option<BitRow>, AllocError>
        requires place { pair.member < places_of self.old.pair }
        requires rep { pair.rep ≡ least_of self.old.classes pair.member }
        ensures kept { self.new ≡ self.old }
        ensures none { IfOk result (λ row. IfNone row (StepPasses (induction_of self.old) pair.member)) }
        ensures some { IfOk result (λ row. IfSome row (IsSplitOf self.old pair.member)) }
    {
        match ask_step(alloc, &mut self.step, &mut self.steps, self.current, pair)? {
            Separation::Path(seen) => Ok(Some(seen.bits)),
            Separation::None(_) => {
                self.sweep.take_passed(pair.member)?;
                Ok(None)
            }
        }
    }

    /// Proves a needed pair by questions over whole frames: it holds exactly where it passes, in the first k frames of every run and
    /// after k frames in which the classes hold; else a vector separates it. It errs for want of memory alone.
    pub fn prove(&mut self, alloc: Global, pair: Needed) -> Result<Proof<'v, 'p>, AllocError>
        requires needed { IsNeeded (places_of self.old.pair) self.old.classes pair.member }
        requires rep { pair.rep ≡ least_of self.old.classes pair.member }
        ensures kept { self.new ≡ self.old }
        ensures proof { IfOk result (IsProof self.old pair.member) }
    {
        let version = self.current;
        if let Some(row) = self.base_row(alloc, pair)? {
            return Ok(Proof::Splits(vector_under(version, row)));
        }
        if let Some(row) = self.step_row(alloc, pair)? {
            return Ok(Proof::Splits(vector_under(version, row)));
        }
        Ok(Proof::Holds(Verdict::of(version, pair.member)))
    }

    // A vector of a row that is held, where one separates the pair.
    fn held(&mut self, alloc: Global, pair: Needed) -> Result<Option<Vector<'p>>, AllocError>
        requires place { pair.member < places_of self.old.pair }
        requires rep { pair.rep ≡ least_of self.old.classes pair.member }
        ensures kept { self.new ≡ self.old }
        ensures vector { IfOk result (λ v. IfSome v (IsApart self.old pair.member)) }
    {
        let version = self.current;
        let Some(row) = self.rows.apart(alloc, version.classes(), pair)? else {
            return Ok(None);
        };
        Ok(Some(vector_under(version, row)))
    }

    // A vector of a row that waits, where there is one.
    fn waiting(&mut self, alloc: Global) -> Result<Option<Vector<'p>>, AllocError>
        ensures kept { self.new ≡ self.old }
        ensures vector { IfOk result (λ v. IfSome v (SplitsSome self.old)) }
    {
        let version = self.current;
        let Some(row) = self.rows.next_waiting(alloc, version.classes())? else {
            return Ok(None);
        };
        Ok(Some(vector_under(version, row)))
    }

    // Asks of a needed pair that no row separates, and that isn't known, whether it holds in a frame from reset. Runs that show that it doesn't are
    // simulated, and their rows wait.
    fn ask_ahead(
        &mut self,
        alloc: Global,
        asker: &mut Asker,
        frame: u32,
        member: u32,
        known: Option<&Known<'_>>,
    ) -> Result<(), Halt>
        requires frame { frame < self.old.k }
        requires place { member < places_of self.old.pair }
        requires known { IfSome known (λ n. IsBelow n.now self.old) }
        ensures kept { self.new ≡ self.old }
        ensures most { asker.new.most ≡ asker.old.most }
        ensures halt { IfErr result (IsHalted asker.old asker.new) }
    {
        let classes = self.current.classes();
        let rep = classes.rep(member);
        if rep == member || self.rows.is_apart(Needed { rep, member }) {
            return Ok(());
        }
        if is_known(self.current, member, known) {
            return Ok(());
        }
        let found = self.sweep.base_difference_in(alloc, asker, frame, member)?;
        if let Some(bits) = found {
            self.rows.run_from(alloc, bits.as_slice())?;
            self.rows.wait_again();
        }
        Ok(())
    }

    // Asks so of the needed pairs from where it was left off on. A question that is put aside isn't put again here.
    fn frame_ahead(
        &mut self,
        alloc: Global,
        asker: &mut Asker,
        frame: u32,
        known: Option<&Known<'_>>,
    ) -> Result<(), Halt>
        requires frame { frame < self.old.k }
        requires known { IfSome known (λ n. IsBelow n.now self.old) }
        ensures kept { self.new ≡ self.old }
        ensures most { asker.new.most ≡ asker.old.most }
        ensures halt { IfErr result (IsHalted asker.old asker.new) }
    {
        for member in self.ahead.member..self.current.classes().len() {
            self.ahead.member = member + 1;
            self.ask_ahead(alloc, asker, frame, member, known)?;
        }
        self.ahead.member = 0;
        Ok(())
    }

    // Asks so in each of the first k frames from reset, once under a version: one frame after another, since what the pairs of a
    // frame rest on is merged in the frames before it.
    fn base_ahead(
        &mut self,
        alloc: Global,
        asker: &mut Asker,
        known: Option<&Known<'_>>,
    ) -> Result<(), Halt>
        requires known { IfSome known (λ n. IsBelow n.now self.old) }
        ensures kept { self.new ≡ self.old }
        ensures most { asker.new.most ≡ asker.old.most }
        ensures halt { IfErr result (IsHalted asker.old asker.new) }
    {
        for frame in self.ahead.frame..self.current.k() {
            self.ahead.frame = frame;
            self.frame_ahead(alloc, asker, frame, known)?;
        }
        self.ahead.frame = u32::MAX;
        Ok(())
    }

    /// A vector of a row that waits, where there is one: it separates some needed pair. Rows wait that are held when the version comes;
    /// those of runs from reset that tell pairs of it apart, for which it asks when no other is left, but of no pair that is known; and those that are held when
    /// questions have taken as much as another version would. An `Err` is want of memory, or a question is put aside in the asker.
    pub fn next_waiting(
        &mut self,
        alloc: Global,
        asker: &mut Asker,
        known: Option<&Known<'_>>,
    ) -> Result<Option<Vector<'p>>, Halt>
        requires known { IfSome known (λ n. IsBelow n.now self.old) }
        ensures kept { self.new ≡ self.old }
        ensures vector { IfOk result (λ v. IfSome v (SplitsSome self.old)) }
        ensures most { asker.new.most ≡ asker.old.most }
        ensures halt { IfErr result (IsHalted asker.old asker.new) }
    {
        self.rows.run_ahead(alloc)?;
        self.leave_late();
        self.waits = true;
        if let Some(vector) = self.waiting(alloc)? {
            return Ok(Some(vector));
        }
        self.base_ahead(alloc, asker, known)?;
        let found = self.waiting(alloc)?;
        self.waits = found.is_some();
        Ok(found)
    }

    /// Whether what was found apart is better handed in at once: rows waited, or questions have taken as much as another version would
    /// and found a pair apart, and no more rows wait. A hint.
    pub fn is_due(&mut self) -> bool
        ensures { self.new ≡ self.old }
    {
        let version = self.current;
        (self.waits || self.is_late) && !self.rows.has_waiting(version.classes())
    }

    // Where questions found a pair apart, and have taken as much as another version would, has rows wait that came since.
    fn leave_late(&mut self)
        ensures { self.new ≡ self.old }
    {
        let took = self.sweep.work().saturating_sub(self.began);
        if self.is_fresh && took >= (self.current.classes().len() / TURN) as u64 {
            self.is_fresh = false;
            self.is_late = true;
            self.rows.wait_again();
        }
    }

    // A vector that has the pair apart in one of the first k frames of a run, or none: by the sweep; by rows of runs that a model leads
    // to; and else over whole frames.
    fn base_vector(
        &mut self,
        alloc: Global,
        asker: &mut Asker,
        pair: Needed,
    ) -> Result<Option<Vector<'p>>, Halt>
        requires place { pair.member < places_of self.old.pair }
        requires rep { pair.rep ≡ least_of self.old.classes pair.member }
        ensures kept { self.new ≡ self.old }
        ensures none { IfOk result (λ v. IfNone v (BasePasses (induction_of self.old) pair.member)) }
        ensures some { IfOk result (λ v. IfSome v (IsApart self.old pair.member)) }
        ensures most { asker.new.most ≡ asker.old.most }
        ensures halt { IfErr result (IsHalted asker.old asker.new) }
    {
        let version = self.current;
        match self.sweep.base_difference(alloc, asker, pair.member)? {
            None => return Ok(None),
            Some(bits) => self.rows.run_from(alloc, bits.as_slice())?,
        }
        if let Some(vector) = self.held(alloc, pair)? {
            return Ok(Some(vector));
        }
        match self.base_row(alloc, pair)? {
            Some(row) => Ok(Some(vector_under(version, row))),
            None => Ok(None),
        }
    }

    // A vector that has it apart, or none where it passes after k frames in which the classes hold: by the sweep; by rows that a model
    // leads to; and else over whole frames.
    fn step_vector(
        &mut self,
        alloc: Global,
        asker: &mut Asker,
        pair: Needed,
    ) -> Result<Option<Vector<'p>>, Halt>
        requires place { pair.member < places_of self.old.pair }
        requires rep { pair.rep ≡ least_of self.old.classes pair.member }
        ensures kept { self.new ≡ self.old }
        ensures none { IfOk result (λ v. IfNone v (StepPasses (induction_of self.old) pair.member)) }
        ensures some { IfOk result (λ v. IfSome v (IsApart self.old pair.member)) }
        ensures most { asker.new.most ≡ asker.old.most }
        ensures halt { IfErr result (IsHalted asker.old asker.new) }
    {
        let version = self.current;
        if self.passes_alone(alloc, asker, pair.member)? {
            return Ok(None);
        }
        if self.passes_assuming(alloc, pair.member)? {
            return Ok(None);
        }
        if let Some(vector) = self.held(alloc, pair)? {
            return Ok(Some(vector));
        }
        match self.step_row(alloc, pair)? {
            Some(row) => Ok(Some(vector_under(version, row))),
            None => Ok(None),
        }
    }

    // Whether it passes in the last frame with nothing assumed, where nothing is yet. Else the model is run on, and places that break
    // the classes on its paths owe from then on what they owe.
    fn passes_alone(&mut self, alloc: Global, asker: &mut Asker, member: u32) -> Result<bool, Halt>
        requires place { member < places_of self.old.pair }
        ensures kept { self.new ≡ self.old }
        ensures step { IfOk result (λ passes. IsTrue passes → StepPasses (induction_of self.old) member) }
        ensures most { asker.new.most ≡ asker.old.most }
        ensures halt { IfErr result (IsHalted asker.old asker.new) }
    {
        if self.sweep.is_assuming() {
            return Ok(false);
        }
        let Some(bits) = self.sweep.step_difference(alloc, asker, member)? else {
            return Ok(true);
        };
        let broken = self.run_on(alloc, bits.as_slice())?;
        self.assume_all(broken.as_slice())?;
        Ok(false)
    }

    // Whether it passes there where something is assumed: by the graph alone, or by the solver that is kept for the version. Models are
    // run on until the paths of one keep the classes, whose rows are then held.
    fn passes_assuming(&mut self, alloc: Global, member: u32) -> Result<bool, AllocError>
        requires place { member < places_of self.old.pair }
        ensures kept { self.new ≡ self.old }
        ensures step { IfOk result (λ passes. IsTrue passes → StepPasses (induction_of self.old) member) }
    {
        if !self.sweep.is_assuming() {
            return Ok(false);
        }
        if self.sweep.is_same(member)? {
            return Ok(true);
        }
        for _ in 0..MODELS {
            match self.sweep.assumed_difference(alloc, member)? {
                Difference::Equal => {
                    self.sweep.take_passed(member)?;
                    return Ok(true);
                }
                Difference::Apart(bits) => {
                    if !self.learns(alloc, bits.as_slice())? {
                        return Ok(false);
                    }
                }
                Difference::Unknown => return Ok(false),
            }
        }
        Ok(false)
    }

    // Whether a model gives more to assume. Where it is of the leaves near a pair and breaks nothing that isn't assumed yet, it is run on
    // with all leaves that it has values of. Where its paths keep the classes there is nothing to assume.
    fn learns(&mut self, alloc: Global, bits: &[FreeBit]) -> Result<bool, AllocError>
        ensures { self.new ≡ self.old }
    {
        let broken = self.run_on(alloc, bits)?;
        if broken.len() == 0 {
            return Ok(false);
        }
        if self.assume_all(broken.as_slice())? {
            return Ok(true);
        }
        let whole = self.sweep.whole_model(alloc)?;
        let broken = self.run_on(alloc, whole.as_slice())?;
        self.assume_all(broken.as_slice())
    }

    // Has places that broke the classes owe what they owe. Answers whether there are any of which that wasn't assumed yet.
    fn assume_all(&mut self, broken: &[(u32, u32)]) -> Result<bool, AllocError>
        requires broken { AllBroken self.old.k (places_of self.old.pair) broken.now }
        ensures { self.new ≡ self.old }
    {
        let mut is_more = false;
        for at in broken {
            if self.is_news(at.0, at.1)? {
                self.sweep.assume(at.0, at.1)?;
                is_more = true;
            }
        }
        Ok(is_more)
    }

    // Whether what a place owes isn't assumed yet; from now on it counts as assumed.
    fn is_news(&mut self, frame: u32, place: u32) -> Result<bool, AllocError>
        ensures { self.new ≡ self.old }
    {
        let places = self.current.classes().len() as usize;
        let at = (frame as usize)
            .saturating_mul(places)
            .saturating_add(place as usize);
        mark(&mut self.assumed, at)
    }

    // Runs a model on. Answers some of the places that break the classes, where its paths don't keep them.
    fn run_on(&mut self, alloc: Global, bits: &[FreeBit]) -> Result<Vec<(u32, u32)>, AllocError>
        ensures kept { self.new ≡ self.old }
        ensures broken { IfOk result (λ b. AllBroken self.old.k (places_of self.old.pair) b.items) }
    {
        let classes = self.current.classes();
        self.rows.run_on(alloc, classes, bits)
    }

    // That a pair of latches whose next literals the classes have together passes, by these alone: in each frame a latch has what its
    // next literal has in the frame before.
    fn by_latches(
        &mut self,
        alloc: Global,
        pair: Needed,
    ) -> Result<Option<Verdict<'v, 'p>>, AllocError>
        requires needed { IsNeeded (places_of self.old.pair) self.old.classes pair.member }
        requires rep { pair.rep ≡ least_of self.old.classes pair.member }
        requires base { BasePasses (induction_of self.old) pair.member }
        ensures kept { self.new ≡ self.old }
        ensures some { IfOk result (λ found. IfSome found (IsListed self.old pair.member)) }
        ensures none { IfOk result (λ found. IfNone found (AreByNext self.old.pair self.old.classes pair → ⊥)) }
    {
        let version = self.current;
        let _places = version.product().len();
        let Some(pairs) = latch_pairs(alloc, version.product(), version.classes(), pair)? else {
            return Ok(None);
        };
        self.sweep.take_passed(pair.member)?;
        let verdict = Verdict::by_pairs(alloc, version, pair.member, pairs)?;
        Ok(Some(verdict))
    }

    // Settles a needed pair that holds in the first k frames of every run.
    fn settle_step(
        &mut self,
        alloc: Global,
        asker: &mut Asker,
        pair: Needed,
    ) -> Result<Proof<'v, 'p>, Halt>
        requires needed { IsNeeded (places_of self.old.pair) self.old.classes pair.member }
        requires rep { pair.rep ≡ least_of self.old.classes pair.member }
        requires base { BasePasses (induction_of self.old) pair.member }
        ensures kept { self.new ≡ self.old }
        ensures settled { IfOk result (IsSettled self.old pair.member) }
        ensures latches { IfOk result (λ proof. AreByNext self.old.pair self.old.classes pair → RestsOnLess proof) }
        ensures most { asker.new.most ≡ asker.old.most }
        ensures halt { IfErr result (IsHalted asker.old asker.new) }
    {
        let version = self.current;
        if let Some(verdict) = self.by_latches(alloc, pair)? {
            return Ok(Proof::Holds(verdict));
        }
        if let Some(vector) = self.step_vector(alloc, asker, pair)? {
            self.is_fresh = true;
            return Ok(Proof::Splits(vector));
        }
        Ok(Proof::Holds(Verdict::of(version, pair.member)))
    }

    /// Settles a needed pair: it holds, or a vector separates it. Rows that simulation found for other pairs, or other versions,
    /// are tried first, so a vector says nothing of whether the pair passes under this version: `prove` tells that. Where the pair is
    /// one of latches whose next literals the classes have together, a verdict rests on these alone. It errs for want of memory, or where
    /// a question is put aside in the asker.
    pub fn settle(
        &mut self,
        alloc: Global,
        asker: &mut Asker,
        pair: Needed,
    ) -> Result<Proof<'v, 'p>, Halt>
        requires needed { IsNeeded (places_of self.old.pair) self.old.classes pair.member }
        requires rep { pair.rep ≡ least_of self.old.classes pair.member }
        ensures kept { self.new ≡ self.old }
        ensures settled { IfOk result (IsSettled self.old pair.member) }
        ensures latches { IfOk result (λ proof. AreByNext self.old.pair self.old.classes pair → RestsOnLess proof) }
        ensures most { asker.new.most ≡ asker.old.most }
        ensures halt { IfErr result (IsHalted asker.old asker.new) }
    {
        self.rows.run_ahead(alloc)?;
        if let Some(vector) = self.held(alloc, pair)? {
            return Ok(Proof::Splits(vector));
        }
        if let Some(vector) = self.base_vector(alloc, asker, pair)? {
            self.is_fresh = true;
            return Ok(Proof::Splits(vector));
        }
        self.settle_step(alloc, asker, pair)
    }

    /// Whether the question that an asker has put aside rests on a place and its class's least place: then it is better asked once that
    /// pair is settled. A hint.
    pub fn rests_on(&self, asker: &Asker, member: u32) -> bool
        ensures { IsTrue result → is_some asker.now.aside ≡ true }
    {
        let product = self.current.product();
        member < product.len() && self.sweep.rests_on(asker, member)
    }

    /// Takes in the answer to a question that the asker had put aside, when it has solved it. It errs for want of memory alone.
    pub fn take_answer(&mut self, alloc: Global, asker: &mut Asker) -> Result<(), AllocError>
        ensures kept { self.new ≡ self.old }
        ensures taken { OnOk result (IsTaken asker.old asker.new) }
    {
        self.sweep.take_answer(alloc, asker)
    }

    /// Settles a needed pair as `settle` does, but for those that the known classes pair: they pass, and nothing is asked. It errs
    /// where `settle` does.
    pub fn settle_known(
        &mut self,
        alloc: Global,
        asker: &mut Asker,
        pair: Needed,
        known: &Known<'_>,
    ) -> Result<Proof<'v, 'p>, Halt>
        requires needed { IsNeeded (places_of self.old.pair) self.old.classes pair.member }
        requires rep { pair.rep ≡ least_of self.old.classes pair.member }
        requires known { IsBelow known.now self.old }
        ensures kept { self.new ≡ self.old }
        ensures settled { IfOk result (IsSettled self.old pair.member) }
        ensures told { IfOk result (IsToldBy known.now self.old pair.member) }
        ensures most { asker.new.most ≡ asker.old.most }
        ensures halt { IfErr result (IsHalted asker.old asker.new) }
    {
        let version = self.current;
        let Some(verdict) = Verdict::known_own(version, pair, known) else {
            return self.settle(alloc, asker, pair);
        };
        self.sweep.take_passed(pair.member)?;
        Ok(Proof::Holds(verdict))
    }
}
