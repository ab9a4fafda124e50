//! The board that workers share, under a lock, and its calls. Each appends one entry to the journal, with the party's next
//! number and its answer, and changes the state as that entry does; between the calls the journal is legal, and leads from
//! the opening to the state.
ghost use Rattle.std.specs.Prelude.{◌≡◌, ◌≢◌, ◌<◌, ◌≤◌, ◌+◌, ◌^◌, ◌↔◌, [], ℕ, IsTrue, IfOk, OnErr, None, true, false};
ghost use Rattle.boxcar.specs.Table.{Shows};
ghost use Rattle.claim_word.specs.Words.{version_of};
ghost use Rattle.circ_model.specs.Meaning.{places_of};
ghost use Rattle.class_partition.specs.Classes.{AreOfGreatest};
ghost use Rattle.refine_board.specs.States.{AllCounted, NoneOpen, SomeOut};
ghost use Rattle.refine_board.specs.Schedules.{Leads, opened};
ghost use Rattle.refine_board.specs.Running.{Appends, Counts, IsAbout, IsBegun, IsStampedAs, IsUnder, IsOf};
ghost use Rattle.refine_board.specs.Answers.{taken, IsCurrentOffer, IsLeastOffer, IsOwnOffer, HasOneStamp, kept_step, cut_step, stamp_after};
ghost use Rattle.verdict_stamp.specs.Published.{IsStampOf};

use crate::answers::{Cut, Kept, Offer, Take};
use crate::journal::{Journal, Step};
use crate::marks::{LastOffer, no_calls, no_offers};
use crate::run::Run;
use crate::same::is_under;
use crate::touched::Marks;
use claim_word::{ClaimWord, Seat};
use std::alloc::{AllocError, Global};
use std::marker::Model;
use std::sync::Wait;
use std::sync::ledger::{Blank, Book, Share};
use verdict_stamp::{Stamp, Vector, Verdict, Version, Versions};

/// The shared board of a run. Its parties are the workers, and one more that works alone at the end. Contracts see its state,
/// its journal's entries, the room in the journal that no answer is owed, and the stamp of the offers since the last split. Its
/// version, as it stands, is published once between two splits: a copy in the run's list, which offers name by its stamp.
#[derive(Drop)]
pub struct Board<'v, 'p, L: Run> {
    pub(crate) alloc: Global,
    pub(crate) version: Version<'p>,
    pub(crate) first: Version<'p>,
    pub(crate) versions: &'v Versions<'p>,
    pub(crate) current: Option<Stamp<'p>>,
    pub(crate) word: &'v ClaimWord,
    pub(crate) seat: Seat,
    pub(crate) turn: u32,
    pub(crate) marks: Marks,
    pub(crate) calls: Vec<u64>,
    pub(crate) offers: Vec<Option<LastOffer>>,
    pub(crate) journal: Journal,
    pub(crate) cursor: u32,
    pub(crate) owed: Book<L>,
    pub(crate) rest: Share<L>,
    pub(crate) waiting: usize,
}

impl<'v, 'p, L: Run> Model for Board<'v, 'p, L> {
    ghost use Rattle.std.specs.Prelude.{◌≡◌, ◌-◌};
    ghost use Rattle.claim_word.specs.Words.{version_of};
    ghost use Rattle.circ_model.specs.Meaning.{places_of};
    ghost use Rattle.product_machine.specs.Cells.{cells};
    ghost use Rattle.refine_board.specs.Running.{Running, IsRunning, IsOfRun, IsHeld, state_of};

    ghost Value = { Running };

    ghost view = { λ b. record { state = state_of b.version b.marks b.calls.items b.offers.items; entries = b.journal.entries; room = b.journal.room - b.owed.total; owed = b.waiting; current = b.current; seat = b.seat } };

    ghost invariant = { λ b. IsRunning L.pair L.k L.workers L.opening (state_of b.version b.marks b.calls.items b.offers.items) b.journal.entries
        × IsOfRun L.pair L.k L.workers L.opening b.version b.first L.list b.versions.now b.current L.word b.word.now b.seat b.turn
        × IsHeld (places_of L.pair) (state_of b.version b.marks b.calls.items b.offers.items) b.cursor b.waiting b.owed.total b.journal.room L.parts b.rest.parts
        × (b.journal.cells ≡ cells L.pair) };
}

impl<'v, 'p, L: Run> Board<'v, 'p, L> {
    /// The board on which a run begins: all pairs are open. The blank's ledger is the run's, and so are the list, to which the
    /// board adds its versions, and the word, of which it takes the board's seat, and at which no version has begun.
    pub fn open(
        alloc: Global,
        blank: Blank,
        versions: &'v Versions<'p>,
        word: &'v ClaimWord,
        seat: Seat,
        first: Version<'p>,
        workers: u32,
    ) -> Result<Board<'v, 'p, L>, AllocError>
        requires name { (blank.name ≡ L.name) × (blank.parts ≡ L.parts) }
        requires parts { 2 ^ 62 ≤ L.parts }
        requires product { first.pair ≡ L.pair }
        requires k { first.k ≡ L.k }
        requires workers { workers ≡ L.workers }
        requires opening { L.opening ≡ opened L.pair L.workers first.classes first.number }
        requires list { L.list ≡ versions.now }
        requires word { L.word ≡ word.now }
        requires seat { (seat.word ≡ word.now) × (seat.board ≡ true) × (version_of seat.written ≡ 0) }
        ensures { IfOk result (λ b. (b.state ≡ L.opening) × (b.entries ≡ []) × (b.current ≡ None) × (b.seat ≡ seat)) }
    {
        let version = first.copy(alloc)?;
        let places = first.classes().len();
        let parties = workers as usize + 1;
        let marks = Marks::open(alloc, places)?;
        let calls = no_calls(alloc, parties)?;
        let offers = no_offers(alloc, parties)?;
        let journal = Journal::new(alloc, first.product())?;
        let (owed, rest) = blank.open::<L>();
        Ok(Board {
            alloc,
            version,
            first,
            versions,
            current: None,
            word,
            seat,
            turn: 0,
            marks,
            calls,
            offers,
            journal,
            cursor: 0,
            owed,
            rest,
            waiting: 0,
        })
    }

    /// Gives the party the open pair with the least member, or says why there is none. It makes the room of the answer's
    /// entry too, so the answers below take no memory. The first offer after a split publishes the version, and all up to the
    /// next split have its stamp. An `Err` is want of memory.
    pub fn take(&mut self, rt: &impl Wait, party: u32) -> Result<Take<'p, L>, AllocError>
        requires party { party < L.workers + 1 }
        ensures ok { IfOk result (λ t. Appends (places_of L.pair) self.old self.new party (taken t) × IsOwnOffer self.old party t) }
        ensures least { IfOk result (IsLeastOffer (places_of L.pair) self.old) }
        ensures version { IfOk result (IsCurrentOffer L.pair L.k self.old) }
        ensures one_stamp { IfOk result (HasOneStamp self.old self.new) }
        ensures begun { IsBegun self.old.seat self.new.seat }
        ensures err { OnErr result ((self.new.state ≡ self.old.state) × (self.new.entries ≡ self.old.entries) × (self.new.current ≡ self.old.current)) }
    {
        self.spare()?;
        let at = self.seek();
        if at < self.places() {
            let stamp = self.published(rt)?;
            return Ok(Take::Offer(self.offer(party, at, stamp)));
        }
        if self.is_some_out() {
            self.idle(party);
            return Ok(Take::Idle);
        }
        self.conclude(party);
        Ok(Take::Done)
    }

    /// Counts the offer's pair, where the verdict was found for the run's netlists and k: under the board's classes; or the pair is a
    /// needed one of these, and the verdict rests on what is known, or on pairs that they have together. Else the verdict is outdated.
    /// The stamp is that of the verdict's version. Classes are compared only where the verdict rests on all of them, and the stamp isn't
    /// the board's own.
    pub fn keep(&mut self, offer: Offer<'p, L>, verdict: Verdict<'_, '_>, stamp: &Stamp<'p>) -> Kept
        requires about { IsAbout verdict offer.pair }
        requires stamp { IsStampOf L.list stamp.now verdict.version }
        ensures step { Appends (places_of L.pair) self.old self.new offer.entry.party (kept_step result offer.entry.pair verdict.entry.used) }
        ensures published { (self.new.current ≡ self.old.current) × (self.new.seat ≡ self.old.seat) }
        ensures counted { result ≡ Kept.Counted → Counts L.pair L.k self.old.state.classes verdict.entry }
        ensures stale { result ≡ Kept.Stale → Counts L.pair L.k self.old.state.classes verdict.entry → ⊥ }
    {
        let counts = self.counts(offer.pair(), offer.stamp(), &verdict, stamp);
        let (party, pair) = self.settle(offer.into_debt());
        self.enter(party, pair, verdict, counts)
    }

    /// Splits the classes by a vector that was found for the offer, where it is of the run's netlists and k. A split leaves those pairs
    /// counted that are known, and those that stand together with all on which they rest; it opens each other needed pair. Nothing splits the classes of the greatest correspondence.
    pub fn split(&mut self, offer: Offer<'p, L>, vector: Vector<'_>) -> Cut
        ensures step { Appends (places_of L.pair) self.old self.new offer.entry.party (cut_step result vector.entry.bits) }
        ensures current { (self.new.current ≡ stamp_after result self.old.current) × (self.new.seat ≡ self.old.seat) }
        ensures own { result ≢ Cut.Foreign → IsOf L.pair L.k vector.entry }
        ensures foreign { result ≡ Cut.Foreign → IsOf L.pair L.k vector.entry → ⊥ }
        ensures stays { AreOfGreatest L.pair L.k self.old.state.classes → self.new.state.classes ≡ self.old.state.classes }
    {
        let own = self.is_of_run(&vector);
        let (party, _) = self.settle(offer.into_debt());
        if own {
            return self.cut(party, vector);
        }
        self.free(party, Step::Foreign);
        Cut::Foreign
    }

    /// The same for a vector that is known to be of the run's netlists and k: they aren't compared.
    pub fn split_own(&mut self, offer: Offer<'p, L>, vector: Vector<'_>) -> Cut
        requires own { IsOf L.pair L.k vector }
        ensures step { Appends (places_of L.pair) self.old self.new offer.entry.party (cut_step result vector.entry.bits) }
        ensures current { (self.new.current ≡ stamp_after result self.old.current) × (self.new.seat ≡ self.old.seat) }
        ensures own { result ≢ Cut.Foreign }
        ensures stays { AreOfGreatest L.pair L.k self.old.state.classes → self.new.state.classes ≡ self.old.state.classes }
    {
        let (party, _) = self.settle(offer.into_debt());
        self.cut(party, vector)
    }

    /// Gives the work back.
    pub fn back(&mut self, offer: Offer<'p, L>)
        ensures step { Appends (places_of L.pair) self.old self.new offer.entry.party (Step.Back offer.entry.pair) }
        ensures published { (self.new.current ≡ self.old.current) × (self.new.seat ≡ self.old.seat) }
    {
        let (party, pair) = self.settle(offer.into_debt());
        self.free(party, Step::Back(pair));
    }

    /// The journal.
    pub fn journal(&self) -> &Journal
        ensures entries { result.now.entries ≡ self.entry.now.entries }
        ensures legal { Leads L.pair L.k L.opening result.now.entries self.entry.now.state }
    {
        &self.journal
    }

    /// The version as it stands.
    pub fn version(&self) -> &Version<'p>
        ensures version { IsUnder L.pair L.k self.entry.now.state.classes result.now }
        ensures number { result.now.number ≡ self.entry.now.state.number }
    {
        &self.version
    }

    /// Whether the board stands at a version: it is of the run's netlists and k, with the board's classes.
    pub fn is_at(&self, version: &Version<'_>) -> bool
        ensures { IsTrue result ↔ IsUnder L.pair L.k self.now.state.classes version.now }
    {
        let now = &self.version;
        is_under(version, now.product(), now.k(), now.classes())
    }

    /// Whether a stamp of the run's list is that of the offers since the last split, and so of the board's version. Nothing is compared but
    /// two indices.
    pub fn is_stamped(&self, stamp: &Stamp<'p>) -> bool
        requires { Shows L.list stamp.now }
        ensures version { result ≡ true → IsUnder L.pair L.k self.now.state.classes stamp.now.value.version }
        ensures exact { IsTrue result ↔ IsStampedAs self.now.current stamp.now }
    {
        match &self.current {
            Some(current) => self.versions.same(current, stamp),
            None => false,
        }
    }

    /// The list to which the board adds its versions.
    pub fn versions(&self) -> &'v Versions<'p>
        ensures { result.now ≡ L.list }
    {
        self.versions
    }

    /// The version on which the board opened, which no call changes.
    pub fn opening(&self) -> &Version<'p>
        ensures version { IsUnder L.pair L.k L.opening.classes result.now }
        ensures number { result.now.number ≡ L.opening.number }
        ensures opening { L.opening ≡ opened L.pair L.workers result.now.classes result.now.number }
    {
        &self.first
    }

    /// Whether each needed pair is counted; then the classes are those of the greatest correspondence.
    pub fn done(&self) -> bool
        ensures yes { result ≡ true → AllCounted (places_of L.pair) self.now.state }
        ensures no { result ≡ false → AllCounted (places_of L.pair) self.now.state → ⊥ }
        ensures greatest { result ≡ true → AreOfGreatest L.pair L.k self.now.state.classes }
    {
        let _known = self.waiting;
        if self.is_some_open() {
            return false;
        }
        !self.is_some_out()
    }

    /// Whether no pair is open, and some is out: there is nothing to take before another party answers.
    pub fn is_idle(&self) -> bool
        ensures yes { result ≡ true → NoneOpen (places_of L.pair) self.now.state × SomeOut (places_of L.pair) self.now.state }
        ensures no { result ≡ false → NoneOpen (places_of L.pair) self.now.state → SomeOut (places_of L.pair) self.now.state → ⊥ }
    {
        if self.is_some_open() {
            return false;
        }
        self.is_some_out()
    }

    /// The version as it stands, and the journal, which leads to it from the opening.
    pub fn close(self) -> (Version<'p>, Journal)
        ensures version { IsUnder L.pair L.k self.entry.state.classes result.0 }
        ensures number { result.0.number ≡ self.entry.state.number }
        ensures entries { result.1.entries ≡ self.entry.entries }
        ensures legal { Leads L.pair L.k L.opening self.entry.entries self.entry.state }
    {
        let Board {
            version,
            journal,
            ..
        } = self;
        (version, journal)
    }
}
