//! Work by claims. The pairs of a version that was published are claimed from a word, without the lock; a party that looks at the board
//! is given a pass for one of them, and answers it. The pair is offered and answered in one call.
ghost use Rattle.std.specs.Prelude.{◌≡◌, ◌≢◌, ◌<◌, ◌≤◌, ◌+◌, ◌^◌, ◌↔◌, IsTrue, IfOk, OnOk, OnErr, true};
ghost use Rattle.circ_model.specs.Meaning.{places_of};
ghost use Rattle.claim_word.specs.Seats.{beside, with_seen};
ghost use Rattle.class_partition.specs.Classes.{AreOfGreatest};
ghost use Rattle.refine_board.specs.States.{IsOpenPair};
ghost use Rattle.refine_board.specs.Running.{AnswersAt, Counts, IsAbout, IsClaiming, IsDue, IsIssueOf, IsOf, OffersFirst};
ghost use Rattle.refine_board.specs.Answers.{IsLookAt, IsSpentAt, IsUnmoved, KeepsStamp, PublishesOpen, cut_step, kept_step, stamp_after};
ghost use Rattle.verdict_stamp.specs.Published.{IsStampOf};

use crate::answers::{Claimed, Cut, Kept, Look, Pass};
use crate::board::Board;
use crate::journal::Step;
use crate::marks::MOST_OPEN;
use crate::run::Run;
use claim_word::{ClaimWord, Seat, is_spent, version_in};
use class_partition::Needed;
use std::alloc::AllocError;
use std::sync::Wait;
use verdict_stamp::{Stamp, Vector, Verdict};

impl<'v, 'p, L: Run> Board<'v, 'p, L> {
    /// The word from which pairs are claimed, and a further seat at it.
    pub fn claim_seat(&mut self) -> (&'v ClaimWord, Seat)
        ensures board { self.new ≡ self.old }
        ensures word { result.0.now ≡ L.word }
        ensures seat { result.1 ≡ beside L.word }
    {
        let word = self.word;
        let seat = word.split_seat(&mut self.seat);
        (word, seat)
    }

    // A pass for a version.
    fn pass(&mut self, party: u32, stamp: Stamp<'p>) -> Pass<'p, L>
        requires party { party < L.workers + 1 }
        requires issued { IsIssueOf L.pair L.k L.list self.old.state stamp }
        requires room { 2 ≤ self.old.room }
        requires few { self.old.owed < 2 ^ 60 }
        ensures pass { (result.party ≡ party) × (result.stamp ≡ stamp.entry) }
        ensures state { self.new.state ≡ self.old.state }
        ensures entries { self.new.entries ≡ self.old.entries }
        ensures published { (self.new.current ≡ self.old.current) × (self.new.seat ≡ self.old.seat) }
    {
        let unit = self.owe(2);
        Pass { party, stamp, unit }
    }

    // Reads the word.
    fn read(&mut self) -> u64
        ensures shown { self.new.seat ≡ with_seen self.old.seat result }
        ensures state { self.new.state ≡ self.old.state }
        ensures entries { self.new.entries ≡ self.old.entries }
        ensures room { (self.new.room ≡ self.old.room) × (self.new.owed ≡ self.old.owed) }
        ensures current { self.new.current ≡ self.old.current }
    {
        self.word.seen(&mut self.seat)
    }

    /// Looks for work: gives the party a pass for the version as it stands, which is published if it isn't yet; or says why there is none.
    /// A party that holds a claim isn't told to wait. It makes room for the two entries of an answer, so the answers below take no memory.
    /// An `Err` is want of memory.
    pub fn look(
        &mut self,
        rt: &impl Wait,
        party: u32,
        holding: bool,
    ) -> Result<Look<'p, L>, AllocError>
        requires party { party < L.workers + 1 }
        ensures look { IfOk result (IsLookAt L.pair L.k L.list party holding self.old self.new) }
        ensures one_stamp { OnOk result (KeepsStamp self.old self.new) }
        ensures fresh { OnOk result (PublishesOpen self.old self.new) }
        ensures err { OnErr result (IsUnmoved self.old self.new) }
    {
        self.spare()?;
        self.seek();
        if self.done() {
            self.conclude(party);
            return Ok(Look::Done);
        }
        let stamp = self.published(rt)?;
        if holding {
            return Ok(Look::Work(self.pass(party, stamp)));
        }
        let word = self.read();
        if !is_spent(word) {
            return Ok(Look::Work(self.pass(party, stamp)));
        }
        if self.versions.pending_count(&stamp) < MOST_OPEN {
            return Ok(Look::Wait(word));
        }
        let more = self.publish(rt)?;
        Ok(Look::Work(self.pass(party, more)))
    }

    /// Whether the version that was published last is the board's and has this word, and some pair is open: where all of its pairs were
    /// claimed, there is nothing to do before another party answers.
    pub fn is_spent_at(&self, word: u64) -> bool
        ensures { IsTrue result ↔ IsSpentAt (places_of L.pair) self.now word }
    {
        match &self.current {
            Some(stamp) => { self.versions.turn(stamp) == version_in(word) && self.is_some_open() }
            None => false,
        }
    }

    // Whether a claimed pair is to be offered: its version is the one that was published since the last split, and it is open.
    fn is_due(&self, claimed: &Claimed<'p, L>) -> bool
        ensures due { IsTrue result ↔ IsDue self.now claimed.now }
        ensures open { result ≡ true → IsOpenPair (places_of L.pair) self.now.state claimed.now.pair }
    {
        if !self.is_stamped(claimed.stamp()) {
            return false;
        }
        self.is_open_at(claimed.pair().member)
    }

    // Takes a pass back, and offers its pair where it is due.
    fn begin(&mut self, claimed: Claimed<'p, L>) -> (u32, Needed)
        ensures offers { OffersFirst (places_of L.pair) self.old self.new claimed.entry }
        ensures classes { self.new.state.classes ≡ self.old.state.classes }
        ensures party { (result.0 ≡ claimed.entry.party) × (result.0 < L.workers + 1) }
        ensures pair { result.1 ≡ claimed.entry.pair }
        ensures room { 1 ≤ self.new.room }
        ensures published { (self.new.current ≡ self.old.current) × (self.new.seat ≡ self.old.seat) }
    {
        let due = self.is_due(&claimed);
        let Claimed { pass, pair, .. } = claimed;
        let Pass { party, unit, .. } = pass;
        self.repay(unit, 2);
        if due {
            self.hand(party, pair);
        }
        (party, pair)
    }

    /// Offers a claimed pair where its version is the one that was published since the last split and it is open; and counts it, as `keep` does.
    pub fn keep_at(
        &mut self,
        claimed: Claimed<'p, L>,
        verdict: Verdict<'_, '_>,
        stamp: &Stamp<'p>,
    ) -> Kept
        requires about { IsAbout verdict claimed.pair }
        requires stamp { IsStampOf L.list stamp.now verdict.version }
        ensures step { AnswersAt (places_of L.pair) self.old self.new claimed.entry (kept_step result claimed.entry.pair verdict.entry.used) }
        ensures published { (self.new.current ≡ self.old.current) × (self.new.seat ≡ self.old.seat) }
        ensures counted { result ≡ Kept.Counted → Counts L.pair L.k self.old.state.classes verdict.entry }
        ensures stale { result ≡ Kept.Stale → Counts L.pair L.k self.old.state.classes verdict.entry → ⊥ }
    {
        let counts = self.counts(claimed.pair(), claimed.stamp(), &verdict, stamp);
        let (party, pair) = self.begin(claimed);
        self.enter(party, pair, verdict, counts)
    }

    /// Offers a claimed pair where its version is the one that was published since the last split and it is open; and splits the classes, as
    /// `split` does.
    pub fn split_at(&mut self, claimed: Claimed<'p, L>, vector: Vector<'_>) -> Cut
        ensures step { AnswersAt (places_of L.pair) self.old self.new claimed.entry (cut_step result vector.entry.bits) }
        ensures current { (self.new.current ≡ stamp_after result self.old.current) × (self.new.seat ≡ self.old.seat) }
        ensures own { result ≢ Cut.Foreign → IsOf L.pair L.k vector.entry }
        ensures foreign { result ≡ Cut.Foreign → IsOf L.pair L.k vector.entry → ⊥ }
        ensures stays { AreOfGreatest L.pair L.k self.old.state.classes → self.new.state.classes ≡ self.old.state.classes }
    {
        let own = self.is_of_run(&vector);
        let (party, _) = self.begin(claimed);
        if own {
            return self.cut(party, vector);
        }
        self.free(party, Step::Foreign);
        Cut::Foreign
    }

    /// The same for a vector that is known to be of the run's netlists and k: they aren't compared.
    pub fn split_own_at(&mut self, claimed: Claimed<'p, L>, vector: Vector<'_>) -> Cut
        requires own { IsOf L.pair L.k vector }
        ensures step { AnswersAt (places_of L.pair) self.old self.new claimed.entry (cut_step result vector.entry.bits) }
        ensures current { (self.new.current ≡ stamp_after result self.old.current) × (self.new.seat ≡ self.old.seat) }
        ensures own { result ≢ Cut.Foreign }
        ensures stays { AreOfGreatest L.pair L.k self.old.state.classes → self.new.state.classes ≡ self.old.state.classes }
    {
        let (party, _) = self.begin(claimed);
        self.cut(party, vector)
    }

    /// Gives a pass back. It writes nothing, and the room that the pass held is free.
    pub fn back_at(&mut self, pass: Pass<'p, L>)
        ensures room { self.new.room ≡ self.old.room + 2 }
        ensures state { self.new.state ≡ self.old.state }
        ensures entries { self.new.entries ≡ self.old.entries }
        ensures published { (self.new.current ≡ self.old.current) × (self.new.seat ≡ self.old.seat) }
    {
        let Pass { unit, .. } = pass;
        self.repay(unit, 2);
    }
}
