//! The steps of a board, one for each entry: each changes the state and writes its entry.
ghost use Rattle.std.specs.Prelude.{◌≡◌, ◌≢◌, ◌<◌, ◌≤◌, ◌+◌, ◌^◌, ℕ, IsTrue, ◌↔◌, length, take, IfOk, IfSome, OnOk, OnErr, Some, None, true, false};
ghost use Rattle.circ_model.specs.Meaning.{places_of};
ghost use Rattle.class_partition.specs.Classes.{AreOfGreatest, IsNeeded, class_count};
ghost use Rattle.refine_board.specs.States.{IsCountedAt, IsNeededPair, IsOpen, IsOpenPair, NoneOpen, SomeOut, AllCounted, most_open, open_members};
ghost use Rattle.refine_board.specs.Running.{Appends, AreCountedBelow, Counts, Frees, IsAbout, IsBegun, IsIssueOf, IsRunStamp, IsUnder, IsOf};
ghost use Rattle.refine_board.specs.Closings.{IsClaimed};
ghost use Rattle.refine_board.specs.Answers.{cut_step, kept_step, stamp_after};
ghost use Rattle.verdict_stamp.specs.Published.{IsStampOf};

use crate::answers::{Cut, Debt, Kept, Offer};
use crate::board::Board;
use crate::journal::Step;
use crate::marks::{
    LastOffer, Mark, first_marked, note, note_already, note_split, open_members, release,
};
use crate::run::Run;
use class_partition::Needed;
use leaf_rows::rows_by_leaves;
use std::alloc::AllocError;
use std::sync::Wait;
use std::sync::ledger::Share;
use verdict_stamp::{Stamp, Used, Vector, Verdict, Version};

// So many versions a run publishes at most: as many as the word counts.
const MOST_TURNS: u32 = (1 << 22) - 1;

impl<'v, 'p, L: Run> Board<'v, 'p, L> {
    // Makes room for two entries, beside those that are owed.
    pub(crate) fn spare(&mut self) -> Result<(), AllocError>
        ensures state { self.new.state ≡ self.old.state }
        ensures entries { self.new.entries ≡ self.old.entries }
        ensures owed { self.new.owed ≡ self.old.owed }
        ensures published { (self.new.current ≡ self.old.current) × (self.new.seat ≡ self.old.seat) }
        ensures ok { OnOk result ((2 ≤ self.new.room) × (self.new.owed < 2 ^ 60)) }
    {
        let waiting = self.waiting;
        if waiting >= 1 << 60 {
            return Err(AllocError);
        }
        self.journal.reserve(waiting + 2)
    }

    // The number of places.
    pub(crate) fn places(&self) -> u32
        ensures places { result ≡ places_of L.pair }
        ensures classes { 0 < class_count (places_of L.pair) self.now.state.classes }
        ensures marks { length self.now.state.marks ≡ places_of L.pair }
        ensures greatest { AllCounted (places_of L.pair) self.now.state → AreOfGreatest L.pair L.k self.now.state.classes }
    {
        self.version.classes().len()
    }

    // The next open place, or the number of places.
    pub(crate) fn seek(&mut self) -> u32
        ensures same { self.new ≡ self.old }
        ensures bound { result ≤ places_of L.pair }
        ensures found { result < places_of L.pair → IsOpen (places_of L.pair) self.old.state result }
        ensures before { (m : ℕ) → m < result → IsOpen (places_of L.pair) self.old.state m → ⊥ }
    {
        let at = first_marked(
            self.version.classes(),
            self.marks.as_slice(),
            false,
            self.cursor,
        );
        self.cursor = at;
        at
    }

    // Whether some pair is open.
    pub(crate) fn is_some_open(&self) -> bool
        ensures some { result ≡ true → (m : ℕ) × IsOpen (places_of L.pair) self.now.state m }
        ensures none { result ≡ false → NoneOpen (places_of L.pair) self.now.state }
    {
        let classes = self.version.classes();
        first_marked(classes, self.marks.as_slice(), false, self.cursor) < classes.len()
    }

    // Whether some pair is out.
    pub(crate) fn is_some_out(&self) -> bool
        ensures some { result ≡ true → SomeOut (places_of L.pair) self.now.state }
        ensures none { result ≡ false → NoneOpen (places_of L.pair) self.now.state → AllCounted (places_of L.pair) self.now.state }
    {
        let classes = self.version.classes();
        first_marked(classes, self.marks.as_slice(), true, 0) < classes.len()
    }

    // Whether the vector is of the run's netlists and k.
    pub(crate) fn is_of_run(&self, vector: &Vector<'_>) -> bool
        ensures { IsTrue result ↔ IsOf L.pair L.k vector.now }
    {
        if vector.k() != self.version.k() {
            return false;
        }
        vector.product().same(self.version.product())
    }

    // The needed pair of a place.
    pub(crate) fn pair_at(&self, member: u32) -> Needed
        requires needed { IsNeeded (places_of L.pair) self.now.state.classes member }
        ensures pair { IsNeededPair (places_of L.pair) self.now.state.classes result }
        ensures member { result.member ≡ member }
        ensures marks { length self.now.state.marks ≡ places_of L.pair }
    {
        let rep = self.version.classes().rep(member);
        Needed { rep, member }
    }

    // Publishes a copy of the version as it stands, with its pairs that are open, and has the word begin with these.
    pub(crate) fn publish(&mut self, rt: &impl Wait) -> Result<Stamp<'p>, AllocError>
        ensures state { self.new.state ≡ self.old.state }
        ensures entries { self.new.entries ≡ self.old.entries }
        ensures room { (self.new.room ≡ self.old.room) × (self.new.owed ≡ self.old.owed) }
        ensures begun { IsBegun self.old.seat self.new.seat }
        ensures current { IfOk result (λ s. self.new.current ≡ Some s) }
        ensures err { OnErr result ((self.new.current ≡ self.old.current) × (self.new.seat ≡ self.old.seat)) }
        ensures issued { IfOk result (IsIssueOf L.pair L.k L.list self.old.state) }
        ensures fresh { IfOk result (λ s. s.value.pending ≡ take most_open (open_members self.old.state)) }
    {
        if self.turn >= MOST_TURNS {
            return Err(AllocError);
        }
        let turn = self.turn + 1;
        let pending = open_members(self.alloc, self.version.classes(), self.marks.as_slice())?;
        let pairs = pending.len() as u32;
        let Ok(copy) = self.version.copy(self.alloc) else {
            drop(pending);
            return Err(AllocError);
        };
        let stamp = self.versions.push(rt, copy, pending, turn)?;
        self.word.advance(&mut self.seat, turn, pairs);
        self.turn = turn;
        self.current = Some(stamp.copy());
        Ok(stamp)
    }

    // The stamp of the version as it stands. Where it has none, it is published.
    pub(crate) fn published(&mut self, rt: &impl Wait) -> Result<Stamp<'p>, AllocError>
        ensures state { self.new.state ≡ self.old.state }
        ensures entries { self.new.entries ≡ self.old.entries }
        ensures room { (self.new.room ≡ self.old.room) × (self.new.owed ≡ self.old.owed) }
        ensures begun { IsBegun self.old.seat self.new.seat }
        ensures current { IfOk result (λ s. self.new.current ≡ Some s) }
        ensures same { IfOk result (λ s. IfSome self.old.current (λ c. s ≡ c)) }
        ensures err { OnErr result ((self.new.current ≡ self.old.current) × (self.new.seat ≡ self.old.seat)) }
        ensures issued { IfOk result (IsIssueOf L.pair L.k L.list self.old.state) }
        ensures fresh { IfOk result (λ s. self.old.current ≡ None → s.value.pending ≡ take most_open (open_members self.old.state)) }
    {
        if let Some(stamp) = &self.current {
            return Ok(stamp.copy());
        }
        self.publish(rt)
    }

    // Whether the board stands at a version of the run's list, of which this is the stamp.
    pub(crate) fn stands_at(&self, stamp: &Stamp<'p>, version: &Version<'_>) -> bool
        requires stamp { IsStampOf L.list stamp.now version.now }
        ensures { IsTrue result ↔ IsUnder L.pair L.k self.now.state.classes version.now }
    {
        if self.is_stamped(stamp) {
            return true;
        }
        self.is_at(version)
    }

    // Whether a pair is a needed one of the board's classes.
    pub(crate) fn needs(&self, pair: Needed) -> bool
        requires { pair.rep ≢ pair.member }
        ensures { IsTrue result ↔ IsNeededPair (places_of L.pair) self.now.state.classes pair }
    {
        let classes = self.version.classes();
        if pair.member >= classes.len() {
            return false;
        }
        classes.rep(pair.member) == pair.rep
    }

    // Whether a version of the run's list is of the run's netlists and k, as that of a stamp of the run is. Where the two have one
    // stamp, nothing is compared.
    pub(crate) fn is_own(&self, own: &Stamp<'p>, stamp: &Stamp<'p>, version: &Version<'_>) -> bool
        requires own { IsRunStamp L.pair L.k L.list own.now }
        requires stamp { IsStampOf L.list stamp.now version.now }
        ensures { IsTrue result ↔ ((version.now.pair ≡ L.pair) × (version.now.k ≡ L.k)) }
    {
        if self.versions.same(own, stamp) {
            return true;
        }
        if version.k() != self.version.k() {
            return false;
        }
        version.product().same(self.version.product())
    }

    // Whether a pair is a needed one of the board's classes, and a version of the run's list is of the run's netlists and k.
    fn needs_own(
        &self,
        pair: Needed,
        own: &Stamp<'p>,
        stamp: &Stamp<'p>,
        version: &Version<'_>,
    ) -> bool
        requires pair { pair.rep ≢ pair.member }
        requires own { IsRunStamp L.pair L.k L.list own.now }
        requires stamp { IsStampOf L.list stamp.now version.now }
        ensures { IsTrue result ↔ (IsNeededPair (places_of L.pair) self.now.state.classes pair × (version.now.pair ≡ L.pair) × (version.now.k ≡ L.k)) }
    {
        if !self.needs(pair) {
            return false;
        }
        self.is_own(own, stamp, version)
    }

    // Whether a verdict for a pair counts that was sought under a stamp of the run. Classes are compared only where it rests on those of its
    // version.
    pub(crate) fn counts(
        &self,
        pair: Needed,
        own: &Stamp<'p>,
        verdict: &Verdict<'_, '_>,
        stamp: &Stamp<'p>,
    ) -> bool
        requires own { IsRunStamp L.pair L.k L.list own.now }
        requires about { IsAbout verdict.now pair }
        requires stamp { IsStampOf L.list stamp.now verdict.now.version }
        ensures { IsTrue result ↔ Counts L.pair L.k self.now.state.classes verdict.now }
    {
        match verdict.used() {
            Used::Version => self.stands_at(stamp, verdict.version()),
            Used::Pairs(pairs) => {
                if !self.needs_own(pair, own, stamp, verdict.version()) {
                    return false;
                }
                pairs.are_together(self.version.classes())
            }
            Used::Known(_) => self.needs_own(pair, own, stamp, verdict.version()),
        }
    }

    // Takes a unit for each of so many entries, whose room is kept for them.
    pub(crate) fn owe(&mut self, many: usize) -> Share<L>
        requires some { (0 < many) × (many ≤ 2) }
        requires room { many ≤ self.old.room }
        requires few { self.old.owed < 2 ^ 60 }
        ensures unit { (result.amount ≡ many) × (result.parts ≡ many) }
        ensures state { self.new.state ≡ self.old.state }
        ensures entries { self.new.entries ≡ self.old.entries }
        ensures room { self.new.room + many ≡ self.old.room }
        ensures published { (self.new.current ≡ self.old.current) × (self.new.seat ≡ self.old.seat) }
    {
        let Board {
            owed,
            rest,
            waiting,
            ..
        } = self;
        *waiting += many;
        let mut unit = rest.split_off(many as u64, 0);
        owed.add(&mut unit, many as u64);
        unit
    }

    // Takes units back: their room is free for entries.
    pub(crate) fn repay(&mut self, unit: Share<L>, many: usize)
        requires unit { (unit.amount ≡ many) × (unit.parts ≡ many) }
        ensures state { self.new.state ≡ self.old.state }
        ensures entries { self.new.entries ≡ self.old.entries }
        ensures room { self.new.room ≡ self.old.room + many }
        ensures published { (self.new.current ≡ self.old.current) × (self.new.seat ≡ self.old.seat) }
    {
        let Board {
            owed,
            rest,
            waiting,
            ..
        } = self;
        let mut unit = unit;
        owed.audit(&mut unit);
        owed.sub(&mut unit, many as u64);
        *waiting -= many;
        rest.merge(unit);
    }

    // Writes that a party is offered an open pair.
    pub(crate) fn hand(&mut self, party: u32, pair: Needed)
        requires party { party < L.workers + 1 }
        requires is_open { IsOpenPair (places_of L.pair) self.old.state pair }
        requires room { 1 ≤ self.old.room }
        ensures step { Appends (places_of L.pair) self.old self.new party (Step.Offered pair) }
        ensures room { self.new.room + 1 ≡ self.old.room }
        ensures owed { self.new.owed ≡ self.old.owed }
        ensures published { (self.new.current ≡ self.old.current) × (self.new.seat ≡ self.old.seat) }
    {
        let number = self.version.number();
        let Board {
            marks,
            calls,
            offers,
            journal,
            ..
        } = self;
        marks.put(pair.member, Mark::Out);
        offers[party as usize] = Some(LastOffer { pair, number });
        note(calls, journal, party, Step::Offered(pair));
    }

    // Offers an open place, under a stamp of the board's version. The party owes the answer.
    pub(crate) fn offer(&mut self, party: u32, member: u32, stamp: Stamp<'p>) -> Offer<'p, L>
        requires party { party < L.workers + 1 }
        requires is_open { IsOpen (places_of L.pair) self.old.state member }
        requires issued { IsIssueOf L.pair L.k L.list self.old.state stamp }
        requires room { 2 ≤ self.old.room }
        requires few { self.old.owed < 2 ^ 60 }
        ensures step { Appends (places_of L.pair) self.old self.new party (Step.Offered result.pair) }
        ensures party { result.party ≡ party }
        ensures number { result.number ≡ self.old.state.number }
        ensures member { result.pair.member ≡ member }
        ensures stamp { result.stamp ≡ stamp.entry }
        ensures published { (self.new.current ≡ self.old.current) × (self.new.seat ≡ self.old.seat) }
    {
        let pair = self.pair_at(member);
        let number = self.version.number();
        self.hand(party, pair);
        let unit = self.owe(1);
        let debt = Debt {
            party,
            pair,
            number,
            unit,
        };
        Offer { debt, stamp }
    }

    // Tells a party that no pair is open, but some is out.
    pub(crate) fn idle(&mut self, party: u32)
        requires party { party < L.workers + 1 }
        requires none { NoneOpen (places_of L.pair) self.old.state }
        requires out { SomeOut (places_of L.pair) self.old.state }
        requires room { 1 ≤ self.old.room }
        ensures step { Appends (places_of L.pair) self.old self.new party Step.Idle }
        ensures published { (self.new.current ≡ self.old.current) × (self.new.seat ≡ self.old.seat) }
    {
        note(&mut self.calls, &mut self.journal, party, Step::Idle);
    }

    // Tells a party that each pair is counted.
    pub(crate) fn conclude(&mut self, party: u32)
        requires party { party < L.workers + 1 }
        requires all { AllCounted (places_of L.pair) self.old.state }
        requires room { 1 ≤ self.old.room }
        ensures step { Appends (places_of L.pair) self.old self.new party Step.Done }
        ensures published { (self.new.current ≡ self.old.current) × (self.new.seat ≡ self.old.seat) }
    {
        note(&mut self.calls, &mut self.journal, party, Step::Done);
    }

    // Takes an answer's unit back: its room is free for the answer's entry.
    pub(crate) fn settle(&mut self, debt: Debt<L>) -> (u32, Needed)
        ensures state { self.new.state ≡ self.old.state }
        ensures entries { self.new.entries ≡ self.old.entries }
        ensures room { self.new.room ≡ self.old.room + 1 }
        ensures published { (self.new.current ≡ self.old.current) × (self.new.seat ≡ self.old.seat) }
        ensures party { (result.0 ≡ debt.party) × (result.0 < L.workers + 1) }
        ensures pair { result.1 ≡ debt.pair }
    {
        let Debt {
            party,
            pair,
            unit,
            ..
        } = debt;
        self.repay(unit, 1);
        (party, pair)
    }

    // The party's offer is given up, by an entry that does no more.
    pub(crate) fn free(&mut self, party: u32, step: Step)
        requires party { party < L.workers + 1 }
        requires frees { Frees L.pair L.k self.old.state step }
        requires room { 1 ≤ self.old.room }
        ensures step { Appends (places_of L.pair) self.old self.new party step }
        ensures published { (self.new.current ≡ self.old.current) × (self.new.seat ≡ self.old.seat) }
    {
        let Board {
            version,
            marks,
            calls,
            offers,
            journal,
            cursor,
            ..
        } = self;
        *cursor = release(version.number(), marks, offers, *cursor, party);
        note(calls, journal, party, step);
    }

    // The pair is counted, by what the verdict rests on.
    pub(crate) fn count(&mut self, party: u32, pair: Needed, verdict: Verdict<'_, '_>)
        requires party { party < L.workers + 1 }
        requires about { IsAbout verdict pair }
        requires counts { Counts L.pair L.k self.old.state.classes verdict }
        requires room { 1 ≤ self.old.room }
        ensures step { Appends (places_of L.pair) self.old self.new party (Step.Counted pair verdict.entry.used) }
        ensures published { (self.new.current ≡ self.old.current) × (self.new.seat ≡ self.old.seat) }
    {
        let _own = self.version.product();
        let _found = verdict.version().product();
        let (used, again) = verdict.into_used();
        let Board {
            marks,
            calls,
            offers,
            journal,
            ..
        } = self;
        marks.put(pair.member, Mark::Proved(pair.rep, used));
        offers[party as usize] = None;
        note(calls, journal, party, Step::Counted(pair, again));
    }

    // Counts a pair whose verdict counts, and else writes that it is outdated.
    pub(crate) fn enter(
        &mut self,
        party: u32,
        pair: Needed,
        verdict: Verdict<'_, '_>,
        counts: bool,
    ) -> Kept
        requires party { party < L.workers + 1 }
        requires about { IsAbout verdict pair }
        requires counts { counts ≡ true → Counts L.pair L.k self.old.state.classes verdict }
        requires room { 1 ≤ self.old.room }
        ensures step { Appends (places_of L.pair) self.old self.new party (kept_step result pair verdict.entry.used) }
        ensures published { (self.new.current ≡ self.old.current) × (self.new.seat ≡ self.old.seat) }
        ensures counted { result ≡ Kept.Counted → counts ≡ true }
        ensures stale { result ≡ Kept.Stale → counts ≡ false }
    {
        if counts {
            self.count(party, pair, verdict);
            return Kept::Counted;
        }
        drop(verdict);
        self.free(party, Step::Stale(pair));
        Kept::Stale
    }

    // Splits the classes by a vector of the run, after which each needed pair is open that doesn't stay counted; or it splits none.
    pub(crate) fn cut(&mut self, party: u32, vector: Vector<'_>) -> Cut
        requires party { party < L.workers + 1 }
        requires own { IsOf L.pair L.k vector }
        requires room { 1 ≤ self.old.room }
        ensures step { Appends (places_of L.pair) self.old self.new party (cut_step result vector.entry.bits) }
        ensures own { result ≢ Cut.Foreign }
        ensures current { (self.new.current ≡ stamp_after result self.old.current) × (self.new.seat ≡ self.old.seat) }
        ensures stays { AreOfGreatest L.pair L.k self.old.state.classes → self.new.state.classes ≡ self.old.state.classes }
    {
        let Board {
            version,
            current,
            marks,
            calls,
            offers,
            journal,
            cursor,
            ..
        } = self;
        rows_by_leaves();
        let _cells = vector.product().cells();
        let added = version.split_by(&vector);
        let bits = vector.into_bits();
        if added == 0 {
            *cursor = release(version.number(), marks, offers, *cursor, party);
            note_already(calls, journal, party, &bits);
            return Cut::Already;
        }
        *current = None;
        *cursor = 0;
        marks.split(version);
        offers[party as usize] = None;
        note_split(calls, journal, party, &bits, added);
        Cut::Split(added)
    }

    // Whether the place has an open pair.
    pub(crate) fn is_open_at(&self, member: u32) -> bool
        requires needed { IsNeeded (places_of L.pair) self.now.state.classes member }
        ensures yes { result ≡ true → IsOpen (places_of L.pair) self.now.state member }
        ensures no { result ≡ false → IsOpen (places_of L.pair) self.now.state member → ⊥ }
    {
        self.marks.as_slice()[member as usize].is_uncounted(false)
    }

    // Whether the place has a needed pair that isn't counted.
    pub(crate) fn is_wanted(&self, member: u32) -> bool
        requires place { member < places_of L.pair }
        ensures yes { result ≡ true → IsNeeded (places_of L.pair) self.now.state.classes member }
        ensures wanted { result ≡ true → IsCountedAt self.now.state member → ⊥ }
        ensures no { result ≡ false → IsNeeded (places_of L.pair) self.now.state.classes member → IsCountedAt self.now.state member }
    {
        if self.version.classes().rep(member) == member {
            return false;
        }
        !self.marks.as_slice()[member as usize].is_counted()
    }

    // The party takes a pair that isn't counted, where it is open, to answer it at once.
    pub(crate) fn claim(&mut self, party: u32, pair: Needed)
        requires party { party < L.workers + 1 }
        requires pair { IsNeededPair (places_of L.pair) self.old.state.classes pair }
        requires wanted { IsCountedAt self.old.state pair.member → ⊥ }
        requires below { AreCountedBelow (places_of L.pair) self.old.state pair.member }
        requires room { 2 ≤ self.old.room }
        ensures claimed { IsClaimed (places_of L.pair) party self.old self.new pair }
        ensures below { AreCountedBelow (places_of L.pair) self.new.state pair.member }
        ensures room { 1 ≤ self.new.room }
    {
        let _places = self.places();
        if self.is_open_at(pair.member) {
            self.hand(party, pair);
        }
    }
}
