//! A verdict: that a needed pair passed under a version.
ghost use Rattle.std.specs.Prelude.{◌≡◌, ◌<◌, IfNone, IfOk, IfSome, MatchOption, length};
ghost use Rattle.circ_model.specs.Meaning.{places_of};
ghost use Rattle.class_partition.specs.Classes.{IsNeeded, least_of};
ghost use Rattle.verdict_stamp.specs.declared.used.Used.TheVariants as rests_on;
ghost use Rattle.verdict_stamp.specs.Known.{ArePaired, IsBelow, Tells, known_of};
ghost use Rattle.used_pairs.specs.Logs.{AreAccepted};
ghost use Rattle.verdict_stamp.specs.Logs.{RestsOnLog};
ghost use Rattle.verdict_stamp.specs.Versions.{IsPassed};

use crate::known::Known;
use crate::used::Used;
use crate::version::Version;
use class_partition::{Classes, Needed};
use sat_log::Log;
use std::alloc::{AllocError, Global};
use std::marker::Model;
use used_pairs::{PairList, log_pairs};

// A verdict names so many pairs at most.
const MOST_PAIRS: usize = 64;

/// That a place passed with its class's least place, under this version of the classes: in the first k frames of every run,
/// and after k frames in which the classes hold, or the pairs on which it rests. However it was shown, it keeps no derivation; a
/// certificate makes its own. What it rests on it has twice, so that a board and its journal each get it without taking memory.
#[derive(Drop)]
pub struct Verdict<'v, 'p> {
    version: &'v Version<'p>,
    place: u32,
    rests: Used,
    again: Used,
}

impl<'v, 'p> Model for Verdict<'v, 'p> {
    ghost use Rattle.std.specs.Prelude.{◌≡◌};
    ghost use Rattle.verdict_stamp.specs.Versions.{Passed, IsPassed};

    ghost Value = { Passed };

    ghost view = { λ v. record { version = v.version.now; member = v.place; used = v.rests } };

    ghost invariant = { λ v. IsPassed (record { version = v.version.now; member = v.place; used = v.rests }) × (v.again ≡ v.rests) };
}

impl<'v, 'p> Verdict<'v, 'p> {
    pub(crate) fn of(version: &'v Version<'p>, place: u32) -> Verdict<'v, 'p>
        requires passed { IsPassed (record { version = version.now; member = place; used = rests_on.Version }) }
        ensures { result ≡ record { version = version.entry.now; member = place; used = rests_on.Version } }
    {
        Verdict {
            version,
            place,
            rests: Used::Version,
            again: Used::Version,
        }
    }

    // That a place passed by these pairs alone. It errs for want of memory alone.
    pub(crate) fn by_pairs(
        alloc: Global,
        version: &'v Version<'p>,
        place: u32,
        pairs: PairList,
    ) -> Result<Verdict<'v, 'p>, AllocError>
        requires passed { IsPassed (record { version = version.now; member = place; used = rests_on.Pairs pairs }) }
        ensures { IfOk result (λ w. w ≡ record { version = version.entry.now; member = place; used = rests_on.Pairs pairs }) }
    {
        let again = pairs.copy(alloc)?;
        Ok(Verdict {
            version,
            place,
            rests: Used::Pairs(pairs),
            again: Used::Pairs(again),
        })
    }

    /// That a needed pair of a version passes, by logs of its two questions: one over the clauses of k frames from reset, and one over those
    /// of k frames in which the classes hold, and the next. It rests on the pairs of which the second log reaches a clause, and where
    /// these are more than 64, on all needed pairs of the version. None where one of the logs isn't accepted. It errs for want of memory.
    pub fn by_logs(
        alloc: Global,
        version: &'v Version<'p>,
        pair: Needed,
        base: &Log,
        step: &Log,
    ) -> Result<Option<Verdict<'v, 'p>>, AllocError>
        requires needed { IsNeeded (places_of version.now.pair) version.now.classes pair.member }
        requires rep { pair.rep ≡ least_of version.now.classes pair.member }
        ensures accepted { IfOk result (λ found. MatchOption found (¬ AreAccepted version.now.pair version.now.k version.now.classes pair.member base.now step.now)
            (λ w. AreAccepted version.now.pair version.now.k version.now.classes pair.member base.now step.now)) }
        ensures rests { IfOk result (λ found. IfSome found (RestsOnLog version.entry.now pair.member step.now)) }
    {
        let k = version.k();
        let product = version.product();
        let _places = product.len();
        let Some(pairs) = log_pairs(alloc, product, k, version.classes(), pair, base, step)? else {
            return Ok(None);
        };
        if pairs.len() > MOST_PAIRS {
            return Ok(Some(Verdict::of(version, pair.member)));
        }
        let verdict = Verdict::by_pairs(alloc, version, pair.member, pairs)?;
        Ok(Some(verdict))
    }

    /// That a needed pair of a version passes, where the known classes are of the same pair of netlists and no greater k, and
    /// pair its two literals; else none. Nothing is asked of the solver.
    pub fn known(
        version: &'v Version<'p>,
        pair: Needed,
        known: &Known<'_>,
    ) -> Option<Verdict<'v, 'p>>
        requires needed { IsNeeded (places_of version.now.pair) version.now.classes pair.member }
        requires rep { pair.rep ≡ least_of version.now.classes pair.member }
        ensures none { IfNone result (Tells known.now version.now pair.member → ⊥) }
        ensures some { IfSome result (λ w. Tells known.now version.now pair.member × (w ≡ known_of known.now version.entry.now pair.member)) }
    {
        if version.k() < known.k() {
            return None;
        }
        if !known.product().same(version.product()) {
            return None;
        }
        Verdict::known_own(version, pair, known)
    }

    /// The same for classes that are known to be of the version's pair of netlists, and of no greater k.
    pub fn known_own(
        version: &'v Version<'p>,
        pair: Needed,
        known: &Known<'_>,
    ) -> Option<Verdict<'v, 'p>>
        requires needed { IsNeeded (places_of version.now.pair) version.now.classes pair.member }
        requires rep { pair.rep ≡ least_of version.now.classes pair.member }
        requires below { IsBelow known.now version.now }
        ensures none { IfNone result (ArePaired known.now version.now pair.member → ⊥) }
        ensures some { IfSome result (λ w. ArePaired known.now version.now pair.member × (w ≡ known_of known.now version.entry.now pair.member)) }
    {
        let _places = version.product().len();
        let (a, b) = version.classes().needed(pair.member);
        let _product = known.product();
        if !known.classes().paired(a, b) {
            return None;
        }
        Some(Verdict {
            version,
            place: pair.member,
            rests: Used::Known(known.k()),
            again: Used::Known(known.k()),
        })
    }

    /// The version under which the pair passed.
    pub fn version(&self) -> &'v Version<'p>
        ensures { result.now ≡ self.now.version }
    {
        self.version
    }

    /// The place.
    pub fn member(&self) -> u32
        ensures member { result ≡ self.now.member }
        ensures passed { IsPassed self.now }
    {
        self.place
    }

    /// What it rests on.
    pub fn used(&self) -> &Used
        ensures used { result.now ≡ self.entry.now.used }
        ensures passed { IsPassed self.entry.now }
    {
        &self.rests
    }

    /// What it rests on, twice.
    pub fn into_used(self) -> (Used, Used)
        ensures one { result.0 ≡ self.entry.used }
        ensures other { result.1 ≡ self.entry.used }
        ensures passed { IsPassed self.entry }
    {
        let Verdict { rests, again, .. } = self;
        (rests, again)
    }
}
