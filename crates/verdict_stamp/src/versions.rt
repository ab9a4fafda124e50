//! Versions that were published, each with its pairs that were open then. Their list only grows, and a version stays where it was put,
//! so threads read it without a lock while others add to it; and whoever knows two stamps knows by their indices that their versions
//! are equal.
ghost use Rattle.std.specs.Prelude.{◌≡◌, ◌≤◌, ◌↔◌, IsTrue, IfOk, IfSome, IfNone, length, true};
ghost use Rattle.boxcar.specs.Table.{Shows};
ghost use Rattle.verdict_stamp.specs.Published.{AreMembers, IsPairAt, issued};

use crate::version::Version;
use boxcar::Pushed;
use class_partition::Needed;
use std::alloc::{AllocError, Global};
use std::marker::Model;
use std::sync::Wait;

// A version as it was published: with the members of its needed pairs that were open then, in their order, and how many were published
// up to then.
#[derive(Drop)]
pub struct Issue<'p> {
    version: Version<'p>,
    pending: Vec<u32>,
    turn: u32,
}

impl<'p> Model for Issue<'p> {
    ghost use Rattle.verdict_stamp.specs.Published.{AreMembers, Issued, issued};

    ghost Value = { Issued };

    ghost view = { λ i. issued i.version i.pending.items i.turn };

    ghost invariant = { λ i. AreMembers i.version i.pending.items };
}

/// An append-only list of versions, which threads share.
#[derive(Drop)]
pub struct Versions<'p> {
    list: boxcar::Vec<Issue<'p>>,
}

impl<'p> Model for Versions<'p> {
    ghost use Rattle.boxcar.specs.Table.{Shelves, shelves_coded};

    ghost Value = { Shelves };

    ghost coded = { shelves_coded };

    ghost view = { λ v. v.list };
}

/// Names a version of a list.
#[derive(Drop)]
pub struct Stamp<'p> {
    pushed: Pushed<Issue<'p>>,
}

impl<'p> Model for Stamp<'p> {
    ghost use Rattle.verdict_stamp.specs.Published.{Stamped};

    ghost Value = { Stamped };

    ghost view = { λ s. s.pushed };
}

impl<'p> Stamp<'p> {
    /// Its version's index in the list, counted from 0.
    pub fn index(&self) -> usize
        ensures { result ≡ self.now.index }
    {
        self.pushed.index()
    }

    /// An equal stamp. It takes no memory.
    pub fn copy(&self) -> Stamp<'p>
        ensures { result ≡ self.now }
    {
        Stamp {
            pushed: self.pushed.again(),
        }
    }
}

impl<'p> Versions<'p> {
    /// A list without versions.
    pub fn new(alloc: Global) -> Result<Versions<'p>, AllocError> {
        Ok(Versions {
            list: boxcar::Vec::new(alloc)?,
        })
    }

    /// Adds a version at an index of its own, with the members of its needed pairs that are open, in their order, as the publication of
    /// this number, and answers its stamp. It waits only for a push of another thread that makes room.
    pub fn push(
        &self,
        rt: &impl Wait,
        version: Version<'p>,
        pending: Vec<u32>,
        turn: u32,
    ) -> Result<Stamp<'p>, AllocError>
        requires pending { AreMembers version pending.items }
        ensures { IfOk result (λ s. Shows self.now s × (s.value ≡ issued version.entry pending.items turn)) }
    {
        let issue = Issue {
            version,
            pending,
            turn,
        };
        let Ok(pushed) = self.list.push_shown(rt, issue) else {
            return Err(AllocError);
        };
        Ok(Stamp { pushed })
    }

    /// The version of a stamp of this list, for as long as the list is lent.
    pub fn at<'v>(&'v self, stamp: &Stamp<'p>) -> &'v Version<'p>
        requires { Shows self.now stamp.now }
        ensures { result.now ≡ stamp.now.value.version }
    {
        &self.list.value(&stamp.pushed).version
    }

    /// The pair with this index of those that were open when the version of a stamp of this list was published.
    pub fn open_pair(&self, stamp: &Stamp<'p>, index: u32) -> Option<Needed>
        requires { Shows self.now stamp.now }
        ensures some { IfSome result (IsPairAt stamp.now.value index) }
        ensures none { IfNone result (length stamp.now.value.pending ≤ index) }
    {
        let issue = self.list.value(&stamp.pushed);
        let at = index as usize;
        if at >= issue.pending.len() {
            return None;
        }
        let member = issue.pending[at];
        let rep = issue.version.classes().rep(member);
        Some(Needed { rep, member })
    }

    /// How many pairs were open when it was published.
    pub fn pending_count(&self, stamp: &Stamp<'p>) -> usize
        requires { Shows self.now stamp.now }
        ensures { result ≡ length stamp.now.value.pending }
    {
        self.list.value(&stamp.pushed).pending.len()
    }

    /// Which publication it is.
    pub fn turn(&self, stamp: &Stamp<'p>) -> u32
        requires { Shows self.now stamp.now }
        ensures { result ≡ stamp.now.value.turn }
    {
        self.list.value(&stamp.pushed).turn
    }

    /// Stamps of one index name equal versions.
    pub fn agrees(&self, a: &Stamp<'p>, b: &Stamp<'p>)
        requires here { Shows self.now a.now × Shows self.now b.now }
        requires index { a.now.index ≡ b.now.index }
        ensures { a.now.value ≡ b.now.value }
    {
        self.list.agrees(&a.pushed, &b.pushed);
    }

    /// Whether two stamps of this list have one index; then their versions are equal.
    pub fn same(&self, a: &Stamp<'p>, b: &Stamp<'p>) -> bool
        requires here { Shows self.now a.now × Shows self.now b.now }
        ensures index { IsTrue result ↔ (a.now.index ≡ b.now.index) }
        ensures versions { result ≡ true → a.now.value ≡ b.now.value }
    {
        if a.index() != b.index() {
            return false;
        }
        self.agrees(a, b);
        true
    }
}
