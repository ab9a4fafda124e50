//! Classes of places, up to complement.
ghost use Rattle.std.specs.Prelude.{◌≡◌, ◌<◌, ◌≤◌, ◌+◌, ◌/◌, ◌↔◌, ℕ, IsTrue, length, IfOk, OnOk, OnErr};
ghost use Rattle.class_partition.specs.Classes.{least_of, phase_of, ArePartition, AreTogether, Pairs, IsSplit, one_class, class_count, split_of, HoldIn, IsNextNeeded, needed};
ghost use Rattle.class_partition.specs.Steps.{classes_of};
ghost use Rattle.class_partition.specs.Words.{bits_of, rows_of, IsSplitByWords, split_of_words, splits_of};

use crate::least::count_least;
use crate::parts;
use crate::split::split_places;
use bit_rows::BitRow;
use circ_model::Lit;
use std::alloc::{AllocError, Global};
use std::marker::Model;
use std::mem;

/// A partition of the places of a pair into classes, each place with a phase: two places of a class are equal up to the
/// complement that their phases tell. Contracts see it as the least place of each place's class, and the phases.
#[derive(Drop)]
pub struct Classes {
    least: Vec<u32>,
    phase: BitRow,
    count: u32,
}

impl Model for Classes {
    ghost use Rattle.std.specs.Prelude.{◌≡◌, length};
    ghost use Rattle.class_partition.specs.Classes.{Classes, ArePartition, class_count};

    ghost Value = { Classes };

    ghost view = { λ c. record { least = c.least.items; phase = c.phase } };

    ghost invariant = { λ c. ArePartition (length c.least.items) (record { least = c.least.items; phase = c.phase })
        × (c.count ≡ class_count (length c.least.items) (record { least = c.least.items; phase = c.phase })) };
}

/// A place that isn't the least of its class, with that least place: two signals whose equality, up to their relative phase,
/// has to be proved.
#[derive(Clone, Copy, PartialEq, Eq, Debug)]
pub struct Needed {
    /// The least place of the class.
    pub rep: u32,
    /// The place.
    pub member: u32,
}

impl Classes {
    /// One class of all places, with these phases.
    pub fn one_class(alloc: Global, phases: &BitRow) -> Result<Classes, AllocError>
        ensures one { IfOk result (λ c. c ≡ one_class phases.now) }
    {
        let n = phases.len();
        let least = vec![in alloc; 0u32; n as usize]?;
        let mut phase = BitRow::with_len(alloc, n)?;
        phase.copy_from(phases);
        let count = if n == 0 { 0 } else { 1 };
        Ok(Classes {
            least,
            phase,
            count,
        })
    }

    /// The classes with these least places and phases.
    pub fn of_least(least: Vec<u32>, phase: BitRow) -> Classes
        requires { ArePartition (length least.items) (classes_of least.items phase) }
        ensures { result ≡ classes_of least.items phase }
    {
        let _places = phase.len();
        let count = count_least(least.as_slice());
        Classes {
            least,
            phase,
            count,
        }
    }

    /// The number of places.
    pub fn len(&self) -> u32
        ensures places { result ≡ length self.now.least }
        ensures partition { ArePartition result self.now }
    {
        self.phase.len()
    }

    /// The least place of this place's class, its representative.
    pub fn rep(&self, place: u32) -> u32
        requires place { place < length self.now.least }
        ensures { result ≡ least_of self.now place }
    {
        self.least[place as usize]
    }

    /// The phase of a place: two places of a class are equal where their phases are, and else complements.
    pub fn phase(&self, place: u32) -> bool
        requires place { place < length self.now.least }
        ensures { result ≡ phase_of self.now place }
    {
        self.phase.get(place)
    }

    /// Whether two places are in one class.
    pub fn same(&self, a: u32, b: u32) -> bool
        requires a { a < length self.now.least }
        requires b { b < length self.now.least }
        ensures { IsTrue result ↔ AreTogether self.now a b }
    {
        self.least[a as usize] == self.least[b as usize]
    }

    /// Whether two literals of the pair are of one class and, by the phases, equal.
    pub fn paired(&self, a: Lit, b: Lit) -> bool
        requires a { a / 2 < length self.now.least }
        requires b { b / 2 < length self.now.least }
        ensures { IsTrue result ↔ Pairs self.now a b }
    {
        let left = self.phase.get(a.var()) != a.complement();
        let right = self.phase.get(b.var()) != b.complement();
        self.same(a.var(), b.var()) && left == right
    }

    /// The literals of a place and of its class's least place, that one first, at their relative phase: what has to be equal
    /// for the place to be where it is.
    pub fn needed(&self, member: u32) -> (Lit, Lit)
        requires place { member < length self.now.least }
        requires few { length self.now.least < 2147483648 }
        ensures { result ≡ needed self.now member }
    {
        let _places = self.len();
        let rep = self.rep(member);
        let sign = if self.phase(rep) {
            !self.phase(member)
        } else {
            self.phase(member)
        };
        (Lit::of(rep, false), Lit::of(member, sign))
    }

    /// The number of classes.
    pub fn count(&self) -> u32
        ensures { result ≡ class_count (length self.now.least) self.now }
    {
        self.count
    }

    /// The needed pair with the least member at or past a place, or none.
    pub fn next_pair(&self, from: u32) -> Option<Needed>
        ensures { IsNextNeeded self.now from result }
    {
        for member in from..self.phase.len() {
            let rep = self.least[member as usize];
            if rep != member {
                return Some(Needed { rep, member });
            }
        }
        None
    }

    /// An equal partition.
    pub fn copy(&self, alloc: Global) -> Result<Classes, AllocError>
        ensures same { IfOk result (λ c. c ≡ self.now) }
    {
        let mut phase = BitRow::with_len(alloc, self.phase.len())?;
        phase.copy_from(&self.phase);
        Ok(Classes {
            least: self.least.clone()?,
            phase,
            count: self.count,
        })
    }

    /// Splits the classes by a row: two places stay together exactly where they were and their bits, each with its phase,
    /// are equal. Answers how many classes that adds.
    pub fn split_by(&mut self, row: &BitRow) -> u32
        requires row { length row.now ≡ length self.old.least }
        ensures split { self.new ≡ split_of (length self.old.least) self.old row.now }
        ensures splits { IsSplit (length self.old.least) self.old row.now self.new }
        ensures count { class_count (length self.old.least) self.new ≡ class_count (length self.old.least) self.old + result }
        ensures none { result ≡ 0 → (self.new ≡ self.old) × HoldIn (length self.old.least) self.old row.now }
    {
        let _places = self.phase.len();
        let added = split_places(&mut self.least, &self.phase, row);
        self.count += added;
        added
    }

    /// Splits the classes by 64 rows at once. There is a word for each place, and bit b of each word belongs to row b. Two
    /// places stay together exactly where they were and their words, each complemented where the place's phase is 1, are
    /// equal. Answers how many classes that adds. An error leaves the classes as they were.
    pub fn split_by_words(&mut self, alloc: Global, words: &[u64]) -> Result<u32, AllocError>
        requires words { length words.now ≡ length self.old.least }
        ensures split { OnOk result (self.new ≡ split_of_words (length self.old.least) self.old words.now) }
        ensures splits { OnOk result (IsSplitByWords (length self.old.least) self.old words.now self.new) }
        ensures rows { OnOk result (self.new ≡ splits_of (length self.old.least) self.old (rows_of words.now)) }
        ensures count { IfOk result (λ added. class_count (length self.old.least) self.new ≡ class_count (length self.old.least) self.old + added) }
        ensures none { IfOk result (λ added. added ≡ 0 → (self.new ≡ self.old) × ((b : ℕ) → b < 64 → HoldIn (length self.old.least) self.old (bits_of b words.now))) }
        ensures err { OnErr result (self.new ≡ self.old) }
    {
        let _places = self.phase.len();
        let least = self.least.as_slice();
        let mut after = vec![in alloc; 0u32; least.len()]?;
        let more = parts::split_places(alloc, least, &self.phase, words, after.as_mut_slice())?;
        drop(mem::replace(&mut self.least, after));
        self.count += more;
        Ok(more)
    }
}
