//! A list of pairs of places, in a place of its own.
ghost use Rattle.std.specs.Prelude.{◌≡◌, ◌<◌, IfOk, length, slice_index_or};
ghost use Rattle.used_pairs.specs.Lists.{all_together, is_together};

use class_partition::{Classes, Needed};
use std::alloc::{AllocError, Global};
use std::marker::Model;

/// Pairs of places. Contracts see it as a list.
#[derive(Drop)]
pub struct PairList {
    place: Box<Vec<Needed>>,
}

impl Model for PairList {
    ghost use Rattle.std.specs.Prelude.{List};
    ghost use Rattle.class_partition.specs.declared.classes.Needed.{Needed};

    ghost Value = { List Needed };

    ghost view = { λ l. l.place.value.items };
}

// Whether classes have the places of a pair together.
fn is_together(classes: &Classes, pair: Needed) -> bool
    ensures { result ≡ is_together classes.now pair }
{
    let n = classes.len();
    if pair.rep >= n || pair.member >= n {
        return false;
    }
    classes.rep(pair.rep) == classes.rep(pair.member)
}

impl PairList {
    /// The pairs of a vector. It errs for want of memory alone.
    pub fn of(alloc: Global, pairs: Vec<Needed>) -> Result<PairList, AllocError>
        ensures { IfOk result (λ l. l ≡ pairs.items) }
    {
        let place = Box::new(alloc, pairs)?;
        Ok(PairList { place })
    }

    /// An equal list. It errs for want of memory alone.
    pub fn copy(&self, alloc: Global) -> Result<PairList, AllocError>
        ensures { IfOk result (λ l. l ≡ self.now) }
    {
        let pairs = self.place.as_ref().clone()?;
        PairList::of(alloc, pairs)
    }

    /// How many they are.
    pub fn len(&self) -> usize
        ensures { result ≡ length self.now }
    {
        self.place.as_ref().len()
    }

    /// Pair `i`, counted from 0.
    pub fn pair(&self, i: usize) -> Needed
        requires { i < length self.now }
        ensures { result ≡ slice_index_or self.now i result }
    {
        self.place.as_ref()[i]
    }

    /// Whether classes have the two places of each pair together.
    pub fn are_together(&self, classes: &Classes) -> bool
        ensures { result ≡ all_together classes.now self.now }
    {
        for pair in self.place.as_ref().as_slice() {
            if !is_together(classes, *pair) {
                return false;
            }
        }
        true
    }
}
