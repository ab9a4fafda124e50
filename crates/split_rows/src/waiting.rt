//! Rows that wait: those that split the classes, are held when these come, or when it is said that more wait, and weren't answered
//! for them yet. They are answered before anything is asked, so that no question is put under classes that are known to be too
//! coarse: such a question is harder, its models break the classes, and what it shows is asked again under the next ones.
ghost use Rattle.std.specs.Prelude.{◌≡◌, ◌<◌, IfOk, IfSome, length};
ghost use Rattle.circ_model.specs.Meaning.{places_of};
ghost use Rattle.class_partition.specs.Classes.{least_of};
ghost use Rattle.split_rows.specs.Rows.{IsRowApart, SeparatesSome};

use crate::rows::SplitRows;
use bit_rows::BitRow;
use class_partition::{Classes, Needed};
use std::alloc::{AllocError, Global};

impl<'p> SplitRows<'p> {
    // Whether a row separates a needed pair that wasn't answered for these classes.
    fn is_waiting_for(&self, classes: &Classes, pair: Needed) -> bool
        requires places { length classes.now.least ≡ places_of self.now.pair }
        requires place { pair.member < places_of self.now.pair }
        requires rep { pair.rep ≡ least_of classes.now pair.member }
    {
        for block in 0..self.blocks.len() {
            let among = self.new_lanes(block);
            if self.blocks[block].apart(among, classes, pair).is_some() {
                return true;
            }
        }
        false
    }

    // The next needed pair that such a row separates, from the place on at which the last one was found.
    fn sought(&self, classes: &Classes) -> Option<Needed>
        requires places { length classes.now.least ≡ places_of self.now.pair }
        ensures place { IfSome result (λ pair. pair.member < places_of self.now.pair) }
        ensures rep { IfSome result (λ pair. pair.rep ≡ least_of classes.now pair.member) }
    {
        for member in self.next..classes.len() {
            let pair = Needed {
                rep: classes.rep(member),
                member,
            };
            if self.is_apart(pair) && self.is_waiting_for(classes, pair) {
                return Some(pair);
            }
        }
        None
    }

    // The same, and the next search begins there.
    fn seek(&mut self, classes: &Classes) -> Option<Needed>
        requires places { length classes.now.least ≡ places_of self.old.pair }
        ensures kept { self.new ≡ self.old }
        ensures place { IfSome result (λ pair. pair.member < places_of self.old.pair) }
        ensures rep { IfSome result (λ pair. pair.rep ≡ least_of classes.now pair.member) }
    {
        let found = self.sought(classes);
        self.next = match &found {
            Some(pair) => pair.member,
            None => u32::MAX,
        };
        found
    }

    /// Has rows wait that came since, those that split these classes and weren't answered for them.
    pub fn wait_again(&mut self)
        ensures { self.new ≡ self.old }
    {
        self.next = 0;
    }

    /// Whether some row waits. A hint.
    pub fn has_waiting(&mut self, classes: &Classes) -> bool
        requires places { length classes.now.least ≡ places_of self.old.pair }
        ensures { self.new ≡ self.old }
    {
        self.seek(classes).is_some()
    }

    /// A row that waits, where there is one: it separates some needed pair of the classes.
    pub fn next_waiting(
        &mut self,
        alloc: Global,
        classes: &Classes,
    ) -> Result<Option<BitRow>, AllocError>
        requires places { length classes.now.least ≡ places_of self.old.pair }
        ensures kept { self.new ≡ self.old }
        ensures row { IfOk result (λ row. IfSome row (SeparatesSome self.old.pair self.old.k classes.now)) }
    {
        let Some(pair) = self.seek(classes) else {
            return Ok(None);
        };
        match self.apart(alloc, classes, pair)? {
            Some(row) => Ok(Some(row)),
            None => Ok(None),
        }
    }
}
