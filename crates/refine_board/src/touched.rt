//! The marks of all places, and over which of them a split goes.
ghost use Rattle.std.specs.Prelude.{◌≡◌, ◌<◌, ◌≤◌, ◌++◌, ◌∷◌, [], ℕ, length, set, replicate, vec_capacity, IfOk, true, false};
ghost use Rattle.std.specs.List.{All, range_with_len};
ghost use Rattle.refine_board.specs.declared.marks.Mark.TheVariants.{Open};
ghost use Rattle.refine_board.specs.States.{lasting_marks};
ghost use Rattle.refine_board.specs.Touched.{AreTouched};

use crate::marks::{Mark, open_marks};
use class_partition::Classes;
use std::alloc::{AllocError, Global};
use std::marker::Model;
use verdict_stamp::Version;

/// The marks of all places, with a list of the places whose marks may not be open: a split goes over these alone. The list is in no
/// order, and may have a place twice; where it would grow longer than the places are many, the next split goes over all.
#[derive(Drop)]
pub(crate) struct Marks {
    by_place: Vec<Mark>,
    touched: Vec<u32>,
    is_over: bool,
}

impl Model for Marks {
    ghost use Rattle.std.specs.Prelude.{List, vec_capacity};
    ghost use Rattle.refine_board.specs.declared.marks.Mark.{Mark};
    ghost use Rattle.refine_board.specs.Touched.{AreNoted};

    ghost Value = { List Mark };

    ghost view = { λ m. m.by_place.items };

    ghost invariant = { λ m. AreNoted m.by_place.items m.touched.items m.is_over (vec_capacity m.touched) };
}

// Writes a place's mark.
fn write(marks: &mut Vec<Mark>, place: u32, mark: Mark)
    requires { place < length marks.old.items }
    ensures { marks.new.items ≡ set marks.old.items place mark }
{
    marks[place as usize] = mark;
}

// Adds a place to a list, where there is room.
fn add_to(touched: &mut Vec<u32>, place: u32) -> bool
    ensures added { result ≡ true → touched.new.items ≡ touched.old.items ++ place ∷ [] }
    ensures full { result ≡ false → touched.new.items ≡ touched.old.items }
    ensures capacity { vec_capacity touched.new ≡ vec_capacity touched.old }
{
    if touched.len() >= touched.capacity() {
        return false;
    }
    touched.push_reserved(place);
    true
}

// Has a list be that of all places.
fn touch_all(touched: &mut Vec<u32>, places: u32)
    requires room { places ≤ vec_capacity touched.old }
    ensures all { touched.new.items ≡ range_with_len 0 places }
    ensures capacity { vec_capacity touched.new ≡ vec_capacity touched.old }
{
    touched.clear();
    for p in 0..places {
        touched.push_reserved(p);
    }
}

// After a split to these classes the pairs that don't stay counted are open, and leave the list.
fn reopen_touched(marks: &mut Vec<Mark>, touched: &mut Vec<u32>, classes: &Classes)
    requires lengths { length marks.old.items ≡ length classes.now.least }
    requires within { All (λ (p : ℕ). p < length marks.old.items) touched.old.items }
    requires touched { AreTouched marks.old.items touched.old.items }
    ensures marks { marks.new.items ≡ lasting_marks classes.now marks.old.items }
    ensures within { All (λ (p : ℕ). p < length marks.new.items) touched.new.items }
    ensures touched { AreTouched marks.new.items touched.new.items }
    ensures capacity { vec_capacity touched.new ≡ vec_capacity touched.old }
{
    let mut i = touched.len();
    while i > 0 {
        i -= 1;
        let place = touched[i];
        if !marks[place as usize].lasts(classes, place) {
            write(marks, place, Mark::Open);
            touched.swap_remove(i);
        }
    }
}

impl Marks {
    // All open.
    pub(crate) fn open(alloc: Global, places: u32) -> Result<Marks, AllocError>
        ensures { IfOk result (λ m. m ≡ replicate places Open) }
    {
        let by_place = open_marks(alloc, places)?;
        let touched = Vec::with_capacity(alloc, places as usize)?;
        Ok(Marks {
            by_place,
            touched,
            is_over: false,
        })
    }

    pub(crate) fn as_slice(&self) -> &[Mark]
        ensures { result.now ≡ self.now }
    {
        self.by_place.as_slice()
    }

    // A place is open again.
    pub(crate) fn reopen(&mut self, place: u32)
        requires { place < length self.old }
        ensures { self.new ≡ set self.old place Open }
    {
        write(&mut self.by_place, place, Mark::Open);
    }

    // A place has this mark.
    pub(crate) fn put(&mut self, place: u32, mark: Mark)
        requires { place < length self.old }
        ensures { self.new ≡ set self.old place mark }
    {
        let Marks {
            by_place,
            touched,
            is_over,
        } = self;
        if by_place[place as usize].is_open() && !add_to(touched, place) {
            *is_over = true;
        }
        write(by_place, place, mark);
    }

    // What a split to a version's classes leaves of all marks: the pairs that don't stay counted are open.
    pub(crate) fn split(&mut self, version: &Version<'_>)
        requires { length self.old ≡ length version.now.classes.least }
        ensures { self.new ≡ lasting_marks version.now.classes self.old }
    {
        let Marks {
            by_place,
            touched,
            is_over,
        } = self;
        let classes = version.classes();
        if *is_over {
            touch_all(touched, classes.len());
            *is_over = false;
        }
        reopen_touched(by_place, touched, classes);
    }
}
