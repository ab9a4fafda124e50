//! What is derived in a frame. That a place and its class's least are equal is derived in two cases, each a line: of two gates by twins.rt,
//! over what a case rests on by local.rt, and over whole frames by whole_frames.rt. The log of a place is then made of the lines that it
//! reaches (reaching.rt).

use crate::gates::Gates;
use crate::lines::Lines;
use crate::places::Places;
use class_partition::Classes;
use cnf_store::Cnf;
use local_cases::{LocalCases, Refuter};
use product_machine::Cell;
use sat_log::Log;
use std::alloc::{AllocError, Global};

// A solver over the clauses of frames, and the places of the last one, of which nothing is derived.
fn beginning(
    alloc: Global,
    frames: &Cnf,
    places: u32,
    base: u32,
) -> Result<(Refuter, Places), AllocError> {
    let places = Places::new(alloc, places, base)?;
    match Refuter::new(alloc, frames) {
        Ok(refuter) => Ok((refuter, places)),
        Err(error) => {
            drop(places);
            Err(error)
        }
    }
}

// Nothing is derived yet, with these.
fn with_both(
    alloc: Global,
    frames: &Cnf,
    places: u32,
    base: u32,
    gates: Gates,
    cases: LocalCases,
) -> Result<Lemmas, AllocError> {
    match beginning(alloc, frames, places, base) {
        Ok((refuter, places)) => Ok(Lemmas {
            refuter,
            cases,
            gates,
            places,
            lines: Lines::new(alloc, frames.len()),
        }),
        Err(error) => {
            drop(gates);
            drop(cases);
            Err(error)
        }
    }
}

/// What is derived in a frame.
#[derive(Drop)]
pub struct Lemmas {
    pub(crate) refuter: Refuter,
    pub(crate) cases: LocalCases,
    pub(crate) gates: Gates,
    pub(crate) places: Places,
    pub(crate) lines: Lines,
}

impl Lemmas {
    /// Nothing is derived yet. The frames' clauses are given, and the variables of the frame's places begin past `base`.
    pub fn new(alloc: Global, frames: &Cnf, places: u32, base: u32) -> Result<Lemmas, AllocError> {
        let gates = Gates::new(alloc, frames, places, base)?;
        match LocalCases::new(alloc, frames) {
            Ok(cases) => with_both(alloc, frames, places, base, gates, cases),
            Err(error) => {
                drop(gates);
                Err(error)
            }
        }
    }

    /// Derives that a place and the least of its class are equal, by what is derived of the places below them, and answers
    /// the log of it over the frames' clauses and its question's, of three clauses: that one of the frame's two places holds,
    /// where a variable does, that not both do, and that the variable holds. None where it can't be derived.
    pub fn log_of(
        &mut self,
        alloc: Global,
        cells: &[Cell],
        classes: &Classes,
        place: u32,
    ) -> Result<Option<Log>, AllocError> {
        self.derive(alloc, cells, classes, place)?;
        self.log_so_far(alloc, classes, place)
    }

    // Derives it, where it can.
    fn derive(
        &mut self,
        alloc: Global,
        cells: &[Cell],
        classes: &Classes,
        place: u32,
    ) -> Result<(), AllocError> {
        if place >= classes.len() || self.derive_twins(cells, classes, place)? {
            return Ok(());
        }
        if self.derive_locally(alloc, classes, place)? {
            return Ok(());
        }
        self.derive_whole(alloc, cells, classes, place)
    }

    // The log by what is derived.
    fn log_so_far(
        &self,
        alloc: Global,
        classes: &Classes,
        place: u32,
    ) -> Result<Option<Log>, AllocError> {
        let known = self.places.derived_at(place);
        let last = if known.least < known.place {
            known.place
        } else {
            known.least
        };
        if known.least == 0 || known.place == 0 || last > self.lines.log.len() {
            return Ok(None);
        }
        let (x, _) = self.places.literals_of(classes, place);
        Ok(Some(self.lines.log_to(alloc, last, known, x)?))
    }
}
