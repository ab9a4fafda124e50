//! The places of a frame: their literals, those of the least places of their classes, and what is derived of each.

use crate::cone::Cone;
use circ_model::Lit;
use class_partition::Classes;
use std::alloc::{AllocError, Global};

/// The numbers of the lines that derive a place's two clauses, from 1 on, or 0 for none: that not the least place of its class
/// alone holds, and that not the place alone does.
#[derive(Clone, Copy)]
pub(crate) struct Derived {
    pub least: u64,
    pub place: u64,
}

/// The places of a frame, whose variables begin past `base`: what is derived of each, and those that are met.
#[derive(Drop)]
pub(crate) struct Places {
    pub base: u32,
    // by place
    derived: Vec<Derived>,
    pub cone: Cone,
}

impl Places {
    pub(crate) fn new(alloc: Global, places: u32, base: u32) -> Result<Places, AllocError> {
        let cone = Cone::new(alloc, places)?;
        let none = Derived { least: 0, place: 0 };
        match vec![in alloc; none; places as usize] {
            Ok(derived) => Ok(Places {
                base,
                derived,
                cone,
            }),
            Err(error) => {
                drop(cone);
                Err(error)
            }
        }
    }

    /// A literal of the pair in the frame.
    pub(crate) fn literal(&self, var: u32, complement: bool) -> i32 {
        let number = self.base.saturating_add(var).saturating_add(1);
        let literal = i32::try_from(number).unwrap_or(0);
        if complement {
            literal.wrapping_neg()
        } else {
            literal
        }
    }

    /// Whether a place and the least of its class have different phases.
    pub(crate) fn is_turned(&self, classes: &Classes, place: u32) -> bool {
        if place >= classes.len() {
            return false;
        }
        let rep = classes.rep(place);
        rep < classes.len() && classes.phase(rep) != classes.phase(place)
    }

    /// The least place of a place's class.
    pub(crate) fn least_of(&self, classes: &Classes, place: u32) -> u32 {
        if place < classes.len() {
            classes.rep(place)
        } else {
            place
        }
    }

    /// The literal of the least place of a class that has the value of a literal of the class.
    pub(crate) fn least_literal(&self, classes: &Classes, lit: Lit) -> Lit {
        let turned = self.is_turned(classes, lit.var());
        Lit::of(
            self.least_of(classes, lit.var()).min(0x7fff_ffff),
            lit.complement() != turned,
        )
    }

    /// The literals of the least place of a place's class, and of the place at their relative phase.
    pub(crate) fn literals_of(&self, classes: &Classes, place: u32) -> (i32, i32) {
        if place >= classes.len() {
            return (0, 0);
        }
        let rep = classes.rep(place);
        if rep >= classes.len() {
            return (0, 0);
        }
        let sign = classes.phase(rep) != classes.phase(place);
        (self.literal(rep, false), self.literal(place, sign))
    }

    pub(crate) fn derived_at(&self, place: u32) -> Derived {
        if (place as usize) < self.derived.len() {
            self.derived[place as usize]
        } else {
            Derived { least: 0, place: 0 }
        }
    }

    /// Sets what is derived of a place.
    pub(crate) fn set_derived(&mut self, place: u32, lines: Derived) {
        if (place as usize) < self.derived.len() {
            self.derived[place as usize] = lines;
        }
    }
}
