//! What the rows that are held leave of the classes that are refined: parts of classes, which no row splits. A hint: no contract
//! rests on it.

ghost use Rattle.std.specs.Prelude.{◌<◌, length};

use crate::words::word_at;
use class_partition::Classes;
use std::alloc::{AllocError, Global};

// No place.
const NONE: u32 = u32::MAX;

/// A partition finer than some classes.
#[derive(Drop)]
pub(crate) struct Left {
    // by place: twice the least place of its part, and one more where their phases differ
    least: Vec<u32>,
    // the places that aren't the least of their part
    members: Vec<u32>,
    // while rows split: the places that they have apart from the least of their part
    apart: Vec<u32>,
    // while one row splits: by place, the least place of the part that is taken out of its part, with the phase likewise; and where
    // there are such
    twins: Vec<u32>,
    parted: Vec<u32>,
}

// The number at a position; past the end none.
fn number_at(numbers: &[u32], at: usize) -> u32 {
    if at < numbers.len() {
        numbers[at]
    } else {
        NONE
    }
}

// Writes a number at a position, where there is one.
fn write_at(numbers: &mut [u32], at: u32, number: u32) {
    if (at as usize) < numbers.len() {
        numbers[at as usize] = number;
    }
}

// Twice the least place of a place's class, and one more where their phases differ.
fn needed_literal(classes: &Classes, p: u32) -> u32
    requires { p < length classes.now.least }
{
    let _places = classes.len();
    let rep = classes.rep(p);
    let turned = classes.phase(rep) != classes.phase(p);
    rep.wrapping_mul(2) | turned as u32
}

// The word of a lane alone.
pub(crate) fn lane_word(lane: u32) -> u64 {
    if lane < 64 { 1u64 << lane } else { 0 }
}

impl Left {
    // Adds all of these classes.
    fn add_all(&mut self, classes: &Classes) -> Result<(), AllocError> {
        for p in 0..classes.len() {
            self.least.push(needed_literal(classes, p))?;
            if classes.rep(p) != p {
                self.members.push(p)?;
            }
        }
        Ok(())
    }

    /// All of these classes.
    pub(crate) fn of(alloc: Global, classes: &Classes) -> Result<Left, AllocError> {
        let places = classes.len();
        let mut left = Left {
            least: Vec::with_capacity(alloc, places as usize)?,
            members: Vec::new(alloc),
            apart: Vec::new(alloc),
            twins: vec![in alloc; NONE; places as usize]?,
            parted: Vec::new(alloc),
        };
        if left.add_all(classes).is_err() {
            drop(left);
            return Err(AllocError);
        }
        Ok(left)
    }

    /// How many places aren't the least of their part.
    pub(crate) fn members(&self) -> usize {
        self.members.len()
    }

    /// Whether two places are in two parts.
    pub(crate) fn is_apart(&self, p: u32, q: u32) -> bool {
        number_at(&self.least, p as usize) / 2 != number_at(&self.least, q as usize) / 2
    }

    // The lanes in which a place differs from the least of its part, each with its phase.
    fn lanes_at(&self, words: &[u64], p: u32) -> u64 {
        let least = number_at(&self.least, p as usize);
        let turned = 0u64.wrapping_sub((least & 1) as u64);
        word_at(words, (least / 2) as usize) ^ word_at(words, p as usize) ^ turned
    }

    // Collects the places that differ from the least of their part in some lane of a mask. Answers those lanes.
    fn collect(&mut self, words: &[u64], mask: u64) -> Result<u64, AllocError> {
        self.apart.clear();
        let mut found = 0;
        for i in 0..self.members.len() {
            let p = number_at(&self.members, i);
            let lanes = self.lanes_at(words, p) & mask;
            if lanes != 0 {
                self.apart.push(p)?;
                found = found | lanes;
            }
        }
        Ok(found)
    }

    // Takes a place out of its part, into the part of the places that the row takes out.
    fn part(&mut self, p: u32) -> Result<(), AllocError> {
        let least = number_at(&self.least, p as usize);
        let twin = number_at(&self.twins, (least / 2) as usize);
        if twin != NONE {
            write_at(&mut self.least, p, twin ^ (least & 1));
            return Ok(());
        }
        self.parted.push(least / 2)?;
        write_at(&mut self.twins, least / 2, p.wrapping_mul(2) | (least & 1));
        write_at(&mut self.least, p, p.wrapping_mul(2));
        Ok(())
    }

    // Splits the parts by the row of one lane, of the collected places. Answers in which lanes of a mask rows still split some part.
    fn split_by_lane(&mut self, words: &[u64], lane: u64, mask: u64) -> Result<u64, AllocError> {
        let mut found = 0;
        let mut kept = 0;
        for i in 0..self.apart.len() {
            let p = number_at(&self.apart, i);
            let mut lanes = self.lanes_at(words, p) & mask;
            if lanes & lane != 0 {
                self.part(p)?;
                lanes = self.lanes_at(words, p) & mask;
            }
            if lanes != 0 && kept < self.apart.len() {
                self.apart[kept] = p;
                kept += 1;
                found = found | lanes;
            }
        }
        self.apart.truncate(kept);
        self.forget_twins();
        Ok(found)
    }

    // Has the members be those that aren't the least of their part.
    fn sort_out(&mut self) {
        let mut kept = 0;
        for i in 0..self.members.len() {
            let p = number_at(&self.members, i);
            if number_at(&self.least, p as usize) / 2 != p && kept < self.members.len() {
                self.members[kept] = p;
                kept += 1;
            }
        }
        self.members.truncate(kept);
    }

    // Where the parts are split.
    fn forget_twins(&mut self) {
        let Left { twins, parted, .. } = self;
        for least in parted.as_slice() {
            write_at(twins, *least, NONE);
        }
        parted.clear();
    }

    /// Splits the parts by rows in the lanes of a mask, one after another as long as one splits them. Answers the lanes of those
    /// rows.
    pub(crate) fn split_by(&mut self, words: &[u64], mask: u64) -> Result<u64, AllocError> {
        let mut used = 0;
        let mut more = self.collect(words, mask)?;
        if more == 0 {
            return Ok(0);
        }
        for _ in 0..64 {
            if more == 0 {
                break;
            }
            let lane = lane_word(more.trailing_zeros());
            more = self.split_by_lane(words, lane, mask)?;
            used = used | lane;
        }
        self.sort_out();
        Ok(used)
    }
}
