//! Where a cone goes on: its members that are still to be expanded, the highest node first. All of it is a hint.
use std::alloc::{AllocError, Global};
use std::collections::BinaryHeap;

/// What a node without a number has.
const NONE: u32 = u32::MAX;

/// The nodes that are still to be expanded, and the member that each node was when it was met last. One question leaves the
/// numbers to the next as they are, so a number is to be compared with the node that has it.
#[derive(Drop)]
pub(crate) struct Frontier {
    numbers: Vec<u32>,
    open: BinaryHeap<u32>,
}

impl Frontier {
    /// Nothing is met.
    pub fn new(alloc: Global) -> Frontier {
        Frontier {
            numbers: Vec::new(alloc),
            open: BinaryHeap::new(alloc),
        }
    }

    /// The number that a node may have.
    pub fn number_of(&self, n: u32) -> u32 {
        if (n as usize) < self.numbers.len() {
            self.numbers[n as usize]
        } else {
            NONE
        }
    }

    /// Meets a node, which is to be expanded, as this member.
    pub fn meet(&mut self, n: u32, member: u32) -> Result<(), AllocError> {
        let row = n as usize;
        if row >= self.numbers.len() {
            self.numbers.resize(2 * row + 64, NONE)?;
        }
        self.numbers[row] = member;
        self.open.push(n)?;
        Ok(())
    }

    /// The member of the highest node that is still to be expanded, and is now taken as expanded.
    pub fn pop(&mut self) -> Option<u32> {
        let n = self.open.pop()?;
        Some(self.number_of(n))
    }

    /// Whether all that were met are expanded.
    pub fn is_empty(&self) -> bool {
        self.open.is_empty()
    }

    /// Nothing is to be expanded.
    pub fn clear(&mut self) {
        self.open.clear();
    }
}
