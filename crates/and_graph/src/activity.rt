//! How active nodes are: how often conflicts of the questions on them raised them, those of late more (the activities of VSIDS,
//! Moskewicz and others, DAC 2001). A question over a cone begins with what earlier ones left, as it does in an incremental
//! solver, though its variables are numbered anew. No fact rests on it.
use std::alloc::{AllocError, Global};

/// By node, as a workspace tells it of a variable.
#[derive(Drop)]
pub(crate) struct Activity {
    of: Vec<u32>,
}

impl Activity {
    /// Nothing was asked yet.
    pub fn new(alloc: Global) -> Activity {
        Activity {
            of: Vec::new(alloc),
        }
    }

    /// Of a node.
    pub fn at(&self, n: u32) -> u32 {
        if (n as usize) < self.of.len() {
            self.of[n as usize]
        } else {
            0
        }
    }

    /// Takes in what a question left of a node.
    pub fn note(&mut self, n: u32, activity: u32) -> Result<(), AllocError> {
        let row = n as usize;
        if row >= self.of.len() {
            self.of.resize(2 * row + 64, 0)?;
        }
        self.of[row] = activity;
        Ok(())
    }
}
