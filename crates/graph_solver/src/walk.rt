//! A walk over the nodes on which a question rests, and what was given of them. Nothing here is believed.

use and_graph::Graph;
use std::alloc::{AllocError, Global};

/// The nodes that a question rests on, and of all nodes whether their clauses were given.
#[derive(Drop)]
pub(crate) struct Walk {
    /// The nodes of the question.
    pub cone: Vec<u32>,
    /// The leaves on which questions or facts rested so far.
    pub leaves: Vec<u32>,
    // by node: the turn in which it was met last, and whether its clauses were given
    met: Vec<u32>,
    given: Vec<bool>,
    turn: u32,
    stack: Vec<u32>,
}

impl Walk {
    /// No node is met.
    pub fn new(alloc: Global) -> Walk {
        Walk {
            cone: Vec::new(alloc),
            leaves: Vec::new(alloc),
            met: Vec::new(alloc),
            given: Vec::new(alloc),
            turn: 0,
            stack: Vec::new(alloc),
        }
    }

    /// Nothing is given of any node.
    pub fn clear(&mut self) {
        self.cone.clear();
        self.leaves.clear();
        self.given.clear();
    }

    /// Begins with a question over so many nodes.
    pub fn begin(&mut self, nodes: u32) -> Result<(), AllocError> {
        for _ in self.met.len()..nodes as usize {
            self.met.push(0)?;
        }
        for _ in self.given.len()..nodes as usize {
            self.given.push(false)?;
        }
        self.cone.clear();
        self.stack.clear();
        self.turn = self.turn.wrapping_add(1);
        Ok(())
    }

    /// Meets a node.
    pub fn meet(&mut self, node: u32) -> Result<(), AllocError> {
        let at = node as usize;
        if at < self.met.len() && self.met[at] != self.turn {
            self.met[at] = self.turn;
            self.stack.push(node)?;
        }
        Ok(())
    }

    /// The next node that was met, if there is one.
    pub fn next(&mut self) -> Result<Option<u32>, AllocError> {
        let Some(node) = self.stack.pop() else {
            return Ok(None);
        };
        self.cone.push(node)?;
        Ok(Some(node))
    }

    /// Whether the clauses of a node are still to be given.
    pub fn is_new(&self, node: u32) -> bool {
        (node as usize) < self.given.len() && !self.given[node as usize]
    }

    /// They were given.
    pub fn note(&mut self, node: u32, is_leaf: bool) -> Result<(), AllocError> {
        if (node as usize) < self.given.len() {
            self.given[node as usize] = true;
        }
        if is_leaf {
            self.leaves.push(node)?;
        }
        Ok(())
    }

    /// Meets the nodes below one.
    pub fn descend(&mut self, graph: &Graph, node: u32) -> Result<(), AllocError> {
        if node >= graph.len() {
            return Ok(());
        }
        let (a, b) = graph.operands(node);
        self.meet(a.var())?;
        self.meet(b.var())
    }
}
