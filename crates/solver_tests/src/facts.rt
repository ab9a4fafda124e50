//! The solver over a graph's nodes, asked between facts. What holds of six leaves is tried on all their rows, as the bits of a word.

use crate::keeping::{drawn, rows_of};
use and_graph::{Graph, Pattern};
use circ_model::Lit;
use graph_solver::{Answer, GraphSolver};
use std::alloc::{AllocError, Global};
use std::marker::Model;
use std::test::Fail;

const LEAVES: u32 = 6;

// A literal, and the rows in which it is true.
#[derive(Clone, Copy)]
struct Known {
    lit: Lit,
    rows: u64,
}

impl Known {
    fn complement(self) -> Known {
        Known {
            lit: self.lit.not(),
            rows: !self.rows,
        }
    }
}

// A graph that grows no more, and what is asked of it.
#[derive(Drop)]
struct Asked {
    graph: Graph,
    solver: GraphSolver,
}

impl Model for Asked {
    ghost use Rattle.graph_solver.specs.Known.{IsKept, Known};

    ghost Value = { Known };

    ghost view = { λ a. a.solver };

    ghost invariant = { λ a. IsKept a.graph a.solver };
}

impl Asked {
    fn new(alloc: Global, graph: Graph) -> Result<Asked, AllocError> {
        match GraphSolver::new(alloc) {
            Ok(solver) => Ok(Asked { graph, solver }),
            Err(error) => {
                drop(graph);
                Err(error)
            }
        }
    }

    fn assume(&mut self, a: Lit, b: Lit) -> Result<(), AllocError> {
        if a.var() >= self.graph.len() || b.var() >= self.graph.len() {
            return Err(AllocError);
        }
        self.solver.assume(&self.graph, a, b)
    }

    fn difference(&mut self, alloc: Global, a: Lit, b: Lit) -> Result<Answer, AllocError> {
        if a.var() >= self.graph.len() || b.var() >= self.graph.len() {
            return Err(AllocError);
        }
        self.solver.difference(alloc, &self.graph, a, b)
    }

    fn cleared(self) -> Result<Asked, AllocError> {
        let Asked { graph, mut solver } = self;
        match solver.clear() {
            Ok(()) => Ok(Asked { graph, solver }),
            Err(error) => {
                drop(graph);
                drop(solver);
                Err(error)
            }
        }
    }

    fn whole_model(&self, alloc: Global) -> Result<Pattern, AllocError> {
        self.solver.whole_model(alloc, &self.graph)
    }
}

// The rows of a pattern.
fn rows_under(pattern: &Pattern) -> u64 {
    let mut rows = u64::MAX;
    for at in pattern.leaves.as_slice() {
        if at.leaf >= 1 && at.leaf <= LEAVES {
            let lit = 2 * (at.leaf - 1) + if at.value { 0 } else { 1 };
            rows = rows & rows_of(lit);
        }
    }
    rows
}

// Whether two literals are told apart, or not, as they must be where the facts hold in these rows alone.
fn is_right(
    alloc: Global,
    asked: &mut Asked,
    held: u64,
    a: Known,
    b: Known,
) -> Result<bool, AllocError> {
    let apart = held & (a.rows ^ b.rows);
    match asked.difference(alloc, a.lit, b.lit)? {
        Answer::Equal => Ok(apart == 0),
        Answer::Apart(pattern) => {
            let whole = asked.whole_model(alloc)?;
            let (near, all) = (rows_under(&pattern), rows_under(&whole));
            Ok(near & !(a.rows ^ b.rows) == 0 && near & apart != 0 && all != 0 && all & !apart == 0)
        }
        Answer::Unknown => Ok(false),
    }
}

// Whether all pairs of literals of two nodes are, and all pairs of one with a complement.
fn are_right(
    alloc: Global,
    asked: &mut Asked,
    held: u64,
    known: &[Known],
) -> Result<bool, AllocError> {
    for a in known {
        for b in known {
            let is_asked = a.lit.var() != b.lit.var();
            if is_asked && !is_right(alloc, asked, held, *a, *b)? {
                return Ok(false);
            }
            if is_asked && !is_right(alloc, asked, held, *a, b.complement())? {
                return Ok(false);
            }
        }
    }
    Ok(true)
}

// One of the literals that are known, or its complement.
fn picked(known: &[Known], seed: u32) -> Known {
    let number = (seed >> 12) as usize;
    if known.len() == 0 {
        return Known {
            lit: Lit::of(0, false),
            rows: 0,
        };
    }
    let at = known[number / 2 % known.len()];
    if number % 2 == 0 { at } else { at.complement() }
}

// Adds a gate over two literals that are known.
fn add_gate(
    graph: &mut Graph,
    known: &mut Vec<Known>,
    first: u32,
    second: u32,
) -> Result<(), AllocError> {
    let a = picked(known.as_slice(), first);
    let b = picked(known.as_slice(), second);
    if a.lit.var() >= graph.len() || b.lit.var() >= graph.len() {
        return Err(AllocError);
    }
    known.push(Known {
        lit: graph.and(a.lit, b.lit)?,
        rows: a.rows & b.rows,
    })?;
    Ok(())
}

// The leaves and so many gates that are drawn, into an empty graph.
fn grow(
    graph: &mut Graph,
    known: &mut Vec<Known>,
    gates: u32,
    seed: u32,
) -> Result<(), AllocError> {
    for n in 0..LEAVES {
        known.push(Known {
            lit: graph.leaf()?,
            rows: rows_of(2 * n),
        })?;
    }
    let mut number = seed;
    for _ in 0..gates {
        let first = drawn(number);
        number = drawn(first);
        add_gate(graph, known, first, number)?;
    }
    Ok(())
}

// Whether questions are answered as they must be between facts that are drawn.
fn is_right_throughout(
    alloc: Global,
    asked: &mut Asked,
    known: &[Known],
    seed: u32,
) -> Result<bool, AllocError> {
    let mut held = u64::MAX;
    let mut number = seed;
    for _ in 0..5 {
        if !are_right(alloc, asked, held, known)? {
            return Ok(false);
        }
        let first = drawn(number);
        number = drawn(first);
        let (a, b) = (picked(known, first), picked(known, number));
        asked.assume(a.lit, b.lit)?;
        held = held & !(a.rows ^ b.rows);
    }
    are_right(alloc, asked, held, known)
}

// Whether they are, and so they are once all is forgotten.
fn is_right_twice(
    alloc: Global,
    asked: Asked,
    known: &[Known],
    seed: u32,
) -> Result<bool, AllocError> {
    let mut asked = asked;
    let before = is_right_throughout(alloc, &mut asked, known, seed);
    let mut asked = asked.cleared()?;
    let after = are_right(alloc, &mut asked, u64::MAX, known);
    drop(asked);
    Ok(before? && after?)
}

// The leaves and gates of a graph that is drawn.
fn drawn_graph(alloc: Global, known: &mut Vec<Known>, seed: u32) -> Result<Graph, AllocError> {
    let mut graph = Graph::new(alloc, 127)?;
    match grow(&mut graph, known, 16, seed) {
        Ok(()) => Ok(graph),
        Err(error) => {
            drop(graph);
            Err(error)
        }
    }
}

// Whether all comes out in a graph that is drawn.
fn is_right_of(alloc: Global, seed: u32) -> Result<bool, AllocError> {
    let mut known = Vec::new(alloc);
    let graph = drawn_graph(alloc, &mut known, seed)?;
    let asked = Asked::new(alloc, graph)?;
    is_right_twice(alloc, asked, known.as_slice(), seed)
}

#[test]
fn literals_are_equal_where_the_facts_say_so_and_nowhere_else(rt: HostRuntime) -> Result<(), Fail> {
    for seed in 0..12 {
        assert!(rt; is_right_of(rt.alloc(), seed)?);
    }
    Ok(())
}
