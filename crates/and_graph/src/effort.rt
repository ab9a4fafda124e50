//! How hard questions over cones were of late. Where those over large ones were easy, the next is answered at once: that takes less
//! time than to solve it without the graph, and what its refutation teaches is there for the others. Where those over whole cones were
//! hard, equal nodes are taken in too. And how much all of them took, so that one knows when something else is cheaper than the next.
//! No fact rests on it.
use sat_core::Answer;

/// The lines of the last refutations, those of late more.
#[derive(Drop)]
pub(crate) struct Effort {
    lines: u64,
}

impl Effort {
    /// Nothing was asked yet.
    pub fn new() -> Effort {
        Effort { lines: 0 }
    }

    /// Takes in an answer, of whose lines so many count at most: a quarter of what is kept is this one's.
    pub fn note(&mut self, answer: &Answer, most: u64) {
        if let Answer::Unsat(log) = answer {
            let kept = self.lines.saturating_sub(self.lines / 4);
            self.lines = kept.saturating_add(log.len().min(most) / 4);
        }
    }

    /// Whether refutations had so many lines and more.
    pub fn is_of(&self, lines: u64) -> bool {
        self.lines >= lines
    }
}

/// What questions took so far.
#[derive(Drop)]
pub(crate) struct Work {
    total: u64,
}

impl Work {
    /// Nothing was asked yet.
    pub fn new() -> Work {
        Work { total: 0 }
    }

    /// Takes in a question that was answered over so many nodes: these, and the lines of its refutation.
    pub fn note(&mut self, nodes: usize, answer: &Answer) {
        let mut took = nodes as u64;
        if let Answer::Unsat(log) = answer {
            took = took.saturating_add(log.len());
        }
        self.total = self.total.saturating_add(took);
    }

    /// All of it.
    pub fn total(&self) -> u64 {
        self.total
    }
}
