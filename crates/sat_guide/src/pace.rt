//! When to restart: where the clauses that were learned of late spread over more levels than those of the whole search (Audemard
//! and Simon, CP 2012), both as exponential moving averages (Biere and Fröhlich, POS 2015). No fact rests on it.

/// How many conflicts there are at least between two restarts.
const LEAST: u32 = 10;

/// Over how many conflicts the two averages go.
const LATE: u64 = 32;

const WHOLE: u64 = 4096;

/// An average moves by one part in so many, and in fewer at first. It has 20 binary digits after the point.
#[derive(Drop)]
struct Average {
    value: u64,
    parts: u64,
    most: u64,
}

impl Average {
    // Of nothing yet.
    fn over(most: u64) -> Average {
        Average {
            value: 0,
            parts: 1,
            most,
        }
    }

    // Takes in a number.
    fn note(&mut self, number: u32) {
        let next = (number as u64) << 20;
        let parts = self.parts.max(1);
        self.value = if next >= self.value {
            self.value.saturating_add((next - self.value) / parts)
        } else {
            self.value - (self.value - next) / parts
        };
        self.parts = parts.saturating_add(1).min(self.most);
    }
}

/// The averages, and the conflicts since the last restart.
#[derive(Drop)]
pub struct Pace {
    late: Average,
    whole: Average,
    conflicts: u32,
}

impl Pace {
    /// Before the first conflict.
    pub fn new() -> Pace {
        Pace {
            late: Average::over(LATE),
            whole: Average::over(WHOLE),
            conflicts: 0,
        }
    }

    /// Takes in a conflict whose clause stands on so many levels.
    pub fn note(&mut self, spread: u32) {
        self.late.note(spread);
        self.whole.note(spread);
        self.conflicts = self.conflicts.saturating_add(1);
    }

    /// Whether to restart: the average of late is above that of the whole by a ninth and more.
    pub fn is_due(&self) -> bool {
        self.conflicts >= LEAST && self.late.value / 10 > self.whole.value / 9
    }

    /// Begins to count anew, after a restart.
    pub fn rest(&mut self) {
        self.conflicts = 0;
    }
}
