//! On how many decision levels the literals of a learned clause stand: its literal block distance (Audemard and Simon, IJCAI
//! 2009). Clauses that spread over few levels imply again soon, so they stay watched, and a search whose clauses come to spread
//! further restarts. No fact rests on it.

/// The number of levels of a learned clause. Its last literal stands on the level of the conflict, and the others come down the
/// trail, as analysis leaves them. A level begins at each place of `starts`, and `at` has one past the place of each variable,
/// counted from 0.
pub fn spread_of(starts: &[usize], at: &[usize], learned: &[u32]) -> u32 {
    let mut spread: u32 = 1;
    let mut level = starts.len();
    for i in 1..learned.len() {
        let lower = level_down(starts, level, end_of(at, learned[i - 1]));
        if lower != level {
            spread = spread.saturating_add(1);
        }
        level = lower;
    }
    spread
}

// One past the place of a literal's variable.
fn end_of(at: &[usize], lit: u32) -> usize {
    let var = lit as usize / 2;
    if var < at.len() { at[var] } else { 0 }
}

// The level of what stands before a place, counted down from this level.
fn level_down(starts: &[usize], from: usize, end: usize) -> usize {
    for level in (0..from).rev() {
        if level < starts.len() && starts[level] < end {
            return level + 1;
        }
    }
    0
}
