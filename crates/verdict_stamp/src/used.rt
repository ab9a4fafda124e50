//! What a verdict rests on.
use std::alloc::{AllocError, Global};
use used_pairs::PairList;

/// What a verdict rests on, and so how long it counts while classes split.
#[derive(Drop)]
pub enum Used {
    /// All needed pairs of its version.
    Version,
    /// These pairs of places alone: it counts as long as the two places of each stand together.
    Pairs(PairList),
    /// That the pair is one of the greatest correspondence for induction over so many frames, at most as many as the
    /// version's. It passes as long as it is needed.
    Known(u32),
}
