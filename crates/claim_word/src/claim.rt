//! What a claim is answered.

/// The answer of a claim.
#[derive(Clone, Copy, Debug, PartialEq, Eq)]
pub enum Claim {
    /// The pair of this version with this index, which is this seat's alone.
    Mine(u32, u32),
    /// Each pair of this version was claimed.
    Spent(u32),
    /// The word was read as the first, and found as the second when it was to be counted up.
    Moved(u64, u64),
}
