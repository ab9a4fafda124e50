//! How the pairs of a list are settled.
ghost use Rattle.std.specs.Prelude.{◌≡◌, ◌<◌, ◌≤◌};

/// By induction over so many frames, and by so many workers.
#[derive(Drop)]
pub struct Plan {
    /// The frames: 1 to 16.
    pub k: u32,
    /// The workers: 1 to 64.
    pub workers: u32,
    ghost some_frames: { 0 < k },
    ghost few_frames: { k ≤ 16 },
    ghost some_workers: { 0 < workers },
    ghost few_workers: { workers ≤ 64 },
}

impl Plan {
    /// So many of both.
    pub fn new(k: u32, workers: u32) -> Plan
        requires depth { (0 < k) × (k ≤ 16) }
        requires workers { (0 < workers) × (workers ≤ 64) }
        ensures k { result.k ≡ k }
        ensures workers { result.workers ≡ workers }
    {
        Plan { k, workers }
    }
}
