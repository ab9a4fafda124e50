//! What earlier runs leave to one: a climb from k frames to k + 1 goes on with it.
ghost use Rattle.std.specs.Prelude.{◌≡◌, None};

use verdict_stamp::{Known, ProverMemory};

/// What is known of a pair of netlists before a run, and after it.
#[derive(Drop)]
pub struct Earlier<'p> {
    /// The classes of the greatest correspondence for as many frames as the run's or fewer, where they are known.
    pub known: Option<Known<'p>>,
    /// What proofs for as many frames as the run's leave to others, where there were some.
    pub memory: Option<ProverMemory<'p>>,
}

impl<'p> Earlier<'p> {
    /// Nothing.
    pub fn nothing() -> Earlier<'p>
        ensures { result ≡ record { known = None; memory = None } }
    {
        Earlier {
            known: None,
            memory: None,
        }
    }
}
