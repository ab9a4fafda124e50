//! How a command ends: with an answer, or with why there is none.
ghost use Rattle.std.specs.Prelude.{◌≡◌};
ghost use Rattle.sec_cli.specs.Endings.{refusal_of};
ghost use Rattle.sec_cli.specs.declared.ending.Refusal.TheVariants as refusals;

use batch_run::Unanswered;
use corr_certificate::CertFault;
use pair_files::Unpaired;
use refine_board::Journal;
use std::alloc::AllocError;
use trace_witness::{TraceError, TraceFault};

/// What a command answers.
#[derive(Drop)]
pub struct Reply {
    pub status: u8,
    /// The text that is printed.
    pub text: Vec<u8>,
    /// What is stored on request: the trace in it, where the verdict is a difference, or the certificate of an equivalence.
    pub file: Vec<u8>,
    /// The journal of the refinement, where the verdict comes from one.
    pub journal: Option<Journal>,
}

/// Why a run answers nothing.
#[derive(Drop)]
pub enum Refusal {
    /// There was no memory.
    Memory,
    /// There is no pair of the two files.
    Unpaired(Unpaired),
    /// The trace or certificate couldn't be loaded.
    ThirdFailed,
    /// Its file is too long.
    ThirdTooLong,
    /// The trace has this first fault.
    TraceRefused(TraceFault),
    /// The certificate has this first fault.
    CertRefused(CertFault),
    /// There are no answers of a list's pairs.
    Unanswered(Unanswered),
}

impl From<AllocError> for Refusal {
    ghost from_gives = { λ _ r. r ≡ refusals.Memory };

    fn from(_: AllocError) -> Refusal {
        Refusal::Memory
    }
}

impl From<Unpaired> for Refusal {
    ghost from_gives = { λ u r. r ≡ refusals.Unpaired u };

    fn from(unpaired: Unpaired) -> Refusal {
        Refusal::Unpaired(unpaired)
    }
}

impl From<Unanswered> for Refusal {
    ghost from_gives = { λ u r. r ≡ refusals.Unanswered u };

    fn from(unanswered: Unanswered) -> Refusal {
        Refusal::Unanswered(unanswered)
    }
}

impl From<TraceError> for Refusal {
    ghost from_gives = { λ e r. r ≡ refusal_of e };

    fn from(error: TraceError) -> Refusal {
        match error {
            TraceError::Refused(fault) => Refusal::TraceRefused(fault),
            TraceError::Memory => Refusal::Memory,
        }
    }
}
