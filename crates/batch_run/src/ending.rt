//! Why a batch answers nothing.
ghost use Rattle.std.specs.Prelude.{◌≡◌};
ghost use Rattle.batch_run.specs.Endings.{unanswered_by, unanswered_of};
ghost use Rattle.batch_run.specs.declared.ending.Unanswered.TheVariants as unanswered;

use pair_files::Side;
use pair_list::{ListError, ListFault, Names};
use sec_base::LoadFault;
use std::alloc::AllocError;

/// Why a batch answers nothing.
#[derive(Debug, Drop)]
pub enum Unanswered {
    /// There was no memory.
    Memory,
    /// The list couldn't be loaded.
    ListFailed,
    /// The list is too long.
    ListTooLong,
    /// The list has this first fault.
    ListRefused(ListFault),
    /// This file of these two couldn't be loaded.
    FileFailed(Names, Side),
}

impl From<AllocError> for Unanswered {
    ghost from_gives = { λ _ u. u ≡ unanswered.Memory };

    fn from(_: AllocError) -> Unanswered {
        Unanswered::Memory
    }
}

impl From<LoadFault> for Unanswered {
    ghost from_gives = { λ f u. u ≡ unanswered_by f };

    fn from(fault: LoadFault) -> Unanswered {
        match fault {
            LoadFault::Failed => Unanswered::ListFailed,
            LoadFault::TooLong => Unanswered::ListTooLong,
            LoadFault::Memory => Unanswered::Memory,
        }
    }
}

impl From<ListError> for Unanswered {
    ghost from_gives = { λ e u. u ≡ unanswered_of e };

    fn from(error: ListError) -> Unanswered {
        match error {
            ListError::Refused(fault) => Unanswered::ListRefused(fault),
            ListError::Memory => Unanswered::Memory,
        }
    }
}
