//! Why there is no netlist of a file, or no pair of two.
ghost use Rattle.std.specs.Prelude.{◌≡◌};
ghost use Rattle.pair_files.specs.declared.fault.Unpaired.TheVariants as unpaired;
ghost use Rattle.pair_files.specs.Files.{unread_by, unread_of};
ghost use Rattle.pair_files.specs.Pairs.{unpaired_by};

use crate::loading::LONGEST_NETLIST;
use aiger_codec::{NetError, NetFault, NetKind};
use product_machine::PairFault;
use sec_base::LoadFault;
use std::alloc::AllocFailed;

/// One of the two netlists' files.
#[derive(Clone, Copy, Debug, PartialEq, Eq)]
pub enum Side {
    Left,
    Right,
}

/// Why there is no netlist of a file.
#[derive(Clone, Copy, Debug, PartialEq, Eq)]
pub enum Unread {
    /// The shelf failed.
    Failed,
    /// The file is too long, or has this first fault.
    Refused(NetFault),
    /// There was no memory.
    Memory,
}

/// Why there is no pair of two files.
#[derive(Clone, Copy, Debug, PartialEq, Eq)]
pub enum Unpaired {
    /// There was no memory.
    Memory,
    /// This file couldn't be loaded.
    LoadFailed(Side),
    /// This file is too long, or has this first fault.
    Refused(Side, NetFault),
    /// The numbers of inputs differ.
    InputsDiffer(u32, u32),
    /// The numbers of outputs differ.
    OutputsDiffer(u32, u32),
    /// The numbers of free latches differ, where these are tied.
    FreeDiffer(u32, u32),
}

impl From<LoadFault> for Unread {
    ghost from_gives = { λ f u. u ≡ unread_by f };

    fn from(fault: LoadFault) -> Unread {
        match fault {
            LoadFault::Failed => Unread::Failed,
            LoadFault::TooLong => Unread::Refused(NetFault {
                kind: NetKind::Limit,
                at: LONGEST_NETLIST,
            }),
            LoadFault::Memory => Unread::Memory,
        }
    }
}

impl From<NetError> for Unread {
    ghost from_gives = { λ e u. u ≡ unread_of e };

    fn from(error: NetError) -> Unread {
        match error {
            NetError::Refused(fault) => Unread::Refused(fault),
            NetError::Memory => Unread::Memory,
        }
    }
}

impl<T: Drop> From<AllocFailed<T>> for Unpaired {
    ghost from_gives = { λ _ u. u ≡ unpaired.Memory };

    fn from(_: AllocFailed<T>) -> Unpaired {
        Unpaired::Memory
    }
}

impl From<PairFault> for Unpaired {
    ghost from_gives = { λ f u. u ≡ unpaired_by f };

    fn from(fault: PairFault) -> Unpaired {
        match fault {
            PairFault::Inputs(a, b) => Unpaired::InputsDiffer(a, b),
            PairFault::Outputs(a, b) => Unpaired::OutputsDiffer(a, b),
            PairFault::Free(a, b) => Unpaired::FreeDiffer(a, b),
            PairFault::Memory => Unpaired::Memory,
        }
    }
}
