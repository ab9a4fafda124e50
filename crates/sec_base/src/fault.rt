//! What can go wrong. `Failed` is a fault of the device, which counts it; `Memory` is want of memory.
ghost use Rattle.std.specs.Prelude.{◌≡◌};
ghost use Rattle.sec_base.specs.declared.fault.LoadFault.TheVariants as load;
ghost use Rattle.sec_base.specs.declared.fault.StoreFault.TheVariants as store;

use std::alloc::{AllocError, AllocFailed};

/// A device failed.
#[derive(Clone, Copy, Debug, PartialEq, Eq)]
pub struct Failed;

/// There was no memory.
#[derive(Clone, Copy, Debug, PartialEq, Eq)]
pub struct Memory;

/// Why a file wasn't loaded.
#[derive(Clone, Copy, Debug, PartialEq, Eq)]
pub enum LoadFault {
    /// The shelf failed, or has no file of that name.
    Failed,
    /// The file is longer than the limit.
    TooLong,
    /// There was no memory.
    Memory,
}

/// Why a file wasn't stored.
#[derive(Clone, Copy, Debug, PartialEq, Eq)]
pub enum StoreFault {
    /// The shelf failed.
    Failed,
    /// There was no memory.
    Memory,
}

impl From<AllocError> for Memory {
    fn from(_: AllocError) -> Self {
        Memory
    }
}

impl<T: Drop> From<AllocFailed<T>> for Memory {
    fn from(_: AllocFailed<T>) -> Self {
        Memory
    }
}

impl From<AllocError> for LoadFault {
    ghost from_gives = { λ _ e. e ≡ load.Memory };

    fn from(_: AllocError) -> Self {
        LoadFault::Memory
    }
}

impl<T: Drop> From<AllocFailed<T>> for LoadFault {
    ghost from_gives = { λ _ e. e ≡ load.Memory };

    fn from(_: AllocFailed<T>) -> Self {
        LoadFault::Memory
    }
}

impl From<AllocError> for StoreFault {
    ghost from_gives = { λ _ e. e ≡ store.Memory };

    fn from(_: AllocError) -> Self {
        StoreFault::Memory
    }
}

impl<T: Drop> From<AllocFailed<T>> for StoreFault {
    ghost from_gives = { λ _ e. e ≡ store.Memory };

    fn from(_: AllocFailed<T>) -> Self {
        StoreFault::Memory
    }
}
