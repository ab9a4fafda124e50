//! Why a netlist is refused.
ghost use Rattle.std.specs.Prelude.{◌≡◌};
ghost use Rattle.aig_graph.specs.declared.fault.BuildFault.TheVariants.{Memory};

use std::alloc::{AllocError, AllocFailed};

/// Why a builder refuses. The first three are refusals of one call, the next two of the whole, each in the order of the checks.
#[derive(Debug, Drop)]
pub enum BuildFault {
    /// The variable is 0 or past the greatest, or a literal is past the greatest variable's.
    Literal,
    /// The variable is defined already.
    Redefined,
    /// A reset that is not 0, 1 or the latch's own literal.
    Reset,
    /// The least variable that is used and has no definition.
    Undefined(u32),
    /// The gates have no levels: some wait for each other.
    Cyclic,
    /// Memory ran out.
    Memory,
}

impl From<AllocError> for BuildFault {
    ghost from_gives = { λ _ e. e ≡ Memory };

    fn from(_e: AllocError) -> BuildFault {
        BuildFault::Memory
    }
}

impl<T: Drop> From<AllocFailed<T>> for BuildFault {
    ghost from_gives = { λ _ e. e ≡ Memory };

    fn from(_e: AllocFailed<T>) -> BuildFault {
        BuildFault::Memory
    }
}
