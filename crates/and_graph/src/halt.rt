//! Why a question has no answer yet.
ghost use Rattle.std.specs.Prelude.{◌≡◌};
ghost use Rattle.and_graph.specs.declared.halt.Halt.TheVariants.{Memory};

use std::alloc::AllocError;

/// Why a question that may be put aside has no answer.
#[derive(Clone, Copy, PartialEq, Eq, Debug)]
pub enum Halt {
    /// Memory ran out.
    Memory,
    /// The question is put aside in the asker, which is to solve it; then it is asked again.
    Posed,
}

impl From<AllocError> for Halt {
    ghost from_gives = { λ _ e. e ≡ Memory };

    fn from(_error: AllocError) -> Halt {
        Halt::Memory
    }
}
