//! What a pair comes to.
use std::marker::Model;

/// Numbers of outputs. Contracts see them as a list.
#[derive(Drop)]
pub struct Outputs {
    numbers: Vec<u32>,
}

impl Model for Outputs {
    ghost use Rattle.std.specs.Prelude.{ℕ, List};

    ghost Value = { List ℕ };

    ghost view = { λ o. o.numbers.items };
}

impl Outputs {
    ghost use Rattle.std.specs.Prelude.{◌≡◌};

    // These numbers.
    pub(crate) fn new(numbers: Vec<u32>) -> Outputs
        ensures { result ≡ numbers.items }
    {
        Outputs { numbers }
    }

    /// The numbers, in their order.
    pub fn as_slice(&self) -> &[u32]
        ensures { result.now ≡ self.now }
    {
        self.numbers.as_slice()
    }
}

/// The verdict of a pair.
#[derive(Drop)]
pub enum Outcome {
    /// Some run has unequal outputs: the least such frame, and the least such output in it.
    Different(u64, u32),
    /// All outputs are paired; and the number of classes.
    Equivalent(u32),
    /// Neither is shown: the number of classes, and the outputs that aren't paired, rising.
    Undecided(u32, Outputs),
}
