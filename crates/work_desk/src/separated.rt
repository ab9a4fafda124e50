//! A claimed pair that is answered by a vector.
ghost use Rattle.std.specs.Prelude.{◌≡◌, ◌<◌};
ghost use Rattle.refine_board.specs.Running.{IsOf};

use refine_board::{Claimed, Run};
use std::marker::Model;
use verdict_stamp::Vector;

/// A worker's claimed pair, and a vector of its run: one that separates it, or that of a row that waited when its version came.
#[derive(Drop)]
pub struct Separated<'p, L: Run> {
    pub(crate) claimed: Claimed<'p, L>,
    pub(crate) vector: Vector<'p>,
}

impl<'p, L: Run> Model for Separated<'p, L> {
    ghost use Rattle.std.specs.Prelude.{◌<◌};
    ghost use Rattle.refine_board.specs.Running.{Claiming, IsOf};

    ghost Value = { Claiming };

    ghost view = { λ f. f.claimed };

    ghost invariant = { λ f. IsOf L.pair L.k f.vector × (f.claimed.party < L.workers) };
}

impl<'p, L: Run> Separated<'p, L> {
    /// A claimed pair, and the vector that answers it.
    pub fn new(claimed: Claimed<'p, L>, vector: Vector<'p>) -> Separated<'p, L>
        requires own { IsOf L.pair L.k vector }
        requires party { claimed.party < L.workers }
        ensures { result ≡ claimed.entry }
    {
        Separated { claimed, vector }
    }

    /// The claimed pair, without the vector.
    pub fn into_claimed(self) -> Claimed<'p, L>
        ensures { result ≡ self.entry }
    {
        let Separated { claimed, .. } = self;
        claimed
    }
}
