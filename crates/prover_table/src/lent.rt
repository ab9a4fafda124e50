//! What a run lends its workers, and they read without the lock.
ghost use Rattle.std.specs.Prelude.{◌≡◌, IfSome};
ghost use Rattle.std.proofs.Props.{props};
ghost use Rattle.prover_table.specs.Tables.{IsKnownFor};

use refine_board::Run;
use std::marker::PhantomData;
use verdict_stamp::{Known, Versions};

/// What stays as it is for the whole of a run.
#[derive(Drop)]
pub struct Lent<'v, 'p, L: Run> {
    /// The published versions.
    pub versions: &'v Versions<'p>,
    /// The classes of a smaller k, where the run goes on from one: what they pair passes unasked.
    pub known: Option<&'v Known<'p>>,
    /// How many places the pair of netlists has.
    pub places: u32,
    /// How many workers the run has.
    pub workers: u32,
    of: PhantomData<L>,
    ghost list: { versions.now ≡ L.list },
    ghost earlier: { IfSome known (λ n. IsKnownFor L.pair L.k n.now) } by { Prim.hlevel props },
}

impl<'v, 'p, L: Run> Lent<'v, 'p, L> {
    /// These, of the run that `L` names.
    pub fn new(
        versions: &'v Versions<'p>,
        known: Option<&'v Known<'p>>,
        places: u32,
        workers: u32,
    ) -> Lent<'v, 'p, L>
        requires list { versions.now ≡ L.list }
        requires earlier { IfSome known (λ n. IsKnownFor L.pair L.k n.now) }
    {
        Lent {
            versions,
            known,
            places,
            workers,
            of: PhantomData,
        }
    }
}
