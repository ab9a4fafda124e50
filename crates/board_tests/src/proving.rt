//! One proof by a prover of its own, which is let go at once.
ghost use Rattle.std.specs.Prelude.{◌≡◌, IfOk};
ghost use Rattle.circ_model.specs.Meaning.{places_of};
ghost use Rattle.class_partition.specs.Classes.{IsNeeded, least_of};
ghost use Rattle.verdict_stamp.specs.Proofs.{IsProof};

use class_partition::Needed;
use std::alloc::{AllocError, Global};
use verdict_stamp::{Proof, Prover, Version};

// What comes of a needed pair of a version.
pub(crate) fn proof_of<'v, 'p>(
    alloc: Global,
    version: &'v Version<'p>,
    pair: Needed,
) -> Result<Proof<'v, 'p>, AllocError>
    requires needed { IsNeeded (places_of version.now.pair) version.now.classes pair.member }
    requires rep { pair.rep ≡ least_of version.now.classes pair.member }
    ensures { IfOk result (IsProof version.entry.now pair.member) }
{
    let mut prover = Prover::new(alloc, version)?;
    let proof = prover.prove(alloc, pair);
    drop(prover);
    proof
}
