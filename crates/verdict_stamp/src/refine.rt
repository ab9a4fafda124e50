//! Partition refinement by rounds, on one thread: each needed pair of a version is proved, and its copy is split by every
//! vector that is found; where none splits, the classes are those of the greatest correspondence.
ghost use Rattle.std.specs.Prelude.{◌≡◌, ◌<◌, ◌≤◌, ◌+◌, ℕ, IfOk, OnOk};
ghost use Rattle.circ_model.specs.Meaning.{places_of};
ghost use Rattle.class_partition.specs.Classes.{AreOfGreatest, IsNeeded, Passes, class_count, least_of};

use crate::prover::{Proof, Prover};
use crate::version::Version;
use class_partition::Needed;
use product_machine::Product;
use std::alloc::{AllocError, Global};

// Proves a needed pair of the prover's version, and splits the copy where that fails. Answers how many classes that adds.
fn prove_pair(
    alloc: Global,
    prover: &mut Prover<'_, '_>,
    pair: Needed,
    next: &mut Version<'_>,
) -> Result<u32, AllocError>
    requires needed { IsNeeded (places_of prover.old.pair) prover.old.classes pair.member }
    requires rep { pair.rep ≡ least_of prover.old.classes pair.member }
    requires product { next.old.pair ≡ prover.old.pair }
    requires k { next.old.k ≡ prover.old.k }
    ensures kept { prover.new ≡ prover.old }
    ensures product { next.new.pair ≡ prover.old.pair }
    ensures k { next.new.k ≡ prover.old.k }
    ensures count { IfOk result (λ added. class_count (places_of prover.old.pair) next.new.classes ≡ class_count (places_of prover.old.pair) next.old.classes + added) }
    ensures none { IfOk result (λ added. added ≡ 0 → next.old.classes ≡ prover.old.classes
        → (next.new.classes ≡ prover.old.classes) × Passes prover.old.pair prover.old.k prover.old.classes pair.member) }
{
    match prover.prove(alloc, pair)? {
        Proof::Holds(_) => Ok(0),
        Proof::Splits(vector) => Ok(next.split_by(&vector)),
    }
}

// Proves a place's needed pair, unless it has none or the copy has it apart.
fn prove_place(
    alloc: Global,
    prover: &mut Prover<'_, '_>,
    member: u32,
    next: &mut Version<'_>,
) -> Result<u32, AllocError>
    requires place { member < places_of prover.old.pair }
    requires product { next.old.pair ≡ prover.old.pair }
    requires k { next.old.k ≡ prover.old.k }
    ensures kept { prover.new ≡ prover.old }
    ensures product { next.new.pair ≡ prover.old.pair }
    ensures k { next.new.k ≡ prover.old.k }
    ensures count { IfOk result (λ added. class_count (places_of prover.old.pair) next.new.classes ≡ class_count (places_of prover.old.pair) next.old.classes + added) }
    ensures none { IfOk result (λ added. added ≡ 0 → next.old.classes ≡ prover.old.classes
        → (next.new.classes ≡ prover.old.classes) × Passes prover.old.pair prover.old.k prover.old.classes member) }
{
    let rep = prover.version().classes().rep(member);
    if rep == member {
        return Ok(0);
    }
    if !next.classes().same(rep, member) {
        return Ok(0);
    }
    prove_pair(alloc, prover, Needed { rep, member }, next)
}

// Proves all needed pairs of the prover's version, and splits its copy. Answers how many classes that adds.
fn prove_all(
    alloc: Global,
    prover: &mut Prover<'_, '_>,
    next: &mut Version<'_>,
) -> Result<u32, AllocError>
    requires copy { next.old ≡ prover.old }
    ensures product { next.new.pair ≡ prover.old.pair }
    ensures k { next.new.k ≡ prover.old.k }
    ensures count { IfOk result (λ added. class_count (places_of prover.old.pair) next.new.classes ≡ class_count (places_of prover.old.pair) prover.old.classes + added) }
    ensures none { IfOk result (λ added. added ≡ 0 → AreOfGreatest prover.old.pair prover.old.k next.new.classes) }
{
    let n = next.product().len();
    let mut added: u32 = 0;
    for member in 0..n {
        added += prove_place(alloc, prover, member, next)?;
    }
    Ok(added)
}

// A round: the same of a version that is lent. Answers the copy, and how many classes it has more.
fn round<'p>(alloc: Global, version: &Version<'p>) -> Result<(Version<'p>, u32), AllocError>
    ensures product { IfOk result (λ r. r.0.pair ≡ version.now.pair) }
    ensures k { IfOk result (λ r. r.0.k ≡ version.now.k) }
    ensures count { IfOk result (λ r. class_count (places_of version.now.pair) r.0.classes ≡ class_count (places_of version.now.pair) version.now.classes + r.1) }
    ensures none { IfOk result (λ r. r.1 ≡ 0 → AreOfGreatest version.now.pair version.now.k r.0.classes) }
{
    let mut next = version.copy(alloc)?;
    let mut prover = Prover::new(alloc, version)?;
    let added = prove_all(alloc, &mut prover, &mut next);
    drop(prover);
    Ok((next, added?))
}

/// The classes of the greatest correspondence for induction over k frames.
pub fn greatest_classes<'p>(
    alloc: Global,
    product: &'p Product,
    k: u32,
) -> Result<Version<'p>, AllocError>
    requires some { 0 < k }
    requires few { k ≤ 16 }
    ensures product { IfOk result (λ v. v.pair ≡ product.entry.now) }
    ensures k { IfOk result (λ v. v.k ≡ k) }
    ensures greatest { IfOk result (λ v. AreOfGreatest v.pair v.k v.classes) }
{
    let mut version = Version::opening(alloc, product, k)?;
    loop {
        let (next, added) = round(alloc, &version)?;
        version = next;
        if added == 0 {
            return Ok(version);
        }
    }
}
