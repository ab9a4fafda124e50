//! The answer of `verify`: whether a stored certificate supports a pair.
ghost use Rattle.std.specs.Prelude.{◌≡◌, ◌≤◌, ◌<◌, ◌^◌, ℕ, List, [], ◌∷◌, ◌++◌, None, IsTrue, IfOk, length};
ghost use Rattle.sec_base.specs.Faults.{Rose, appended};
ghost use Rattle.sec_cli.specs.Texts.{verified_line};
ghost use Rattle.sec_cli.specs.Endings.{IsVerified, IsVerifiedAs, IsOfPair, IsLoadEnding, failed_third};

use crate::ending::{Refusal, Reply};
use crate::third::load_third;
use corr_certificate::{Checked, verify};
use product_machine::Product;
use sec_base::Shelf;
use std::alloc::{AllocError, Global};

// The answer where there is no fault.
fn verified(alloc: Global) -> Result<Reply, AllocError>
    ensures { IfOk result (λ a. (a.status ≡ 0) × (a.text.items ≡ verified_line) × (a.journal ≡ None)) }
{
    let text = Vec::from_slice(alloc, b"verified\n".as_slice())?;
    Ok(Reply {
        status: 0,
        text,
        file: Vec::new(alloc),
        journal: None,
    })
}

// What the bytes of a certificate show.
fn verify_bytes(alloc: Global, product: &Product, bytes: &[u8]) -> Result<Reply, Refusal>
    ensures verified { IsVerifiedAs product.now bytes.now result }
    ensures status { IfOk result (λ a. a.status ≤ 2) }
    ensures journal { IfOk result (λ a. a.journal ≡ None) }
    ensures no_pair { IsOfPair result }
    ensures loaded { IsLoadEnding result → ⊥ }
{
    match verify(alloc, product, bytes)? {
        Checked::Yes => Ok(verified(alloc)?),
        Checked::No(fault) => Err(Refusal::CertRefused(fault)),
    }
}

/// How the reading of a certificate's file for a pair ends.
pub(crate) fn verify_file<S: Shelf>(
    alloc: Global,
    shelf: &mut S,
    product: &Product,
    name: &str,
) -> Result<Reply, Refusal>
    ensures verified { IsTrue S.tells → IsVerified product.now (S.file shelf.old name.now) result }
    ensures status { IfOk result (λ a. a.status ≤ 2) }
    ensures journal { IfOk result (λ a. a.journal ≡ None) }
    ensures failed { IsLoadEnding result → Rose (S.load_faults shelf.old) (S.load_faults shelf.new) }
    ensures no_pair { IsOfPair result }
    ensures files { S.file shelf.new ≡ S.file shelf.old }
    ensures names { S.failed shelf.new ≡ appended (S.failed shelf.old) (failed_third name.now result) }
    ensures load_count { S.load_faults shelf.old ≤ S.load_faults shelf.new }
    ensures store_count { S.store_faults shelf.new ≡ S.store_faults shelf.old }
{
    let bytes = load_third(alloc, shelf, name)?;
    verify_bytes(alloc, product, bytes.as_slice())
}
