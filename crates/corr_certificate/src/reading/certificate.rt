//! The whole of a certificate.
ghost use Rattle.std.specs.Prelude.{◌≡◌, ◌≤◌, ◌<◌, ◌+◌, ◌^◌, ◌==◌, ℕ, length, IfOk};
ghost use Rattle.circ_model.specs.Meaning.{outputs_of, places_of};
ghost use Rattle.circ_model.specs.Laws.{AgreeForEver};
ghost use Rattle.plain_text.specs.Pieces.{pieces, last_of};
ghost use Rattle.corr_certificate.specs.declared.fault.Checked.TheVariants.{Yes};
ghost use Rattle.corr_certificate.specs.ClassLines.{none_joined, classes_from};
ghost use Rattle.corr_certificate.specs.Certificate.{AfterClasses, IsChecked};

use crate::fault::{CertKind, Checked};
use crate::reading::body::{no, read_body};
use crate::reading::class_lines::Joining;
use crate::reading::head::read_head;
use plain_text::next_piece;
use product_machine::Product;
use std::alloc::{AllocError, Global};

// Reads the class lines, of which the first is line 2, and what follows them.
fn read_classes(
    alloc: Global,
    product: &Product,
    k: u32,
    bytes: &[u8],
) -> Result<Checked, AllocError>
    requires depth { 1 ≤ k }
    requires deep { k ≤ 16 }
    requires few { 2 + length bytes.now < 2 ^ 64 }
    ensures { IfOk result (λ r. AfterClasses product.now k (length (last_of 10 bytes.now) == 0) r (classes_from product.now (none_joined (places_of product.now)) 2 (pieces 10 bytes.now))) }
{
    let mut joining = Joining::none(alloc, product.len())?;
    match joining.read_lines(product, bytes, 2) {
        Err(fault) => Ok(Checked::No(fault)),
        Ok(at) => {
            let classes = joining.into_classes();
            read_body(alloc, product, k, &classes, at.rest, at.line)
        }
    }
}

// Line by line.
fn read_lines(alloc: Global, product: &Product, bytes: &[u8]) -> Result<Checked, AllocError>
    ensures { IfOk result (IsChecked product.now bytes.now) }
{
    let Some((line, rest)) = next_piece(bytes, b'\n') else {
        return Ok(no(CertKind::Truncated, 1));
    };
    let Some(head) = read_head(line) else {
        return Ok(no(CertKind::Line, 1));
    };
    if !(1 <= head.k && head.k <= 16) {
        return Ok(no(CertKind::Limit, 1));
    }
    if head.signals != product.len() {
        return Ok(no(CertKind::Signals, 1));
    }
    if head.tied != product.is_tied() {
        return Ok(no(CertKind::Tie, 1));
    }
    read_classes(alloc, product, head.k, rest)
}

/// Whether bytes are a certificate that supports the pair, else their first fault. `Yes` means that the outputs agree in
/// every frame of every run. Each line is read once, and a log line costs the literals of the clauses that it names.
pub fn verify(alloc: Global, product: &Product, bytes: &[u8]) -> Result<Checked, AllocError>
    ensures fault { IfOk result (IsChecked product.now bytes.now) }
    ensures agrees { IfOk result (λ r. r ≡ Yes → (j : ℕ) → j < outputs_of product.now → AgreeForEver product.now j) }
{
    let _cells = product.cells();
    read_lines(alloc, product, bytes)
}
