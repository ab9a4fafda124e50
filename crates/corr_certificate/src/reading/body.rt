//! What follows the class lines: the parts of each needed pair in the order of the members, and the end.
ghost use Rattle.std.specs.Prelude.{◌≡◌, ◌≤◌, ◌<◌, ◌+◌, ◌^◌, ◌==◌, length, Bool, true, false, IfOk};
ghost use Rattle.std.specs.List.{range_with_len};
ghost use Rattle.circ_model.specs.Meaning.{IsSoundPair, places_of};
ghost use Rattle.plain_text.specs.Pieces.{pieces, last_of};
ghost use Rattle.frame_unroll.specs.Unrolled.{from_reset, after_classes};
ghost use Rattle.log_check.specs.FirstBad.{Decides};
ghost use Rattle.corr_certificate.specs.declared.fault.Checked.TheVariants.{No};
ghost use Rattle.corr_certificate.specs.Parts.{ReadsEnd, ReadsMembers};
ghost use Rattle.corr_certificate.specs.Certificate.{PairOutputs, ReadsBody};

use crate::fault::{CertFault, CertKind, Checked};
use crate::reading::Cursor;
use crate::reading::parts::{Asked, Claim, check_member};
use class_partition::Classes;
use frame_unroll::Unrolled;
use plain_text::next_piece;
use product_machine::Product;
use std::alloc::{AllocError, Global};

/// A fault as an answer.
pub fn no(kind: CertKind, line: u64) -> Checked
    ensures { result ≡ No (record { kind = kind; line = line }) }
{
    Checked::No(CertFault { kind, line })
}

// Whether the classes pair all outputs.
fn pair_outputs(product: &Product, classes: &Classes) -> bool
    requires sound { IsSoundPair product.now }
    requires places { length classes.now.least ≡ places_of product.now }
    ensures { Decides result (PairOutputs product.now classes.now) }
{
    for j in 0..product.outputs() {
        let (left, right) = product.output(j);
        if !classes.paired(left, right) {
            return false;
        }
    }
    true
}

// Reads the line `end`, which has this number.
fn read_end(bytes: &[u8], line: u64) -> Checked
    requires few { line + length bytes.now < 2 ^ 64 }
    ensures { ReadsEnd (length (last_of 10 bytes.now) == 0) result line (pieces 10 bytes.now) }
{
    let Some((text, rest)) = next_piece(bytes, b'\n') else {
        return no(CertKind::Truncated, line);
    };
    if text != b"end".as_slice() {
        return no(CertKind::Line, line);
    }
    if next_piece(rest, b'\n').is_some() || rest.len() > 0 {
        return no(CertKind::Line, line + 1);
    }
    Checked::Yes
}

// Reads the parts of all members, and the end. The frames are made once; each part swaps the question.
fn read_members(alloc: Global, claim: &Claim<'_>, at: Cursor<'_>) -> Result<Checked, AllocError>
    requires depth { 1 ≤ claim.now.k }
    requires deep { claim.now.k ≤ 16 }
    requires places { length claim.now.classes.now.least ≡ places_of claim.now.product.now }
    requires few { at.line + length at.rest.now < 2 ^ 64 }
    ensures { IfOk result (λ r. ReadsMembers claim.now.product.now claim.now.k claim.now.classes.now (length (last_of 10 at.entry.rest.now) == 0) r (range_with_len 0 (places_of claim.now.product.now)) at.entry.line (pieces 10 at.entry.rest.now)) }
{
    let mut frames = Asked {
        base: Unrolled::reset_frames(alloc, claim.product, claim.k)?,
        step: Unrolled::step_frames(alloc, claim.product, claim.k, claim.classes)?,
    };
    read_parts(alloc, claim, &mut frames, at)
}

// Reads the parts of all members, and the end, over these frames.
fn read_parts(
    alloc: Global,
    claim: &Claim<'_>,
    frames: &mut Asked<'_>,
    from: Cursor<'_>,
) -> Result<Checked, AllocError>
    requires depth { 1 ≤ claim.now.k }
    requires deep { claim.now.k ≤ 16 }
    requires places { length claim.now.classes.now.least ≡ places_of claim.now.product.now }
    requires base { frames.old.base ≡ from_reset claim.now.product.now claim.now.k }
    requires step { frames.old.step ≡ after_classes claim.now.product.now claim.now.k claim.now.classes.now }
    requires few { from.line + length from.rest.now < 2 ^ 64 }
    ensures { IfOk result (λ r. ReadsMembers claim.now.product.now claim.now.k claim.now.classes.now (length (last_of 10 from.entry.rest.now) == 0) r (range_with_len 0 (places_of claim.now.product.now)) from.entry.line (pieces 10 from.entry.rest.now)) }
{
    let mut at = from;
    for member in 0..claim.product.len() {
        if claim.classes.rep(member) == member {
            continue;
        }
        match check_member(alloc, claim, member, frames, at)? {
            Ok(next) => at = next,
            Err(fault) => return Ok(Checked::No(fault)),
        }
    }
    Ok(read_end(at.rest, at.line))
}

/// Reads what follows the class lines, from this line on.
pub fn read_body(
    alloc: Global,
    product: &Product,
    k: u32,
    classes: &Classes,
    bytes: &[u8],
    first: u64,
) -> Result<Checked, AllocError>
    requires depth { 1 ≤ k }
    requires deep { k ≤ 16 }
    requires places { length classes.now.least ≡ places_of product.now }
    requires few { first + length bytes.now < 2 ^ 64 }
    ensures { IfOk result (λ r. ReadsBody product.now k classes.now (length (last_of 10 bytes.now) == 0) r first (pieces 10 bytes.now)) }
{
    let _cells = product.cells();
    if next_piece(bytes, b'\n').is_none() {
        return Ok(no(CertKind::Truncated, first));
    }
    if !pair_outputs(product, classes) {
        return Ok(no(CertKind::Outputs, 1));
    }
    let claim = Claim {
        product,
        k,
        classes,
    };
    let at = Cursor {
        line: first,
        rest: bytes,
    };
    read_members(alloc, &claim, at)
}
