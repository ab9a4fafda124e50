//! The parts of a needed pair: the line that begins a part, its log, and whether that is accepted.
ghost use Rattle.std.specs.Prelude.{◌≡◌, ◌≤◌, ◌<◌, ◌+◌, ◌^◌, [], length, IfOk, IfErr, None};
ghost use Rattle.circ_model.specs.Meaning.{places_of};
ghost use Rattle.circ_model.specs.Correspondence.{IsLiteral};
ghost use Rattle.class_partition.specs.Classes.{needed};
ghost use Rattle.plain_text.specs.Pieces.{pieces, last_of};
ghost use Rattle.frame_unroll.specs.Unrolled.{from_reset, after_classes, formula_of, asks, asking};
ghost use Rattle.corr_certificate.specs.Parts.{begins, IsOn, IsFault, IsMemberOn, IsMemberFault};

use crate::fault::{CertFault, CertKind};
use crate::reading::Cursor;
use crate::reading::names::{named, strip};
use circ_model::Lit;
use class_partition::Classes;
use cnf_store::Cnf;
use frame_unroll::Unrolled;
use log_check::first_bad;
use plain_text::next_piece;
use product_machine::Product;
use sat_log::{Log, Stop, read_part};
use std::alloc::{AllocError, Global};

/// What a certificate claims: that the classes are a signal correspondence by induction over k frames.
#[derive(Drop)]
pub struct Claim<'p> {
    pub product: &'p Product,
    pub k: u32,
    pub classes: &'p Classes,
}

/// The frames of the questions about a needed pair: k from reset, and k + 1 in all but the last of which the classes hold.
#[derive(Drop)]
pub struct Asked<'p> {
    pub base: Unrolled<'p>,
    pub step: Unrolled<'p>,
}

// A part that is to be read: the keyword of its line, its member, and what its log refutes: that two literals differ in some of the
// frames from the first to the last.
#[derive(Drop)]
struct Part<'k> {
    keyword: &'k [u8],
    member: u32,
    a: Lit,
    b: Lit,
    first: u32,
    last: u32,
}

// A fault.
fn fault(kind: CertKind, line: u64) -> CertFault
    ensures { result ≡ record { kind = kind; line = line } }
{
    CertFault { kind, line }
}

// Whether a line begins the part of this member; none where it begins no such part.
fn begins(product: &Product, keyword: &[u8], member: u32, line: &[u8]) -> Option<bool>
    ensures { result ≡ begins product.now keyword.now member line.now }
{
    let name = strip(keyword, line)?;
    Some(named(product, name)? == member)
}

// Reads one part from this line on, its log into one that is empty: it is accepted, and reading goes on at a line with the
// bytes from there on; or it has a fault.
fn read_log_of<'a>(
    alloc: Global,
    product: &Product,
    part: &Part<'_>,
    formula: &Cnf,
    at: Cursor<'a>,
    log: &mut Log,
) -> Result<Result<Cursor<'a>, CertFault>, AllocError>
    requires few { at.line + length at.rest.now < 2 ^ 64 }
    requires empty { log.old ≡ [] }
    ensures on { IfOk result (λ o. IfOk o (λ r. IsOn product.now part.now.keyword.now part.now.member formula.now at.entry.line (pieces 10 at.entry.rest.now) r.line (pieces 10 r.rest.now))) }
    ensures last { IfOk result (λ o. IfOk o (λ r. last_of 10 r.rest.now ≡ last_of 10 at.entry.rest.now)) }
    ensures lines { IfOk result (λ o. IfOk o (λ r. r.line + length r.rest.now ≤ at.entry.line + length at.entry.rest.now)) }
    ensures fault { IfOk result (λ o. IfErr o (λ f. IsFault product.now part.now.keyword.now part.now.member formula.now at.entry.line (pieces 10 at.entry.rest.now) f.kind f.line)) }
{
    let Some((line, rest)) = next_piece(at.rest, b'\n') else {
        return Ok(Err(fault(CertKind::Truncated, at.line)));
    };
    match begins(product, part.keyword, part.member, line) {
        None => return Ok(Err(fault(CertKind::Line, at.line))),
        Some(false) => return Ok(Err(fault(CertKind::Order, at.line))),
        Some(true) => {}
    }
    let end = read_part(alloc, rest, at.line + 1, log)?;
    match end.stop {
        Stop::Cut => return Ok(Err(fault(CertKind::Truncated, end.line))),
        Stop::Wrong => return Ok(Err(fault(CertKind::Line, end.line))),
        Stop::Ends => {}
    }
    match first_bad(alloc, formula, log)? {
        None => Ok(Ok(Cursor {
            line: end.line,
            rest: end.rest,
        })),
        Some(bad) => Ok(Err(fault(CertKind::Derivation, at.line + 1 + bad))),
    }
}

// Asks what the log of a part refutes, reads the part, and drops the question.
fn read_asked<'a>(
    alloc: Global,
    product: &Product,
    part: &Part<'_>,
    frames: &mut Unrolled<'_>,
    at: Cursor<'a>,
) -> Result<Result<Cursor<'a>, CertFault>, AllocError>
    requires none { frames.old.asked ≡ None }
    requires left { IsLiteral frames.old.pair part.now.a }
    requires right { IsLiteral frames.old.pair part.now.b }
    requires order { part.now.first ≤ part.now.last }
    requires within { part.now.last < frames.old.frames }
    requires few { at.line + length at.rest.now < 2 ^ 64 }
    ensures on { IfOk result (λ o. IfOk o (λ r. IsOn product.now part.now.keyword.now part.now.member (formula_of (asking frames.old (asks part.now.a part.now.b part.now.first part.now.last))) at.entry.line (pieces 10 at.entry.rest.now) r.line (pieces 10 r.rest.now))) }
    ensures last { IfOk result (λ o. IfOk o (λ r. last_of 10 r.rest.now ≡ last_of 10 at.entry.rest.now)) }
    ensures lines { IfOk result (λ o. IfOk o (λ r. r.line + length r.rest.now ≤ at.entry.line + length at.entry.rest.now)) }
    ensures fault { IfOk result (λ o. IfErr o (λ f. IsFault product.now part.now.keyword.now part.now.member (formula_of (asking frames.old (asks part.now.a part.now.b part.now.first part.now.last))) at.entry.line (pieces 10 at.entry.rest.now) f.kind f.line)) }
    ensures frames { IfOk result (λ o. frames.new ≡ frames.old) }
{
    frames.ask(alloc, part.a, part.b, part.first, part.last)?;
    let mut log = Log::new(alloc);
    let read = read_log_of(alloc, product, part, frames.cnf(), at, &mut log);
    drop(log);
    let read = read?;
    frames.drop_question();
    Ok(read)
}

/// Reads both parts of a member from where reading stands.
pub fn check_member<'a>(
    alloc: Global,
    claim: &Claim<'_>,
    member: u32,
    frames: &mut Asked<'_>,
    at: Cursor<'a>,
) -> Result<Result<Cursor<'a>, CertFault>, AllocError>
    requires depth { 1 ≤ claim.now.k }
    requires deep { claim.now.k ≤ 16 }
    requires places { length claim.now.classes.now.least ≡ places_of claim.now.product.now }
    requires member { member < places_of claim.now.product.now }
    requires base { frames.old.base ≡ from_reset claim.now.product.now claim.now.k }
    requires step { frames.old.step ≡ after_classes claim.now.product.now claim.now.k claim.now.classes.now }
    requires few { at.line + length at.rest.now < 2 ^ 64 }
    ensures on { IfOk result (λ o. IfOk o (λ r. IsMemberOn claim.now.product.now claim.now.k claim.now.classes.now member at.entry.line (pieces 10 at.entry.rest.now) r.line (pieces 10 r.rest.now))) }
    ensures last { IfOk result (λ o. IfOk o (λ r. last_of 10 r.rest.now ≡ last_of 10 at.entry.rest.now)) }
    ensures lines { IfOk result (λ o. IfOk o (λ r. r.line + length r.rest.now ≤ at.entry.line + length at.entry.rest.now)) }
    ensures fault { IfOk result (λ o. IfErr o (λ f. IsMemberFault claim.now.product.now claim.now.k claim.now.classes.now member at.entry.line (pieces 10 at.entry.rest.now) f.kind f.line)) }
    ensures base { IfOk result (λ o. IfOk o (λ r. frames.new.base ≡ frames.old.base)) }
    ensures step { IfOk result (λ o. IfOk o (λ r. frames.new.step ≡ frames.old.step)) }
{
    let product = claim.product;
    let _places = (product.len(), claim.classes.len());
    let (a, b) = claim.classes.needed(member);
    let base = Part {
        keyword: b"base ",
        member,
        a,
        b,
        first: 0,
        last: claim.k - 1,
    };
    let step = Part {
        keyword: b"step ",
        first: claim.k,
        last: claim.k,
        ..base
    };
    match read_asked(alloc, product, &base, &mut frames.base, at)? {
        Err(fault) => Ok(Err(fault)),
        Ok(next) => read_asked(alloc, product, &step, &mut frames.step, next),
    }
}
