//! Two toggling latches as a pair: the numbers of their clauses and variables, the path of a row that satisfies them, and
//! what questions over their frames come to.
ghost use Rattle.std.specs.Prelude.{◌≡◌, ◌<◌, ◌≤◌, IsTrue, None, true, length};
ghost use Rattle.circ_model.specs.Correspondence.{IsLiteral};
ghost use Rattle.circ_model.specs.Meaning.{places_of};
ghost use Rattle.cnf_store.specs.Clauses.{IsLiteral as IsVariable, AreLiterals, literal_true, clause_true, satisfies};

use crate::circuits::{TOGGLE, pair_is};
use crate::rows::{has_bits, row_of};
use bit_rows::BitRow;
use circ_model::Lit;
use class_partition::Classes;
use cnf_store::Cnf;
use frame_questions::{Prepared, Separation, Workspace};
use frame_unroll::Unrolled;
use product_machine::{Path, Product};
use std::alloc::{AllocError, Global};
use std::test::Fail;

// Whether a row makes a literal true.
fn literal_holds(literal: i32, row: &BitRow) -> bool
    requires { IsVariable (length row.now) literal }
    ensures { result ≡ literal_true row.now literal }
{
    let bit = row.get(literal.unsigned_abs() - 1);
    if literal < 0 { !bit } else { bit }
}

// Whether it makes one of a clause's true.
fn clause_holds(clause: &[i32], row: &BitRow) -> bool
    requires { AreLiterals (length row.now) clause.now }
    ensures { IsTrue result → clause_true row.now clause.now ≡ true }
{
    for i in 0..clause.len() {
        if literal_holds(clause[i], row) {
            return true;
        }
    }
    false
}

// Whether it satisfies all clauses.
fn holds(cnf: &Cnf, row: &BitRow) -> bool
    requires { length row.now ≡ cnf.now.vars }
    ensures { IsTrue result → satisfies row.now cnf.now.clauses ≡ true }
{
    for i in 0..cnf.len() {
        if !clause_holds(cnf.clause(i + 1), row) {
            return false;
        }
    }
    true
}

// How many clauses and variables there are.
fn size_of(unrolled: &Unrolled<'_>) -> (u64, u32) {
    let cnf = unrolled.cnf();
    (cnf.len(), cnf.vars())
}

// Two classes of three places: the constant, and both latches.
fn two_classes(alloc: Global) -> Result<Classes, AllocError> {
    let phases = row_of(alloc, 3, 0)?;
    let row = row_of(alloc, 3, 0b110)?;
    let mut classes = Classes::one_class(alloc, &phases)?;
    if classes.len() == row.len() {
        classes.split_by(&row);
    }
    Ok(classes)
}

// The numbers of clauses and variables with a question, and after it is dropped.
fn sizes_of(
    alloc: Global,
    frames: &mut Unrolled<'_>,
    question: (Lit, Lit),
    at: u32,
) -> Result<[(u64, u32); 2], AllocError>
    requires none { frames.old.asked ≡ None }
    requires left { IsLiteral frames.old.pair question.0 }
    requires right { IsLiteral frames.old.pair question.1 }
    requires frame { at < frames.old.frames }
{
    frames.ask(alloc, question.0, question.1, at, at)?;
    let asked = size_of(frames);
    frames.drop_question();
    Ok([asked, size_of(frames)])
}

// One frame from reset, with the question whether the latches differ in it.
fn reset_sizes(alloc: Global, product: &Product) -> Result<[(u64, u32); 2], AllocError>
    requires { places_of product.now ≡ 3 }
{
    let mut frames = Unrolled::reset_frames(alloc, product, 1)?;
    sizes_of(
        alloc,
        &mut frames,
        (Lit::of(1, false), Lit::of(2, false)),
        0,
    )
}

// One frame in which the classes hold and the next, with the question whether the latches differ in that.
fn step_sizes(
    alloc: Global,
    product: &Product,
    classes: &Classes,
) -> Result<[(u64, u32); 2], AllocError>
    requires places { places_of product.now ≡ 3 }
    requires classes { length classes.now.least ≡ 3 }
{
    let mut frames = Unrolled::step_frames(alloc, product, 1, classes)?;
    sizes_of(
        alloc,
        &mut frames,
        (Lit::of(1, false), Lit::of(2, false)),
        1,
    )
}

// The path of a row that satisfies thirteen clauses of frames, if it does.
fn path_by(alloc: Global, frames: &Unrolled<'_>, row: &BitRow) -> Result<Option<Path>, AllocError> {
    let cnf = frames.cnf();
    if cnf.len() == 13 && row.len() == cnf.vars() && holds(cnf, row) {
        return Ok(Some(frames.path_of(alloc, row)?));
    }
    Ok(None)
}

// Whether a row has these bits.
fn is_low(row: &BitRow, len: u32) -> bool {
    for i in 0..row.len() {
        if row.get(i) {
            return false;
        }
    }
    row.len() == len
}

// Whether a path starts with both latches at 0 and has two frames without inputs.
fn is_quiet(path: &Path) -> bool {
    if path.inputs.len() != 2 {
        return false;
    }
    is_low(&path.start, 2) && is_low(path.inputs.row(0), 0) && is_low(path.inputs.row(1), 0)
}

// Whether a row satisfies two frames from reset, with the question whether the left latch is ever true, and its path is that.
fn has_quiet_path(alloc: Global, frames: &mut Unrolled<'_>, row: &BitRow) -> bool
    requires none { frames.old.asked ≡ None }
    requires places { places_of frames.old.pair ≡ 3 }
    requires frames { frames.old.frames ≡ 2 }
{
    if frames
        .ask(alloc, Lit::of(0, false), Lit::of(1, false), 0, 1)
        .is_err()
    {
        return false;
    }
    match path_by(alloc, frames, row) {
        Ok(Some(path)) => is_quiet(&path),
        _ => false,
    }
}

// The worked rows of two toggling latches: whether that of the path comes out.
fn row_is_worked(alloc: Global, product: &Product, row: &BitRow) -> bool
    requires { places_of product.now ≡ 3 }
{
    match Unrolled::reset_frames(alloc, product, 2) {
        Ok(mut frames) => has_quiet_path(alloc, &mut frames, row),
        Err(_) => false,
    }
}

fn path_is_worked(alloc: Global, product: &Product) -> bool
    requires { places_of product.now ≡ 3 }
{
    match row_of(alloc, 8, 0b10110000) {
        Ok(row) => row_is_worked(alloc, product, &row),
        Err(_) => false,
    }
}

// Whether the numbers of clauses and variables do.
fn step_is_worked(alloc: Global, product: &Product) -> bool
    requires { places_of product.now ≡ 3 }
{
    match two_classes(alloc) {
        Ok(classes) => {
            classes.len() == 3 && step_sizes(alloc, product, &classes) == Ok([(11, 7), (8, 6)])
        }
        Err(_) => false,
    }
}

fn is_worked(alloc: Global, product: &Product) -> bool {
    product.len() == 3
        && reset_sizes(alloc, product) == Ok([(6, 4), (3, 3)])
        && step_is_worked(alloc, product)
        && path_is_worked(alloc, product)
}

// The literals of the constant and the latches, as numbers.
const LOW: u32 = 0;

const LEFT: u32 = 2;

const RIGHT: u32 = 4;

const NOT_RIGHT: u32 = 5;

// Two literals, the first and the last frame in which they may differ, and the first frame in which they do with its row.
type Row = (u32, u32, u32, u32, Option<(u32, u32)>);

// Whether an answer is what a row says.
fn is_as_told(found: &Separation, seen: Option<(u32, u32)>) -> bool {
    match (found, seen) {
        (Separation::None(log), None) => log.len() > 0,
        (Separation::Path(at), Some((frame, bits))) => at.frame == frame
            && has_bits(&at.bits, bits),
        _ => false,
    }
}

// Whether there is an answer, and it is that.
fn is_told(found: Result<Separation, AllocError>, seen: Option<(u32, u32)>) -> bool {
    match found {
        Ok(found) => is_as_told(&found, seen),
        Err(_) => false,
    }
}

// Whether a question over so many frames comes to what its row says, in a workspace and without one.
fn comes_out(
    alloc: Global,
    work: &mut Workspace,
    frames: &Prepared<'_>,
    count: u32,
    row: Row,
) -> bool
    requires places { places_of frames.now.pair ≡ 3 }
    requires frames { frames.now.frames ≡ count }
{
    let (a, b, first, last, seen) = row;
    let (a, b) = (Lit::from_number(a), Lit::from_number(b));
    a.var() < 3
        && b.var() < 3
        && first <= last
        && last < count
        && is_told(frames.find_in(alloc, work, a, b, first, last), seen)
        && is_told(frames.find(alloc, a, b, first, last), seen)
}

// Whether all of some questions do.
fn come_out(
    alloc: Global,
    work: &mut Workspace,
    frames: &Prepared<'_>,
    count: u32,
    rows: &[Row],
) -> bool
    requires places { places_of frames.now.pair ≡ 3 }
    requires frames { frames.now.frames ≡ count }
{
    for &row in rows {
        if !comes_out(alloc, work, frames, count, row) {
            return false;
        }
    }
    true
}

// Whether three frames from reset answer as they must: both latches are low, then high, then low.
fn reset_answers(alloc: Global, work: &mut Workspace, product: &Product) -> bool
    requires { places_of product.now ≡ 3 }
{
    const QUESTIONS: &[Row] = &[
        (LEFT, RIGHT, 0, 2, None),
        (LEFT, NOT_RIGHT, 0, 2, Some((0, 0b000))),
        (LOW, LEFT, 0, 2, Some((1, 0b110))),
        (LOW, LEFT, 0, 0, None),
        (LOW, RIGHT, 2, 2, None),
        (LOW, NOT_RIGHT, 1, 2, Some((2, 0b000))),
    ];
    match Prepared::reset_frames(alloc, product, 3) {
        Ok(frames) => come_out(alloc, work, &frames, 3, QUESTIONS),
        Err(_) => false,
    }
}

// Whether a frame from any state in which the latches are equal, and the next, answer as they must.
fn step_answers_by(
    alloc: Global,
    work: &mut Workspace,
    product: &Product,
    classes: &Classes,
) -> bool
    requires places { places_of product.now ≡ 3 }
    requires classes { length classes.now.least ≡ 3 }
{
    const QUESTIONS: &[Row] = &[
        (LEFT, RIGHT, 0, 1, None),
        (LOW, LEFT, 0, 0, Some((0, 0b110))),
        (LOW, RIGHT, 1, 1, Some((1, 0b110))),
    ];
    match Prepared::step_frames(alloc, product, 1, classes) {
        Ok(frames) => come_out(alloc, work, &frames, 2, QUESTIONS),
        Err(_) => false,
    }
}

fn step_answers(alloc: Global, work: &mut Workspace, product: &Product) -> bool
    requires { places_of product.now ≡ 3 }
{
    match two_classes(alloc) {
        Ok(classes) => classes.len() == 3 && step_answers_by(alloc, work, product, &classes),
        Err(_) => false,
    }
}

// Whether all of them answer so in one workspace, those from reset again at the end.
fn answer_in(alloc: Global, work: &mut Workspace, product: &Product) -> bool
    requires { places_of product.now ≡ 3 }
{
    reset_answers(alloc, work, product)
        && step_answers(alloc, work, product)
        && reset_answers(alloc, work, product)
}

// Whether they do in a new workspace.
fn are_answered(alloc: Global, product: &Product) -> bool {
    let mut work = Workspace::new();
    product.len() == 3 && answer_in(alloc, &mut work, product)
}

#[test]
fn questions_over_frames_of_two_toggling_latches(rt: HostRuntime) -> Result<(), Fail> {
    assert!(rt; pair_is(rt.alloc(), TOGGLE, TOGGLE, are_answered));
    Ok(())
}

#[test]
fn two_toggling_latches_as_clauses(rt: HostRuntime) -> Result<(), Fail> {
    assert!(rt; pair_is(rt.alloc(), TOGGLE, TOGGLE, is_worked));
    Ok(())
}
