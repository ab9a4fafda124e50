//! Writing a certificate: the classes, and for each needed pair the logs of its two questions, which are solved again. The
//! frames are made once, and lent to each question; the logs are trimmed. A log of the last frame, and one from reset where that is a
//! single frame, is made of what lower places have derived, and checked; where it isn't accepted the question is asked on its own. Where it
//! is long the question is asked too, as long as that is worth it, and the shorter of the two logs is written.
ghost use Rattle.std.specs.Prelude.{◌≡◌, ◌<◌, ◌≤◌, ◌/◌, ◌-◌, ◌++◌, ◌∷◌, ℕ, List, IfOk, IfSome, OnOk, None, decimal, length, true};
ghost use Rattle.std.specs.List.{All};
ghost use Rattle.circ_model.specs.Correspondence.{IsLiteral};
ghost use Rattle.circ_model.specs.Meaning.{places_of};
ghost use Rattle.class_partition.specs.Classes.{ArePartition, IsNeeded, IsStable, least_of, needed};
ghost use Rattle.frame_unroll.specs.Unrolled.{clauses_of, formula_of, from_reset, after_classes, asks, asking};
ghost use Rattle.product_machine.specs.Signals.{signal_at};
ghost use Rattle.sat_log.specs.Derivations.{IsAccepted, Line};
ghost use Rattle.sat_log.specs.Lines.{AreLines};
ghost use Rattle.sat_log.specs.Texts.{HasText, log_text};
ghost use Rattle.class_text.specs.ClassLines.{name_of};
ghost use Rattle.corr_certificate.specs.Certificate.{IsSupported, PairOutputs};
ghost use Rattle.corr_certificate.specs.Parts.{base_formula, step_formula};
ghost use Rattle.cert_writer.specs.Writing.{head_text, tie_text, AreProved, IsBaseLog, IsStepLog, AddsPart, AddsMember, AddsMembers, IsCertificate};

use cert_lemmas::Lemmas;
use circ_model::{Lit, Signal};
use class_partition::Classes;
use class_text::{push_class_lines, push_name};
use frame_questions::{Prepared, Separation, Workspace};
use frame_unroll::Unrolled;
use itoa::Buffer;
use log_check::check;
use log_trim::trim;
use product_machine::Product;
use sat_log::{Log, write_log};
use std::alloc::{AllocError, Global};
use std::marker::Model;

// A derived log from reset of so many lines isn't looked at again.
const SHORT: u64 = 4;

// Nor is one of the last frame of so many.
const SHORT_LAST: u64 = 32;

// A question whose log has more lines was hard.
const HARD: u64 = 100;

// So many more questions of the last frame come to no shorter log than come to one, until none is asked any more.
const PATIENCE: u32 = 16;

// Adds a number after a word.
fn push_field(word: &[u8], number: u32, text: &mut Vec<u8>) -> Result<(), AllocError>
    ensures { OnOk result (text.new.items ≡ text.old.items ++ (word.now ++ decimal number)) }
{
    let mut buffer = Buffer::new();
    text.extend_from_slice(word)?;
    text.extend_from_slice(buffer.format(number).as_bytes())?;
    Ok(())
}

// Adds whether the free latches are tied, and the end of line 1.
fn push_tie(tied: bool, text: &mut Vec<u8>) -> Result<(), AllocError>
    ensures { OnOk result (text.new.items ≡ text.old.items ++ tie_text tied) }
{
    if tied {
        text.extend_from_slice(b" tie=1\n")
    } else {
        text.extend_from_slice(b" tie=0\n")
    }
}

// Adds line 1.
fn push_head(product: &Product, k: u32, text: &mut Vec<u8>) -> Result<(), AllocError>
    ensures { OnOk result (text.new.items ≡ text.old.items ++ head_text product.now k) }
{
    push_field(b"seccert 2 k=", k, text)?;
    push_field(b" signals=", product.len(), text)?;
    push_tie(product.is_tied(), text)?;
    Ok(())
}

// What is certified, with the frames of the two questions: k from reset, and k + 1 in all but the last of which the classes
// hold. Beside them the numbers of clauses that they have with a question.
#[derive(Drop)]
struct Frames<'p> {
    product: &'p Product,
    k: u32,
    classes: &'p Classes,
    base: Prepared<'p>,
    step: Prepared<'p>,
    base_clauses: u64,
    step_clauses: u64,
}

impl<'p> Model for Frames<'p> {
    ghost use Rattle.cert_writer.specs.Writing.{AreFrames, Certified};

    ghost Value = { Certified };

    ghost view = { λ f. record { pair = f.product.now; k = f.k; classes = f.classes.now } };

    ghost invariant = { λ f. AreFrames f.product.now f.k f.classes.now f.base f.step f.base_clauses f.step_clauses };
}

// What is derived of the last of some frames, and these frames, over which a log is checked.
#[derive(Drop)]
struct Deriver<'p> {
    lemmas: Lemmas,
    frames: Unrolled<'p>,
}

// The solvers of their questions, by the memory in which they are asked; what is derived in the last frame of a step, and in the first
// one from reset.
#[derive(Drop)]
struct Solvers<'p> {
    base: Workspace,
    step: Workspace,
    last: Deriver<'p>,
    first: Deriver<'p>,
    // whether a question from reset was hard
    is_hard: bool,
    // how many questions of the last frame more may come to no shorter log; none once one was hard
    patience: u32,
}

// How many clauses frames have with a question over some of them, whichever its literals are.
fn clauses_asked(
    alloc: Global,
    frames: &mut Unrolled<'_>,
    first: u32,
    last: u32,
) -> Result<u64, AllocError>
    requires none { frames.old.asked ≡ None }
    requires order { first ≤ last }
    requires within { last < frames.old.frames }
    ensures count { IfOk result (λ n. (a b : ℕ) → n ≡ length (clauses_of (asking frames.old (asks a b first last)))) }
    ensures frames { IfOk result (λ n. frames.new ≡ frames.old) }
{
    let constant = Lit::of(0, false);
    frames.ask(alloc, constant, constant, first, last)?;
    let count = frames.cnf().len();
    frames.drop_question();
    Ok(count)
}

// Frames in which questions can be asked, and how many clauses they have with a question over some of them.
fn prepared<'p>(
    alloc: Global,
    frames: Unrolled<'p>,
    first: u32,
    last: u32,
) -> Result<(Prepared<'p>, u64), AllocError>
    requires none { frames.asked ≡ None }
    requires order { first ≤ last }
    requires within { last < frames.frames }
    ensures frames { IfOk result (λ r. r.0 ≡ frames.entry) }
    ensures count { IfOk result (λ r. (a b : ℕ) → r.1 ≡ length (clauses_of (asking frames.entry (asks a b first last)))) }
{
    let mut frames = frames;
    match clauses_asked(alloc, &mut frames, first, last) {
        Ok(clauses) => Ok((Prepared::new(alloc, frames)?, clauses)),
        Err(error) => {
            drop(frames);
            Err(error)
        }
    }
}

// The frames from reset.
fn base_frames<'p>(
    alloc: Global,
    product: &'p Product,
    k: u32,
) -> Result<(Prepared<'p>, u64), AllocError>
    requires some { 0 < k }
    requires few { k ≤ 16 }
    ensures frames { IfOk result (λ r. r.0 ≡ from_reset product.entry.now k) }
    ensures count { IfOk result (λ r. (a b : ℕ) → r.1 ≡ length (clauses_of (asking (from_reset product.entry.now k) (asks a b 0 (k - 1))))) }
{
    let frames = Unrolled::reset_frames(alloc, product, k)?;
    prepared(alloc, frames, 0, k - 1)
}

// The frames in which the classes hold, and one more.
fn step_frames<'p>(
    alloc: Global,
    product: &'p Product,
    k: u32,
    classes: &Classes,
) -> Result<(Prepared<'p>, u64), AllocError>
    requires few { k ≤ 16 }
    requires places { length classes.now.least ≡ places_of product.now }
    ensures frames { IfOk result (λ r. r.0 ≡ after_classes product.entry.now k classes.now) }
    ensures count { IfOk result (λ r. (a b : ℕ) → r.1 ≡ length (clauses_of (asking (after_classes product.entry.now k classes.now) (asks a b k k)))) }
{
    let frames = Unrolled::step_frames(alloc, product, k, classes)?;
    prepared(alloc, frames, k, k)
}

// Makes the frames.
fn frames_of<'p>(
    alloc: Global,
    product: &'p Product,
    k: u32,
    classes: &'p Classes,
) -> Result<Frames<'p>, AllocError>
    requires proved { AreProved product.now k classes.now }
    requires places { length classes.now.least ≡ places_of product.now }
    ensures { IfOk result (λ frames. frames ≡ record { pair = product.entry.now; k = k; classes = classes.entry.now }) }
{
    let (base, base_clauses) = base_frames(alloc, product, k)?;
    with_base(alloc, product, k, classes, base, base_clauses)
}

// The frames of both kinds, where those from reset are made.
fn with_base<'p>(
    alloc: Global,
    product: &'p Product,
    k: u32,
    classes: &'p Classes,
    base: Prepared<'p>,
    base_clauses: u64,
) -> Result<Frames<'p>, AllocError>
    requires proved { AreProved product.now k classes.now }
    requires places { length classes.now.least ≡ places_of product.now }
    requires base { base ≡ from_reset product.now k }
    requires count { (a b : ℕ) → base_clauses ≡ length (clauses_of (asking (from_reset product.now k) (asks a b 0 (k - 1)))) }
    ensures { IfOk result (λ frames. frames ≡ record { pair = product.entry.now; k = k; classes = classes.entry.now }) }
{
    match step_frames(alloc, product, k, classes) {
        Ok((step, step_clauses)) => Ok(Frames {
            product,
            k,
            classes,
            base,
            step,
            base_clauses,
            step_clauses,
        }),
        Err(error) => {
            drop(base);
            Err(error)
        }
    }
}

// What is derived of the last of some frames, whose places begin past `base`: nothing yet.
fn deriver_of<'p>(
    alloc: Global,
    frames: Unrolled<'p>,
    places: u32,
    base: u32,
) -> Result<Deriver<'p>, AllocError>
    ensures { IfOk result (λ deriver. deriver.frames ≡ frames.entry) }
{
    match Lemmas::new(alloc, frames.cnf(), places, base) {
        Ok(lemmas) => Ok(Deriver { lemmas, frames }),
        Err(error) => {
            drop(frames);
            Err(error)
        }
    }
}

// Of the last frame of a step.
fn step_deriver<'p>(
    alloc: Global,
    product: &'p Product,
    k: u32,
    classes: &Classes,
) -> Result<Deriver<'p>, AllocError>
    requires few { k ≤ 16 }
    requires places { length classes.now.least ≡ places_of product.now }
    ensures { IfOk result (λ deriver. deriver.frames ≡ after_classes product.entry.now k classes.now) }
{
    let frames = Unrolled::step_frames(alloc, product, k, classes)?;
    let base = k.saturating_mul(product.len());
    deriver_of(alloc, frames, product.len(), base)
}

// Of the first frame from reset.
fn reset_deriver<'p>(alloc: Global, product: &'p Product) -> Result<Deriver<'p>, AllocError>
    ensures { IfOk result (λ deriver. deriver.frames ≡ from_reset product.entry.now 1) }
{
    let frames = Unrolled::reset_frames(alloc, product, 1)?;
    deriver_of(alloc, frames, product.len(), 0)
}

// The solvers of their questions.
fn solvers_of<'p>(
    alloc: Global,
    product: &'p Product,
    k: u32,
    classes: &Classes,
) -> Result<Solvers<'p>, AllocError>
    requires few { k ≤ 16 }
    requires places { length classes.now.least ≡ places_of product.now }
    ensures last { IfOk result (λ work. work.last.frames ≡ after_classes product.entry.now k classes.now) }
    ensures first { IfOk result (λ work. work.first.frames ≡ from_reset product.entry.now 1) }
{
    let last = step_deriver(alloc, product, k, classes)?;
    match reset_deriver(alloc, product) {
        Ok(first) => Ok(Solvers {
            base: Workspace::new(),
            step: Workspace::new(),
            last,
            first,
            is_hard: false,
            patience: PATIENCE,
        }),
        Err(error) => {
            drop(last);
            Err(error)
        }
    }
}

// A log from reset, trimmed.
fn trim_base(alloc: Global, frames: &Frames<'_>, place: u32, log: Log) -> Result<Log, AllocError>
    requires { IsAccepted (base_formula frames.now.pair frames.now.k frames.now.classes place) log }
    ensures { IfOk result (IsBaseLog frames.now place) }
{
    trim(alloc, frames.base_clauses, log)
}

// A log of the last frame, trimmed.
fn trim_step(alloc: Global, frames: &Frames<'_>, place: u32, log: Log) -> Result<Log, AllocError>
    requires { IsAccepted (step_formula frames.now.pair frames.now.k frames.now.classes place) log }
    ensures { IfOk result (IsStepLog frames.now place) }
{
    trim(alloc, frames.step_clauses, log)
}

// The log, trimmed, that no run has a place and its class's least place apart in its first k frames.
fn base_log(
    alloc: Global,
    work: &mut Workspace,
    frames: &Frames<'_>,
    place: u32,
) -> Result<Log, AllocError>
    requires place { place < places_of frames.now.pair }
    ensures { IfOk result (IsBaseLog frames.now place) }
{
    let _places = frames.product.len();
    let (a, b) = frames.classes.needed(place);
    let k = frames.k;
    match frames.base.find_in(alloc, work, a, b, 0, k - 1)? {
        Separation::None(log) => trim_base(alloc, frames, place, log),
        Separation::Path(_seen) => unreachable!(),
    }
}

// The log, trimmed, that no path has them apart after k frames in which the classes hold.
fn step_log(
    alloc: Global,
    work: &mut Workspace,
    frames: &Frames<'_>,
    place: u32,
) -> Result<Log, AllocError>
    requires place { place < places_of frames.now.pair }
    ensures { IfOk result (IsStepLog frames.now place) }
{
    let _places = frames.product.len();
    let (a, b) = frames.classes.needed(place);
    let k = frames.k;
    match frames.step.find_in(alloc, work, a, b, k, k)? {
        Separation::None(log) => trim_step(alloc, frames, place, log),
        Separation::Path(_seen) => unreachable!(),
    }
}

// Whether a log is one of a question in frame t.
fn is_accepted(
    alloc: Global,
    frames: &mut Unrolled<'_>,
    a: Lit,
    b: Lit,
    t: u32,
    log: &Log,
) -> Result<bool, AllocError>
    requires none { frames.old.asked ≡ None }
    requires left { IsLiteral frames.old.pair a }
    requires right { IsLiteral frames.old.pair b }
    requires within { t < frames.old.frames }
    ensures log { IfOk result (λ good. good ≡ true → IsAccepted (formula_of (asking frames.old (asks a b t t))) log.now) }
    ensures frames { IfOk result (λ good. frames.new ≡ frames.old) }
{
    frames.ask(alloc, a, b, t, t)?;
    let good = check(alloc, frames.cnf(), log)?;
    frames.drop_question();
    Ok(good)
}

// A log that may be one of a question in frame t, where it is accepted.
fn accepted_in(
    alloc: Global,
    frames: &mut Unrolled<'_>,
    a: Lit,
    b: Lit,
    t: u32,
    log: Option<Log>,
) -> Result<Option<Log>, AllocError>
    requires none { frames.old.asked ≡ None }
    requires left { IsLiteral frames.old.pair a }
    requires right { IsLiteral frames.old.pair b }
    requires within { t < frames.old.frames }
    ensures log { IfOk result (λ o. IfSome o (IsAccepted (formula_of (asking frames.old (asks a b t t))))) }
    ensures frames { IfOk result (λ o. frames.new ≡ frames.old) }
{
    let Some(log) = log else {
        return Ok(None);
    };
    match is_accepted(alloc, frames, a, b, t, &log) {
        Ok(true) => Ok(Some(log)),
        Ok(false) => {
            drop(log);
            Ok(None)
        }
        Err(error) => {
            drop(log);
            Err(error)
        }
    }
}

// The log of a question in frame t, by what lower places have derived there, where it is accepted.
fn derived_log(
    alloc: Global,
    deriver: &mut Deriver<'_>,
    frames: &Frames<'_>,
    t: u32,
    place: u32,
    question: (Lit, Lit),
) -> Result<Option<Log>, AllocError>
    requires none { deriver.old.frames.asked ≡ None }
    requires left { IsLiteral deriver.old.frames.pair question.0 }
    requires right { IsLiteral deriver.old.frames.pair question.1 }
    requires within { t < deriver.old.frames.frames }
    ensures log { IfOk result (λ o. IfSome o (IsAccepted (formula_of (asking deriver.old.frames (asks question.0 question.1 t t))))) }
    ensures frames { IfOk result (λ o. deriver.new.frames ≡ deriver.old.frames) }
{
    let (a, b) = question;
    let cells = frames.product.cells();
    let log = deriver.lemmas.log_of(alloc, cells, frames.classes, place)?;
    accepted_in(alloc, &mut deriver.frames, a, b, t, log)
}

// The log from reset, trimmed, by what lower places have derived, where that is one frame and the log is accepted.
fn derived_reset(
    alloc: Global,
    first: &mut Deriver<'_>,
    frames: &Frames<'_>,
    place: u32,
) -> Result<Option<Log>, AllocError>
    requires first { first.old.frames ≡ from_reset frames.now.pair 1 }
    requires place { place < places_of frames.now.pair }
    ensures log { IfOk result (λ o. IfSome o (IsBaseLog frames.now place)) }
    ensures first { IfOk result (λ o. first.new.frames ≡ first.old.frames) }
{
    let _places = frames.product.len();
    if frames.k == 1 {
        let pair = frames.classes.needed(place);
        if let Some(log) = derived_log(alloc, first, frames, 0, place, pair)? {
            return Ok(Some(trim_base(alloc, frames, place, log)?));
        }
    }
    Ok(None)
}

// A log from reset, or the one that the question on its own comes to, where that has fewer lines.
fn shorter_log(
    alloc: Global,
    work: &mut Solvers<'_>,
    frames: &Frames<'_>,
    place: u32,
    log: Log,
) -> Result<Log, AllocError>
    requires place { place < places_of frames.now.pair }
    requires log { IsBaseLog frames.now place log }
    ensures log { IfOk result (IsBaseLog frames.now place) }
    ensures last { work.new.last.frames ≡ work.old.last.frames }
    ensures first { work.new.first.frames ≡ work.old.first.frames }
{
    let own = match base_log(alloc, &mut work.base, frames, place) {
        Ok(own) => own,
        Err(error) => {
            drop(log);
            return Err(error);
        }
    };
    work.is_hard = own.len() > HARD;
    if own.len() < log.len() {
        drop(log);
        Ok(own)
    } else {
        drop(own);
        Ok(log)
    }
}

// The log from reset: by what lower places have derived, where that is one frame, or on its own. Where asking was hard once it is left
// at what is derived.
fn reset_log(
    alloc: Global,
    work: &mut Solvers<'_>,
    frames: &Frames<'_>,
    place: u32,
) -> Result<Log, AllocError>
    requires first { work.old.first.frames ≡ from_reset frames.now.pair 1 }
    requires place { place < places_of frames.now.pair }
    ensures log { IfOk result (IsBaseLog frames.now place) }
    ensures last { IfOk result (λ log. work.new.last.frames ≡ work.old.last.frames) }
    ensures first { IfOk result (λ log. work.new.first.frames ≡ work.old.first.frames) }
{
    match derived_reset(alloc, &mut work.first, frames, place)? {
        Some(log) => {
            if work.is_hard || log.len() <= SHORT {
                return Ok(log);
            }
            shorter_log(alloc, work, frames, place, log)
        }
        None => base_log(alloc, &mut work.base, frames, place),
    }
}

// Whether a derived log of the last frame is short. That a place is constant one line often shows, and a derived log has four and more.
fn is_short(frames: &Frames<'_>, place: u32, log: &Log) -> bool
    requires place { place < places_of frames.now.pair }
{
    let _places = frames.classes.len();
    log.len() <= SHORT_LAST && frames.classes.rep(place) != 0
}

// The log of the last frame: by what lower places have derived, or on its own. Where asking was hard once, or came to no shorter log too
// often, it is left at what is derived.
fn last_log(
    alloc: Global,
    work: &mut Solvers<'_>,
    frames: &Frames<'_>,
    place: u32,
) -> Result<Log, AllocError>
    requires last { work.old.last.frames ≡ after_classes frames.now.pair frames.now.k frames.now.classes }
    requires place { place < places_of frames.now.pair }
    ensures log { IfOk result (IsStepLog frames.now place) }
    ensures last { IfOk result (λ log. work.new.last.frames ≡ work.old.last.frames) }
    ensures first { IfOk result (λ log. work.new.first.frames ≡ work.old.first.frames) }
{
    let _places = frames.product.len();
    let pair = frames.classes.needed(place);
    let k = frames.k;
    match derived_log(alloc, &mut work.last, frames, k, place, pair)? {
        Some(log) => {
            let trimmed = trim_step(alloc, frames, place, log)?;
            if work.patience == 0 || is_short(frames, place, &trimmed) {
                return Ok(trimmed);
            }
            shorter_last(alloc, work, frames, place, trimmed)
        }
        None => step_log(alloc, &mut work.step, frames, place),
    }
}

// How many literals and hints a log has.
fn numbers_of(log: &Log) -> u64 {
    let mut count: u64 = 0;
    for i in 0..log.len() {
        count = count.saturating_add(log.clause(i).len() as u64);
        count = count.saturating_add(log.hints(i).len() as u64);
    }
    count
}

// How many questions more may come to no shorter log, after one that came to this log.
fn patience_after(patience: u32, log: &Log) -> u32 {
    if log.len() > HARD {
        0
    } else {
        patience.saturating_sub(1)
    }
}

// A log of the last frame, or the one that the question on its own comes to, where that is shorter.
fn shorter_last(
    alloc: Global,
    work: &mut Solvers<'_>,
    frames: &Frames<'_>,
    place: u32,
    log: Log,
) -> Result<Log, AllocError>
    requires place { place < places_of frames.now.pair }
    requires log { IsStepLog frames.now place log }
    ensures log { IfOk result (IsStepLog frames.now place) }
    ensures last { work.new.last.frames ≡ work.old.last.frames }
    ensures first { work.new.first.frames ≡ work.old.first.frames }
{
    let own = match step_log(alloc, &mut work.step, frames, place) {
        Ok(own) => own,
        Err(error) => {
            drop(log);
            return Err(error);
        }
    };
    if numbers_of(&own) < numbers_of(&log) {
        work.patience = work.patience.saturating_add(1);
        drop(log);
        Ok(own)
    } else {
        work.patience = patience_after(work.patience, &own);
        drop(own);
        Ok(log)
    }
}

// Adds a line with a name after a keyword, and a log.
fn push_part(
    keyword: &[u8],
    signal: Signal,
    log: &Log,
    text: &mut Vec<u8>,
) -> Result<(), AllocError>
    ensures text { OnOk result (text.new.items ≡ text.old.items ++ (keyword.now ++ (name_of signal ++ 10 ∷ log_text log.now))) }
    ensures lines { OnOk result (AreLines log.now) }
    ensures hints { OnOk result (All HasText log.now) }
{
    text.extend_from_slice(keyword)?;
    push_name(signal, text)?;
    text.push(b'\n')?;
    write_log(log, text)?;
    Ok(())
}

// Adds the part of a place: its name after a keyword, and the log of one of its two questions.
fn push_log(
    keyword: &[u8],
    frames: &Frames<'_>,
    place: u32,
    log: Log,
    text: &mut Vec<u8>,
) -> Result<(), AllocError>
    requires place { place < places_of frames.now.pair }
    ensures { OnOk result (AddsPart frames.now.pair keyword.now place log text.old.items text.new.items) }
{
    let signal = frames.product.signal(place);
    let pushed = push_part(keyword, signal, &log, text);
    drop(log);
    pushed
}

// Adds the two parts of a place.
fn push_member(
    alloc: Global,
    work: &mut Solvers<'_>,
    frames: &Frames<'_>,
    place: u32,
    text: &mut Vec<u8>,
) -> Result<(), AllocError>
    requires last { work.old.last.frames ≡ after_classes frames.now.pair frames.now.k frames.now.classes }
    requires first { work.old.first.frames ≡ from_reset frames.now.pair 1 }
    requires place { place < places_of frames.now.pair }
    ensures added { OnOk result (AddsMember frames.now.pair frames.now.k frames.now.classes place text.old.items text.new.items) }
    ensures last { OnOk result (work.new.last.frames ≡ work.old.last.frames) }
    ensures first { OnOk result (work.new.first.frames ≡ work.old.first.frames) }
{
    let base = reset_log(alloc, work, frames, place)?;
    push_log(b"base ", frames, place, base, text)?;
    let step = last_log(alloc, work, frames, place)?;
    push_log(b"step ", frames, place, step, text)
}

// Adds the parts of all places that aren't the least of their class, and the end.
fn push_members(
    alloc: Global,
    work: &mut Solvers<'_>,
    frames: &Frames<'_>,
    text: &mut Vec<u8>,
) -> Result<(), AllocError>
    requires last { work.old.last.frames ≡ after_classes frames.now.pair frames.now.k frames.now.classes }
    requires first { work.old.first.frames ≡ from_reset frames.now.pair 1 }
    ensures { OnOk result (AddsMembers frames.now.pair frames.now.k frames.now.classes text.old.items text.new.items) }
{
    for place in 0..frames.product.len() {
        if frames.classes.rep(place) != place {
            push_member(alloc, work, frames, place, text)?;
        }
    }
    text.extend_from_slice(b"end\n")?;
    Ok(())
}

// The text, of which the contract tells what stands in it.
fn text_of(
    alloc: Global,
    product: &Product,
    k: u32,
    classes: &Classes,
) -> Result<Vec<u8>, AllocError>
    requires proved { AreProved product.now k classes.now }
    ensures { IfOk result (λ text. IsCertificate product.now k classes.now text.items) }
{
    let mut text = Vec::new(alloc);
    push_head(product, k, &mut text)?;
    push_class_lines(alloc, product, classes, &mut text)?;
    push_parts(alloc, product, k, classes, &mut text)?;
    Ok(text)
}

// Adds the parts of all places, over frames and in memory of their own.
fn push_parts(
    alloc: Global,
    product: &Product,
    k: u32,
    classes: &Classes,
    text: &mut Vec<u8>,
) -> Result<(), AllocError>
    requires proved { AreProved product.now k classes.now }
    ensures { OnOk result (AddsMembers product.now k classes.now text.old.items text.new.items) }
{
    let _places = classes.len();
    let frames = frames_of(alloc, product, k, classes)?;
    let pushed = push_over(alloc, product, k, classes, &frames, text);
    drop(frames);
    pushed
}

// Adds the parts of all places, over these frames.
fn push_over(
    alloc: Global,
    product: &Product,
    k: u32,
    classes: &Classes,
    frames: &Frames<'_>,
    text: &mut Vec<u8>,
) -> Result<(), AllocError>
    requires few { k ≤ 16 }
    requires places { length classes.now.least ≡ places_of product.now }
    requires frames { frames.now ≡ record { pair = product.now; k = k; classes = classes.now } }
    ensures { OnOk result (AddsMembers product.now k classes.now text.old.items text.new.items) }
{
    let mut work = solvers_of(alloc, product, k, classes)?;
    let pushed = push_members(alloc, &mut work, frames, text);
    drop(work);
    pushed
}

/// The certificate of classes that are a correspondence for k and pair all outputs: it supports the pair, so reading it finds
/// no fault. Each log in it is trimmed. It errs for want of memory alone.
pub fn write_cert(
    alloc: Global,
    product: &Product,
    k: u32,
    classes: &Classes,
) -> Result<Vec<u8>, AllocError>
    requires some { 0 < k }
    requires few { k ≤ 16 }
    requires places { length classes.now.least ≡ places_of product.now }
    requires stable { IsStable product.now k classes.now }
    requires outputs { PairOutputs product.now classes.now }
    ensures text { IfOk result (λ text. IsCertificate product.now k classes.now text.items) }
    ensures supported { IfOk result (λ text. IsSupported product.now text.items) }
{
    let _cells = product.cells();
    let _places = classes.len();
    let text = text_of(alloc, product, k, classes)?;
    Ok(text)
}
