//! The needed pairs of classes, and the clauses that say that they hold.
ghost use Rattle.std.specs.Prelude.{◌≡◌, ◌<◌, ◌≤◌, ◌+◌, ◌*◌, ◌/◌, ◌++◌, ◌∷◌, [], ℕ, OnOk, IfOk, All, length, flat_map};
ghost use Rattle.frame_unroll.specs.Frames.{literal_in, equal_clauses, class_clauses};
ghost use Rattle.frame_unroll.specs.Members.{member_pair, member_pairs};

use crate::adding::{Frame, add_two};
use circ_model::Lit;
use class_partition::Classes;
use cnf_store::Cnf;
use std::alloc::{AllocError, Global};

// Appends a place's needed pair, where it has one.
fn push_needed(
    pairs: &mut Vec<(Lit, Lit)>,
    classes: &Classes,
    member: u32,
) -> Result<(), AllocError>
    requires place { member < length classes.now.least }
    requires few { length classes.now.least < 2147483648 }
    ensures { OnOk result (pairs.new.items ≡ pairs.old.items ++ member_pair classes.now member) }
{
    if classes.rep(member) != member {
        pairs.push(classes.needed(member))?;
    }
    Ok(())
}

// The needed pairs in the order of their members.
pub(crate) fn needed_of(alloc: Global, classes: &Classes) -> Result<Vec<(Lit, Lit)>, AllocError>
    requires few { length classes.now.least < 2147483648 }
    ensures { IfOk result (λ pairs. pairs.items ≡ member_pairs (length classes.now.least) classes.now) }
{
    let mut pairs = Vec::new(alloc);
    for p in 0..classes.len() {
        push_needed(&mut pairs, classes, p)?;
    }
    Ok(pairs)
}

// One of two literals holds in a frame.
fn add_either(cnf: &mut Cnf, frame: &Frame, a: Lit, b: Lit) -> Result<(), AllocError>
    requires left { a / 2 < frame.now.places }
    requires right { b / 2 < frame.now.places }
    requires variables { frame.now.base + frame.now.places ≤ cnf.old.vars }
    ensures vars { cnf.new.vars ≡ cnf.old.vars }
    ensures ok { OnOk result (cnf.new.clauses ≡ cnf.old.clauses ++ (literal_in frame.now.places frame.now.number a ∷ literal_in frame.now.places frame.now.number b ∷ []) ∷ []) }
{
    add_two(cnf, frame.literal(a), frame.literal(b))
}

// That two literals are equal in a frame: where one holds, so does the other.
fn add_equal(cnf: &mut Cnf, frame: &Frame, rep: Lit, member: Lit) -> Result<(), AllocError>
    requires left { rep / 2 < frame.now.places }
    requires right { member / 2 < frame.now.places }
    requires variables { frame.now.base + frame.now.places ≤ cnf.old.vars }
    ensures vars { cnf.new.vars ≡ cnf.old.vars }
    ensures ok { OnOk result (cnf.new.clauses ≡ cnf.old.clauses ++ equal_clauses (literal_in frame.now.places) frame.now.number (rep, member)) }
{
    add_either(cnf, frame, member.not(), rep)?;
    add_either(cnf, frame, member, rep.not())
}

// That needed pairs are equal in a frame.
fn add_equals(cnf: &mut Cnf, frame: &Frame, needed: &[(Lit, Lit)]) -> Result<(), AllocError>
    requires literals { All (λ p. (p.0 / 2 < frame.now.places) × (p.1 / 2 < frame.now.places)) needed.now }
    requires variables { frame.now.base + frame.now.places ≤ cnf.old.vars }
    ensures vars { cnf.new.vars ≡ cnf.old.vars }
    ensures ok { OnOk result (cnf.new.clauses ≡ cnf.old.clauses ++ flat_map (equal_clauses (literal_in frame.now.places) frame.now.number) needed.now) }
{
    for i in 0..needed.len() {
        add_equal(cnf, frame, needed[i].0, needed[i].1)?;
    }
    Ok(())
}

// That they are in the first k frames.
pub(crate) fn add_classes(
    cnf: &mut Cnf,
    n: u32,
    k: u32,
    needed: &[(Lit, Lit)],
) -> Result<(), AllocError>
    requires literals { All (λ p. (p.0 / 2 < n) × (p.1 / 2 < n)) needed.now }
    requires room { k * n < 2147483648 }
    requires variables { k * n ≤ cnf.old.vars }
    ensures vars { cnf.new.vars ≡ cnf.old.vars }
    ensures ok { OnOk result (cnf.new.clauses ≡ cnf.old.clauses ++ class_clauses (literal_in n) k needed.now) }
{
    for t in 0..k {
        let frame = Frame {
            places: n,
            number: t,
            base: t * n,
        };
        add_equals(cnf, &frame, needed)?;
    }
    Ok(())
}
