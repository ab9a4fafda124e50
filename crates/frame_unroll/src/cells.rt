//! The clauses of cells: each frame's in the order of the places, frame after frame.
ghost use Rattle.std.specs.Prelude.{◌≡◌, ◌<◌, ◌≤◌, ◌+◌, ◌-◌, ◌*◌, ◌/◌, ◌++◌, ◌∷◌, [], ℕ, List, Bool, true, false, OnOk, length};
ghost use Rattle.circ_model.specs.Meaning.{literal, negated};
ghost use Rattle.product_machine.specs.declared.cell.Cell.TheVariants.{Product};
ghost use Rattle.product_machine.specs.declared.cell.Start.TheVariants.{Like};
ghost use Rattle.product_machine.specs.Cells.{IsBehind, Rests, IsArranged};
ghost use Rattle.frame_unroll.specs.Frames.{literal_in, start_clauses, latch_clauses, cell_clauses, frame_clauses, frames};

use crate::adding::{Frame, add_one, add_three, add_two};
use circ_model::Lit;
use cnf_store::Cnf;
use product_machine::{Cell, Start};
use std::alloc::AllocError;

// The variable needs the literal.
fn add_needs(cnf: &mut Cnf, frame: &Frame, p: u32, lit: Lit) -> Result<(), AllocError>
    requires place { p < frame.now.places }
    requires within { lit / 2 < frame.now.places }
    requires variables { frame.now.base + frame.now.places ≤ cnf.old.vars }
    ensures vars { cnf.new.vars ≡ cnf.old.vars }
    ensures ok { OnOk result (cnf.new.clauses ≡ cnf.old.clauses ++ (literal_in frame.now.places frame.now.number (literal p true) ∷ literal_in frame.now.places frame.now.number lit ∷ []) ∷ []) }
{
    add_two(cnf, frame.place(p, true), frame.literal(lit))
}

// Both literals together give the variable.
fn add_given(cnf: &mut Cnf, frame: &Frame, p: u32, left: Lit, right: Lit) -> Result<(), AllocError>
    requires place { p < frame.now.places }
    requires left { left / 2 < frame.now.places }
    requires right { right / 2 < frame.now.places }
    requires variables { frame.now.base + frame.now.places ≤ cnf.old.vars }
    ensures vars { cnf.new.vars ≡ cnf.old.vars }
    ensures ok { OnOk result (cnf.new.clauses ≡ cnf.old.clauses ++ (literal_in frame.now.places frame.now.number (literal p false) ∷ literal_in frame.now.places frame.now.number (negated left) ∷ literal_in frame.now.places frame.now.number (negated right) ∷ []) ∷ []) }
{
    add_three(
        cnf,
        frame.place(p, false),
        frame.literal(left.not()),
        frame.literal(right.not()),
    )
}

// A gate's three clauses.
fn add_gate(cnf: &mut Cnf, frame: &Frame, p: u32, left: Lit, right: Lit) -> Result<(), AllocError>
    requires place { p < frame.now.places }
    requires left { left / 2 < frame.now.places }
    requires right { right / 2 < frame.now.places }
    requires variables { frame.now.base + frame.now.places ≤ cnf.old.vars }
    ensures vars { cnf.new.vars ≡ cnf.old.vars }
    ensures ok { OnOk result (cnf.new.clauses ≡ cnf.old.clauses ++ cell_clauses (literal_in frame.now.places) false frame.now.number p (Product left right)) }
{
    add_needs(cnf, frame, p, left)?;
    add_needs(cnf, frame, p, right)?;
    add_given(cnf, frame, p, left, right)
}

// A latch is equal in the first frame to the one as which it starts.
fn add_like(cnf: &mut Cnf, frame: &Frame, p: u32, q: u32) -> Result<(), AllocError>
    requires first { frame.now.number ≡ 0 }
    requires place { p < frame.now.places }
    requires partner { q < frame.now.places }
    requires variables { frame.now.places ≤ cnf.old.vars }
    ensures vars { cnf.new.vars ≡ cnf.old.vars }
    ensures ok { OnOk result (cnf.new.clauses ≡ cnf.old.clauses ++ start_clauses (literal_in frame.now.places) (Like q) p) }
{
    add_two(cnf, frame.place(p, true), frame.place(q, false))?;
    add_two(cnf, frame.place(p, false), frame.place(q, true))
}

// A latch: its place, how it starts, and its next literal.
#[derive(Clone, Copy)]
struct Latch {
    place: u32,
    start: Start,
    next: Lit,
}

// A latch's clauses in the first frame.
fn add_start(cnf: &mut Cnf, frame: &Frame, from_reset: bool, latch: Latch) -> Result<(), AllocError>
    requires first { frame.now.number ≡ 0 }
    requires place { latch.place < frame.now.places }
    requires behind { IsBehind latch.place latch.start }
    requires variables { frame.now.base + frame.now.places ≤ cnf.old.vars }
    ensures vars { cnf.new.vars ≡ cnf.old.vars }
    ensures ok { OnOk result (cnf.new.clauses ≡ cnf.old.clauses ++ latch_clauses (literal_in frame.now.places) from_reset 0 latch.place latch.start latch.next) }
{
    if from_reset {
        match latch.start {
            Start::Zero => add_one(cnf, frame.place(latch.place, true))?,
            Start::One => add_one(cnf, frame.place(latch.place, false))?,
            Start::Free => {}
            Start::Like(q) => add_like(cnf, frame, latch.place, q)?,
        }
    }
    Ok(())
}

// A latch's clauses in the frame after this one.
fn add_next(cnf: &mut Cnf, frame: &Frame, from_reset: bool, latch: Latch) -> Result<(), AllocError>
    requires place { latch.place < frame.now.places }
    requires next { latch.next / 2 < frame.now.places }
    requires room { frame.now.base + 2 * frame.now.places < 2147483648 }
    requires variables { frame.now.base + 2 * frame.now.places ≤ cnf.old.vars }
    ensures vars { cnf.new.vars ≡ cnf.old.vars }
    ensures ok { OnOk result (cnf.new.clauses ≡ cnf.old.clauses ++ latch_clauses (literal_in frame.now.places) from_reset (frame.now.number + 1) latch.place latch.start latch.next) }
{
    let after = Frame {
        places: frame.places,
        number: frame.number + 1,
        base: frame.base + frame.places,
    };
    add_two(
        cnf,
        after.place(latch.place, true),
        frame.literal(latch.next),
    )?;
    add_two(
        cnf,
        after.place(latch.place, false),
        frame.literal(latch.next.not()),
    )
}

// A latch's clauses.
fn add_latch(cnf: &mut Cnf, frame: &Frame, from_reset: bool, latch: Latch) -> Result<(), AllocError>
    requires place { latch.place < frame.now.places }
    requires behind { IsBehind latch.place latch.start }
    requires next { latch.next / 2 < frame.now.places }
    requires variables { frame.now.base + frame.now.places ≤ cnf.old.vars }
    ensures vars { cnf.new.vars ≡ cnf.old.vars }
    ensures ok { OnOk result (cnf.new.clauses ≡ cnf.old.clauses ++ latch_clauses (literal_in frame.now.places) from_reset frame.now.number latch.place latch.start latch.next) }
{
    if frame.number == 0 {
        return add_start(cnf, frame, from_reset, latch);
    }
    let before = Frame {
        places: frame.places,
        number: frame.number - 1,
        base: frame.base - frame.places,
    };
    add_next(cnf, &before, from_reset, latch)
}

// The clauses of the cell at place p in a frame.
fn add_cell(
    cnf: &mut Cnf,
    frame: &Frame,
    from_reset: bool,
    p: u32,
    cell: Cell,
) -> Result<(), AllocError>
    requires place { p < frame.now.places }
    requires rests { Rests frame.now.places p cell }
    requires variables { frame.now.base + frame.now.places ≤ cnf.old.vars }
    ensures vars { cnf.new.vars ≡ cnf.old.vars }
    ensures ok { OnOk result (cnf.new.clauses ≡ cnf.old.clauses ++ cell_clauses (literal_in frame.now.places) from_reset frame.now.number p cell) }
{
    match cell {
        Cell::Low => add_one(cnf, frame.place(p, true))?,
        Cell::Given => {}
        Cell::Held(start, next) => {
            let place = p;
            add_latch(cnf, frame, from_reset, Latch { place, start, next })?
        }
        Cell::Product(left, right) => add_gate(cnf, frame, p, left, right)?,
    }
    Ok(())
}

// The clauses of a frame.
fn add_frame(
    cnf: &mut Cnf,
    frame: &Frame,
    from_reset: bool,
    cells: &[Cell],
) -> Result<(), AllocError>
    requires places { frame.now.places ≡ length cells.now }
    requires arranged { IsArranged cells.now }
    requires variables { frame.now.base + frame.now.places ≤ cnf.old.vars }
    ensures vars { cnf.new.vars ≡ cnf.old.vars }
    ensures ok { OnOk result (cnf.new.clauses ≡ cnf.old.clauses ++ frame_clauses (literal_in (length cells.now)) from_reset cells.now frame.now.number) }
{
    for p in 0..frame.places {
        add_cell(cnf, frame, from_reset, p, cells[p as usize])?;
    }
    Ok(())
}

// The clauses of the first frames.
pub(crate) fn add_frames(
    cnf: &mut Cnf,
    cells: &[Cell],
    from_reset: bool,
    count: u32,
) -> Result<(), AllocError>
    requires some { 0 < count }
    requires arranged { IsArranged cells.now }
    requires room { count * length cells.now < 2147483648 }
    requires variables { count * length cells.now ≤ cnf.old.vars }
    ensures vars { cnf.new.vars ≡ cnf.old.vars }
    ensures ok { OnOk result (cnf.new.clauses ≡ cnf.old.clauses ++ frames (literal_in (length cells.now)) from_reset cells.now count) }
{
    let n = cells.len() as u32;
    for t in 0..count {
        let frame = Frame {
            places: n,
            number: t,
            base: t * n,
        };
        add_frame(cnf, &frame, from_reset, cells)?;
    }
    Ok(())
}
