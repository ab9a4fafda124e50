//! Literals of a frame, read from those of its places.
ghost use Rattle.std.specs.Prelude.{◌≡◌, ◌<◌, ◌≤◌, ◌+◌, ◌/◌, ℕ, List, Bool, length, slice_index};
ghost use Rattle.circ_model.specs.Meaning.{bit, is_odd, literal_value, signed, value_in};
ghost use Rattle.circ_model.specs.Correspondence.{HoldsIn};
ghost use Rattle.class_partition.specs.Classes.{least_of, needed, phase_of};

use circ_model::Lit;
use class_partition::Classes;

// A literal, complemented where the sign is set.
pub(crate) fn turned(sign: bool, lit: Lit) -> Lit
    ensures place { result / 2 ≡ lit / 2 }
    ensures value { (v : ℕ → Bool) → literal_value v result ≡ signed sign (literal_value v lit) }
{
    if sign { lit.not() } else { lit }
}

// The literal that a literal of the pair has in the frame whose literals begin there.
pub(crate) fn literal_from(literals: &[Lit], begin: usize, lit: Lit) -> Lit
    requires { begin + lit / 2 < length literals.now }
    ensures place { result / 2 ≡ slice_index literals.now (begin + lit / 2) / 2 }
    ensures value { (v : ℕ → Bool) (row : List Bool) → literal_value v (slice_index literals.now (begin + lit / 2)) ≡ bit row (lit / 2) → literal_value v result ≡ value_in row lit }
{
    turned(lit.complement(), literals[begin + lit.var() as usize])
}

// The phase of a place relative to its class's least place.
pub(crate) fn relative_phase(classes: &Classes, least: u32, p: u32) -> bool
    requires least { least < length classes.now.least }
    requires place { p < length classes.now.least }
    ensures { result ≡ signed (phase_of classes.now least) (phase_of classes.now p) }
{
    if classes.phase(least) {
        !classes.phase(p)
    } else {
        classes.phase(p)
    }
}

// The literal of a place by that of its class's least place, in the frame whose literals begin there.
pub(crate) fn class_literal(classes: &Classes, literals: &[Lit], begin: usize, p: u32) -> Lit
    requires place { p < length classes.now.least }
    requires least { begin + least_of classes.now p < length literals.now }
    ensures place { result / 2 ≡ slice_index literals.now (begin + least_of classes.now p) / 2 }
    ensures value { (v : ℕ → Bool) (row : List Bool) → HoldsIn row (needed classes.now p) → literal_value v (slice_index literals.now (begin + least_of classes.now p)) ≡ bit row (least_of classes.now p)
        → literal_value v result ≡ bit row p }
{
    let _places = classes.len();
    let least = classes.rep(p);
    let sign = relative_phase(classes, least, p);
    turned(sign, literals[begin + least as usize])
}

// The literals of a needed pair in the frame whose literals begin there: the least place's, and the place's at their relative
// phase.
pub(crate) fn needed_literals(
    classes: &Classes,
    literals: &[Lit],
    begin: usize,
    p: u32,
) -> (Lit, Lit)
    requires place { p < length classes.now.least }
    requires literals { begin + p < length literals.now }
    ensures least { result.0 ≡ slice_index literals.now (begin + least_of classes.now p) }
    ensures place { result.1 / 2 ≡ slice_index literals.now (begin + p) / 2 }
    ensures value { (v : ℕ → Bool) → literal_value v result.1 ≡ signed (signed (phase_of classes.now (least_of classes.now p)) (phase_of classes.now p)) (literal_value v (slice_index literals.now (begin + p))) }
    ensures lower { least_of classes.now p ≤ p }
{
    let _places = classes.len();
    let least = classes.rep(p);
    let sign = relative_phase(classes, least, p);
    (
        literals[begin + least as usize],
        turned(sign, literals[begin + p as usize]),
    )
}
