//! Literals of places in frames, and clauses of one, two and three literals.
ghost use Rattle.std.specs.Prelude.{◌≡◌, ◌<◌, ◌≤◌, ◌+◌, ◌*◌, ◌/◌, ◌++◌, ◌∷◌, [], ℕ, ℤ, List, Bool, OnOk, length, take, unsigned_abs};
ghost use Rattle.circ_model.specs.Meaning.{literal};
ghost use Rattle.cnf_store.specs.Clauses.{IsLiteral, AreLiterals};
ghost use Rattle.frame_unroll.specs.Frames.{cnf_literal, literal_in};

use circ_model::Lit;
use cnf_store::Cnf;
use std::alloc::AllocError;

// The literal of the variable past this many.
#[tactic(auto, using(crate::proofs::Within::literal_size))]
pub(crate) fn cnf_literal(positive: bool, m: u32) -> i32
    requires { m < 2147483647 }
    ensures value { result ≡ cnf_literal positive m }
    ensures variable { unsigned_abs result ≡ m + 1 }
{
    if positive {
        (m + 1) as i32
    } else {
        -((m + 1) as i32)
    }
}

// Where the variables of a frame stand, by its number: past those of the frames before it, one for each place.
#[derive(Drop)]
pub(crate) struct Frame {
    pub places: u32,
    pub number: u32,
    pub base: u32,
    ghost begins: { base ≡ number * places },
    ghost room: { base + places < 2147483648 },
}

impl Frame {
    // The literal of a literal of the pair.
    pub(crate) fn literal(&self, lit: Lit) -> i32
        requires within { lit / 2 < self.now.places }
        ensures value { result ≡ literal_in self.now.places self.now.number lit }
        ensures some { 0 < unsigned_abs result }
        ensures within { unsigned_abs result ≤ self.now.base + self.now.places }
    {
        cnf_literal(!lit.complement(), self.base + lit.var())
    }

    // The literal of a place.
    pub(crate) fn place(&self, p: u32, complement: bool) -> i32
        requires place { p < self.now.places }
        ensures value { result ≡ literal_in self.now.places self.now.number (literal p complement) }
        ensures some { 0 < unsigned_abs result }
        ensures within { unsigned_abs result ≤ self.now.base + self.now.places }
    {
        self.literal(Lit::of(p, complement))
    }
}

// A clause of any literals.
pub(crate) fn add_clause(cnf: &mut Cnf, clause: &[i32]) -> Result<(), AllocError>
    requires literals { AreLiterals cnf.old.vars clause.now }
    ensures vars { cnf.new.vars ≡ cnf.old.vars }
    ensures ok { OnOk result (cnf.new.clauses ≡ cnf.old.clauses ++ clause.now ∷ []) }
    ensures kept { take (length cnf.old.clauses) cnf.new.clauses ≡ cnf.old.clauses }
{
    cnf.add(clause)
}

pub(crate) fn add_one(cnf: &mut Cnf, x: i32) -> Result<(), AllocError>
    requires x { IsLiteral cnf.old.vars x }
    ensures vars { cnf.new.vars ≡ cnf.old.vars }
    ensures ok { OnOk result (cnf.new.clauses ≡ cnf.old.clauses ++ (x ∷ []) ∷ []) }
    ensures kept { take (length cnf.old.clauses) cnf.new.clauses ≡ cnf.old.clauses }
{
    add_clause(cnf, &[x])
}

pub(crate) fn add_two(cnf: &mut Cnf, x: i32, y: i32) -> Result<(), AllocError>
    requires x { IsLiteral cnf.old.vars x }
    requires y { IsLiteral cnf.old.vars y }
    ensures vars { cnf.new.vars ≡ cnf.old.vars }
    ensures ok { OnOk result (cnf.new.clauses ≡ cnf.old.clauses ++ (x ∷ y ∷ []) ∷ []) }
    ensures kept { take (length cnf.old.clauses) cnf.new.clauses ≡ cnf.old.clauses }
{
    add_clause(cnf, &[x, y])
}

pub(crate) fn add_three(cnf: &mut Cnf, x: i32, y: i32, z: i32) -> Result<(), AllocError>
    requires x { IsLiteral cnf.old.vars x }
    requires y { IsLiteral cnf.old.vars y }
    requires z { IsLiteral cnf.old.vars z }
    ensures vars { cnf.new.vars ≡ cnf.old.vars }
    ensures ok { OnOk result (cnf.new.clauses ≡ cnf.old.clauses ++ (x ∷ y ∷ z ∷ []) ∷ []) }
    ensures kept { take (length cnf.old.clauses) cnf.new.clauses ≡ cnf.old.clauses }
{
    add_clause(cnf, &[x, y, z])
}
