//! Clauses over numbered variables, and what they say of an assignment's bits: gates by Tseitin's three clauses.
ghost use Rattle.std.specs.Prelude.{◌≡◌, ◌<◌, ◌≤◌, ◌+◌, ◌&&◌, ℕ, List, Bool, true, false, not, OnOk, unsigned_abs};
ghost use Rattle.circ_model.specs.Meaning.{bit, signed};
ghost use Rattle.cnf_store.specs.Clauses.{AreLiterals, clause_true, literal_true, satisfies};
ghost use Rattle.and_graph.specs.Lemmas.{Extends};

use cnf_store::Cnf;
use std::alloc::AllocError;

// Variable j + 1, complemented where the sign is set.
pub(crate) fn literal_of(j: u32, sign: bool) -> i32
    requires { j < 2147483647 }
    ensures variable { unsigned_abs result ≡ j + 1 }
    ensures value { (a : List Bool) → literal_true a result ≡ signed sign (bit a j) }
{
    if sign {
        -((j + 1) as i32)
    } else {
        (j + 1) as i32
    }
}

// A clause.
#[tactic(auto, using(crate::proofs::Learning::extends_push))]
fn add_clause(cnf: &mut Cnf, clause: &[i32]) -> Result<(), AllocError>
    requires { AreLiterals cnf.old.vars clause.now }
    ensures vars { cnf.new.vars ≡ cnf.old.vars }
    ensures ok { OnOk result ((a : List Bool) → satisfies a cnf.old.clauses ≡ true → clause_true a clause.now ≡ true → satisfies a cnf.new.clauses ≡ true) }
    ensures on { OnOk result (Extends cnf.old.clauses cnf.new.clauses) }
{
    cnf.add(clause)
}

// One of these two.
fn add_either(cnf: &mut Cnf, x: (u32, bool), y: (u32, bool)) -> Result<(), AllocError>
    requires x { x.0 < cnf.old.vars }
    requires y { y.0 < cnf.old.vars }
    requires few { cnf.old.vars ≤ 2147483647 }
    ensures vars { cnf.new.vars ≡ cnf.old.vars }
    ensures ok { OnOk result ((a : List Bool) → satisfies a cnf.old.clauses ≡ true → (signed x.1 (bit a x.0) ≡ false → signed y.1 (bit a y.0) ≡ true) → satisfies a cnf.new.clauses ≡ true) }
    ensures on { OnOk result (Extends cnf.old.clauses cnf.new.clauses) }
{
    add_clause(cnf, &[literal_of(x.0, x.1), literal_of(y.0, y.1)])
}

// Two literals differ.
#[tactic(auto, using(crate::proofs::Learning::extends_twice))]
pub(crate) fn add_apart(cnf: &mut Cnf, x: (u32, bool), y: (u32, bool)) -> Result<(), AllocError>
    requires x { x.0 < cnf.old.vars }
    requires y { y.0 < cnf.old.vars }
    requires few { cnf.old.vars ≤ 2147483647 }
    ensures vars { cnf.new.vars ≡ cnf.old.vars }
    ensures ok { OnOk result ((a : List Bool) → satisfies a cnf.old.clauses ≡ true → signed x.1 (bit a x.0) ≡ not (signed y.1 (bit a y.0)) → satisfies a cnf.new.clauses ≡ true) }
    ensures on { OnOk result (Extends cnf.old.clauses cnf.new.clauses) }
{
    add_either(cnf, x, y)?;
    add_either(cnf, (x.0, !x.1), (y.0, !y.1))
}

// Two literals are equal.
#[tactic(auto, using(crate::proofs::Learning::extends_twice))]
pub(crate) fn add_equal(cnf: &mut Cnf, x: (u32, bool), y: (u32, bool)) -> Result<(), AllocError>
    requires x { x.0 < cnf.old.vars }
    requires y { y.0 < cnf.old.vars }
    requires few { cnf.old.vars ≤ 2147483647 }
    ensures vars { cnf.new.vars ≡ cnf.old.vars }
    ensures ok { OnOk result ((a : List Bool) → satisfies a cnf.old.clauses ≡ true → signed x.1 (bit a x.0) ≡ signed y.1 (bit a y.0) → satisfies a cnf.new.clauses ≡ true) }
{
    add_either(cnf, (x.0, !x.1), y)?;
    add_either(cnf, x, (y.0, !y.1))
}

// Variable j + 1 is false.
pub(crate) fn add_low(cnf: &mut Cnf, j: u32) -> Result<(), AllocError>
    requires j { j < cnf.old.vars }
    requires few { cnf.old.vars ≤ 2147483647 }
    ensures vars { cnf.new.vars ≡ cnf.old.vars }
    ensures ok { OnOk result ((a : List Bool) → satisfies a cnf.old.clauses ≡ true → bit a j ≡ false → satisfies a cnf.new.clauses ≡ true) }
{
    add_clause(cnf, &[literal_of(j, true)])
}

// Variable j + 1 where both literals are true.
fn add_given(cnf: &mut Cnf, j: u32, left: (u32, bool), right: (u32, bool)) -> Result<(), AllocError>
    requires j { j < cnf.old.vars }
    requires left { left.0 < cnf.old.vars }
    requires right { right.0 < cnf.old.vars }
    requires few { cnf.old.vars ≤ 2147483647 }
    ensures vars { cnf.new.vars ≡ cnf.old.vars }
    ensures ok { OnOk result ((a : List Bool) → satisfies a cnf.old.clauses ≡ true → (signed left.1 (bit a left.0) ≡ true → signed right.1 (bit a right.0) ≡ true → bit a j ≡ true) → satisfies a cnf.new.clauses ≡ true) }
{
    add_clause(
        cnf,
        &[
            literal_of(j, false),
            literal_of(left.0, !left.1),
            literal_of(right.0, !right.1),
        ],
    )
}

// Variable j + 1 is the product of two literals.
pub(crate) fn add_gate(
    cnf: &mut Cnf,
    j: u32,
    left: (u32, bool),
    right: (u32, bool),
) -> Result<(), AllocError>
    requires j { j < cnf.old.vars }
    requires left { left.0 < cnf.old.vars }
    requires right { right.0 < cnf.old.vars }
    requires few { cnf.old.vars ≤ 2147483647 }
    ensures vars { cnf.new.vars ≡ cnf.old.vars }
    ensures ok { OnOk result ((a : List Bool) → satisfies a cnf.old.clauses ≡ true → bit a j ≡ (signed left.1 (bit a left.0) && signed right.1 (bit a right.0)) → satisfies a cnf.new.clauses ≡ true) }
{
    add_either(cnf, (j, true), left)?;
    add_either(cnf, (j, true), right)?;
    add_given(cnf, j, left, right)
}
