//! One clause under what is assumed: false, with one literal open, or neither.

ghost use Rattle.std.specs.Prelude.{◌≡◌, ◌≢◌, ◌<◌, ◌≤◌, ◌*◌, ◌+◌, ◌++◌, ◌∷◌, [], ℕ, ℤ, pos, neg_ℤ, Bool, true, false, length, IfOk, unsigned_abs};
ghost use Rattle.std.specs.List.{All};
ghost use Rattle.cnf_store.specs.Clauses.{IsLiteral, AreLiterals};
ghost use Rattle.log_check.specs.Marks.{code, mark_at, AreMarks, IsScan, IsOther};

use std::alloc::AllocError;

/// What a clause is under what is assumed.
#[derive(Drop)]
pub enum Scan {
    /// All its literals are false.
    Conflict,
    /// All but this one, which is open.
    Unit(i32),
    /// A literal is true, or two are open.
    Neither,
}

/// The place of a literal among the marks.
pub fn place_of(lit: i32) -> usize
    ensures { result ≡ code lit }
{
    let twice = 2 * lit.unsigned_abs() as usize;
    if lit < 0 { twice + 1 } else { twice }
}

/// Whether a literal is assumed.
pub fn is_marked(marks: &[bool], lit: i32) -> bool
    ensures { result ≡ mark_at marks.now lit }
{
    let place = place_of(lit);
    if place < marks.len() {
        marks[place]
    } else {
        false
    }
}

// Whether a literal's complement is assumed.
fn is_false(marks: &[bool], lit: i32) -> bool
    requires { IsLiteral 2147483647 lit }
    ensures { result ≡ mark_at marks.now (neg_ℤ lit) }
{
    is_marked(marks, -lit)
}

// Whether a literal is open beside another one. No literal is 0.
fn is_other(unit: i32, lit: i32) -> bool
    ensures { IsOther result unit lit }
{
    unit != 0 && unit != lit
}

/// What the clause is under these marks.
pub fn scan_clause(marks: &[bool], assumed: &[i32], clause: &[i32]) -> Scan
    requires marks { AreMarks marks.now assumed.now }
    requires within { AreLiterals 2147483647 clause.now }
    ensures { IsScan assumed.now clause.now result }
{
    let mut unit = 0;
    for lit in clause {
        if is_false(marks, *lit) {
            continue;
        }
        if is_marked(marks, *lit) {
            return Scan::Neither;
        }
        if is_other(unit, *lit) {
            return Scan::Neither;
        }
        unit = *lit;
    }
    if unit == 0 {
        Scan::Conflict
    } else {
        Scan::Unit(unit)
    }
}

/// Assumes one more literal.
pub fn assume(marks: &mut [bool], assumed: &mut Vec<i32>, lit: i32) -> Result<(), AllocError>
    requires marks { AreMarks marks.old assumed.old.items }
    requires within { code lit < length marks.old }
    ensures ok { IfOk result (λ x. (assumed.new.items ≡ assumed.old.items ++ lit ∷ []) × AreMarks marks.new assumed.new.items) }
    ensures size { length marks.new ≡ length marks.old }
{
    assumed.push(lit)?;
    marks[place_of(lit)] = true;
    Ok(())
}
