//! The edge between literals as signed numbers, as formulas and logs have them, and their codes, as the solver has them.

ghost use Rattle.std.specs.Prelude.{◌≡◌, ◌≢◌, ◌≤◌, ◌<◌, ◌-◌, ◌*◌, ◌^◌, ◌++◌, pos, ◌≤ℤ◌, ◌<ℤ◌, ℕ, ℤ, neg_ℤ, map, length, slice_index_or, Bool, false, IfOk, OnOk, unsigned_abs};
ghost use Rattle.std.specs.List.{All};
ghost use Rattle.cnf_store.specs.Clauses.{IsLiteral, AreLiterals};
ghost use Rattle.cnf_store.specs.Codes.{AreWithin};
ghost use Rattle.sat_core.specs.Signed.{lit_of, signed_clauses};

use bit_rows::BitRow;
use cnf_store::{Arena, Cnf};
use std::alloc::{AllocError, Global};

// The code of a literal.
fn code_of(lit: i32) -> u32
    requires { (0 < unsigned_abs lit) × (unsigned_abs lit ≤ 2147483647) }
    ensures value { lit_of result ≡ lit }
    ensures within { result < 2 * unsigned_abs lit }
{
    if lit > 0 {
        2 * (lit.unsigned_abs() - 1)
    } else {
        2 * (lit.unsigned_abs() - 1) + 1
    }
}

// The literal of a code.
fn literal_of(code: u32) -> i32
    requires { code < 2 ^ 32 - 2 }
    ensures value { result ≡ lit_of code }
    ensures literal { IsLiteral 2147483647 result }
{
    if code % 2 == 0 {
        (code / 2 + 1) as i32
    } else {
        -((code / 2 + 1) as i32)
    }
}

// The codes of a clause.
fn push_codes(clause: &[i32], vars: u32, codes: &mut Vec<u32>) -> Result<(), AllocError>
    requires few { vars ≤ 2147483647 }
    requires literals { AreLiterals vars clause.now }
    ensures value { IfOk result (λ x. map lit_of codes.new.items ≡ clause.now) }
    ensures within { IfOk result (λ x. All (λ l. l < 2 * vars) codes.new.items) }
{
    codes.clear();
    for lit in clause {
        codes.push(code_of(*lit))?;
    }
    Ok(())
}

/// Appends a formula's clauses by codes.
pub fn add_codes(
    cnf: &Cnf,
    vars: u32,
    codes: &mut Vec<u32>,
    clauses: &mut Arena<u32>,
) -> Result<(), AllocError>
    requires few { vars ≤ 2147483647 }
    requires vars { cnf.now.vars ≤ vars }
    requires within { AreWithin vars clauses.old }
    ensures value { OnOk result (signed_clauses clauses.new ≡ signed_clauses clauses.old ++ cnf.now.clauses) }
    ensures within { OnOk result (AreWithin vars clauses.new) }
{
    for i in 0..cnf.len() {
        push_codes(cnf.clause(i + 1), vars, codes)?;
        clauses.add(codes)?;
    }
    Ok(())
}

/// The literals of codes.
pub fn push_literals(codes: &[u32], literals: &mut Vec<i32>) -> Result<(), AllocError>
    requires { All (λ l. l < 4294967294) codes.now }
    ensures value { OnOk result (literals.new.items ≡ map lit_of codes.now) }
    ensures literals { OnOk result (AreLiterals 2147483647 literals.new.items) }
{
    literals.clear();
    for code in codes {
        literals.push(literal_of(*code))?;
    }
    Ok(())
}

/// A row of bits.
pub fn bits_of(alloc: Global, bits: &[bool]) -> Result<BitRow, AllocError>
    requires { length bits.now < 2 ^ 31 }
    ensures { IfOk result (λ row. row ≡ bits.now) }
{
    let len = bits.len() as u32;
    let mut row = BitRow::with_len(alloc, len)?;
    for i in 0..len {
        row.set(i, bits[i as usize]);
    }
    Ok(row)
}
