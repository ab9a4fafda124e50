//! Writing a line of a log.
ghost use Rattle.std.specs.Prelude.{◌≡◌, ◌<◌, ◌^◌, ◌++◌, ◌∷◌, [], Some, OnOk, decimal};
ghost use Rattle.std.specs.Fmt.{signed_decimal};
ghost use Rattle.std.specs.List.{All};
ghost use Rattle.cnf_store.specs.Clauses.{AreLiterals};
ghost use Rattle.sat_log.specs.Texts.{literals_text, hints_text, step_of, step_text};

use itoa::Buffer;
use std::alloc::AllocError;

fn push_literal(literal: i32, into: &mut Vec<u8>) -> Result<(), AllocError>
    ensures { OnOk result (into.new.items ≡ into.old.items ++ signed_decimal literal) }
{
    let mut buffer = Buffer::new();
    into.extend_from_slice(buffer.format(literal).as_bytes())?;
    Ok(())
}

fn push_hint(hint: u64, into: &mut Vec<u8>) -> Result<(), AllocError>
    ensures { OnOk result (into.new.items ≡ into.old.items ++ decimal hint) }
{
    let mut buffer = Buffer::new();
    into.extend_from_slice(buffer.format(hint).as_bytes())?;
    Ok(())
}

fn push_literals(literals: &[i32], into: &mut Vec<u8>) -> Result<(), AllocError>
    ensures { OnOk result (into.new.items ≡ into.old.items ++ literals_text literals.now) }
{
    for literal in literals {
        push_literal(*literal, into)?;
        into.push(b' ')?;
    }
    Ok(())
}

fn push_hints(hints: &[u64], into: &mut Vec<u8>) -> Result<(), AllocError>
    ensures text { OnOk result (into.new.items ≡ into.old.items ++ hints_text hints.now) }
    ensures small { OnOk result (All (λ h. h < 2 ^ 64) hints.now) }
{
    for hint in hints {
        push_hint(*hint, into)?;
        into.push(b' ')?;
    }
    Ok(())
}

// Adds a line with its LF.
pub(crate) fn push_step(
    literals: &[i32],
    hints: &[u64],
    into: &mut Vec<u8>,
) -> Result<(), AllocError>
    ensures text { OnOk result (into.new.items ≡ into.old.items ++ (step_text literals.now hints.now ++ 10 ∷ [])) }
    ensures small { OnOk result (All (λ h. h < 2 ^ 64) hints.now) }
{
    push_literals(literals, into)?;
    into.extend_from_slice(b"0 ")?;
    push_hints(hints, into)?;
    into.extend_from_slice(b"0\n")?;
    Ok(())
}

/// Adds a line with its LF. Read again without the LF, it is that clause with these hints.
#[tactic(auto, using(crate::proofs::Again::step_read))]
pub fn write_step(literals: &[i32], hints: &[u64], into: &mut Vec<u8>) -> Result<(), AllocError>
    requires literals { AreLiterals 2147483647 literals.now }
    requires hints { All (λ h. 0 < h) hints.now }
    ensures text { OnOk result (into.new.items ≡ into.old.items ++ (step_text literals.now hints.now ++ 10 ∷ [])) }
    ensures again { OnOk result (step_of (step_text literals.now hints.now) ≡ Some (record { literals = literals.now; hints = hints.now })) }
{
    push_step(literals, hints, into)?;
    Ok(())
}
