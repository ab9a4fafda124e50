//! The lines that a run prints. Each is made whole before any of it is written.
ghost use Rattle.std.specs.Prelude.{◌≡◌, ◌≤◌, ◌*◌, ◌++◌, codes, decimal, string_bytes, IfOk, OnOk};
ghost use Rattle.run_texts.specs.Lines.{equivalent_line, reduced_line, undecided_head, with_commas, different_line, differs_line, agrees_line, demo_line};

use std::alloc::{AllocError, Global};

/// The line of a demo.
pub fn demo_line(alloc: Global, n: u32) -> Result<String, AllocError>
    requires { n ≤ 100000 }
    ensures { IfOk result (λ line. string_bytes line ≡ demo_line n) }
{
    let gates = 6 * n;
    format!(in alloc; "demo n={n} inputs={n} latches={n} gates={gates} outputs={n}\n")
}

/// The line of an equivalent verdict.
pub fn equivalent_line(
    alloc: Global,
    k: u32,
    signals: u32,
    classes: u32,
) -> Result<String, AllocError>
    ensures { IfOk result (λ line. string_bytes line ≡ equivalent_line k signals classes) }
{
    format!(in alloc; "equivalent k={k} signals={signals} classes={classes}\n")
}

/// The line of a reduced netlist.
pub fn reduced_line(
    alloc: Global,
    k: u32,
    signals: u32,
    classes: u32,
    latches: usize,
    gates: usize,
) -> Result<String, AllocError>
    ensures { IfOk result (λ line. string_bytes line ≡ reduced_line k signals classes latches gates) }
{
    format!(in alloc;
        "reduced k={k} signals={signals} classes={classes} latches={latches} gates={gates}\n"
    )
}

/// The line of a verdict that leaves outputs unpaired, up to their numbers.
pub fn undecided_head(
    alloc: Global,
    k: u32,
    signals: u32,
    classes: u32,
) -> Result<String, AllocError>
    ensures { IfOk result (λ line. string_bytes line ≡ undecided_head k signals classes) }
{
    format!(in alloc; "undecided k={k} signals={signals} classes={classes} unpaired=")
}

/// The line of a verdict that tells a difference.
pub fn different_line(alloc: Global, k: u32, frame: u64, output: u32) -> Result<String, AllocError>
    ensures { IfOk result (λ line. string_bytes line ≡ different_line k frame output) }
{
    format!(in alloc; "different k={k} frame={frame} output={output}\n")
}

/// The line of a trace that differs.
pub fn differs_line(alloc: Global, frame: u64, output: u32) -> Result<String, AllocError>
    ensures { IfOk result (λ line. string_bytes line ≡ differs_line frame output) }
{
    format!(in alloc; "differs frame={frame} output={output}\n")
}

/// The line of a trace on which all outputs agree.
pub fn agrees_line(alloc: Global, frames: u64) -> Result<String, AllocError>
    ensures { IfOk result (λ line. string_bytes line ≡ agrees_line frames) }
{
    format!(in alloc; "agrees frames={frames}\n")
}

// A number, and what stands before it.
fn push_number(alloc: Global, text: &mut Vec<u8>, number: u32) -> Result<(), AllocError>
    ensures { OnOk result (text.new.items ≡ text.old.items ++ decimal number) }
{
    let word = format!(in alloc; "{number}")?;
    text.extend_from_slice(word.as_bytes())
}

/// Numbers with commas between them.
pub fn push_numbers(alloc: Global, text: &mut Vec<u8>, numbers: &[u32]) -> Result<(), AllocError>
    ensures { OnOk result (text.new.items ≡ text.old.items ++ with_commas numbers.now) }
{
    let Some((first, rest)) = numbers.split_first() else {
        return Ok(());
    };
    push_number(alloc, text, *first)?;
    for number in rest {
        text.push(b',')?;
        push_number(alloc, text, *number)?;
    }
    Ok(())
}
