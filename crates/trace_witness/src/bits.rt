//! Lines of bits: what is wrong with them, and the rows that they spell.
ghost use Rattle.std.specs.Prelude.{◌≡◌, ◌<◌, ◌↔◌, IsTrue, [], length, IfNone, IfOk};
ghost use Rattle.circ_model.specs.Meaning.{latches_of, resets};
ghost use Rattle.product_machine.specs.States.{StartsLike};
ghost use Rattle.trace_witness.specs.Bits.{is_mark, are_marks, has_unknown, bits_fault, bit_of, bits_of, clashes, is_against, breaks_tie, start_fault};

use crate::fault::TraceKind;
use bit_rows::BitRow;
use circ_model::Reset;
use product_machine::Product;
use std::alloc::{AllocError, Global};

fn is_mark(b: u8) -> bool
    ensures { result ≡ is_mark b }
{
    b == b'0' || b == b'1' || b == b'x'
}

fn are_marks(line: &[u8]) -> bool
    ensures { result ≡ are_marks line.now }
{
    for b in line {
        if !is_mark(*b) {
            return false;
        }
    }
    true
}

fn has_unknown(line: &[u8]) -> bool
    ensures { result ≡ has_unknown line.now }
{
    for b in line {
        if *b == b'x' {
            return true;
        }
    }
    false
}

// What is wrong with a line of so many bits.
pub fn bits_fault(line: &[u8], width: u32) -> Option<TraceKind>
    ensures fault { result ≡ bits_fault width line.now }
    ensures length { IfNone result (length line.now ≡ width) }
{
    if !are_marks(line) {
        return Some(TraceKind::Line);
    }
    if line.len() != width as usize {
        return Some(TraceKind::Length);
    }
    if has_unknown(line) {
        return Some(TraceKind::Unknown);
    }
    None
}

fn clashes(reset: Reset, bit: bool) -> bool
    ensures { result ≡ clashes reset bit }
{
    match reset {
        Reset::Zero => bit,
        Reset::One => !bit,
        Reset::Free => false,
    }
}

fn is_against(product: &Product, line: &[u8]) -> bool
    requires { length line.now ≡ latches_of product.now }
    ensures { result ≡ is_against (resets product.now) (bits_of line.now) }
{
    for i in 0..product.latches() {
        if clashes(product.reset(i), line[i as usize] == b'1') {
            return true;
        }
    }
    false
}

// Whether latch i starts as its partner, where it has one.
fn starts_like(product: &Product, line: &[u8], i: u32) -> bool
    requires line { length line.now ≡ latches_of product.now }
    requires latch { i < latches_of product.now }
    ensures { IsTrue result ↔ StartsLike product.now (record { start = bits_of line.now; inputs = [] }) i }
{
    match product.tie(i) {
        None => true,
        Some(partner) => (line[i as usize] == b'1') == (line[partner as usize] == 49),
    }
}

fn breaks_tie(product: &Product, line: &[u8]) -> bool
    requires { length line.now ≡ latches_of product.now }
    ensures { result ≡ breaks_tie product.now (bits_of line.now) }
{
    for i in 0..product.latches() {
        if !starts_like(product, line, i) {
            return true;
        }
    }
    false
}

// What is wrong with a line of start bits.
pub fn start_fault(product: &Product, line: &[u8]) -> Option<TraceKind>
    ensures fault { result ≡ start_fault product.now line.now }
    ensures length { IfNone result (length line.now ≡ latches_of product.now) }
{
    if let Some(kind) = bits_fault(line, product.latches()) {
        return Some(kind);
    }
    if is_against(product, line) {
        return Some(TraceKind::Reset);
    }
    if breaks_tie(product, line) {
        return Some(TraceKind::Tie);
    }
    None
}

// The row that a line spells.
pub fn row_of(alloc: Global, line: &[u8], width: u32) -> Result<BitRow, AllocError>
    requires { length line.now ≡ width }
    ensures { IfOk result (λ r. r ≡ bits_of line.now) }
{
    let mut row = BitRow::with_len(alloc, width)?;
    for i in 0..width {
        row.set(i, line[i as usize] == b'1');
    }
    Ok(row)
}
