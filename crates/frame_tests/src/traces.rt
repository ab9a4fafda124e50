//! Traces: what is read, written, and where they differ first.
ghost use Rattle.std.specs.Prelude.{◌<◌};
ghost use Rattle.circ_model.specs.Meaning.{IsPath, IsRun, outputs_of};

use crate::circuits::{
    BOTH_KEPT, BOTH_KEPT_CROSSED, LOW, LOW_AND_KEPT, TOGGLE, pair_is, tied_pair_is,
};
use product_machine::{Path, Product, Scratch};
use std::alloc::Global;
use std::test::Fail;
use trace_witness::*;

// Whether this is the first fault of a text.
fn is_fault(alloc: Global, product: &Product, text: &str, kind: TraceKind, line: u64) -> bool {
    match read_trace(alloc, product, text.as_bytes()) {
        Err(TraceError::Refused(fault)) => fault == TraceFault { kind, line },
        _ => false,
    }
}

// Whether a trace is written as this text.
fn is_written(alloc: Global, product: &Product, trace: &Trace, text: &str) -> bool
    requires run { IsRun product.now trace.now.run }
    requires output { trace.now.output < outputs_of product.now }
{
    match write_trace(alloc, product, trace.output, &trace.run) {
        Ok(written) => written.as_slice() == text.as_bytes(),
        Err(_) => false,
    }
}

// Whether a text is read and written as it stands.
fn is_written_again(alloc: Global, product: &Product, text: &str) -> bool {
    match read_trace(alloc, product, text.as_bytes()) {
        Ok(trace) => is_written(alloc, product, &trace, text),
        Err(_) => false,
    }
}

// Whether the outputs of a run differ first in this frame, and there this one.
fn run_differs_first(alloc: Global, product: &Product, run: &Path, first: (u64, u32)) -> bool
    requires { IsPath product.now run.now }
{
    match Scratch::for_product(alloc, product) {
        Ok(mut scratch) => first_difference(product, run, &mut scratch) == Some(first),
        Err(_) => false,
    }
}

// Whether the outputs of a text differ first in this frame, and there this one.
fn differs_first(alloc: Global, product: &Product, text: &str, first: (u64, u32)) -> bool {
    match read_trace(alloc, product, text.as_bytes()) {
        Ok(trace) => run_differs_first(alloc, product, &trace.run, first),
        Err(_) => false,
    }
}

// Texts of a toggling latch and the constant with their faults.
fn faults_are_told(alloc: Global, product: &Product) -> bool {
    const BAD_TEXTS: &[(&str, TraceKind, u64)] = &[
        ("0\n", TraceKind::Line, 1),
        ("1\nb1\n0\n\n.\n", TraceKind::Line, 2),
        ("1\nb0\n00\n\n.\n", TraceKind::Length, 3),
        ("1\nb0\nx\n\n.\n", TraceKind::Unknown, 3),
        ("1\nb0\n1\n\n.\n", TraceKind::Reset, 3),
        ("1\nb0\n0\n", TraceKind::Truncated, 4),
    ];
    for &(text, kind, line) in BAD_TEXTS {
        if !is_fault(alloc, product, text, kind, line) {
            return false;
        }
    }
    true
}

// Whether the toggling latch leaves the constant in frame 1 of a text, which is written as it stands.
fn toggle_is_replayed(alloc: Global, product: &Product) -> bool {
    const TEXT: &str = "1\nb0\n0\n\n\n.\n";
    differs_first(alloc, product, TEXT, (1, 0)) && is_written_again(alloc, product, TEXT)
}

#[test]
fn traces_are_refused_or_replayed(rt: HostRuntime) -> Result<(), Fail> {
    assert!(rt; pair_is(rt.alloc(), TOGGLE, LOW, faults_are_told));
    assert!(rt; pair_is(rt.alloc(), TOGGLE, LOW, toggle_is_replayed));
    Ok(())
}

// Whether texts for a pair have these faults in line 3, or none.
fn starts_are_told(alloc: Global, product: &Product, starts: &[(&str, Option<TraceKind>)]) -> bool {
    for &(text, kind) in starts {
        let told = match kind {
            Some(kind) => is_fault(alloc, product, text, kind, 3),
            None => is_written_again(alloc, product, text),
        };
        if !told {
            return false;
        }
    }
    true
}

fn broken_tie_is_told(alloc: Global, product: &Product) -> bool {
    const STARTS: &[(&str, Option<TraceKind>)] = &[
        ("1\nb0\n1001\n\n.\n", Some(TraceKind::Reset)),
        ("1\nb0\n0001\n\n.\n", Some(TraceKind::Tie)),
        ("1\nb0\n0101\n\n.\n", None),
    ];
    starts_are_told(alloc, product, STARTS)
}

#[test]
fn a_broken_tie_is_told_after_the_resets(rt: HostRuntime) -> Result<(), Fail> {
    assert!(rt; tied_pair_is(rt.alloc(), LOW_AND_KEPT, LOW_AND_KEPT, broken_tie_is_told));
    Ok(())
}

fn latches_are_tied_in_order(alloc: Global, product: &Product) -> bool {
    const STARTS: &[(&str, Option<TraceKind>)] = &[
        ("1\nb0\n0110\n\n.\n", Some(TraceKind::Tie)),
        ("1\nb0\n1000\n\n.\n", Some(TraceKind::Tie)),
        ("1\nb0\n0101\n\n.\n", None),
    ];
    starts_are_told(alloc, product, STARTS)
}

#[test]
fn free_latches_are_tied_in_their_order(rt: HostRuntime) -> Result<(), Fail> {
    assert!(rt;
        tied_pair_is(
            rt.alloc(),
            BOTH_KEPT,
            BOTH_KEPT_CROSSED,
            latches_are_tied_in_order
        )
    );
    Ok(())
}

fn no_tie_is_told(alloc: Global, product: &Product) -> bool {
    const STARTS: &[(&str, Option<TraceKind>)] = &[
        ("1\nb0\n0110\n\n.\n", None),
        ("1\nb0\n1000\n\n.\n", None),
        ("1\nb0\n0101\n\n.\n", None),
    ];
    starts_are_told(alloc, product, STARTS)
}

#[test]
fn no_tie_is_told_of_an_untied_pair(rt: HostRuntime) -> Result<(), Fail> {
    assert!(rt; pair_is(rt.alloc(), BOTH_KEPT, BOTH_KEPT_CROSSED, no_tie_is_told));
    Ok(())
}
