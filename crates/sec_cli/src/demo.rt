//! The answer of `demo`: the line of a demo pair, and the verdict of its two netlists.
ghost use Rattle.std.specs.Prelude.{◌≤◌, ◌≡◌, ◌++◌, false, IfOk, is_some};
ghost use Rattle.circ_model.specs.Meaning.{IsSoundPair};
ghost use Rattle.demo_pair.specs.Demo.{IsDemo};
ghost use Rattle.run_texts.specs.Lines.{demo_line};
ghost use Rattle.command_line.specs.Asked.{IsDemoWithin, options_asked};
ghost use Rattle.sec_cli.specs.Answers.{IsDemoAnswer, check_of_demo, is_refined};

use crate::checking::check_pair;
use crate::ending::Reply;
use command_line::{CheckOptions, Demo};
use demo_pair::make_demo;
use product_machine::Product;
use run_texts::demo_line;
use sec_base::Gate;
use std::alloc::{AllocError, Global};
use std::sync::Wait;
use std::thread::Threads;

// The pair of a size.
fn demo_product(alloc: Global, n: u32) -> Result<Product, AllocError>
    requires { n ≤ 100000 }
    ensures { IfOk result (λ p. IsDemo n p.left p.right × (p.tied ≡ false)) }
{
    let (left, right) = make_demo(alloc, n)?;
    Product::new(alloc, left, right).map_err(|_| AllocError)
}

// The check of a demo's pair.
fn check_of(d: &Demo) -> CheckOptions<'static>
    ensures { options_asked result ≡ check_of_demo d.now }
{
    CheckOptions {
        k: d.k,
        depth: d.k,
        workers: d.workers,
        classes: false,
        stats: false,
        trace: None,
        cert: None,
        tied: false,
        least: false,
    }
}

// The line of the demo of a size, and a text after it.
fn headed(alloc: Global, n: u32, text: &[u8]) -> Result<Vec<u8>, AllocError>
    requires { n ≤ 100000 }
    ensures { IfOk result (λ both. both.items ≡ demo_line n ++ text.now) }
{
    let line = demo_line(alloc, n)?;
    let mut both = Vec::from_slice(alloc, line.as_bytes())?;
    both.extend_from_slice(text)?;
    Ok(both)
}

// The line of a demo, and the verdict of this pair.
fn demo_on<R: Threads + Wait + Sync, G: Gate>(
    rt: &R,
    alloc: Global,
    product: &Product,
    d: &Demo,
    gate: &G,
) -> Result<Reply, AllocError>
    requires within { IsDemoWithin d.now }
    requires demo { IsDemo d.now.n product.now.left product.now.right × (product.now.tied ≡ false) }
    ensures answer { IfOk result (IsDemoAnswer d.now) }
    ensures status { IfOk result (λ a. a.status ≤ 2) }
    ensures journal { IfOk result (λ a. is_some a.journal ≡ is_refined a.status) }
{
    let mut answer = check_pair(rt, alloc, product, &check_of(d), gate)?;
    answer.text = headed(alloc, d.n, answer.text.as_slice())?;
    Ok(answer)
}

/// The line of the demo of a size, and the verdict of its pair.
pub(crate) fn demo_answer<R: Threads + Wait + Sync, G: Gate>(
    rt: &R,
    alloc: Global,
    d: &Demo,
    gate: &G,
) -> Result<Reply, AllocError>
    requires { IsDemoWithin d.now }
    ensures answer { IfOk result (IsDemoAnswer d.now) }
    ensures status { IfOk result (λ a. a.status ≤ 2) }
    ensures journal { IfOk result (λ a. is_some a.journal ≡ is_refined a.status) }
{
    let product = demo_product(alloc, d.n)?;
    demo_on(rt, alloc, &product, d, gate)
}
