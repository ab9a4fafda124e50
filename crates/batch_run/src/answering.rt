//! The lines of a batch, one for each pair of its list.
ghost use Rattle.std.specs.Prelude.{◌≡◌, ◌≤◌, ◌<◌, ◌++◌, ◌∷◌, ◌⊎◌, ℕ, List, [], length, decimal, Option, IfOk, OnOk};
ghost use Rattle.circ_model.specs.Meaning.{places_of};
ghost use Rattle.pair_pool.specs.Outcomes.{verdict_of};
ghost use Rattle.pair_pool.specs.Solutions.{AreOutcomes};
ghost use Rattle.run_texts.specs.Lines.{undecided_line};
ghost use Rattle.run_texts.specs.Told.{unpaired_text};
ghost use Rattle.run_texts.specs.Verdicts.{status_of_verdict, verdict_line};
ghost use Rattle.batch_run.specs.Answers.{IsBatch, WritesAnswer, WritesLine};
ghost use Rattle.batch_run.specs.Loads.{AreLoaded, AreWithinProducts, IsLoaded, IsWithinProducts};

use crate::batch::Batch;
use crate::loading::Loaded;
use crate::page::unpaired_page;
use pair_files::Unpaired;
use pair_list::Names;
use pair_pool::{Outcome, Outputs, Solved};
use product_machine::Product;
use run_texts::{different_line, equivalent_line, push_numbers, undecided_head};
use std::alloc::{AllocError, Global};

/// What came of the pairs that have a product, by induction over k frames, in the order of the products.
#[derive(Drop)]
pub(crate) struct Settled<'a> {
    pub(crate) products: &'a [Product],
    pub(crate) solved: &'a [Solved],
    pub(crate) k: u32,
}

// Adds the line of outputs that aren't paired.
fn push_undecided(
    alloc: Global,
    product: &Product,
    k: u32,
    classes: u32,
    outputs: &Outputs,
    text: &mut Vec<u8>,
) -> Result<(), AllocError>
    ensures { OnOk result (text.new.items ≡ text.old.items ++ undecided_line k (places_of product.now) classes outputs.now) }
{
    let head = undecided_head(alloc, k, product.len(), classes)?;
    text.extend_from_slice(head.as_bytes())?;
    push_numbers(alloc, text, outputs.as_slice())?;
    text.push(b'\n')?;
    Ok(())
}

// Adds the line of a verdict, and answers its status.
fn push_verdict(
    alloc: Global,
    product: &Product,
    k: u32,
    outcome: &Outcome,
    text: &mut Vec<u8>,
) -> Result<u8, AllocError>
    ensures line { OnOk result (text.new.items ≡ text.old.items ++ verdict_line k (places_of product.now) (verdict_of outcome.now)) }
    ensures status { IfOk result (λ s. s ≡ status_of_verdict (verdict_of outcome.now)) }
{
    match outcome {
        Outcome::Equivalent(classes) => {
            let line = equivalent_line(alloc, k, product.len(), *classes)?;
            text.extend_from_slice(line.as_bytes())?;
            Ok(0)
        }
        Outcome::Different(frame, output) => {
            let line = different_line(alloc, k, *frame, *output)?;
            text.extend_from_slice(line.as_bytes())?;
            Ok(1)
        }
        Outcome::Undecided(classes, outputs) => {
            push_undecided(alloc, product, k, *classes, outputs, text)?;
            Ok(2)
        }
    }
}

// Adds what is told of files that are no pair.
fn push_refusal(
    alloc: Global,
    names: &Names,
    unpaired: Unpaired,
    text: &mut Vec<u8>,
) -> Result<(), AllocError>
    ensures { OnOk result (text.new.items ≡ text.old.items ++ unpaired_text names.now.0 names.now.1 unpaired) }
{
    let told = unpaired_page(alloc, names.left(), names.right(), unpaired)?;
    text.extend_from_slice(told.as_slice())
}

// Adds the answer of a pair, and answers its status.
fn push_answer(
    alloc: Global,
    names: &Names,
    loaded: Loaded,
    settled: &Settled<'_>,
    text: &mut Vec<u8>,
) -> Result<u8, AllocError>
    requires outcomes { AreOutcomes settled.now.products.now settled.now.k settled.now.solved.now }
    requires place { IsWithinProducts settled.now.products.now loaded }
    ensures answer { (file : List ℕ → Option (List ℕ)) → IsLoaded file settled.now.products.now names.now loaded → IfOk result (WritesAnswer file settled.now.k names.now text.old.items text.new.items) }
    ensures status { IfOk result (λ s. (s ≤ 2) ⊎ (s ≡ 4)) }
{
    match loaded {
        Loaded::Product(at) => {
            let Settled {
                products,
                solved,
                k,
            } = settled;
            push_verdict(alloc, &products[at], *k, &solved[at].outcome, text)
        }
        Loaded::Refused(unpaired) => {
            push_refusal(alloc, names, unpaired, text)?;
            Ok(4)
        }
    }
}

// Adds the number of a pair.
fn push_place(alloc: Global, number: usize, text: &mut Vec<u8>) -> Result<(), AllocError>
    ensures { OnOk result (text.new.items ≡ text.old.items ++ (decimal number ++ 32 ∷ [])) }
{
    let word = format!(in alloc; "{number} ")?;
    text.extend_from_slice(word.as_bytes())
}

// Adds the line of the pair at a place of the list, and answers its status.
fn push_line(
    alloc: Global,
    list: &[Names],
    loaded: &[Loaded],
    settled: &Settled<'_>,
    at: usize,
    text: &mut Vec<u8>,
) -> Result<u8, AllocError>
    requires place { at < length list.now }
    requires loaded { length loaded.now ≡ length list.now }
    requires within { AreWithinProducts settled.now.products.now loaded.now }
    requires outcomes { AreOutcomes settled.now.products.now settled.now.k settled.now.solved.now }
    ensures line { (file : List ℕ → Option (List ℕ)) → AreLoaded file settled.now.products.now list.now loaded.now → IfOk result (WritesLine file settled.now.k list.now at text.old.items text.new.items) }
    ensures status { IfOk result (λ s. (s ≤ 2) ⊎ (s ≡ 4)) }
{
    push_place(alloc, at + 1, text)?;
    let found = loaded[at];
    push_answer(alloc, &list[at], found, settled, text)
}

/// The lines of all pairs, in the list's order, and the greatest status.
pub(crate) fn write_answers(
    alloc: Global,
    list: &[Names],
    loaded: &[Loaded],
    settled: &Settled<'_>,
) -> Result<Batch, AllocError>
    requires loaded { length loaded.now ≡ length list.now }
    requires within { AreWithinProducts settled.now.products.now loaded.now }
    requires outcomes { AreOutcomes settled.now.products.now settled.now.k settled.now.solved.now }
    ensures batch { (file : List ℕ → Option (List ℕ)) → AreLoaded file settled.now.products.now list.now loaded.now → IfOk result (λ b. IsBatch file settled.now.k list.now b.text.items b.status) }
    ensures status { IfOk result (λ b. (b.status ≤ 2) ⊎ (b.status ≡ 4)) }
{
    let mut text = Vec::new(alloc);
    let mut status = 0u8;
    for at in 0..list.len() {
        let one = push_line(alloc, list, loaded, settled, at, &mut text)?;
        status = status.max(one);
    }
    Ok(Batch { text, status })
}
