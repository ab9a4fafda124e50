//! The answer of `reduce`: a netlist without its equal signals, and the line that counts what stays.
ghost use Rattle.std.specs.Prelude.{◌≡◌, ◌≤◌, IsTrue, is_some, length, IfOk};
ghost use Rattle.circ_model.specs.Meaning.{places_of};
ghost use Rattle.class_partition.specs.Classes.{ArePartition, AreOfGreatest, class_count};
ghost use Rattle.command_line.specs.Asked.{reduce_asked, IsReduceWithin};
ghost use Rattle.run_texts.specs.Lines.{reduced_line};
ghost use Rattle.sec_cli.specs.Reductions.{IsJournalOfReduction, IsReduceAnswer, beside_stub, stored_as};

use crate::ending::Reply;
use aig_graph::Netlist;
use aiger_codec::{write_binary_net, write_text_net};
use class_partition::Classes;
use command_line::Reduce;
use net_reduce::{reduce, stub};
use product_machine::Product;
use refine_board::Journal;
use run_texts::reduced_line;
use sec_base::Gate;
use split_workers::{Refined, refine};
use std::alloc::{AllocError, Global};
use std::sync::Wait;
use std::thread::Threads;

// The netlist with its stub.
fn beside_stub(alloc: Global, net: Netlist) -> Result<Product, AllocError>
    ensures { IfOk result (λ p. p ≡ beside_stub net) }
{
    let other = stub(alloc, &net)?;
    Product::new(alloc, net, other).map_err(|_| AllocError)
}

// The bytes that are stored of a netlist.
fn file_of(alloc: Global, net: &Netlist, binary: bool) -> Result<Vec<u8>, AllocError>
    ensures { IfOk result (λ file. file.items ≡ stored_as binary net.now) }
{
    if binary {
        write_binary_net(alloc, net)
    } else {
        write_text_net(alloc, net)
    }
}

// The line that counts what stays.
fn text_of(
    alloc: Global,
    product: &Product,
    r: &Reduce,
    classes: &Classes,
    less: &Netlist,
) -> Result<Vec<u8>, AllocError>
    requires places { length classes.now.least ≡ places_of product.now }
    ensures { IfOk result (λ text. text.items ≡ reduced_line r.now.k (places_of product.now) (class_count (places_of product.now) classes.now) (length less.now.latches) (length less.now.gates)) }
{
    let line = reduced_line(
        alloc,
        r.k,
        product.len(),
        classes.count(),
        less.latches().len(),
        less.gates().len(),
    )?;
    Vec::from_slice(alloc, line.as_bytes())
}

// The answer by the classes of the greatest correspondence.
fn answer_by(
    alloc: Global,
    product: &Product,
    r: &Reduce,
    classes: &Classes,
    journal: Journal,
) -> Result<Reply, AllocError>
    requires stub { product.now ≡ beside_stub product.now.left }
    requires partition { ArePartition (places_of product.now) classes.now }
    requires greatest { AreOfGreatest product.now r.now.k classes.now }
    requires journal { IsJournalOfReduction product.now (reduce_asked r.now) journal.entries }
    ensures answer { IfOk result (IsReduceAnswer product.now.left (reduce_asked r.now)) }
    ensures status { IfOk result (λ a. a.status ≤ 2) }
    ensures journal { IfOk result (λ a. IsTrue (is_some a.journal)) }
{
    let less = reduce(alloc, product, r.k, classes)?;
    let text = text_of(alloc, product, r, classes, &less)?;
    let file = file_of(alloc, &less, r.binary)?;
    Ok(Reply {
        status: 0,
        text,
        file,
        journal: Some(journal),
    })
}

// The answer for a netlist with its stub.
fn reduce_pair<R: Threads + Wait + Sync, G: Gate>(
    rt: &R,
    alloc: Global,
    product: &Product,
    r: &Reduce,
    gate: &G,
) -> Result<Reply, AllocError>
    requires stub { product.now ≡ beside_stub product.now.left }
    requires within { IsReduceWithin (reduce_asked r.now) }
    ensures answer { IfOk result (IsReduceAnswer product.now.left (reduce_asked r.now)) }
    ensures status { IfOk result (λ a. a.status ≤ 2) }
    ensures journal { IfOk result (λ a. IsTrue (is_some a.journal)) }
{
    let Refined {
        version,
        journal,
        ..
    } = refine(rt, alloc, product, r.k, r.workers, gate)?;
    let answer = answer_by(alloc, product, r, version.classes(), journal);
    drop(version);
    answer
}

/// What a netlist is reduced to, as it is stored, and what stays of it, as it is printed.
pub(crate) fn reduce_net<R: Threads + Wait + Sync, G: Gate>(
    rt: &R,
    alloc: Global,
    net: Netlist,
    r: &Reduce,
    gate: &G,
) -> Result<Reply, AllocError>
    requires { IsReduceWithin (reduce_asked r.now) }
    ensures answer { IfOk result (IsReduceAnswer net (reduce_asked r.now)) }
    ensures status { IfOk result (λ a. a.status ≤ 2) }
    ensures journal { IfOk result (λ a. IsTrue (is_some a.journal)) }
{
    let product = beside_stub(alloc, net)?;
    reduce_pair(rt, alloc, &product, r, gate)
}
