//! Questions that are put aside, and what taking in their answers comes to.
ghost use Rattle.std.specs.Prelude.{◌<◌, ◌/◌, IfNone, length};
ghost use Rattle.and_graph.specs.Graphs.{AreEqual};

use and_graph::{Asker, Graph, Halt, Pattern};
use circ_model::Lit;
use std::alloc::{AllocError, Global};
use std::test::Fail;

// The product of so many leaves has a cone that no window holds.
const LEAVES: u32 = 40;

fn graph_of_leaves(alloc: Global) -> Result<Graph, AllocError> {
    let mut graph = Graph::new(alloc, 127)?;
    for _ in 0..LEAVES {
        graph.leaf()?;
    }
    Ok(graph)
}

// The product of two literals that a graph has.
fn product(graph: &mut Graph, a: Lit, b: Lit) -> Result<Lit, AllocError> {
    if a.var() >= graph.len() || b.var() >= graph.len() {
        return Err(AllocError);
    }
    graph.and(a, b)
}

// What leaves are taken together by.
#[derive(Clone, Copy)]
enum Fold {
    Product,
    // modulo 2
    Sum,
}

// The product or the sum of all leaves, from one of them on, upwards and then around.
fn folded_from(graph: &mut Graph, fold: Fold, first: u32) -> Result<Lit, AllocError> {
    let mut all = match fold {
        Fold::Product => Lit::of(0, true),
        Fold::Sum => Lit::of(0, false),
    };
    for n in 0..LEAVES {
        let leaf = Lit::of(1 + (first % LEAVES + n) % LEAVES, false);
        all = match fold {
            Fold::Product => product(graph, all, leaf)?,
            Fold::Sum => sum(graph, all, leaf)?,
        };
    }
    Ok(all)
}

// Three products of all leaves, each from another leaf on.
fn products(graph: &mut Graph) -> Result<(Lit, Lit, Lit), AllocError> {
    let first = folded_from(graph, Fold::Product, 0)?;
    let second = folded_from(graph, Fold::Product, 13)?;
    let third = folded_from(graph, Fold::Product, 26)?;
    Ok((first, second, third))
}

fn ask(
    alloc: Global,
    graph: &mut Graph,
    asker: &mut Asker,
    a: Lit,
    b: Lit,
) -> Result<Option<Pattern>, Halt> {
    if a.var() >= graph.len() || b.var() >= graph.len() {
        return Err(Halt::Memory);
    }
    graph.difference_or_pose(alloc, asker, a, b)
}

// Whether a question is put aside.
fn is_put_aside(alloc: Global, graph: &mut Graph, asker: &mut Asker, a: Lit, b: Lit) -> bool {
    match ask(alloc, graph, asker, a, b) {
        Err(Halt::Posed) => true,
        _ => false,
    }
}

// Whether two literals are found equal at once.
fn is_equal(alloc: Global, graph: &mut Graph, asker: &mut Asker, a: Lit, b: Lit) -> bool {
    match ask(alloc, graph, asker, a, b) {
        Ok(None) => true,
        _ => false,
    }
}

// Whether what is put aside is solved, and its answer taken in by a graph.
fn is_taken(alloc: Global, graph: &mut Graph, asker: &mut Asker) -> bool {
    asker.solve(alloc).is_ok() && graph.take_answer(alloc, asker).is_ok()
}

// Whether a graph has one node for two literals.
fn are_same(graph: &Graph, a: Lit, b: Lit) -> bool {
    a.var() < graph.len() && b.var() < graph.len() && graph.same(a, b)
}

// Whether another asker puts a question aside, and its answer is taken in at once.
fn is_merged(alloc: Global, graph: &mut Graph, a: Lit, b: Lit) -> bool {
    match Asker::posing(alloc, 2, 0) {
        Ok(mut asker) => {
            let merged = is_put_aside(alloc, graph, &mut asker, a, b)
                && is_taken(alloc, graph, &mut asker);
            drop(asker);
            merged
        }
        Err(_) => false,
    }
}

// Whether the question about the second and the third of three products is put aside, and its answer merges these after the first two
// were merged, or not; the first is one with them then, or not.
fn comes_to_one(
    alloc: Global,
    graph: &mut Graph,
    asker: &mut Asker,
    merges: bool,
) -> Result<bool, AllocError> {
    let (a, b, c) = products(graph)?;
    Ok(
        is_put_aside(alloc, graph, asker, b, c)
            && (!merges || is_merged(alloc, graph, a, b))
            && is_taken(alloc, graph, asker)
            && are_same(graph, b, c)
            && are_same(graph, a, b) == merges,
    )
}

// Whether what is put aside is solved, and its answer taken in by a graph that doesn't have its nodes.
fn is_taken_elsewhere(alloc: Global, asker: &mut Asker) -> bool {
    match graph_of_leaves(alloc) {
        Ok(mut other) => is_taken(alloc, &mut other, asker),
        Err(_) => false,
    }
}

// Whether the question about two products is put aside, and has to be asked again.
fn is_asked_again(alloc: Global, graph: &mut Graph, asker: &mut Asker, a: Lit, b: Lit) -> bool {
    is_put_aside(alloc, graph, asker, a, b)
        && is_taken_elsewhere(alloc, asker)
        && !are_same(graph, a, b)
        && is_equal(alloc, graph, asker, a, b)
}

// Whether the question about two products is put aside, and its answer isn't taken in by another graph.
fn comes_to_nothing(
    alloc: Global,
    graph: &mut Graph,
    asker: &mut Asker,
) -> Result<bool, AllocError> {
    let (a, b, _) = products(graph)?;
    Ok(is_asked_again(alloc, graph, asker, a, b))
}

// Whether an asker that puts hard questions aside answers a large one at once where none was hard yet.
fn is_answered_while_easy(
    alloc: Global,
    graph: &mut Graph,
    asker: &mut Asker,
) -> Result<bool, AllocError> {
    let (a, b, _) = products(graph)?;
    Ok(is_equal(alloc, graph, asker, a, b))
}

// So many leaves have a parity whose gates no window holds, and two orders of it share none.
const BITS: u32 = 10;

// The parity of two literals that a graph has, by four products, from which it isn't seen that it is a sum.
fn parity(graph: &mut Graph, a: Lit, b: Lit) -> Result<Lit, AllocError> {
    let both = product(graph, a, b)?;
    let left = product(graph, a, both.not())?;
    let right = product(graph, b, both.not())?;
    Ok(product(graph, left.not(), right.not())?.not())
}

// The parity of so many leaves, each so many after the one before, from one of them on.
fn parity_of(graph: &mut Graph, first: u32, step: u32) -> Result<Lit, AllocError> {
    let mut all = Lit::of(0, false);
    for n in 0..BITS {
        let leaf = 1 + (first % BITS + n * (step % BITS)) % BITS;
        all = parity(graph, all, Lit::of(leaf, false))?;
    }
    Ok(all)
}

// Merges two literals, unless values of leaves were found under which they differ.
fn merge_unless(graph: &mut Graph, a: Lit, b: Lit, found: &Option<Pattern>)
    requires left { a / 2 < length graph.old }
    requires right { b / 2 < length graph.old }
    requires equal { IfNone found.now (AreEqual graph.old a b) }
{
    match found {
        None => graph.merge_equal(a, b),
        Some(_) => {}
    }
}

// Merges two literals where they are found equal at once.
fn merges(
    alloc: Global,
    graph: &mut Graph,
    asker: &mut Asker,
    a: Lit,
    b: Lit,
) -> Result<bool, AllocError> {
    if a.var() >= graph.len() || b.var() >= graph.len() {
        return Ok(false);
    }
    let found = graph.difference(alloc, asker, a, b)?;
    merge_unless(graph, a, b, &found);
    Ok(found.is_none())
}

// Whether the parity of three leaves becomes one node, however it is made.
fn is_one_parity(alloc: Global, graph: &mut Graph, asker: &mut Asker) -> Result<bool, AllocError> {
    let (a, b, c) = (Lit::of(2, false), Lit::of(5, false), Lit::of(8, false));
    let low = parity(graph, a, b)?;
    let high = parity(graph, b, c)?;
    let x = parity(graph, low, c)?;
    let y = parity(graph, a, high)?;
    merges(alloc, graph, asker, x, y)
}

// Whether the question about two parities is put aside, and its answer merges them.
fn becomes_one(alloc: Global, graph: &mut Graph, asker: &mut Asker, a: Lit, b: Lit) -> bool {
    is_put_aside(alloc, graph, asker, a, b)
        && is_taken(alloc, graph, asker)
        && are_same(graph, a, b)
}

// Whether three parities become one node, of which the last is asked for where refutations were hard, and nodes were merged near by.
fn parities_become_one(
    alloc: Global,
    graph: &mut Graph,
    asker: &mut Asker,
) -> Result<bool, AllocError> {
    let first = parity_of(graph, 0, 1)?;
    let second = parity_of(graph, 3, 7)?;
    let third = parity_of(graph, 1, 3)?;
    let near = is_one_parity(alloc, graph, asker)?;
    let one = near && becomes_one(alloc, graph, asker, first, second);
    Ok(one && becomes_one(alloc, graph, asker, first, third))
}

// Whether what is put aside rests on two literals.
fn rests_on(graph: &Graph, asker: &Asker, a: Lit, b: Lit) -> bool {
    a.var() < graph.len() && b.var() < graph.len() && graph.rests_on(asker, a, b)
}

// Whether the question about two products rests on them once it is put aside, and on one of them with a literal near their cone, but
// on nothing far, nor on two literals that are one.
fn rests_near(
    alloc: Global,
    graph: &mut Graph,
    asker: &mut Asker,
    asked: (Lit, Lit),
    near: Lit,
    far: (Lit, Lit),
) -> bool {
    let (a, b) = asked;
    !rests_on(graph, asker, a, b)
        && is_put_aside(alloc, graph, asker, a, b)
        && rests_on(graph, asker, a, b)
        && rests_on(graph, asker, a, near)
        && !rests_on(graph, asker, near, far.0)
        && !rests_on(graph, asker, near, far.1)
        && !rests_on(graph, asker, a, a)
}

// Whether it is so of products of all leaves, with one of two leaves near them, and a new leaf and another product of all far.
fn rests_on_what_is_near(
    alloc: Global,
    graph: &mut Graph,
    asker: &mut Asker,
) -> Result<bool, AllocError> {
    let (other, a, b) = products(graph)?;
    let near = product(graph, Lit::of(3, false), Lit::of(7, true))?;
    let new = graph.leaf()?;
    let beside = product(graph, near, new)?;
    Ok(rests_near(alloc, graph, asker, (a, b), near, (beside, other)))
}

// The sum modulo 2 of two literals that a graph has, by three products.
fn sum(graph: &mut Graph, a: Lit, b: Lit) -> Result<Lit, AllocError> {
    let left = product(graph, a, b.not())?;
    let right = product(graph, a.not(), b)?;
    Ok(product(graph, left.not(), right.not())?.not())
}

// Whether two orders of a sum are found equal at once by an asker that puts large questions aside, but not the sum and its complement, nor
// the sum and that of all leaves but one.
fn sums_are_one(alloc: Global, graph: &mut Graph, asker: &mut Asker) -> Result<bool, AllocError> {
    let first = folded_from(graph, Fold::Sum, 0)?;
    let second = folded_from(graph, Fold::Sum, 13)?;
    let less = sum(graph, second, Lit::of(5, false))?;
    Ok(
        is_equal(alloc, graph, asker, first, second)
            && !is_equal(alloc, graph, asker, first, second.not())
            && !is_equal(alloc, graph, asker, first, less),
    )
}

// What is asked in a graph of leaves alone.
#[derive(Clone, Copy)]
enum Case {
    // The answer to a question that was put aside merges, alone or after others were merged.
    Merges,
    MergesAfterOthers,
    // One that doesn't stand isn't taken.
    Refused,
    Easy,
    Parities,
    Near,
    Sums,
}

// Whether a case comes out.
fn comes_out(
    alloc: Global,
    graph: &mut Graph,
    asker: &mut Asker,
    case: Case,
) -> Result<bool, AllocError> {
    match case {
        Case::Merges => comes_to_one(alloc, graph, asker, false),
        Case::MergesAfterOthers => comes_to_one(alloc, graph, asker, true),
        Case::Refused => comes_to_nothing(alloc, graph, asker),
        Case::Easy => is_answered_while_easy(alloc, graph, asker),
        Case::Parities => parities_become_one(alloc, graph, asker),
        Case::Near => rests_on_what_is_near(alloc, graph, asker),
        Case::Sums => sums_are_one(alloc, graph, asker),
    }
}

// The same with an asker that puts hard questions aside, in a graph that is lent, so that a function owns one
// of the two alone.
fn comes_out_in(alloc: Global, graph: &mut Graph, case: Case) -> bool {
    let hard: u64 = match case {
        Case::Easy => 1_000_000,
        _ => 0,
    };
    match Asker::posing(alloc, 2, hard) {
        Ok(mut asker) => {
            let outcome = comes_out(alloc, graph, &mut asker, case) == Ok(true);
            drop(asker);
            outcome
        }
        Err(_) => false,
    }
}

fn holds(alloc: Global, case: Case) -> bool {
    match graph_of_leaves(alloc) {
        Ok(mut graph) => comes_out_in(alloc, &mut graph, case),
        Err(_) => false,
    }
}

#[test]
fn the_answer_to_a_question_that_was_put_aside_merges(rt: HostRuntime) -> Result<(), Fail> {
    assert!(rt; holds(rt.alloc(), Case::Merges));
    assert!(rt; holds(rt.alloc(), Case::MergesAfterOthers));
    Ok(())
}

#[test]
fn an_answer_that_does_not_stand_is_not_taken(rt: HostRuntime) -> Result<(), Fail> {
    assert!(rt; holds(rt.alloc(), Case::Refused));
    Ok(())
}

#[test]
fn a_large_question_is_answered_while_none_was_hard(rt: HostRuntime) -> Result<(), Fail> {
    assert!(rt; holds(rt.alloc(), Case::Easy));
    Ok(())
}

#[test]
fn an_answer_that_rests_on_equal_nodes_merges(rt: HostRuntime) -> Result<(), Fail> {
    assert!(rt; holds(rt.alloc(), Case::Parities));
    Ok(())
}

#[test]
fn a_question_rests_on_what_is_near(rt: HostRuntime) -> Result<(), Fail> {
    assert!(rt; holds(rt.alloc(), Case::Near));
    Ok(())
}

#[test]
fn two_orders_of_a_sum_are_found_equal_at_once(rt: HostRuntime) -> Result<(), Fail> {
    assert!(rt; holds(rt.alloc(), Case::Sums));
    Ok(())
}
