//! The lines of classes: each class of two or more signals, by the names of its members.
ghost use Rattle.std.specs.Prelude.{◌≡◌, ◌≤◌, ◌<◌, ◌+◌, ◌++◌, ℕ, List, length, IfOk, OnOk};
ghost use Rattle.circ_model.specs.Meaning.{places_of};
ghost use Rattle.class_partition.specs.Classes.{ArePartition, least_of};
ghost use Rattle.class_text.specs.ClassLines.{member_text, members_text, class_line, class_lines};
ghost use Rattle.class_text.specs.Links.{AreLinked, AreNexts};

use crate::names::push_name;
use class_partition::Classes;
use product_machine::Product;
use std::alloc::{AllocError, Global};

// Puts a place before the members of its class that stand past it.
fn link(classes: &Classes, place: u32, next: &mut Vec<u32>, head: &mut Vec<u32>)
    requires place { place < length classes.now.least }
    requires linked { AreLinked (length classes.now.least) classes.now (place + 1) next.old.items head.old.items }
    ensures { AreLinked (length classes.now.least) classes.now place next.new.items head.new.items }
{
    let _places = classes.len();
    let first = classes.rep(place) as usize;
    next[place as usize] = head[first];
    head[first] = place;
}

// For each place the next member of its class, or the number of places.
fn next_members(alloc: Global, classes: &Classes) -> Result<Vec<u32>, AllocError>
    ensures { IfOk result (λ v. AreNexts (length classes.now.least) classes.now v.items) }
{
    let n = classes.len();
    let mut next = vec![in alloc; n; n as usize]?;
    let mut head = vec![in alloc; n; n as usize]?;
    for i in 0..n {
        link(classes, n - 1 - i, &mut next, &mut head);
    }
    Ok(next)
}

// Adds a member of the class with this first member.
fn push_member(
    product: &Product,
    classes: &Classes,
    first: u32,
    place: u32,
    text: &mut Vec<u8>,
) -> Result<(), AllocError>
    requires places { length classes.now.least ≡ places_of product.now }
    requires first { first < places_of product.now }
    requires place { place < places_of product.now }
    ensures { OnOk result (text.new.items ≡ text.old.items ++ member_text product.now classes.now first place) }
{
    text.push(b' ')?;
    if classes.phase(first) != classes.phase(place) {
        text.push(b'!')?;
    }
    push_name(product.signal(place), text)
}

// Adds the members of a class from its first one on.
fn push_members(
    product: &Product,
    classes: &Classes,
    next: &[u32],
    first: u32,
    text: &mut Vec<u8>,
) -> Result<(), AllocError>
    requires partition { ArePartition (places_of product.now) classes.now }
    requires nexts { AreNexts (places_of product.now) classes.now next.now }
    requires first { first < places_of product.now }
    requires least { least_of classes.now first ≡ first }
    ensures { OnOk result (text.new.items ≡ text.old.items ++ members_text product.now classes.now first first) }
{
    let n = product.len();
    let mut place = first;
    'members: while place < n {
        push_member(product, classes, first, place, text)?;
        place = next[place as usize];
    }
    Ok(())
}

// Adds the line of the class that a place begins, where it begins one of two or more members.
fn push_class_line(
    product: &Product,
    classes: &Classes,
    next: &[u32],
    first: u32,
    text: &mut Vec<u8>,
) -> Result<(), AllocError>
    requires partition { ArePartition (places_of product.now) classes.now }
    requires nexts { AreNexts (places_of product.now) classes.now next.now }
    requires first { first < places_of product.now }
    ensures { OnOk result (text.new.items ≡ text.old.items ++ class_line product.now classes.now first) }
{
    if classes.rep(first) != first || next[first as usize] == product.len() {
        return Ok(());
    }
    text.extend_from_slice(b"class")?;
    push_members(product, classes, next, first, text)?;
    text.push(b'\n')?;
    Ok(())
}

/// Adds the class lines, in the order of their first members.
pub fn push_class_lines(
    alloc: Global,
    product: &Product,
    classes: &Classes,
    text: &mut Vec<u8>,
) -> Result<(), AllocError>
    requires partition { ArePartition (places_of product.now) classes.now }
    ensures { OnOk result (text.new.items ≡ text.old.items ++ class_lines product.now classes.now) }
{
    let next = next_members(alloc, classes)?;
    for first in 0..product.len() {
        push_class_line(product, classes, next.as_slice(), first, text)?;
    }
    Ok(())
}
