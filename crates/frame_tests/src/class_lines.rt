//! The lines of classes in certificates.
use crate::circuits::{TOGGLE, pair_is};
use bit_rows::BitRow;
use class_partition::Classes;
use class_text::push_class_lines;
use product_machine::Product;
use std::alloc::{AllocError, Global};
use std::test::Fail;

// One class of so many places, the first two of which are told complements.
fn one_class(alloc: Global, places: u32) -> Result<Classes, AllocError> {
    let mut phases = BitRow::with_len(alloc, places)?;
    if phases.len() > 1 {
        phases.set(1, true);
    }
    Classes::one_class(alloc, &phases)
}

// The lines of that class of all places.
fn lines_of(alloc: Global, product: &Product) -> Result<Vec<u8>, AllocError> {
    let classes = one_class(alloc, product.len())?;
    let mut text = Vec::new(alloc);
    if classes.len() == product.len() {
        push_class_lines(alloc, product, &classes, &mut text)?;
    }
    Ok(text)
}

// Whether the class of two toggling latches and the constant has its line.
fn has_line(alloc: Global, product: &Product) -> bool {
    match lines_of(alloc, product) {
        Ok(text) => text.as_slice() == b"class c !l1 r1\n".as_slice(),
        Err(_) => false,
    }
}

#[test]
fn a_class_is_a_line(rt: HostRuntime) -> Result<(), Fail> {
    assert!(rt; pair_is(rt.alloc(), TOGGLE, TOGGLE, has_line));
    Ok(())
}
