//! Rows kept as the bits of their leaves.
use crate::circuits::{LATCH_OF_PRODUCT, PRODUCT_OF_LATCHES, pair_is};
use crate::rows::{has_bits, row_of};
use bit_rows::BitRow;
use leaf_rows::LeafTable;
use product_machine::Product;
use std::alloc::{AllocError, Global};
use std::test::Fail;

// Whether a row of eight places is packed to these five bits, lowest first, and comes back from them.
fn comes_back(
    alloc: Global,
    table: &LeafTable,
    bits: u32,
    leaves: u32,
) -> Result<bool, AllocError> {
    let row = row_of(alloc, 8, bits)?;
    if table.len() != 8 || table.leaves() != 5 || row.len() != 8 {
        return Ok(false);
    }
    let mut packed = BitRow::with_len(alloc, 5)?;
    table.pack(&row, &mut packed);
    let again = table.unpack(alloc, &packed)?;
    Ok(has_bits(&packed, leaves) && has_bits(&again, bits))
}

// Whether the frames of a run are: the constant, two inputs, two latches, their product, the latch, the product of the inputs.
fn frames_come_back(alloc: Global, product: &Product) -> bool {
    let Ok(table) = LeafTable::of(alloc, product) else {
        return false;
    };
    let first = comes_back(alloc, &table, 0b10000110, 0b00011) == Ok(true);
    let second = comes_back(alloc, &table, 0b01111010, 0b11101) == Ok(true);
    let third = comes_back(alloc, &table, 0b00001000, 0b00100) == Ok(true);
    drop(table);
    first && second && third
}

#[test]
fn frames_come_back_from_their_leaves(rt: HostRuntime) -> Result<(), Fail> {
    assert!(rt;
        pair_is(
            rt.alloc(),
            PRODUCT_OF_LATCHES,
            LATCH_OF_PRODUCT,
            frames_come_back
        )
    );
    Ok(())
}
