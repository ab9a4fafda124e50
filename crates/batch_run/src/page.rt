//! A text in memory that is written as a sink is.
ghost use Rattle.std.specs.Prelude.{◌≡◌, ◌≤◌, ◌<◌, [], Some, length, take, IfOk, OnErr};
ghost use Rattle.sec_base.specs.Faults.{Rose, appended};
ghost use Rattle.run_texts.specs.Told.{unpaired_text};

use pair_files::Unpaired;
use run_texts::tell_unpaired;
use sec_base::{Failed, Sink};
use std::alloc::{AllocError, Global};

// What was written, and how often there was no memory for more.
#[derive(Drop)]
struct Page {
    text: Vec<u8>,
    faults: u64,
}

impl Sink for Page {
    ghost taken = { λ p. Some p.text.items };

    ghost faults = { λ p. p.faults };

    fn write(&mut self, piece: &[u8]) -> Result<usize, Failed> {
        match self.text.extend_from_slice(piece) {
            Ok(()) => Ok(piece.len()),
            Err(_) => {
                self.faults = self.faults.saturating_add(1);
                Err(Failed)
            }
        }
    }
}

/// What a check tells where there is no pair of two files.
pub(crate) fn unpaired_page(
    alloc: Global,
    left: &str,
    right: &str,
    unpaired: Unpaired,
) -> Result<Vec<u8>, AllocError>
    ensures { IfOk result (λ t. t.items ≡ unpaired_text left.now right.now unpaired) }
{
    let mut page = Page {
        text: Vec::new(alloc),
        faults: 0,
    };
    tell_unpaired(&mut page, left, right, unpaired);
    let Page { text, faults } = page;
    if faults > 0 {
        return Err(AllocError);
    }
    Ok(text)
}
