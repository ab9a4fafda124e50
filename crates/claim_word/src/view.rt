//! What a seat knows, and what each step on the word adds to it.
use atomic_table::{Join, Play, Split, TableRule};
use std::collections::LinkedList;
use std::marker::{Brand, PhantomData};

/// A seat's claims, the words that it was shown, whether it is the board's, and the word that it last wrote. No value of it is made.
pub struct View {
    pub claims: LinkedList<(u64, u64)>,
    pub seen: LinkedList<u64>,
    pub board: bool,
    pub written: u64,
}

/// Each claim is one seat's alone, and below the word.
pub struct Apart;

impl TableRule<u64, View, u64> for Apart {
    ghost use Rattle.claim_word.specs.Steps.{Holds, opening_view};

    ghost holds = { λ _ s. Holds s.words s.views };

    ghost first = { opening_view };
}

/// A load, which lists the word.
pub(crate) struct Look;

impl Play<u64, View> for Look {
    ghost use Rattle.claim_word.specs.Steps.{Looked};

    ghost then = { λ _ me found after. Looked me found after };
}

/// A load, which lists nothing.
pub(crate) struct Check;

impl Play<u64, View> for Check {
    ghost use Rattle.claim_word.specs.Steps.{Checked};

    ghost then = { λ _ me found after. Checked me found after };
}

/// An exchange of a word by the next.
pub(crate) struct Try;

impl Play<u64, View> for Try {
    ghost use Rattle.claim_word.specs.Steps.{Tried};

    ghost then = { Tried };
}

/// A swap by the board's seat.
pub(crate) struct Advance;

impl Play<u64, View> for Advance {
    ghost use Rattle.claim_word.specs.Steps.{Advanced};

    ghost then = { Advanced };
}

/// A seat beside another.
pub(crate) struct Beside;

impl Split<View> for Beside {
    ghost use Rattle.claim_word.specs.Steps.{nobody};

    ghost left = { λ v. v };

    ghost right = { λ _. nobody };
}

impl Join<View> for Beside {
    ghost use Rattle.claim_word.specs.Steps.{joined, nobody};

    ghost both = { joined };

    ghost spent = { nobody };
}

/// The views of two seats.
pub trait Halves {
    ghost use Rattle.claim_word.specs.declared.view.View.{View};

    ghost left: { View };

    ghost right: { View };
}

impl Halves for Brand {
    ghost use Rattle.claim_word.specs.Steps.{nobody};

    ghost left = { nobody };

    ghost right = { nobody };
}

/// A seat that has the lists of two, made two again.
pub(crate) struct Cut<H: Halves> {
    of: PhantomData<H>,
}

impl<H: Halves> Split<View> for Cut<H> {
    ghost left = { λ _. H.left };

    ghost right = { λ _. H.right };
}
