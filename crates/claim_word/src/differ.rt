//! Two seats that are at hand have no claim in common: their lists are joined, looked at, and made two again.
ghost use Rattle.std.specs.Prelude.{◌≡◌, ◌++◌, false};
ghost use Rattle.claim_word.specs.Seats.{AreApart, HaveNoneInCommon, both};
ghost use Rattle.claim_word.specs.Steps.{seat_state};

use crate::seat::Seat;
use crate::view::{Cut, Halves};
use crate::word::ClaimWord;
use std::marker::Brand;
use std::mem;

impl ClaimWord {
    // Makes a seat two again.
    fn cut<H: Halves>(&self, seat: &mut Seat) -> Seat
        requires own { seat.old.word ≡ self.now }
        requires both { seat.old ≡ both (seat_state self.now H.left) (seat_state self.now H.right) }
        requires beside { H.right.board ≡ false }
        ensures left { seat.new ≡ seat_state self.now H.left }
        ensures right { result ≡ seat_state self.now H.right }
    {
        Seat {
            token: self.table.shared.split_seat::<Cut<H>>(&mut seat.token),
        }
    }

    // Joins two seats with these views, and makes them two again.
    fn differ_as<H: Halves>(&self, first: &mut Seat, second: &mut Seat)
        requires first { first.old ≡ seat_state self.now H.left }
        requires second { second.old ≡ seat_state self.now H.right }
        requires beside { H.right.board ≡ false }
        ensures first { first.new ≡ first.old }
        ensures second { second.new ≡ second.old }
        ensures apart { AreApart (first.old.claims ++ second.old.claims) }
    {
        let spare = self.split_seat(first);
        let other = mem::replace(second, spare);
        self.join_seat(first, other);
        *second = self.cut::<H>(first);
    }

    /// The claims of two seats differ, each from each. It loads the word, and changes neither seat. The board's may be the first.
    pub fn differ(&self, first: &mut Seat, second: &mut Seat)
        requires own { first.old.word ≡ self.now }
        requires other { second.old.word ≡ self.now }
        requires beside { second.old.board ≡ false }
        ensures first { first.new ≡ first.old }
        ensures second { second.new ≡ second.old }
        ensures differ { HaveNoneInCommon first.old.claims second.old.claims }
        ensures apart { AreApart (first.old.claims ++ second.old.claims) }
    {
        self.differ_as::<Brand>(first, second);
    }
}
