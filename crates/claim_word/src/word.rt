//! The shared word: the version from 2^42 on, the number of its pairs from 2^21 on, and below it the index of the next pair.
ghost use Rattle.std.specs.Prelude.{◌≡◌, ◌≢◌, ◌<◌, ◌^◌, true, false, IfOk};
ghost use Rattle.claim_word.specs.Words.{word_of, version_of, index_of, pairs_of};
ghost use Rattle.claim_word.specs.Seats.{AreApart, IsAnswered, IsSameSeat, IsSound, beside, both, opening_seat, with_seen};

use crate::claim::Claim;
use crate::seat::Seat;
use crate::view::{Advance, Apart, Beside, Check, Look, Try, View};
use atomic_table::Table;
use std::alloc::{AllocError, Global};
use std::marker::Model;

// What one version, and one pair, counts in the word.
const VERSION: u64 = 1 << 42;

const PAIR: u64 = 1 << 21;

/// Whether each pair of a word's version was claimed.
pub fn is_spent(word: u64) -> bool
    ensures yes { result ≡ true → index_of word ≡ pairs_of word }
    ensures no { result ≡ false → index_of word ≢ pairs_of word }
{
    word % PAIR == word / PAIR % PAIR
}

/// The version of a word.
pub fn version_in(word: u64) -> u32
    ensures { result ≡ version_of word }
{
    (word / VERSION) as u32
}

/// A word that threads claim pairs from. Contracts see which word it is.
#[derive(Drop)]
pub struct ClaimWord {
    pub(crate) table: Table<u64, View, u64, Apart, Global>,
}

impl Model for ClaimWord {
    ghost use Rattle.std.specs.Prelude.{◌≡◌};
    ghost use Rattle.atomic_table.specs.Seated.{TableId};

    ghost Value = { TableId };

    ghost view = { λ w. w.table.shared.table_id };

    ghost invariant = { λ w. w.table.shared.table_id.words ≡ 1 };
}

impl ClaimWord {
    /// A word at version 0 with so many pairs, none of which is claimed, and the board's seat.
    pub fn new(alloc: Global, pairs: u32) -> Result<(ClaimWord, Seat), AllocError>
        requires few { pairs < 2 ^ 21 }
        ensures { IfOk result (λ r. r.1 ≡ opening_seat r.0 pairs) }
    {
        let word = u64::from(pairs) * PAIR;
        let (table, token) = Table::of_words(alloc, &[word], &word)?;
        Ok((ClaimWord { table }, Seat { token }))
    }

    /// A further seat, for another thread.
    pub fn split_seat(&self, seat: &mut Seat) -> Seat
        requires own { seat.old.word ≡ self.now }
        ensures same { seat.new ≡ seat.old }
        ensures beside { result ≡ beside self.now }
    {
        Seat {
            token: self.table.shared.split_seat::<Beside>(&mut seat.token),
        }
    }

    /// Takes a seat back, with its claims. They and those of the first differ, each from each.
    pub fn join_seat(&self, seat: &mut Seat, other: Seat)
        requires own { seat.old.word ≡ self.now }
        requires other { other.word ≡ self.now }
        requires beside { other.board ≡ false }
        ensures both { seat.new ≡ both seat.old other }
        ensures apart { AreApart seat.new.claims }
    {
        let Seat { token } = other;
        self.table
            .shared
            .join_seat::<Beside>(&mut seat.token, token);
        self.table.shared.load::<Check>(&mut seat.token, 0);
    }

    /// The word as it stands.
    pub fn seen(&self, seat: &mut Seat) -> u64
        requires own { seat.old.word ≡ self.now }
        ensures shown { seat.new ≡ with_seen seat.old result }
        ensures sound { IsSound seat.old result }
    {
        self.table.shared.load::<Look>(&mut seat.token, 0)
    }

    /// Claims the next pair of the version that it reads, or says why it did not.
    pub fn claim(&self, seat: &mut Seat) -> Claim
        requires own { seat.old.word ≡ self.now }
        ensures answer { IsAnswered seat.old seat.new result }
        ensures seat { IsSameSeat seat.old seat.new }
    {
        let word = self.seen(seat);
        let version = version_in(word);
        let index = word % PAIR;
        if is_spent(word) {
            return Claim::Spent(version);
        }
        let found = self
            .table
            .shared
            .compare_exchange::<Try>(&mut seat.token, 0, word, word + 1);
        if found == word {
            Claim::Mine(version, index as u32)
        } else {
            Claim::Moved(word, found)
        }
    }

    /// Begins a version, for the holder of the board's lock. Pairs of the last that weren't claimed are so no more.
    pub fn advance(&self, seat: &mut Seat, version: u32, pairs: u32)
        requires own { seat.old.word ≡ self.now }
        requires board { seat.old.board ≡ true }
        requires later { version_of seat.old.written < version }
        requires small { version < 2 ^ 22 }
        requires few { pairs < 2 ^ 21 }
        ensures { seat.new ≡ record seat.old { written = word_of version pairs 0 } }
    {
        let word = u64::from(version) * VERSION + u64::from(pairs) * PAIR;
        self.table.shared.swap::<Advance>(&mut seat.token, 0, word);
    }
}
