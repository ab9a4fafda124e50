//! The right to take steps on a claim word, for one thread at a time.
use crate::view::View;
use std::marker::Model;

/// A seat at a claim word. It takes no bytes. Contracts see its word, its claims, the words that it was shown, whether it is the
/// board's, and the word that it last wrote.
#[derive(Drop)]
pub struct Seat {
    pub(crate) token: atomic_table::Seat<u64, View>,
}

impl Model for Seat {
    ghost use Rattle.std.specs.Prelude.{◌≡◌, []};
    ghost use Rattle.claim_word.specs.Seats.{SeatState};
    ghost use Rattle.claim_word.specs.Steps.{seat_state};

    ghost Value = { SeatState };

    ghost view = { λ s. seat_state s.token.table_id s.token.me.0 };

    ghost invariant = { λ s. s.token.me.1 ≡ [] };
}
