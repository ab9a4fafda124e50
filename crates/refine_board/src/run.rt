//! The name of one run, which its board, its offers and the value under the lock have in their types.
use std::marker::Brand;
use std::sync::ledger::Ledger;

/// Names one run: its pair of netlists, its k, its number of workers, the board on which it opens, the list of its published
/// versions and the word from which their pairs are claimed.
pub trait Run: Ledger {
    ghost use Rattle.std.specs.Prelude.{ℕ};
    ghost use Rattle.atomic_table.specs.Seated.{TableId};
    ghost use Rattle.boxcar.specs.Table.{Shelves};
    ghost use Rattle.circ_model.specs.Meaning.{Pair};
    ghost use Rattle.refine_board.specs.States.{State};

    ghost pair: { Pair };

    ghost k: { ℕ };

    ghost workers: { ℕ };

    ghost opening: { State };

    ghost list: { Shelves };

    ghost word: { TableId };
}

impl Run for Brand {
    ghost use Rattle.refine_board.specs.States.{no_list, no_pair, no_state, no_word};

    ghost pair = { no_pair };

    ghost k = { 0 };

    ghost workers = { 0 };

    ghost opening = { no_state };

    ghost list = { no_list };

    ghost word = { no_word };
}
