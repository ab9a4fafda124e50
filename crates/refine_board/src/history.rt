//! The replay of a journal, for whoever reads one: its splits, one after the other, on a copy of the opening's classes.
ghost use Rattle.std.specs.Prelude.{◌≡◌, ℕ, IfOk, OnOk, length};
ghost use Rattle.class_partition.specs.Classes.{ArePartition};
ghost use Rattle.refine_board.specs.States.{State};
ghost use Rattle.refine_board.specs.Schedules.{Leads, opened};
ghost use Rattle.refine_board.specs.Replays.{HasRow, replayed};

use crate::journal::{Journal, Step};
use class_partition::Classes;
use std::alloc::{AllocError, Global};
use verdict_stamp::Version;

// What an entry does to the classes.
fn replay_step(alloc: Global, classes: &mut Classes, step: &Step) -> Result<(), AllocError>
    ensures places { length classes.new.least ≡ length classes.old.least }
    ensures partition { ArePartition (length classes.old.least) classes.old }
    ensures split { OnOk result (HasRow (length classes.old.least) step.now → classes.new ≡ replayed step.now classes.old) }
{
    let places = classes.len();
    if let Step::Split(laid, _) = step {
        let bits = laid.row(alloc)?;
        if bits.len() == places {
            classes.split_by(&bits);
        }
    }
    Ok(())
}

/// The classes of the state to which a legal journal leads, from the version on which its board opened, with so many workers.
pub fn replay(
    alloc: Global,
    first: &Version<'_>,
    workers: u32,
    journal: &Journal,
) -> Result<Classes, AllocError>
    ensures { IfOk result (λ c. (state : State) → Leads first.now.pair first.now.k (opened first.now.pair workers first.now.classes first.now.number) journal.now.entries state → c ≡ state.classes) }
{
    let _parties = workers;
    let mut classes = first.classes().copy(alloc)?;
    for i in 0..journal.len() {
        replay_step(alloc, &mut classes, &journal.entry(i).step)?;
    }
    Ok(classes)
}
