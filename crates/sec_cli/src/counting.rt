//! The numbers of the entries of a journal, kind by kind, and their line.
ghost use Rattle.std.specs.Prelude.{◌≡◌, ◌-◌, ◌^◌, string_bytes, IfOk};
ghost use Rattle.sec_cli.specs.Stats.{AreBelow, IsOneMore, stats_of};
ghost use Rattle.sec_cli.specs.Texts.{stats_head, stats_line};

use refine_board::{Journal, Step};
use std::alloc::{AllocError, Global};

/// How many entries of a journal are of each of these kinds.
#[derive(Clone, Copy)]
pub(crate) struct Stats {
    /// Pairs that were given to a worker.
    pub offers: u64,
    /// Pairs that were counted as proved.
    pub counted: u64,
    /// Verdicts that were found under other classes.
    pub stale: u64,
    /// Vectors that split the classes.
    pub splits: u64,
    /// Vectors that split no class.
    pub already: u64,
    /// Pairs that were given back without a verdict.
    pub back: u64,
}

// One step more.
fn with_step(stats: Stats, step: &Step) -> Stats
    requires { AreBelow (2 ^ 64 - 1) stats }
    ensures { IsOneMore stats step.now result }
{
    match step {
        Step::Offered(_) => Stats {
            offers: stats.offers + 1,
            ..stats
        },
        Step::Counted(_, _) => Stats {
            counted: stats.counted + 1,
            ..stats
        },
        Step::Stale(_) => Stats {
            stale: stats.stale + 1,
            ..stats
        },
        Step::Split(_, _) => Stats {
            splits: stats.splits + 1,
            ..stats
        },
        Step::Already(_) => Stats {
            already: stats.already + 1,
            ..stats
        },
        Step::Back(_) => Stats {
            back: stats.back + 1,
            ..stats
        },
        Step::Idle | Step::Done | Step::Foreign => stats,
    }
}

/// The numbers of a journal's entries.
pub(crate) fn stats_of(journal: &Journal) -> Stats
    ensures { result ≡ stats_of journal.now.entries }
{
    let mut stats = Stats {
        offers: 0,
        counted: 0,
        stale: 0,
        splits: 0,
        already: 0,
        back: 0,
    };
    for i in 0..journal.len() {
        stats = with_step(stats, &journal.entry(i).step);
    }
    stats
}

// The line of a journal's numbers, up to the third.
fn stats_head(alloc: Global, s: Stats) -> Result<String, AllocError>
    ensures { IfOk result (λ line. string_bytes line ≡ stats_head s) }
{
    let Stats {
        offers,
        counted,
        stale,
        ..
    } = s;
    format!(in alloc; "stats offers={offers} counted={counted} stale={stale}")
}

/// The line of a journal's numbers.
pub(crate) fn stats_line(alloc: Global, s: Stats) -> Result<String, AllocError>
    ensures { IfOk result (λ line. string_bytes line ≡ stats_line s) }
{
    let head = stats_head(alloc, s)?;
    let Stats {
        splits,
        already,
        back,
        ..
    } = s;
    format!(in alloc; "{head} splits={splits} already={already} back={back}\n")
}
