//! What each worker did in a run, read off its journal.
ghost use Rattle.std.specs.Prelude.{◌≡◌, ◌-◌, ◌^◌, map, IfOk};
ghost use Rattle.std.specs.List.{range_with_len};
ghost use Rattle.split_workers.specs.Reports.{AreBelow, IsOneMore, report_of};

use refine_board::{Journal, Step};
use std::alloc::{AllocError, Global};

/// How many entries of each kind a worker has in the journal of a run.
#[derive(Clone, Copy, Debug, PartialEq, Eq)]
pub struct WorkReport {
    /// The worker, counted from 0.
    pub worker: u32,
    /// Pairs that it was given.
    pub offers: u64,
    /// Calls at which no pair was open, and some was out.
    pub idle: u64,
    /// Calls at which each pair was counted.
    pub done: u64,
    /// Pairs of its that were counted as proved.
    pub counted: u64,
    /// Verdicts of its that were found under other classes.
    pub stale: u64,
    /// Vectors of its that split the classes.
    pub splits: u64,
    /// Vectors of its that split no class.
    pub already: u64,
    /// Vectors of its that were of another pair of netlists or another k.
    pub foreign: u64,
    /// Pairs that it gave back without a verdict.
    pub back: u64,
}

// A step of the worker more.
fn with_step(report: WorkReport, step: &Step) -> WorkReport
    requires { AreBelow (2 ^ 64 - 1) report }
    ensures { IsOneMore report step.now result }
{
    match step {
        Step::Offered(_) => WorkReport {
            offers: report.offers + 1,
            ..report
        },
        Step::Idle => WorkReport {
            idle: report.idle + 1,
            ..report
        },
        Step::Done => WorkReport {
            done: report.done + 1,
            ..report
        },
        Step::Counted(_, _) => WorkReport {
            counted: report.counted + 1,
            ..report
        },
        Step::Stale(_) => WorkReport {
            stale: report.stale + 1,
            ..report
        },
        Step::Split(_, _) => WorkReport {
            splits: report.splits + 1,
            ..report
        },
        Step::Already(_) => WorkReport {
            already: report.already + 1,
            ..report
        },
        Step::Foreign => WorkReport {
            foreign: report.foreign + 1,
            ..report
        },
        Step::Back(_) => WorkReport {
            back: report.back + 1,
            ..report
        },
    }
}

// The report of one worker.
fn report_of(journal: &Journal, worker: u32) -> WorkReport
    ensures { result ≡ report_of journal.now.entries worker }
{
    let mut report = WorkReport {
        worker,
        offers: 0,
        idle: 0,
        done: 0,
        counted: 0,
        stale: 0,
        splits: 0,
        already: 0,
        foreign: 0,
        back: 0,
    };
    for i in 0..journal.len() {
        let entry = journal.entry(i);
        if entry.worker == worker {
            report = with_step(report, &entry.step);
        }
    }
    report
}

/// A report for each of so many workers, in their order. Entries of other parties are in none.
pub fn reports_of(
    alloc: Global,
    journal: &Journal,
    workers: u32,
) -> Result<Vec<WorkReport>, AllocError>
    ensures { IfOk result (λ r. r.items ≡ map (report_of journal.now.entries) (range_with_len 0 workers)) }
{
    let mut reports = Vec::new(alloc);
    for worker in 0..workers {
        reports.push(report_of(journal, worker))?;
    }
    Ok(reports)
}
