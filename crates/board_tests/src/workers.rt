//! Runs of several workers: two that have to meet, and the same classes for each number of workers.
ghost use Rattle.std.specs.Prelude.{◌≡◌, ◌≤◌, ◌<◌, IfOk};

use crate::circuits::{DELAY, LATE_DELAY, pair_of};
use meeting_gate::Meeting;
use product_machine::Product;
use refine_board::{Journal, Step};
use sec_base::FreeGate;
use split_workers::{Refined, WorkReport, refine, reports_of};
use std::alloc::{AllocError, Global};
use std::sync::Wait;
use std::test::Fail;
use std::thread::Threads;

// How many entries of a journal are ends of a worker.
fn ends_of(journal: &Journal, worker: u32) -> u64 {
    let mut ends: u64 = 0;
    for i in 0..journal.len() {
        let entry = journal.entry(i);
        if entry.worker == worker && matches!(entry.step, Step::Done) {
            ends = ends.saturating_add(1);
        }
    }
    ends
}

// How many entries a report counts.
fn entries_in(report: &WorkReport) -> u64 {
    [
        report.offers,
        report.idle,
        report.done,
        report.counted,
        report.stale,
        report.splits,
        report.already,
        report.foreign,
        report.back,
    ]
    .iter()
    .fold(0u64, |sum, n| sum.saturating_add(*n))
}

#[test]
fn two_workers_meet(rt: HostRuntime) -> Result<(), Fail> {
    let alloc = rt.alloc();
    let Ok(product) = pair_of(alloc, DELAY, LATE_DELAY) else {
        assert!(rt; false);
        return Ok(());
    };
    let gate = Meeting::new();
    let Refined {
        version,
        journal,
        ..
    } = refine(&rt, alloc, &product, 1, 2, &gate)?;
    assert!(rt; gate.is_met());
    assert!(rt; version.classes().count() == 9);
    assert!(rt; ends_of(&journal, 0) == 1 && ends_of(&journal, 1) == 1);
    Ok(())
}

// Whether a run ended at these classes, and each of so many workers once.
fn has_ended(run: &Refined<'_>, workers: u32) -> bool {
    for worker in 0..workers {
        if ends_of(&run.journal, worker) != 1 {
            return false;
        }
    }
    run.version.classes().count() == 9
}

// Whether a run of so many workers ends so.
fn ends_so<R: Threads + Wait + Sync>(
    rt: &R,
    alloc: Global,
    product: &Product,
    workers: u32,
) -> Result<bool, AllocError>
    requires { (0 < workers) × (workers ≤ 64) }
{
    let run = refine(rt, alloc, product, 1, workers, &FreeGate)?;
    Ok(has_ended(&run, workers))
}

#[test]
fn any_number_of_workers_ends_at_the_same_classes(rt: HostRuntime) -> Result<(), Fail> {
    const WORKERS: &[u32] = &[1, 2, 7, 64];
    let alloc = rt.alloc();
    let Ok(product) = pair_of(alloc, DELAY, LATE_DELAY) else {
        assert!(rt; false);
        return Ok(());
    };
    for &workers in WORKERS {
        assert!(rt; 0 < workers && workers <= 64);
        assert!(rt; ends_so(&rt, alloc, &product, workers)?);
    }
    Ok(())
}

// Whether the reports are of the workers in their order, each ended once, and count all entries.
fn count_all(reports: &[WorkReport], journal: &Journal) -> bool {
    let mut entries: u64 = 0;
    let mut worker: u32 = 0;
    for report in reports {
        if report.worker != worker || report.done != 1 || report.foreign != 0 {
            return false;
        }
        entries = entries.saturating_add(entries_in(report));
        worker = worker.saturating_add(1);
    }
    entries == journal.len()
}

// Whether those of a run of three do.
fn are_counted<R: Threads + Wait + Sync>(
    rt: &R,
    alloc: Global,
    product: &Product,
) -> Result<bool, AllocError> {
    let run = refine(rt, alloc, product, 1, 3, &FreeGate)?;
    let reports = reports_of(alloc, &run.journal, 3)?;
    Ok(reports.len() == 3 && count_all(reports.as_slice(), &run.journal))
}

#[test]
fn reports_count_the_calls_of_each_worker(rt: HostRuntime) -> Result<(), Fail> {
    let alloc = rt.alloc();
    match pair_of(alloc, DELAY, LATE_DELAY) {
        Ok(product) => assert!(rt; are_counted(&rt, alloc, &product)?),
        Err(_) => assert!(rt; false),
    }
    Ok(())
}
