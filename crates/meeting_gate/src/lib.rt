//! A gate of tests, at which two workers have to meet.
#![tactic(auto)]

use sec_base::Gate;
use std::sync::atomic::{AtomicU64, Ordering};
use std::thread::yield_now;

/// A gate at which two workers wait for one another, for so many yields at most.
#[derive(Drop)]
pub struct Meeting {
    begun: [AtomicU64; 2],
    told: [AtomicU64; 2],
    worked: [AtomicU64; 2],
    missed: AtomicU64,
}

impl Meeting {
    /// Nobody has come yet.
    pub fn new() -> Meeting {
        Meeting {
            begun: [AtomicU64::new(0), AtomicU64::new(0)],
            told: [AtomicU64::new(0), AtomicU64::new(0)],
            worked: [AtomicU64::new(0), AtomicU64::new(0)],
            missed: AtomicU64::new(0),
        }
    }

    // Waits until a flag is up.
    fn wait_for(&self, flag: &AtomicU64) {
        for _ in 0..1_000_000u32 {
            if flag.load(Ordering::SeqCst) != 0 {
                return;
            }
            yield_now();
        }
        self.missed.store(1, Ordering::SeqCst);
    }

    /// Whether each wait ended.
    pub fn is_met(&self) -> bool {
        self.missed.load(Ordering::SeqCst) == 0
    }
}

// The worker's flag of two, and the other's.
fn own_and_other(flags: &[AtomicU64; 2], worker: u32) -> (&AtomicU64, &AtomicU64) {
    if worker == 0 {
        (&flags[0], &flags[1])
    } else {
        (&flags[1], &flags[0])
    }
}

impl Gate for Meeting {
    fn hold(&self, worker: u32, call: u64) {
        if call == 0 {
            let (own, other) = own_and_other(&self.begun, worker);
            own.store(1, Ordering::SeqCst);
            self.wait_for(other);
        }
        if call == 1 {
            let (_, other) = own_and_other(&self.told, worker);
            self.wait_for(other);
        }
    }

    fn told(&self, worker: u32, call: u64) {
        if call == 0 {
            let (own, _) = own_and_other(&self.told, worker);
            own.store(1, Ordering::SeqCst);
        }
    }

    fn works(&self, worker: u32, _call: u64) {
        let (own, other) = own_and_other(&self.worked, worker);
        if own.load(Ordering::SeqCst) == 0 {
            own.store(1, Ordering::SeqCst);
            self.wait_for(other);
        }
    }
}
