//! Who waits at a bell is woken by each change. No contract speaks of waking, so this is tested.
use crate::Bell;
use std::sync::atomic::{AtomicU64, Ordering};
use std::test::Fail;
use std::thread;
use std::thread::yield_now;

const WAITERS: u64 = 3;

// Waits until so many have come, for so many yields at most.
fn wait_for(come: &AtomicU64, many: u64) {
    for _ in 0..1_000_000u32 {
        if come.load(Ordering::SeqCst) >= many {
            return;
        }
        yield_now();
    }
}

// One thread changes the value once all others have seen it unchanged, under the lock that they then give up to sleep. So
// where the change doesn't ring, they sleep for ever.
#[test]
fn a_change_wakes_all_who_wait(rt: HostRuntime) -> Result<(), Fail> {
    let bell = Bell::new(false);
    let waiting = AtomicU64::new(0);
    let woken = AtomicU64::new(0);
    thread::map_indices(
        &rt,
        rt.alloc(),
        WAITERS as usize + 1,
        &|i: usize| {
            if i == 0 {
                wait_for(&waiting, WAITERS);
                *bell.lock(&rt).value() = true;
            } else {
                let mut seen = false;
                bell.wait_while(&rt, |is_open| {
                    if !seen {
                        seen = true;
                        waiting.fetch_add(1, Ordering::SeqCst);
                    }
                    !*is_open
                });
                woken.fetch_add(1, Ordering::SeqCst);
            }
        },
    )?;
    assert!(rt; woken.load(Ordering::SeqCst) == WAITERS);
    assert!(rt; bell.into_inner());
    Ok(())
}
