//! A locked value with a bell. Whoever locks the value rings when it lets it go, so no change is made that those who wait for
//! one don't hear of. (A monitor whose signal can't be forgotten: Hoare, Communications of the ACM 17(10), 1974.)
#![tactic(auto)]

#[cfg(test)]
mod tests;

use std::sync::{Condvar, Mutex, MutexGuard, Wait};

/// A value that one thread at a time has, and the bell.
#[derive(Drop)]
pub struct Bell<T> {
    value: Mutex<T>,
    bell: Condvar,
}

/// The value, for as long as a thread has it locked. Where it is let go, the bell wakes all who wait.
pub struct Locked<'b, T> {
    value: MutexGuard<'b, T>,
    bell: &'b Condvar,
}

impl<T> Bell<T> {
    /// A value that nobody has locked.
    pub fn new(value: T) -> Bell<T> {
        Bell {
            value: Mutex::new(value),
            bell: Condvar::new(),
        }
    }

    /// The value, when all others are done with it.
    pub fn into_inner(self) -> T {
        let Bell { value, .. } = self;
        value.into_inner()
    }

    /// Locks the value.
    pub fn lock(&self, rt: &impl Wait) -> Locked<'_, T> {
        Locked {
            value: self.value.lock(rt),
            bell: &self.bell,
        }
    }

    /// Sleeps while the value is so. It is looked at again each time the bell rings.
    pub fn wait_while<F: FnMut(&T) -> bool>(&self, rt: &impl Wait, is_so: F)
        requires { F.IsAlwaysCallable is_so }
    {
        let mut is_so = is_so;
        let mut value = self.value.lock(rt);
        for _ in rt.forever() {
            if !is_so(&*value) {
                return;
            }
            value = self.bell.wait(rt, value);
        }
    }
}

impl<T> Locked<'_, T> {
    /// The value, to read or to change.
    pub fn value(&mut self) -> &mut T {
        &mut *self.value
    }
}

impl<T> Drop for Locked<'_, T> {
    fn drop(self) {
        let Self { value, bell } = self;
        drop(value);
        bell.notify_all();
    }
}
