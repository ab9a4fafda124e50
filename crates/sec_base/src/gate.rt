//! A gate at which a test can hold the workers of a run, so that it sees which of them goes on when.

/// What a worker tells of its way. No answer depends on it.
pub trait Gate: Sync {
    /// Before the worker asks for the lock for a call. Calls count from 0.
    fn hold(&self, worker: u32, call: u64);

    /// After the call is answered, and the lock let go.
    fn told(&self, worker: u32, call: u64);

    /// Where a proof begins, with the number of the worker's last call.
    fn works(&self, worker: u32, call: u64);
}

/// The gate that holds nobody.
#[derive(Drop)]
pub struct FreeGate;

impl Gate for FreeGate {
    fn hold(&self, _worker: u32, _call: u64) {}

    fn told(&self, _worker: u32, _call: u64) {}

    fn works(&self, _worker: u32, _call: u64) {}
}
