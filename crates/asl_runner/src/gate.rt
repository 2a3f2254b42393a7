//! What a caller is told while workers run.
use asl_journal::Receipt;

/// What each worker calls around each of its steps, with its own number, from 0, and the number of the step among its own,
/// from 1. A gate may wait; a run whose gate never comes back never ends.
pub trait Gate: Sync {
    /// Before the lock is taken for this step. Where the step is then refused memory, `after` is not called: the worker stops,
    /// and `run` is refused. So a gate that waits until the two have come in pairs may wait for ever.
    fn before(&self, worker: u8, call: u64);

    /// After the lock was freed, with what the step answered.
    fn after(&self, worker: u8, call: u64, receipt: &Receipt);
}
