//! What a run by workers leaves.
use asl_journal::{Journal, Receipt};
use asl_machine::Machine;

/// What a run by workers leaves (`docs/WORKERS.md`, "What a run leaves").
#[derive(Drop)]
pub struct Report<'p> {
    /// The threads and all events of the run, in order.
    pub journal: Journal,
    /// The machine in the state to which the events led.
    pub machine: Machine<'p>,
    /// For each worker, what its steps answered, in their order. In a run that ends well they are the journal's entries of the
    /// worker's threads, none is of a step of a thread that had ended before, and each thread of which one says that it has
    /// ended has. In the report that comes with `Receipt(j)` those of worker j are not so.
    pub receipts: Vec<Vec<Receipt>>,
    /// How many tickets were drawn.
    pub tickets: u64,
}
