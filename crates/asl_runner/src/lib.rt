//! Running workers: threads of the system step one machine under one lock, and each of their steps stands in its journal.
#![tactic(auto)]

mod compare;
mod fault;
mod gate;
mod gathering;
mod limits;
mod locked;
mod report;
mod running;
mod starting;
mod worker;

pub use fault::RunFault;
pub use gate::Gate;
pub use limits::MAX_WORKERS;
pub use report::Report;
pub use running::run;
