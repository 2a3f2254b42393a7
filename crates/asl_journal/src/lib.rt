//! Journals: the events of a run in order, a machine that writes them down as it steps, replay, the bytes of a journal, and run files.
#![tactic(auto)]

mod event;
mod fault;
mod journal;
mod journal_bytes;
mod journal_fields;
mod journal_limits;
mod journal_replay;
mod journal_writing;
mod journaled;
pub mod laws;
mod memory;
mod run_file;

pub use event::{Event, Receipt};
pub use fault::JournalFault;
pub use journal::Journal;
pub use journal_bytes::get;
pub use journal_limits::MAX_EVENTS;
pub use journal_replay::{follow, replay, run_on};
pub use journal_writing::put;
pub use journaled::{Journaled, PausedJournaled};
pub use memory::Memory;
pub use run_file::{FileFault, get_run, put_run};
