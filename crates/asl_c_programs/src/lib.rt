//! Programs as data for C: an image, an assembly text or a source is opened into a handle, and its tables are read by number.
//! `include/asl.h` declares the functions.
#![tactic(auto)]

mod entries;
mod expressions;
mod laws;
mod list_entries;
mod list_requests;
mod names;
mod opened;
mod opening;
mod program_exports;
mod program_handle;
mod program_slot;
mod put;
mod status;
mod tables;

pub use entries::{Counts, FunctionEntry, ListEntry, LockEntry, RequestEntry, SectionEntry};
pub use laws::{lists_are_of_the_sections_of_their_numbers, unnamed_nodes_are_asked_for_intention};
pub use program_handle::Handle;
