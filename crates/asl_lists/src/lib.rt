//! The lists of a program as data: one JSON document, with all that `compile`, `map` and `explain` tell of them.
#![tactic(auto)]

mod class_values;
mod document;
mod driver;
mod facts;
mod fault;
mod function_values;
mod greatest;
mod json_pieces;
mod listed_source;
mod lock_values;
mod place_values;
mod section_texts;
mod section_values;
mod values;
mod warning_values;
mod whole;

pub use driver::Entry;
pub use facts::Facts;
pub use fault::ListsFault;
pub use listed_source::listed;
pub use whole::{Whole, with_entries};
