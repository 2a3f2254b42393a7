//! Locks in the words of the source, and as an assembly text has them.
#![tactic(auto)]

mod assembly;
mod source_words;

pub use assembly::{assembly_words, effect_word, push_assembly};
pub use source_words::{base_name, cell_words, lock_words};
