//! Assembly text: a program as lines of words, read into a verified image.
#![tactic(auto)]

mod assembly;
mod body;
mod disassembly;
mod image_draft;
mod instr_lines;
mod keyword;
pub mod laws;
mod line;
mod line_order;
mod line_piece;
mod line_words;
mod lock_lines;
mod operand;
mod print;
mod read;
mod word_number;

pub use assembly::{AsmFault, assemble};
pub use disassembly::disassemble;
