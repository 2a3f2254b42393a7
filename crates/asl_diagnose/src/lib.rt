//! A refusal as a compiler's user expects it: the line, the place in it, what may stand there, and how to continue.
#![tactic(auto)]

mod assembly_refusal;
mod bringers_text;
mod diagnosis;
mod infer_hints;
mod infer_place;
mod infer_sentence;
mod missing_end;
mod most;
mod refusal_name;
mod refusal_text;
mod region_lines;
mod search;
mod source_refusal;

pub use asl_diagnose_text::TokenKind;
pub use assembly_refusal::diagnose_assembly;
pub use diagnosis::{Diagnosis, Refusal};
pub use most::Bringers;
pub use refusal_text::{diagnosed, spell};
pub use source_refusal::{diagnose_source, diagnose_tree};
