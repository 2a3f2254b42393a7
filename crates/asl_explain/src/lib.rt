//! Why the lists of a program are as they are: each lock with the statements that need it, and how it came to the section's start.
#![tactic(auto)]

mod class_reasons;
mod confirm;
mod confirm_step;
mod ended;
mod events;
mod explain_analysis;
mod explained_source;
mod explained_text;
mod explained_value;
mod fault;
mod gaps;
mod known;
mod laws;
mod links;
mod lists_by_length;
mod making;
mod notes;
mod opened_explanation;
mod region_table;
mod search;
mod short_paths;
mod skips;
mod source_places;
mod stretch;
mod text;
mod walk;

pub use class_reasons::ClassTold;
pub use explained_source::{explain, explained};
pub use explained_value::{Chain, Ended, Ending, Explanation, Listed, Lists, Need, Step, Why};
pub use fault::ExplainFault;
pub use laws::needs_are_what_chains_come_to;
pub use opened_explanation::{OpenedExplanation, SectionSearch, open_explanation};
