//! What the text of a program may lack: calls of functions that `main` does not reach, and what fills pointers that point to no class.
#![tactic(auto)]

mod facts;
mod lacking;
mod whole;

pub use facts::{has_no_class, is_reached, owner};
pub use whole::warnings_text;
