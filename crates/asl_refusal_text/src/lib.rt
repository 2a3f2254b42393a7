//! The names of faults, as a line of standard error has them, made without allocation. Each call adds to a line, at most as many bytes
//! as its clause `adds` says. Where the line has room for so many, the call does not fail (`room`). A call that fails may have added a
//! part.
#![tactic(auto)]

mod check_lines;
mod difference_text;
mod fault_text;
mod instr_text;
mod line_text;
mod lock_text;

pub use check_lines::lines_of_checks;
pub use fault_text::{
    push_assembly, push_check, push_file, push_image, push_infer, push_journal, push_map, push_run,
    push_source,
};
pub use line_text::{Line, push};
