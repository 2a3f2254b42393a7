//! The texts that the program writes of a machine: lines of replies, the view, what threads ask for, their frames, the objects.
#![tactic(auto)]

mod clash_lines;
mod laws;
mod next_number;
mod nodes;
mod objects;
mod replies;
mod request_lines;
mod stack;
mod trace;
mod view;

pub use laws::clashes_are_blocks;
pub use objects::push_objects;
pub use replies::push_line;
pub use request_lines::push_asks;
pub use stack::push_stack;
pub use trace::push_trace_line;
pub use view::push_view;
