//! A lock forest with a queue: who is refused waits, first come first, and a release names those whom it lets go on.
//!
//! Requests rise: they name the root, the classes and the leaves in their order, so that two of them are compared in one pass. Their nodes
//! and modes have numbers, too (`Ask`), by which the libraries for C take them and write them.
#![tactic(auto)]

mod ask;
mod order;
mod parents;
mod queue;
mod seats;
mod together;

pub use ask::{Ask, ask_for, mode, node};
pub use order::{is_below, is_rising};
pub use parents::has_parents;
pub use queue::Queue;
pub use together::go_together;
