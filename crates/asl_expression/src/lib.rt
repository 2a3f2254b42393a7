//! Lock expressions: the cell that one denotes in given registers and a given heap.
#![tactic(auto)]

mod evaluation;

pub use evaluation::{HeapView, eval, follow, go_on, pointed};
