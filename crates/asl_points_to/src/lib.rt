//! Which objects a register or a cell may point to: the classes of a program.
#![tactic(auto)]

mod class_draft;
mod class_numbers;
mod class_table;
mod fault;
mod laws;
mod points_to;
mod sets;
mod settle;
mod value_flow;
mod value_flows;
mod waiting;

pub use class_table::Classes;
pub use fault::ClassesFault;
pub use laws::{calls_pass_classes, classes_are_one, classes_are_there, least_classes_are_finest};
pub use points_to::classes;
pub use sets::DisjointSets;
