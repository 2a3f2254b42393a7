//! Lock expressions: the cells that they denote, their classes, and what they become over an instruction.
#![tactic(auto)]

mod accesses;
mod call_links;
mod class;
mod laws;
mod link;
mod link_context;
mod linked;
mod lock_order;
mod path_tests;
mod settled;
mod stay;
mod store_rows;
mod stores;
mod touch;
mod written;

pub use accesses::{add_accesses, add_dereferenced};
pub use asl_expression::{HeapView, eval, follow, go_on, pointed};
pub use call_links::add_entered;
pub use class::class_of;
pub use laws::{
    cells_are_of_their_expressions_classes, expressions_with_a_class_are_left, links_are_settled,
    links_ask_at_each_star, lists_in_order_are_one, paths_go_in_parts,
    prefixes_of_what_a_call_leaves_are_left, stores_elsewhere_move_no_path,
    stores_move_paths_as_links_say, written_classes_pass_on,
};
pub use link::add_links;
pub use link_context::LinkContext;
pub use linked::{links, prefixes};
pub use lock_order::{add_in_order, is_one};
pub use stay::stays;
pub use stores::writes;
pub use touch::{Touch, is_clear, set_by, stored_by};
pub use written::Writes;
