//! The map of a source: which names its numbers stand for, and where in the text its code comes from.
#![tactic(auto)]

mod areas;
mod code_walk;
mod fault;
mod laws;
mod map;
mod map_lines;
mod map_names;
mod map_text;
mod members;
mod run_functions;
mod text_lines;
mod text_piece;
mod walker;
mod whole;

pub use fault::MapFault;
pub use laws::{
    a_source_has_one_map, a_source_with_a_map_has_no_refusal, each_instruction_is_of_a_statement,
};
pub use map::Map;
pub use map_text::spell;
pub use text_lines::line_table;
pub use text_piece::{Area, Kind, Named, Piece};
pub use whole::{map_of, mapped};
