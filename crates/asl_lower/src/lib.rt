//! The code of a program: each statement by its template, functions one after the other.
#![tactic(auto)]

mod code_draft;
mod code_size;
mod emit;
mod fault;
mod functions;
mod item_numbers;
mod laws;
mod locals;
mod lowered_program;
mod lowering;
mod name_numbers;
mod output;
mod outside;
mod scope;
mod section;
mod section_reach;
mod statements;

pub use fault::LowerFault;
pub use laws::{
    bare_accesses_are_in_sections, bodies_part_the_code, calls_pass_on, control_stays_inside,
    limits_are_kept, numbers_follow_the_code, one_lowering, open_sections_are_distinct,
    operands_are_there, regions_are_left_at_their_ends, returns_stand_last, sections_are_listed,
    sections_nest, the_outermost_section_stays,
};
pub use lowered_program::lower;
pub use lowering::Lowering;
pub use section::Section;
pub use section_reach::Marks;
