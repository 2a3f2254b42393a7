//! The program of bytes of which it is not known whether they are an image or an assembly text.
#![tactic(auto)]

mod opening;

pub use opening::{NO_MEMORY, NO_PROGRAM, program_of};
