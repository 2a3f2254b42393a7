//! From a program to a C program over `runtime/asl_runtime.h`, whose threads run natively.
#![tactic(auto)]

mod call;
mod functions;
mod growth;
mod head;
mod instr;
mod lines;
mod lists;
mod lock;
mod names;
mod options;
mod program_text;
mod template;

pub use growth::Growth;
pub use options::{Extern, Options};
pub use program_text::put_program;
