//! The words of the program `asl`: what a command line asks for, and the texts of help and of wrong usage.
#![tactic(auto)]

mod apart;
mod argument_values;
mod arguments;
mod command;
mod compile_help;
mod debug_word;
mod debug_words;
mod entry_words;
mod extern_words;
mod help;
mod number_words;
mod path_limit;
mod reading;
mod run_help;

pub use command::{Command, Invocation, Replacement, RunArguments};
pub use debug_word::{DebugWord, Move};
pub use path_limit::PathLimit;
pub use reading::read_words;
