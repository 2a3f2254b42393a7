//! The program `asl` without its process: words, a reader and writers in, a status out.
#![tactic(auto)]

mod byte_streams;
mod command_fault;
mod commands;
mod endings;
mod input_program;
mod journal_output;
pub mod laws;
mod spacing;
mod streams;
mod tool_fault;

pub use asl_journal::{FileFault, get_run, put_run};
pub use byte_streams::{ByteSink, ByteSource, write_some};
pub use command_fault::CommandFault;
pub use commands::output_of;
pub use endings::ending::Ending;
pub use endings::over_memory::{Ended, ended_over};
pub use endings::tool::{ended_alone, tool, tool_alone};
pub use input_program::ProgramFault;
pub use streams::{ReadFault, WriteFault, read_whole, write_whole};
pub use tool_fault::{ToolFault, line_of, lines_of};
