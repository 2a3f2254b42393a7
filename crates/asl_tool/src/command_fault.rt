//! Why a command gives no output.

use crate::input_program::ProgramFault;
use asl_check::CheckFault;
use asl_code::Program;
use asl_emitter::InferFault;
use asl_journal::{FileFault, Journal, JournalFault};
use asl_map::MapFault;
use asl_runner::RunFault;
use asl_syntax::SyntaxFault;
use thiserror::Error;

/// Why a command gives no output. Where several apply, the first is answered.
#[derive(Debug, Drop, Error)]
pub enum CommandFault {
    /// The input is no program.
    #[error(transparent)]
    Program(ProgramFault),
    /// The input is no source.
    #[error(transparent)]
    Source(SyntaxFault),
    /// No program is inferred for the source.
    #[error(transparent)]
    Infer(InferFault),
    /// The input has no byte 0 after which a program stands.
    #[error("NoProgram")]
    NoProgram,
    /// The program is not the source's, or its lists are not enough.
    #[error(transparent)]
    Check(CheckFault),
    /// The lists are not enough, and all that they lack was asked for: the first of it, and the line of each.
    #[error("{0}")]
    Missing(CheckFault, Vec<u8>),
    /// The input has no map.
    #[error(transparent)]
    Map(MapFault),
    /// The input is no run file.
    #[error(transparent)]
    File(FileFault),
    /// There is no machine of so many threads, the schedule names a thread that is not there or is too long, the journal is
    /// none of the program, or memory ran out.
    #[error(transparent)]
    Journal(JournalFault),
    /// The workers' run has no good end.
    #[error(transparent)]
    Run(RunFault),
    /// Memory ran out.
    #[error("OutOfMemory")]
    OutOfMemory,
}
