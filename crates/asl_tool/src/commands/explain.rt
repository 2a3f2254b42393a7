//! The command `explain`: from a source to its lists, and why their locks are there, or to its classes, and why their members share
//! them.
ghost use Rattle.std.specs.Prelude.{IfOk, IfErr};
ghost use Rattle.asl_emitter.specs.Sources.{IsAcceptedSource};
ghost use Rattle.asl_explain.specs.Told.{IsText};
ghost use Rattle.asl_class_text.specs.Classes.{IsClassText};
ghost use Rattle.asl_tool.specs.Command.{IsExplained, IsRefusedExplain};

use crate::command_fault::CommandFault;
use asl_class_text::classes_told;
use asl_command_line::PathLimit;
use asl_emitter::{InferFault, infer};
use asl_explain::{ExplainFault, explained};
use asl_syntax::parse;
use std::alloc::Global;

/// The lists of the source, and why their locks are there; or its classes, and why their members share them.
pub fn explained_source(
    alloc: Global,
    k_limit: &PathLimit,
    all: bool,
    classes: bool,
    source: &[u8],
) -> Result<Vec<u8>, CommandFault>
    ensures ok { IfOk result (λ text. IsExplained source.now k_limit.now all classes text.items) }
    ensures err { IfErr result (λ fault. IsRefusedExplain source.now k_limit.now fault) }
{
    if classes {
        classes_of(alloc, k_limit, all, source)
    } else {
        lists_of(alloc, k_limit, all, source)
    }
}

/// The lists of the source, and why their locks are there.
fn lists_of(
    alloc: Global,
    k_limit: &PathLimit,
    all: bool,
    source: &[u8],
) -> Result<Vec<u8>, CommandFault>
    ensures ok { IfOk result (λ text. IsText source.now k_limit.now all text.items) }
    ensures err { IfErr result (λ fault. IsRefusedExplain source.now k_limit.now fault) }
{
    match explained(alloc, source, k_limit.operations(), all) {
        Ok(text) => Ok(text.into_bytes()),
        Err(ExplainFault::Source(fault)) => Err(CommandFault::Source(fault)),
        Err(ExplainFault::Infer(fault)) => Err(CommandFault::Infer(fault)),
    }
}

/// The classes of the source, and why their members share them, where lists are inferred for it.
fn classes_of(
    alloc: Global,
    k_limit: &PathLimit,
    all: bool,
    source: &[u8],
) -> Result<Vec<u8>, CommandFault>
    ensures ok { IfOk result (λ text. IsClassText source.now all text.items) }
    ensures err { IfErr result (λ fault. IsRefusedExplain source.now k_limit.now fault) }
{
    judge(alloc, k_limit, source)?;
    match classes_told(alloc, source, all) {
        Ok(text) => Ok(text.into_bytes()),
        Err(_) => Err(CommandFault::Infer(InferFault::OutOfMemory)),
    }
}

/// Whether lists are inferred for the source.
fn judge(alloc: Global, k_limit: &PathLimit, source: &[u8]) -> Result<(), CommandFault>
    ensures ok { IfOk result (λ _. IsAcceptedSource source.now k_limit.now) }
    ensures err { IfErr result (λ fault. IsRefusedExplain source.now k_limit.now fault) }
{
    let ast = match parse(alloc, source) {
        Ok(ast) => ast,
        Err(fault) => return Err(CommandFault::Source(fault)),
    };
    match infer(alloc, &ast, k_limit.operations()) {
        Ok(_) => Ok(()),
        Err(fault) => Err(CommandFault::Infer(fault)),
    }
}
