//! The sentence of a program for which no lists are inferred.

use asl_backward_flow::Region;
use asl_diagnose_text::{
    Word, code_len, function_around, function_name, numbered, push_quoted, registers, statement_of,
};
use asl_emitter::InferFault;
use std::alloc::{AllocError, Global};

/// Adds the sentence of a program for which no lists are inferred.
pub fn push_infer_sentence(
    alloc: Global,
    message: &mut String,
    text: &[u8],
    fault: InferFault,
) -> Result<(), AllocError> {
    match fault {
        InferFault::Registers(function) => {
            let (locals, arguments) = registers(alloc, text, usize::from(function))?;
            let count = locals.saturating_add(arguments);
            push_quoted(message, function_name(text, usize::from(function)))?;
            write!(
                message,
                " needs {count} registers, and a function has at most 64"
            )
        }
        InferFault::CodeSize => {
            let count = code_len(alloc, text)?;
            write!(
                message,
                "the program has {count} instructions, at most 65535 are allowed"
            )
        }
        InferFault::AccessOutsideSection(_, pc) => {
            message.push_str(access_text(alloc, text, usize::from(pc))?)
        }
        InferFault::TooManyClasses => {
            message.push_str("the program has more than 1024 classes of objects")
        }
        InferFault::TooManyLocks(region) => push_locks_sentence(message, text, region),
        InferFault::OutOfMemory => message.push_str("memory ran out"),
    }
}

/// Adds the sentence of a region that needs too many locks.
fn push_locks_sentence(
    message: &mut String,
    text: &[u8],
    region: Region,
) -> Result<(), AllocError> {
    match region {
        Region::Section(section) => {
            let at = numbered(text, Word::Atomic, usize::from(section)).unwrap_or(0);
            message.push_str("this section in ")?;
            push_quoted(message, function_around(text, at))?;
        }
        Region::Body(function) => {
            message.push_str("the function ")?;
            push_quoted(message, function_name(text, usize::from(function)))?;
        }
    }
    message.push_str(" needs more than 4096 different locks")
}

/// Whether the instruction at a pc reads or writes.
fn access_text(alloc: Global, text: &[u8], pc: usize) -> Result<&'static str, AllocError> {
    let at = statement_of(alloc, text, pc)?.unwrap_or(0);
    Ok(if matches!(text.get(at), Some(b'*')) {
        "a cell is written here, and no section is open"
    } else {
        "a cell is read here, and no section is open"
    })
}
