//! What helps where no lists are inferred for a program. Tried by `tests/diagnosed`.

use asl_diagnose_text::{
    call_outside, function_around, function_name, push_hint, push_place, push_quoted, registers,
    statement_of,
};
use asl_emitter::InferFault;
use std::alloc::{AllocError, Global};

/// Adds what helps where no lists are inferred for a program, and whether the search for statements that bring locks was cut.
pub fn push_infer_hints(
    alloc: Global,
    message: &mut String,
    text: &[u8],
    fault: InferFault,
    is_cut: bool,
) -> Result<(), AllocError> {
    match fault {
        InferFault::Registers(function) => {
            let (locals, arguments) = registers(alloc, text, usize::from(function))?;
            write!(
                message,
                "{locals} for its parameters and the names that it sets, {arguments} for the arguments of its longest call\n"
            )
        }
        InferFault::AccessOutsideSection(function, _) => {
            push_access_hints(alloc, message, text, usize::from(function))
        }
        InferFault::TooManyLocks(_) => push_locks_hints(message, is_cut),
        InferFault::CodeSize => push_size_hint(alloc, message, text),
        InferFault::TooManyClasses | InferFault::OutOfMemory => Ok(()),
    }
}

/// Adds what helps where a region needs too many locks.
fn push_locks_hints(message: &mut String, is_cut: bool) -> Result<(), AllocError> {
    if is_cut {
        push_hint(
            message,
            "the text is long, so the search for the statements that bring most of them was cut short",
        )?;
    }
    push_hint(
        message,
        "shorter paths are fewer: try a smaller K, as --k 0",
    )
}

/// Adds where the first instruction that is too many stands.
fn push_size_hint(alloc: Global, message: &mut String, text: &[u8]) -> Result<(), AllocError> {
    let Some(at) = statement_of(alloc, text, 65_535)? else {
        return Ok(());
    };
    message.push_str("the first instruction that is too many is of the statement at ")?;
    push_place(message, text, at)?;
    message.push_str("\n")
}

/// Adds why the function of an access runs outside sections.
fn push_access_hints(
    alloc: Global,
    message: &mut String,
    text: &[u8],
    function: usize,
) -> Result<(), AllocError> {
    let name = function_name(text, function);
    if name == b"main".as_slice() {
        return push_hint(
            message,
            "mark the statements that belong together by `atomic { .. }`",
        );
    }
    if let Some(at) = call_outside(alloc, text, name)? {
        push_quoted(message, name)?;
        message.push_str(" is called outside sections at ")?;
        push_place(message, text, at)?;
        message.push_str(" in ")?;
        push_quoted(message, function_around(text, at))?;
        message.push_str("\n")?;
    }
    push_hint(
        message,
        "put the access, or that call, into `atomic { .. }`",
    )
}
