//! What is said of an assembly text that is refused. Tried by `tests/diagnosed`.

use crate::bytes::push_quoted;
use crate::forms::{WORDS, form, may_stand, turn_at, turn_text};
use crate::listing::{end_of_body, listing_at, whole};
use crate::near::Nearest;
use crate::text_lines::{TextLines, first_word};
use asl_assembler::AsmFault;
use asl_code::VerifyFault;
use std::alloc::{AllocError, Global};

/// The line of this number; empty where there is none.
fn line_of(text: &[u8], number: usize) -> &[u8] {
    let mut rows = TextLines::new(text);
    'rows: while let Some(row) = rows.next() {
        if row.number == number {
            return row.line;
        }
    }
    &text[..0]
}

/// Adds the sentence of a fault.
pub fn push_assembly_sentence(
    message: &mut String,
    text: &[u8],
    fault: AsmFault,
) -> Result<(), AllocError> {
    match fault {
        AsmFault::Line(number) => push_line_sentence(message, text, number),
        AsmFault::Verify(cause) => message.push_str(verify_sentence(cause)),
        AsmFault::OutOfMemory => message.push_str("memory ran out"),
    }
}

/// Adds the sentence of a wrong line.
fn push_line_sentence(message: &mut String, text: &[u8], number: usize) -> Result<(), AllocError> {
    let (word, _) = first_word(line_of(text, number));
    if word.is_empty() {
        return message.push_str("the text ends too early");
    }
    push_quoted(message, word)?;
    if form(word).is_empty() {
        message.push_str(" begins no line")
    } else if may_stand(turn_at(text, number), word) {
        message.push_str(" is not written so")
    } else {
        message.push_str(" does not stand here")
    }
}

/// The sentence of a rule that is broken.
fn verify_sentence(cause: VerifyFault) -> &'static str {
    match cause {
        VerifyFault::Limit => "a count is over its limit",
        VerifyFault::Table => "there is no such class, or no such global",
        VerifyFault::NoEntry => "there is no such function, or it has not exactly one parameter",
        VerifyFault::FunctionRange => {
            "the function has no instruction, or more parameters than registers"
        }
        VerifyFault::FallsOut => "the last instruction of a function is `ret` or `jmp`",
        VerifyFault::Target(_) => "the jump leaves its function, or there is no such function",
        VerifyFault::Register(_) => "the function has no such register",
        VerifyFault::Operand(_) =>
            "there is no such global, class or list, or the object has no cell",
        VerifyFault::ListBase(_) => {
            "a lock of this list begins at a register that the function does not have"
        }
    }
}

/// Adds what helps, a line each.
pub fn push_assembly_hints(
    alloc: Global,
    message: &mut String,
    text: &[u8],
    fault: AsmFault,
) -> Result<(), AllocError> {
    match fault {
        AsmFault::Line(number) => push_line_hints(alloc, message, text, number),
        AsmFault::Verify(cause) => push_verify_hints(message, text, cause),
        AsmFault::OutOfMemory => Ok(()),
    }
}

/// Adds what a line may be.
fn push_line_hints(
    alloc: Global,
    message: &mut String,
    text: &[u8],
    number: usize,
) -> Result<(), AllocError> {
    let turn = turn_at(text, number);
    let (word, _) = first_word(line_of(text, number));
    let known = form(word);
    if may_stand(turn, word) && !known.is_empty() {
        write!(message, "a line of this kind is written `{known}`\n")?;
        return message.push_str(range_text(word));
    }
    message.push_str(turn_text(turn))?;
    message.push_str("\n")?;
    if known.is_empty() {
        push_near(alloc, message, word)?;
    }
    match word {
        [b';' | b'#' | b'/', ..] => message.push_str("there are no comments\n"),
        _ => Ok(()),
    }
}

/// The ranges of a line's numbers, where they are the usual mistake.
fn range_text(word: &[u8]) -> &'static str {
    match word {
        b"version" => "there are the versions 1 and 2\n",
        b"int" => "the integer is from -2147483648 to 2147483647\n",
        b"field" => "a register is r0 to r255, an offset 0 to 255\n",
        b"new" => "the operands are a register, the number of cells, and the class\n",
        b"call" => {
            "the operands are a register for the result, the first argument register, and the function's number\n"
        }
        b"jmp" | b"jz" =>
            "the target is a number: that of an instruction, from 0 over all functions\n",
        b"expr" => {
            "after `expr` stand r1 or g1, at most eight of `*` and `.0`, and `read` or `write`\n"
        }
        b"class" | b"root" => "the last word is `read` or `write`\n",
        b"classes" | b"global" | b"entry" | b"fn" | b"acq" | b"list" | b"rel" => "",
        _ => "a register is r0 to r255\n",
    }
}

/// Adds the nearest word that a line begins with.
fn push_near(alloc: Global, message: &mut String, word: &[u8]) -> Result<(), AllocError> {
    let mut found = Nearest::new();
    for other in WORDS {
        found.try_name(alloc, word, other.as_bytes())?;
    }
    match found.name {
        Some(name) => {
            push_quoted(message, name)?;
            message.push_str(" is spelled nearly so\n")
        }
        None => Ok(()),
    }
}

/// Adds what must be below what, for a rule that is broken.
fn push_verify_hints(
    message: &mut String,
    text: &[u8],
    cause: VerifyFault,
) -> Result<(), AllocError> {
    match cause {
        VerifyFault::Limit => message.push_str(
            "at most 1024 classes, 1024 globals, 256 functions of 4 parameters and 64 registers, 65535 instructions, 1024 lists of 256 locks (of 64 in version 1)\n",
        ),
        VerifyFault::Table => {
            let all = whole(text);
            let classes = all.classes;
            let globals = all.globals;
            write!(
                message,
                "a class is below {classes}, a global below {globals}\n"
            )
        }
        VerifyFault::NoEntry => {
            let functions = whole(text).functions;
            write!(
                message,
                "a function is below {functions}; the first one to run is `fn 1 R`\n"
            )
        }
        VerifyFault::Target(pc) => push_target_hint(message, text, pc),
        VerifyFault::Register(pc) | VerifyFault::ListBase(pc) => {
            let regs = listing_at(text, pc as usize).regs;
            write!(
                message,
                "instruction {pc}: a register of this function is below {regs}\n"
            )
        }
        VerifyFault::Operand(pc) => push_operand_hint(message, text, pc),
        VerifyFault::FunctionRange | VerifyFault::FallsOut => Ok(()),
    }
}

/// Adds where a jump may lead to and which functions there are.
fn push_target_hint(message: &mut String, text: &[u8], pc: u32) -> Result<(), AllocError> {
    let first = listing_at(text, pc as usize).first;
    let end = end_of_body(text, first);
    let functions = whole(text).functions;
    write!(
        message,
        "instruction {pc}: a target is from {first} and below {end}, a function below {functions}\n"
    )
}

/// Adds how many globals, classes and lists there are.
fn push_operand_hint(message: &mut String, text: &[u8], pc: u32) -> Result<(), AllocError> {
    let all = whole(text);
    let globals = all.globals;
    let classes = all.classes;
    let lists = all.lists;
    write!(
        message,
        "instruction {pc}: a global is below {globals}, a class below {classes}, a list below {lists}, and an object has 1 to 255 cells\n"
    )
}
