//! Assembly texts. In `texts` each call has a text on one line, with `\n`, `\r` and `\t` in it: `assemble TEXT`, `rewrite TEXT` (what is
//! written of its program), `program TEXT` (what its readers tell), `code TEXT` (its
//! instructions). In `instr_lines` and `lock_lines` each call is a line that
//! stands for the line `?` of the text above: the answer is the first instruction, or the locks of the only list.
use crate::image::put_program;
use crate::numbers::put_instr_fields;
use asl_assembler::{AsmFault, assemble, disassemble};
use asl_code::Program;
use asl_probe_text::{put_bad, put_escaped, put_line, put_locks, unescaped};
use std::alloc::{AllocError, Global};

pub fn answer(alloc: Global, calls: &str, out: &mut String) -> Result<(), AllocError> {
    for line in calls.lines() {
        let (call, rest) = line.split_once(' ').unwrap_or((line, ""));
        let text = unescaped(alloc, rest)?;
        answer_text(alloc, call, text.as_bytes(), out)?;
    }
    Ok(())
}

/// The program of the text, at the second try where memory is refused.
fn assembled(alloc: Global, text: &[u8]) -> Result<Program, AsmFault> {
    match assemble(alloc, text) {
        Err(AsmFault::OutOfMemory) => assemble(alloc, text),
        answer => answer,
    }
}

fn answer_text(alloc: Global, call: &str, text: &[u8], out: &mut String) -> Result<(), AllocError> {
    match (call, assembled(alloc, text)) {
        (_, Err(fault)) => write!(out, "{fault}\n"),
        ("assemble", Ok(_)) => put_line("taken", out),
        ("program", Ok(program)) => put_program(&program, out),
        ("code", Ok(program)) => put_code(&program, out),
        ("rewrite", Ok(program)) => put_text(alloc, &program, out),
        _ => put_bad(call, out),
    }
}

fn put_code(program: &Program, out: &mut String) -> Result<(), AllocError> {
    for instr in program.code() {
        put_instr_fields(*instr, out)?;
        out.push(';')?;
    }
    out.push('\n')
}

fn put_text(alloc: Global, program: &Program, out: &mut String) -> Result<(), AllocError> {
    let written = match disassemble(alloc, program) {
        Err(_refused) => disassemble(alloc, program)?,
        Ok(written) => written,
    };
    match str::from_utf8(&written) {
        Ok(text) => put_escaped(text, out),
        Err(_) => put_line("no text", out),
    }
}

pub fn answer_lines(
    alloc: Global,
    kind: &str,
    given: &str,
    calls: &str,
    out: &mut String,
) -> Result<(), AllocError> {
    let (front, back) = given.split_once("?").unwrap_or((given, ""));
    for line in calls.lines() {
        let mut text = String::new(alloc);
        text.push_str(front)?;
        text.push_str(unescaped(alloc, line)?.as_str())?;
        text.push_str(back)?;
        answer_line(kind, assembled(alloc, text.as_bytes()), out)?;
    }
    Ok(())
}

fn answer_line(
    kind: &str,
    assembled: Result<Program, AsmFault>,
    out: &mut String,
) -> Result<(), AllocError> {
    let program = match assembled {
        Ok(program) => program,
        Err(fault) => return write!(out, "{fault}\n"),
    };
    if kind == "lock_lines" {
        return match program.lists() {
            [list] => put_locks(list.as_slice(), out),
            _ => put_line("not one list", out),
        };
    }
    match program.code() {
        [instr, ..] => {
            put_instr_fields(*instr, out)?;
            out.push('\n')
        }
        [] => put_line("no instruction", out),
    }
}
