//! Programs that are inferred for sources on one line: `infer K TEXT` (the lists, on one line), `program K TEXT` (the whole text),
//! `image K TEXT` (its bytes), `accept K TEXT`. And what is left of lists of locks, by the classes of the last source that was
//! given by `classes TEXT`, in function 0: `reduce LOCK; LOCK`, `fit LOCK; LOCK`, `most` (the locks of a list at most).
use asl_assembler::disassemble;
use asl_code::{Lock, Program};
use asl_emitter::{InferFault, MAX_LOCKS, fit, infer, reduce};
use asl_loader::store;
use asl_lower::lower;
use asl_points_to::{Classes, classes};
use asl_probe_text::{lock, put_bad, put_line, put_locks, put_word};
use asl_syntax::{Ast, parse};
use std::alloc::{AllocError, Global};

pub fn answer(alloc: Global, calls: &str, out: &mut String) -> Result<(), AllocError> {
    let mut kept = None;
    for line in calls.lines() {
        let (call, rest) = line.split_once(' ').unwrap_or((line, ""));
        match call {
            "classes" => kept = classes_of(alloc, rest),
            "reduce" | "fit" => match &kept {
                Some(classes) => put_left(alloc, call, classes, rest, out)?,
                None => put_line("no classes", out)?,
            },
            "most" => write!(out, "{MAX_LOCKS}\n")?,
            _ => answer_source(alloc, call, rest, out)?,
        }
    }
    Ok(())
}

fn classes_of(alloc: Global, text: &str) -> Option<Classes> {
    let ast = parse(alloc, text.as_bytes()).ok()?;
    let lowering = lower(alloc, &ast).ok()?;
    classes(alloc, &lowering).ok()
}

fn put_left(
    alloc: Global,
    call: &str,
    classes: &Classes,
    text: &str,
    out: &mut String,
) -> Result<(), AllocError> {
    let given = locks(alloc, text)?;
    if call == "fit" {
        put_locks(&fit(alloc, classes, 0, &given)?, out)
    } else {
        put_locks(&reduce(alloc, classes, 0, &given)?, out)
    }
}

fn locks(alloc: Global, text: &str) -> Result<Vec<Lock>, AllocError> {
    let mut locks = Vec::new(alloc);
    for text in text.split("; ") {
        if let Some(lock) = lock(text) {
            locks.push(lock)?;
        }
    }
    Ok(locks)
}

fn answer_source(
    alloc: Global,
    call: &str,
    rest: &str,
    out: &mut String,
) -> Result<(), AllocError> {
    let (k, text) = rest.split_once(' ').unwrap_or((rest, ""));
    let k = k.parse::<u32>().unwrap_or(9);
    if k > 8 {
        return put_bad(rest, out);
    }
    match parse(alloc, text.as_bytes()) {
        Ok(ast) => answer_inferred(alloc, call, inferred(alloc, &ast, k), out),
        Err(fault) => write!(out, "{fault}\n"),
    }
}

/// The program that is inferred for a tree, with paths of at most eight operations.
fn inferred(alloc: Global, ast: &Ast<'_>, k: u32) -> Result<Program, InferFault> {
    infer(alloc, ast, if k <= 8 { k } else { 8 })
}

fn answer_inferred(
    alloc: Global,
    call: &str,
    inferred: Result<Program, InferFault>,
    out: &mut String,
) -> Result<(), AllocError> {
    match (call, inferred) {
        (_, Err(fault)) => write!(out, "{fault}\n"),
        ("accept", Ok(_)) => put_line("accepted", out),
        ("image", Ok(program)) => put_bytes(store(alloc, &program)?.as_slice(), out),
        ("program", Ok(program)) => put_text(disassemble(alloc, &program)?.as_slice(), false, out),
        ("infer", Ok(program)) => put_text(disassemble(alloc, &program)?.as_slice(), true, out),
        _ => put_bad(call, out),
    }
}

fn put_bytes(bytes: &[u8], out: &mut String) -> Result<(), AllocError> {
    for byte in bytes {
        put_word("", out)?;
        write!(out, "{byte}")?;
    }
    out.push('\n')
}

/// The lines of a text on one line, with `; ` between, all or from the first `list` on.
fn put_text(text: &[u8], lists_alone: bool, out: &mut String) -> Result<(), AllocError> {
    let text = str::from_utf8(text).unwrap_or("no text");
    let mut is_shown = !lists_alone;
    for line in text.lines() {
        is_shown = is_shown || line == "list";
        if is_shown {
            put_word(line, out)?;
            out.push(';')?;
        }
    }
    out.push('\n')
}
