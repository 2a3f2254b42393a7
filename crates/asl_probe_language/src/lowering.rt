//! Lowerings of sources: `lower TEXT` (in words), `lower_once TEXT` (not made again where memory is refused), `sizes TEXT` (how many
//! instructions, and the registers of the last function), `functions TEXT` (for each its first pc, the register that it returns, and
//! whether it is inner), `places TEXT` (for each pc the function in whose body it is, and where control continues).
use crate::listing::put_listing;
use crate::sources::parse_again;
use asl_lower::{LowerFault, Lowering, lower};
use asl_probe_text::{put_bad, put_line, put_number, put_word, unescaped};
use asl_syntax::Ast;
use std::alloc::{AllocError, Global};

pub fn answer(alloc: Global, calls: &str, out: &mut String) -> Result<(), AllocError> {
    for line in calls.lines() {
        let (call, rest) = line.split_once(' ').unwrap_or((line, ""));
        let text = unescaped(alloc, rest)?;
        match parse_again(alloc, text.as_bytes()) {
            Ok(ast) => answer_tree(alloc, call, &ast, out)?,
            Err(fault) => write!(out, "{fault}\n")?,
        }
    }
    Ok(())
}

/// What `lower` answers, at the second call if the first gets no memory.
fn lower_again(alloc: Global, ast: &Ast<'_>) -> Result<Lowering, LowerFault> {
    match lower(alloc, ast) {
        Err(LowerFault::OutOfMemory) => lower(alloc, ast),
        answer => answer,
    }
}

fn answer_tree(
    alloc: Global,
    call: &str,
    ast: &Ast<'_>,
    out: &mut String,
) -> Result<(), AllocError> {
    let lowered = if call == "lower_once" {
        lower(alloc, ast)
    } else {
        lower_again(alloc, ast)
    };
    match lowered {
        Ok(lowering) => answer_lowering(call, &lowering, out),
        Err(fault) => write!(out, "{fault}\n"),
    }
}

fn answer_lowering(call: &str, lowering: &Lowering, out: &mut String) -> Result<(), AllocError> {
    match call {
        "lower" => put_listing(lowering, out),
        "lower_once" => put_line("ok", out),
        "sizes" => put_sizes(lowering, out),
        "functions" => put_functions(lowering, out),
        "places" => put_places(lowering, out),
        _ => put_bad(call, out),
    }
}

fn put_sizes(lowering: &Lowering, out: &mut String) -> Result<(), AllocError> {
    let regs = match lowering.functions() {
        [.., function] => function.regs,
        [] => 0,
    };
    write!(out, "code {} regs {regs}\n", lowering.code().len())
}

fn put_functions(lowering: &Lowering, out: &mut String) -> Result<(), AllocError> {
    for number in 0..256u16 {
        if usize::from(number) < lowering.functions().len() {
            put_function(lowering, number, out)?;
        }
    }
    out.push_str(" inner")?;
    for is_inner in lowering
        .inner()
        .iter()
        .take(lowering.functions().len().saturating_add(1))
    {
        put_word(if *is_inner { "yes" } else { "no" }, out)?;
    }
    out.push('\n')
}

fn put_function(lowering: &Lowering, number: u16, out: &mut String) -> Result<(), AllocError> {
    if usize::from(number) < lowering.functions().len() {
        put_word("", out)?;
        let start = lowering.start(number);
        let returned = lowering.returned(number);
        write!(out, "{start} r{returned}")?;
    }
    Ok(())
}

fn put_places(lowering: &Lowering, out: &mut String) -> Result<(), AllocError> {
    for pc in 0..=65_535u16 {
        if usize::from(pc) < lowering.code().len() {
            put_place(lowering, pc, out)?;
        }
    }
    out.push('\n')
}

fn put_place(lowering: &Lowering, pc: u16, out: &mut String) -> Result<(), AllocError> {
    if usize::from(pc) < lowering.code().len() {
        let owner = lowering.owner(pc);
        write!(out, "; {pc} of {owner} to")?;
        for next in lowering.successors(pc).as_slice() {
            put_number(usize::from(*next), out)?;
        }
    }
    Ok(())
}
