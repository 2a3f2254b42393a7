//! The analysis of one source text: `classes`, `class_of F EXPR`, `writes F C`, `links K PC LOCK`, `needed K PC REGION N`, and
//! what `adding` has.
ghost use Rattle.asl_points_to.specs.Classes.{AreClasses};

use crate::adding;
use asl_backward_flow::{Region, needed};
use asl_code::Lock;
use asl_lock_expr::{Writes, class_of, links, writes};
use asl_lower::{Lowering, lower};
use asl_points_to::{Classes, classes};
use asl_probe_text::{lock, put_bad, put_bool, put_line, put_locks};
use asl_syntax::{Ast, parse};
use std::alloc::{AllocError, Global};

pub fn answer(alloc: Global, given: &str, calls: &str, out: &mut String) -> Result<(), AllocError> {
    match parse(alloc, given.as_bytes()) {
        Ok(ast) => answer_tree(alloc, &ast, calls, out),
        Err(fault) => write!(out, "{fault}\n"),
    }
}

fn answer_tree(
    alloc: Global,
    ast: &Ast<'_>,
    calls: &str,
    out: &mut String,
) -> Result<(), AllocError> {
    let lowering = match lower(alloc, ast) {
        Ok(lowering) => lowering,
        Err(fault) => return write!(out, "{fault}\n"),
    };
    match classes(alloc, &lowering) {
        Ok(classes) => {
            let writes = writes(alloc, &lowering, &classes)?;
            let mut locks = Vec::new(alloc);
            for line in calls.lines() {
                if line == "classes" {
                    put_classes(&lowering, &classes, out)?;
                } else if line.starts_with("add") || line.starts_with("stays") {
                    adding::answer(line, &classes, &writes, &mut locks, out)?;
                } else {
                    answer_call(alloc, &lowering, &classes, &writes, line, out)?;
                }
            }
            Ok(())
        }
        Err(fault) => write!(out, "{fault}\n"),
    }
}

fn answer_call(
    alloc: Global,
    lowering: &Lowering,
    classes: &Classes,
    writes: &Writes,
    line: &str,
    out: &mut String,
) -> Result<(), AllocError> {
    let mut words = line.splitn(4, ' ');
    let call = words.next().unwrap_or("");
    let first = words.next().and_then(|word| word.parse::<u16>().ok());
    let second = words.next().unwrap_or("");
    let third = words.next().unwrap_or("");
    let Some(first) = first else {
        return put_bad(line, out);
    };
    match call {
        "writes" => put_bool(writes.has(first, second.parse::<u16>().unwrap_or(0)), out),
        "class_of" => put_class_of(alloc, classes, first, second, third, out),
        "links" => put_links(alloc, lowering, classes, writes, first, second, third, out),
        "needed" => put_needed(alloc, lowering, classes, first, second, third, out),
        _ => put_bad(line, out),
    }
}

fn put_class_of(
    alloc: Global,
    classes: &Classes,
    function: u16,
    first: &str,
    rest: &str,
    out: &mut String,
) -> Result<(), AllocError> {
    match lock(&format!(in alloc; "{first} {rest} read")?) {
        Some(Lock::Expr(expr, _)) => match class_of(classes, function, &expr) {
            Some(class) => write!(out, "class {class}\n"),
            None => put_line("no class", out),
        },
        _ => put_bad(rest, out),
    }
}

fn put_links(
    alloc: Global,
    lowering: &Lowering,
    classes: &Classes,
    writes: &Writes,
    k: u16,
    pc: &str,
    given: &str,
    out: &mut String,
) -> Result<(), AllocError> {
    let pc = pc.parse::<u32>().unwrap_or(65_536);
    match lock(given) {
        Some(lock) if k <= 8 && (pc as usize) < lowering.code().len() => {
            let found = links(alloc, lowering, classes, writes, u32::from(k), pc, &lock)?;
            put_locks(&found, out)
        }
        _ => put_bad(given, out),
    }
}

fn region(text: &str) -> Option<Region> {
    let (kind, number) = text.split_once(' ')?;
    let number = number.parse::<u16>().ok()?;
    match kind {
        "body" => Some(Region::Body(number)),
        "section" => Some(Region::Section(number)),
        _ => None,
    }
}

fn put_needed(
    alloc: Global,
    lowering: &Lowering,
    classes: &Classes,
    k: u16,
    pc: &str,
    given: &str,
    out: &mut String,
) -> Result<(), AllocError> {
    let Some(region) = region(given) else {
        return put_bad(given, out);
    };
    if k > 8 {
        return put_bad(given, out);
    }
    let pc = pc.parse::<u32>().unwrap_or(65_536);
    match needed(alloc, lowering, classes, u32::from(k)) {
        Ok(flow) => put_locks(&flow.at(alloc, region, pc)?, out),
        Err(fault) => write!(out, "{fault}\n"),
    }
}

fn put_classes(lowering: &Lowering, classes: &Classes, out: &mut String) -> Result<(), AllocError>
    requires { AreClasses lowering.now classes.now }
{
    write!(out, "count {}\n", classes.count())?;
    put_members(lowering, classes, out)?;
    put_targets(lowering, classes, out)
}

/// The classes of the globals and sites.
fn put_members(lowering: &Lowering, classes: &Classes, out: &mut String) -> Result<(), AllocError>
    requires { AreClasses lowering.now classes.now }
{
    out.push_str("globals")?;
    for global in 0..lowering.globals() {
        let class = classes.of_global(global);
        write!(out, " {class}")?;
    }
    out.push_str("\nsites")?;
    for site in 0..lowering.sites() {
        let class = classes.of_site(site);
        write!(out, " {class}")?;
    }
    out.push('\n')
}

/// Where the registers and the cells of classes point that point anywhere.
fn put_targets(lowering: &Lowering, classes: &Classes, out: &mut String) -> Result<(), AllocError> {
    let mut number: u16 = 0;
    for function in lowering.functions() {
        for register in 0..function.regs {
            if let Some(class) = classes.to(number, register) {
                write!(out, "to {number} r{register} class {class}\n")?;
            }
        }
        number = number.wrapping_add(1);
    }
    for class in 0..classes.count() {
        if let Some(other) = classes.inside(class) {
            write!(out, "inside {class} class {other}\n")?;
        }
    }
    Ok(())
}
