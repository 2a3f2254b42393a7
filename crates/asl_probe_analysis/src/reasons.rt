//! Why members of one source text share a class: `chain M N`, `between PLACE PLACE`, `before STEP PLACE PLACE` (by the steps before
//! that one), `from PLACE PLACE..` (one search for all that follow), `last` (the last step), `parts PC M N`. A place is `m3`, a
//! member; `c3`, the cells of its class; or `f0r2`, a register of a function. A chain is its places, with what is between two of
//! them the pc of an instruction, or `same`.
use asl_class_reasons::{Cause, Link, Place, Reasons, Step, parts, reasons_of};
use asl_lower::{Lowering, lower};
use asl_probe_text::{put_bad, put_bool, put_line};
use asl_syntax::parse;
use std::alloc::{AllocError, Global};

pub fn answer(alloc: Global, given: &str, calls: &str, out: &mut String) -> Result<(), AllocError> {
    let ast = match parse(alloc, given.as_bytes()) {
        Ok(ast) => ast,
        Err(fault) => return write!(out, "{fault}\n"),
    };
    let lowering = match lower(alloc, &ast) {
        Ok(lowering) => lowering,
        Err(fault) => return write!(out, "{fault}\n"),
    };
    let reasons = reasons_of(alloc, &lowering)?;
    for line in calls.lines() {
        let (call, words) = line.split_once(' ').unwrap_or((line, ""));
        match call {
            "chain" => put_chain(alloc, &reasons, words, out)?,
            "between" => put_between(alloc, &reasons, words, out)?,
            "before" => put_before(alloc, &reasons, words, out)?,
            "from" => put_from(alloc, &reasons, words, out)?,
            "last" => put_last(&reasons, out)?,
            "parts" => put_parts(alloc, &lowering, words, out)?,
            _ => put_bad(line, out)?,
        }
    }
    Ok(())
}

fn place(word: &str) -> Option<Place> {
    if let Some(member) = word.strip_prefix('m') {
        return Some(Place::Member(member.parse().ok()?));
    }
    if let Some(member) = word.strip_prefix('c') {
        return Some(Place::Cells(member.parse().ok()?));
    }
    let (function, register) = word.strip_prefix('f')?.split_once('r')?;
    Some(Place::Register {
        function: function.parse().ok()?,
        register: register.parse().ok()?,
    })
}

fn places(words: &str) -> Option<(Place, Place)> {
    let (from, into) = words.split_once(' ')?;
    Some((place(from)?, place(into)?))
}

fn numbers(words: &str) -> Option<(u32, u32)> {
    let (first, second) = words.split_once(' ')?;
    Some((first.parse().ok()?, second.parse().ok()?))
}

fn put_place(place: Place, out: &mut String) -> Result<(), AllocError> {
    match place {
        Place::Member(member) => write!(out, "m{member}"),
        Place::Cells(member) => write!(out, "c{member}"),
        Place::Register { function, register } => write!(out, "f{function}r{register}"),
    }
}

fn put_cause(step: Option<&Step>, out: &mut String) -> Result<(), AllocError> {
    match step.map(|step| step.cause) {
        Some(Cause::Instruction(pc)) => write!(out, " {pc} "),
        Some(Cause::SameClass) => out.push_str(" same "),
        None => out.push_str(" no step "),
    }
}

fn put_links(
    reasons: &Reasons,
    from: Place,
    found: &Option<Vec<Link>>,
    out: &mut String,
) -> Result<(), AllocError> {
    let Some(links) = found else {
        return put_line("none", out);
    };
    put_place(from, out)?;
    for link in links {
        put_cause(reasons.steps().get(link.step), out)?;
        put_place(link.into, out)?;
    }
    out.push('\n')
}

fn put_chain(
    alloc: Global,
    reasons: &Reasons,
    words: &str,
    out: &mut String,
) -> Result<(), AllocError> {
    match numbers(words) {
        Some((from, into)) => {
            let found = reasons.chain(alloc, from, into)?;
            put_links(reasons, Place::Member(from), &found, out)
        }
        None => put_bad(words, out),
    }
}

fn put_between(
    alloc: Global,
    reasons: &Reasons,
    words: &str,
    out: &mut String,
) -> Result<(), AllocError> {
    match places(words) {
        Some((from, into)) => {
            let found = reasons.chain_between(alloc, from, into)?;
            put_links(reasons, from, &found, out)
        }
        None => put_bad(words, out),
    }
}

fn put_before(
    alloc: Global,
    reasons: &Reasons,
    words: &str,
    out: &mut String,
) -> Result<(), AllocError> {
    let (step, rest) = words.split_once(' ').unwrap_or((words, ""));
    match (step.parse::<usize>(), places(rest)) {
        (Ok(step), Some((from, into))) => {
            let found = reasons.chain_before(alloc, step, from, into)?;
            put_links(reasons, from, &found, out)
        }
        _ => put_bad(words, out),
    }
}

fn put_from(
    alloc: Global,
    reasons: &Reasons,
    words: &str,
    out: &mut String,
) -> Result<(), AllocError> {
    let (first, rest) = words.split_once(' ').unwrap_or((words, ""));
    let Some(from) = place(first) else {
        return put_bad(words, out);
    };
    let chains = reasons.chains_from(alloc, from)?;
    for word in rest.split(' ') {
        match place(word) {
            Some(into) => {
                let found = chains.chain_to(alloc, into)?;
                put_links(reasons, from, &found, out)?;
            }
            None => put_bad(word, out)?,
        }
    }
    Ok(())
}

fn put_last(reasons: &Reasons, out: &mut String) -> Result<(), AllocError> {
    let Some(step) = reasons.steps().last() else {
        return put_line("none", out);
    };
    put_place(step.from, out)?;
    put_cause(Some(step), out)?;
    put_place(step.into, out)?;
    out.push('\n')
}

fn put_parts(
    alloc: Global,
    lowering: &Lowering,
    words: &str,
    out: &mut String,
) -> Result<(), AllocError> {
    let (pc, rest) = words.split_once(' ').unwrap_or((words, ""));
    match (pc.parse::<u16>(), numbers(rest)) {
        (Ok(pc), Some((m, n))) => put_bool(parts(alloc, lowering, pc, m, n)?, out),
        _ => put_bad(words, out),
    }
}
