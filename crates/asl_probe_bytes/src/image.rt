//! Images of any parts: `version N`, `classes N`, `start N`, `globals CLASS ..`, `functions PARAMS.REGS.LEN ..`, `code BYTES; BYTES`
//! (eight numbers an instruction; what follows two blanks is not read), `lists LOCK; LOCK | LOCK` (two lists), `no_lists`. A part stays
//! until it is given again. `verify` answers the program's parts, or the fault, with the parts of the image that is handed back.
//! And the containers that images are made of: `items N ..`, `path OP ..`, `effect LOCK`, `fault N`.
use crate::numbers::eight;
use asl_code::{Function, Image, Instr, Items, Lock, Program, get_instr};
use asl_probe_text::{effect_name, lock, numbers, put_bad, put_line, put_locks, put_number};
use std::alloc::{AllocError, Global};

/// The parts of an image, as they are spelled.
#[derive(Clone, Copy)]
struct Parts<'t> {
    version: u32,
    classes: u32,
    start: u16,
    globals: &'t str,
    functions: &'t str,
    code: &'t str,
    lists: Option<&'t str>,
}

pub fn answer(alloc: Global, calls: &str, out: &mut String) -> Result<(), AllocError> {
    let mut parts = Parts {
        version: 1,
        classes: 1,
        start: 0,
        globals: "",
        functions: "",
        code: "",
        lists: None,
    };
    for line in calls.lines() {
        let (call, rest) = line.split_once(' ').unwrap_or((line, ""));
        match call {
            "version" => parts.version = rest.parse::<u32>().unwrap_or(0),
            "classes" => parts.classes = rest.parse::<u32>().unwrap_or(0),
            "start" => parts.start = rest.parse::<u16>().unwrap_or(0),
            "globals" => parts.globals = rest,
            "functions" => parts.functions = rest,
            "code" => parts.code = rest,
            "lists" => parts.lists = Some(rest),
            "no_lists" => parts.lists = None,
            "verify" => verify(alloc, parts, out)?,
            _ => answer_container(alloc, call, rest, out)?,
        }
    }
    Ok(())
}

fn verify(alloc: Global, parts: Parts<'_>, out: &mut String) -> Result<(), AllocError> {
    let image = Image {
        version: parts.version,
        classes: parts.classes,
        globals: globals(alloc, parts.globals)?,
        functions: functions(alloc, parts.functions)?,
        start: parts.start,
        code: code(alloc, parts.code)?,
        lists: lists(alloc, parts.lists)?,
    };
    match Program::verify(image) {
        Ok(program) => {
            put_program(&program, out)?;
            let code = program.code().len();
            if program.into_image().code.len() != code {
                out.push_str("another image comes back\n")?;
            }
            Ok(())
        }
        Err((fault, image)) => {
            let start = image.start;
            let code = image.code.len();
            write!(out, "{fault} start {start} code {code}\n")
        }
    }
}

/// What the readers tell of a program.
pub fn put_program(program: &Program, out: &mut String) -> Result<(), AllocError> {
    let limits = program.limits();
    write!(
        out,
        "version {} threads {} locks {} classes {} globals",
        program.version(),
        limits.threads,
        limits.locks,
        program.classes()
    )?;
    for class in program.globals() {
        put_number(usize::from(*class), out)?;
    }
    write!(
        out,
        " functions {} start {} code {} lists {} image {}\n",
        program.functions().len(),
        program.start(),
        program.code().len(),
        program.lists().len(),
        program.image().code.len()
    )
}

fn globals(alloc: Global, text: &str) -> Result<Items<u16>, AllocError> {
    let mut items = Items::new(alloc);
    for word in text.split_whitespace() {
        items.push(word.parse::<u16>().unwrap_or(u16::MAX))?;
    }
    Ok(items)
}

fn functions(alloc: Global, text: &str) -> Result<Items<Function>, AllocError> {
    let mut items = Items::new(alloc);
    for word in text.split_whitespace() {
        if let Some(function) = function(word) {
            items.push(function)?;
        }
    }
    Ok(items)
}

fn function(word: &str) -> Option<Function> {
    let mut words = word.split('.');
    Some(Function {
        params: words.next()?.parse::<u8>().ok()?,
        regs: words.next()?.parse::<u8>().ok()?,
        len: words.next()?.parse::<u32>().ok()?,
    })
}

fn code(alloc: Global, text: &str) -> Result<Items<Instr>, AllocError> {
    let (text, _said) = text.split_once("  ").unwrap_or((text, ""));
    let mut items = Items::new(alloc);
    for text in text.split("; ") {
        let bytes = numbers(alloc, text)?;
        if let Some(instr) = eight(bytes.as_slice()).and_then(|bytes| get_instr(&bytes).ok()) {
            items.push(instr)?;
        }
    }
    Ok(items)
}

fn lists(alloc: Global, text: Option<&str>) -> Result<Items<Items<Lock>>, AllocError> {
    let mut items = Items::new(alloc);
    if let Some(text) = text {
        for text in text.split(" | ") {
            items.push(list(alloc, text)?)?;
        }
    }
    Ok(items)
}

fn list(alloc: Global, text: &str) -> Result<Items<Lock>, AllocError> {
    let mut items = Items::new(alloc);
    for text in text.split("; ") {
        if let Some(lock) = lock(text) {
            items.push(lock)?;
        }
    }
    Ok(items)
}

fn answer_container(
    alloc: Global,
    call: &str,
    rest: &str,
    out: &mut String,
) -> Result<(), AllocError> {
    match call {
        "items" => put_items(alloc, rest, out),
        "locks" => put_locks(list(alloc, rest)?.as_slice(), out),
        "effect" => match lock(rest) {
            Some(lock) => put_line(effect_name(lock.effect()), out),
            None => put_bad(rest, out),
        },
        "path" => put_path(rest, out),
        _ => put_bad(call, out),
    }
}

/// The numbers of a list of items that was made of all but the last, to which the last was added.
fn put_items(alloc: Global, text: &str, out: &mut String) -> Result<(), AllocError> {
    let (first, last) = text.rsplit_once(' ').unwrap_or(("", text));
    let mut items = Items::from_vec(globals(alloc, first)?.into_vec());
    items.push(last.parse::<u16>().unwrap_or(0))?;
    write!(out, "{} of", items.len())?;
    for item in items.as_slice() {
        put_number(usize::from(*item), out)?;
    }
    out.push('\n')
}

/// How many operations the lock's path has, and whether the empty path is below it.
fn put_path(text: &str, out: &mut String) -> Result<(), AllocError> {
    match lock(text) {
        Some(Lock::Expr(expr, _)) => {
            let len = expr.path.len();
            let is_above = asl_code::Path::default() < expr.path;
            write!(out, "{len} {is_above}\n")
        }
        _ => put_bad(text, out),
    }
}
