//! Bytes of instructions and values, and versions: `instr BYTES`, `value BYTES`, `cut_value BYTES` (cut at each place), `version N`,
//! `newest`, `version_for THREADS`, `faults PC` (faults of images, texts and files in words). An instruction is answered by its name and its fields, 0 where it has fewer than three.
use asl_assembler::AsmFault;
use asl_code::{
    Instr, NEWEST, NEWEST_LIMITS, Value, ValueFault, VerifyFault, get_instr, get_value, has_fresh,
    is_version, limits_of, put_instr, put_value, version_for,
};
use asl_loader::LoadFault;
use asl_probe_text::{numbers, put_bad, put_line, put_number, put_word};
use std::alloc::{AllocError, Global};

pub fn answer(alloc: Global, calls: &str, out: &mut String) -> Result<(), AllocError> {
    for line in calls.lines() {
        let (call, rest) = line.split_once(' ').unwrap_or((line, ""));
        match call {
            "instr" => answer_instr(numbers(alloc, rest)?.as_slice(), out)?,
            "value" => answer_value(numbers(alloc, rest)?.as_slice(), out)?,
            "cut_value" => answer_cut(numbers(alloc, rest)?.as_slice(), out)?,
            "version" => answer_version(rest, out)?,
            "faults" => answer_faults(rest, out)?,
            "version_for" => answer_version_for(rest, out)?,
            "newest" => write!(
                out,
                "{NEWEST} threads {} locks {}\n",
                NEWEST_LIMITS.threads, NEWEST_LIMITS.locks
            )?,
            _ => put_bad(line, out)?,
        }
    }
    Ok(())
}

/// The eight numbers of a slice.
pub fn eight(bytes: &[u8]) -> Option<[u8; 8]> {
    match bytes {
        [a, b, c, d, e, f, g, h] => Some([*a, *b, *c, *d, *e, *f, *g, *h]),
        _ => None,
    }
}

fn answer_instr(bytes: &[u8], out: &mut String) -> Result<(), AllocError> {
    match eight(bytes) {
        Some(bytes) => match get_instr(&bytes) {
            Ok(instr) => {
                put_instr_fields(instr, out)?;
                let is_same = put_instr(&instr) == bytes;
                put_line(if is_same { " same" } else { " other" }, out)
            }
            Err(place) => write!(out, "bad {place}\n"),
        },
        None => put_line("not eight bytes", out),
    }
}

/// An instruction's name and its fields.
pub fn put_instr_fields(instr: Instr, out: &mut String) -> Result<(), AllocError> {
    let name = name_of(instr);
    let (one, other, third) = fields_of(instr);
    write!(out, "{name} {one} {other} {third}")
}

fn name_of(instr: Instr) -> &'static str {
    match instr {
        Instr::SetInt { .. } => "SetInt",
        Instr::SetNull { .. } => "SetNull",
        Instr::Move { .. } => "Move",
        Instr::Add { .. } => "Add",
        Instr::Subtract { .. } => "Subtract",
        Instr::LessThan { .. } => "LessThan",
        Instr::Equals { .. } => "Equals",
        Instr::GlobalAddress { .. } => "GlobalAddress",
        Instr::FieldAddress { .. } => "FieldAddress",
        Instr::Load { .. } => "Load",
        Instr::Store { .. } => "Store",
        Instr::New { .. } => "New",
        Instr::Jump { .. } => "Jump",
        Instr::JumpIfZero { .. } => "JumpIfZero",
        Instr::Call { .. } => "Call",
        Instr::Return { .. } => "Return",
        Instr::Output { .. } => "Output",
        Instr::Acquire { .. } => "Acquire",
        Instr::Release => "Release",
    }
}

fn fields_of(instr: Instr) -> (i32, u16, u16) {
    match instr {
        Instr::Release => (0, 0, 0),
        Instr::SetNull { to } => (i32::from(to), 0, 0),
        Instr::Return { from } | Instr::Output { from } => (i32::from(from), 0, 0),
        Instr::Acquire { list } => (i32::from(list), 0, 0),
        Instr::Jump { target } => (i32::from(target), 0, 0),
        // (the value stands first, since it alone may be negative)
        Instr::SetInt { to, value } => (value, u16::from(to), 0),
        Instr::Move { to, from } => (i32::from(to), u16::from(from), 0),
        Instr::Load { to, address } => (i32::from(to), u16::from(address), 0),
        Instr::Store { address, from } => (i32::from(address), u16::from(from), 0),
        Instr::GlobalAddress { to, global } => (i32::from(to), global, 0),
        Instr::JumpIfZero { test, target } => (i32::from(test), target, 0),
        Instr::FieldAddress { to, from, offset } => {
            (i32::from(to), u16::from(from), u16::from(offset))
        }
        Instr::New { to, cells, class } => (i32::from(to), u16::from(cells), class),
        Instr::Call {
            to,
            first,
            function,
        } => (i32::from(to), u16::from(first), function),
        Instr::Add { to, left, right }
        | Instr::Subtract { to, left, right }
        | Instr::LessThan { to, left, right }
        | Instr::Equals { to, left, right } => {
            (i32::from(to), u16::from(left), u16::from(right))
        }
    }
}

/// The value, how many bytes it takes, and the bytes that are written of it.
fn answer_value(bytes: &[u8], out: &mut String) -> Result<(), AllocError> {
    match get_value(bytes) {
        Ok((value, len)) => {
            put_one_value(value, out)?;
            write!(out, " in {len} as")?;
            for byte in put_value(value).as_slice() {
                put_number(usize::from(*byte), out)?;
            }
            out.push('\n')
        }
        Err(fault) => put_line(fault_name(fault), out),
    }
}

fn put_one_value(value: Value, out: &mut String) -> Result<(), AllocError> {
    match value {
        Value::Int(number) => write!(out, "{number}"),
        Value::Null => out.push_str("null"),
        Value::Addr(object, offset) => write!(out, "@{object}.{offset}"),
    }
}

fn fault_name(fault: ValueFault) -> &'static str {
    match fault {
        ValueFault::Short => "Short",
        ValueFault::Bad => "Bad",
    }
}

fn answer_cut(bytes: &[u8], out: &mut String) -> Result<(), AllocError> {
    for len in 0..bytes.len() {
        if let Some(front) = bytes.get(..len) {
            match get_value(front) {
                Ok(_) => put_word("taken", out)?,
                Err(fault) => put_word(fault_name(fault), out)?,
            }
        }
    }
    out.push('\n')
}

fn answer_version(word: &str, out: &mut String) -> Result<(), AllocError> {
    let Ok(version) = word.parse::<u32>() else {
        return put_bad(word, out);
    };
    match limits_of(version) {
        Some(limits) if is_version(version) => {
            let fresh = if has_fresh(version) {
                "fresh"
            } else {
                "no fresh"
            };
            write!(
                out,
                "threads {} locks {} {fresh} objects\n",
                limits.threads, limits.locks
            )
        }
        None if !is_version(version) => put_line("none", out),
        _ => put_line("is_version says otherwise", out),
    }
}

fn answer_version_for(word: &str, out: &mut String) -> Result<(), AllocError> {
    match word.parse::<u32>() {
        Ok(threads) => write!(out, "{}\n", version_for(threads)),
        Err(_) => put_bad(word, out),
    }
}

fn answer_faults(word: &str, out: &mut String) -> Result<(), AllocError> {
    let pc = word.parse::<u32>().unwrap_or(0);
    put_fault(VerifyFault::Target(pc), out)?;
    put_fault(VerifyFault::Register(pc), out)?;
    put_fault(VerifyFault::Operand(pc), out)?;
    put_fault(VerifyFault::ListBase(pc), out)?;
    put_word("", out)?;
    write!(
        out,
        "{} {}\n",
        AsmFault::OutOfMemory,
        LoadFault::OutOfMemory
    )
}

fn put_fault(fault: VerifyFault, out: &mut String) -> Result<(), AllocError> {
    put_word("", out)?;
    write!(out, "{fault}")
}
