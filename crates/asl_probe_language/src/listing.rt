//! A lowering in words, on one line: its numbers, its functions, its code and its sections.
use asl_code::Instr;
use asl_lower::Lowering;
use std::alloc::AllocError;
use std::fmt::Write;

pub fn put_listing(lowering: &Lowering, out: &mut String) -> Result<(), AllocError> {
    let globals = lowering.globals();
    let sites = lowering.sites();
    let main = lowering.main();
    write!(out, "globals {globals} sites {sites} main {main}")?;
    push_functions(out, lowering)?;
    push_code(out, lowering)?;
    push_sections(out, lowering)?;
    out.push('\n')
}

/// The word of an instruction.
fn word(instr: &Instr) -> &'static str {
    match instr {
        Instr::SetInt { .. } => "int",
        Instr::SetNull { .. } => "null",
        Instr::Move { .. } => "mov",
        Instr::Add { .. } => "add",
        Instr::Subtract { .. } => "sub",
        Instr::LessThan { .. } => "lt",
        Instr::Equals { .. } => "eq",
        Instr::GlobalAddress { .. } => "glob",
        Instr::FieldAddress { .. } => "field",
        Instr::Load { .. } => "load",
        Instr::Store { .. } => "store",
        Instr::New { .. } => "new",
        Instr::Jump { .. } => "jmp",
        Instr::JumpIfZero { .. } => "jz",
        Instr::Call { .. } => "call",
        Instr::Return { .. } => "ret",
        Instr::Output { .. } => "out",
        Instr::Acquire { .. } => "acq",
        Instr::Release => "rel",
    }
}

#[derive(Clone, Copy)]
enum Operand {
    Register(u8),
    Global(u16),
    Number(i32),
    None,
}

/// The operands of an instruction.
fn operands(instr: &Instr) -> [Operand; 3] {
    use Operand::{Global, None, Number, Register};
    match *instr {
        Instr::SetInt { to, value } => [Register(to), Number(value), None],
        Instr::SetNull { to } => [Register(to), None, None],
        Instr::Move { to, from } => [Register(to), Register(from), None],
        Instr::Add { to, left, right }
        | Instr::Subtract { to, left, right }
        | Instr::LessThan { to, left, right }
        | Instr::Equals { to, left, right } => [Register(to), Register(left), Register(right)],
        Instr::GlobalAddress { to, global } => [Register(to), Global(global), None],
        Instr::FieldAddress { to, from, offset } => {
            [Register(to), Register(from), Number(i32::from(offset))]
        }
        Instr::Load { to, address } => [Register(to), Register(address), None],
        Instr::Store { address, from } => [Register(address), Register(from), None],
        Instr::New { to, cells, class } => [
            Register(to),
            Number(i32::from(cells)),
            Number(i32::from(class)),
        ],
        Instr::Jump { target } => [Number(i32::from(target)), None, None],
        Instr::JumpIfZero { test, target } => [Register(test), Number(i32::from(target)), None],
        Instr::Call {
            to,
            first,
            function,
        } => [Register(to), Register(first), Number(i32::from(function))],
        Instr::Return { from } | Instr::Output { from } => [Register(from), None, None],
        Instr::Acquire { list } => [Number(i32::from(list)), None, None],
        Instr::Release => [None, None, None],
    }
}

/// Adds what separates the operand, and the operand.
fn push_operand(text: &mut String, separator: &str, operand: Operand) -> Result<(), AllocError> {
    match operand {
        Operand::Register(register) => write!(text, "{separator}r{register}")?,
        Operand::Global(global) => write!(text, "{separator}g{global}")?,
        Operand::Number(number) => write!(text, "{separator}{number}")?,
        Operand::None => {}
    }
    Ok(())
}

/// Adds an instruction in words.
fn push_instr(text: &mut String, instr: &Instr) -> Result<(), AllocError> {
    let [first, second, third] = operands(instr);
    write!(text, "; {}", word(instr))?;
    push_operand(text, " ", first)?;
    push_operand(text, ", ", second)?;
    push_operand(text, ", ", third)
}

/// Adds a line for each function.
fn push_functions(text: &mut String, lowering: &Lowering) -> Result<(), AllocError> {
    for function in lowering.functions() {
        write!(
            text,
            "; fn {} {} {}",
            function.params, function.regs, function.len
        )?;
    }
    Ok(())
}

/// Adds each instruction.
fn push_code(text: &mut String, lowering: &Lowering) -> Result<(), AllocError> {
    for instr in lowering.code() {
        push_instr(text, instr)?;
    }
    Ok(())
}

/// Adds a line for each section.
fn push_sections(text: &mut String, lowering: &Lowering) -> Result<(), AllocError> {
    for section in lowering.sections() {
        write!(
            text,
            "; section {} {} {}",
            section.function, section.acquire, section.release
        )?;
    }
    Ok(())
}
