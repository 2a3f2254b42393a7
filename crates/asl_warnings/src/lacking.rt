//! The lines of functions that `main` does not reach, and of accesses that no class has.
ghost use Rattle.std.specs.Prelude.{◌≡◌, ◌≤◌, ◌++◌, length, IfOk, OnOk, string_bytes};
ghost use Rattle.std.specs.List.{flat_map};
ghost use Rattle.asl_class_text.specs.Numbered.{numbered};
ghost use Rattle.asl_warnings.specs.Texts.{section_line, section_lines, listed_line, sections_head, sections_words, function_columns, function_line, unreached_line, nowhere_words, access_line, classless_line};

use crate::facts::{address_of, has_no_class, is_reached, owner};
use asl_class_text::{Facts, Known, line_of, push_padded, push_place, register_words};
use asl_code::Instr;
use asl_map::{Area, Named};
use std::alloc::{AllocError, Global};
use std::fmt::Write;

/// Adds the line of a section, if it is of the function.
fn push_if(
    lines: &mut Vec<usize>,
    facts: &Facts<'_>,
    function: usize,
    area: &Area,
) -> Result<(), AllocError>
    ensures { OnOk result (lines.new.items ≡ lines.old.items ++ section_line facts.now function area.now) }
{
    if usize::from(area.function) == function {
        lines.push(line_of(facts, area.from))?;
    }
    Ok(())
}

/// The lines of those of these sections that are of the function.
fn lines_of(
    alloc: Global,
    facts: &Facts<'_>,
    function: usize,
    sections: &[Area],
) -> Result<Vec<usize>, AllocError>
    ensures { IfOk result (λ v. v.items ≡ flat_map (section_line facts.now function) sections.now) }
{
    let mut lines = Vec::new(alloc);
    for area in sections {
        push_if(&mut lines, facts, function, area)?;
    }
    Ok(lines)
}

/// Adds the line with a number in a list.
fn push_line(text: &mut String, number: usize, line: usize) -> Result<(), AllocError>
    ensures { OnOk result (string_bytes text.new ≡ string_bytes text.old ++ listed_line number line) }
{
    let between = if number > 0 { ", line " } else { ": line " };
    write!(text, "{between}{line}")
}

/// Adds these lines.
fn push_lines(text: &mut String, lines: &[usize]) -> Result<(), AllocError>
    ensures { OnOk result (string_bytes text.new ≡ string_bytes text.old ++ numbered listed_line 0 lines.now) }
{
    for (number, line) in lines.iter().enumerate() {
        push_line(text, number, *line)?;
    }
    Ok(())
}

/// The words before the lines of sections.
fn sections_head(lines: &[usize]) -> &'static str
    ensures { result.now ≡ sections_head lines.now }
{
    if lines.len() > 0 {
        "with sections"
    } else {
        "without a section"
    }
}

/// Adds the lines of the sections of a function.
fn push_sections(text: &mut String, lines: &[usize]) -> Result<(), AllocError>
    ensures { OnOk result (string_bytes text.new ≡ string_bytes text.old ++ sections_words lines.now) }
{
    text.push_str(sections_head(lines))?;
    push_lines(text, lines)
}

/// Adds where a function stands, and its name.
#[tactic(auto, unfolding(crate::specs::Texts::function_columns))]
fn push_columns(
    alloc: Global,
    text: &mut String,
    facts: &Facts<'_>,
    function: &Named,
) -> Result<(), AllocError>
    ensures { OnOk result (string_bytes text.new ≡ string_bytes text.old ++ function_columns facts.now function.now) }
{
    let line = line_of(facts, function.from);
    let line = format!(in alloc; "{line}")?;
    let name = &function.name;
    let name = format!(in alloc; "{name}")?;
    text.push_str("      line ")?;
    push_padded(text, line.as_str(), 4)?;
    push_padded(text, name.as_str(), 22)
}

/// Adds where a function stands, its name and its sections.
fn push_function(
    alloc: Global,
    text: &mut String,
    facts: &Facts<'_>,
    number: usize,
    function: &Named,
) -> Result<(), AllocError>
    ensures { OnOk result (string_bytes text.new ≡ string_bytes text.old ++ function_line facts.now number function.now) }
{
    let sections = lines_of(alloc, facts, number, &facts.map.sections)?;
    push_columns(alloc, text, facts, function)?;
    push_sections(text, &sections)?;
    text.push_str("\n")
}

/// Adds the line of a function, if `main` does not reach it.
fn push_unreached(
    alloc: Global,
    text: &mut String,
    facts: &Facts<'_>,
    number: usize,
    function: &Named,
) -> Result<(), AllocError>
    ensures { OnOk result (string_bytes text.new ≡ string_bytes text.old ++ unreached_line facts.now number function.now) }
{
    if !is_reached(&facts.map, number) {
        push_function(alloc, text, facts, number, function)?;
    }
    Ok(())
}

/// The lines of those of these functions that `main` does not reach.
pub(crate) fn unreached_lines(
    alloc: Global,
    facts: &Facts<'_>,
    functions: &[Named],
) -> Result<String, AllocError>
    ensures { IfOk result (λ text. string_bytes text ≡ numbered (unreached_line facts.now) 0 functions.now) }
{
    let mut text = String::new(alloc);
    for (number, function) in functions.iter().enumerate() {
        push_unreached(alloc, &mut text, facts, number, function)?;
    }
    Ok(text)
}

/// Adds to what a register of the function of an instruction points: to no class.
fn push_nowhere(
    alloc: Global,
    text: &mut String,
    facts: &Facts<'_>,
    pc: u16,
    address: Option<u8>,
) -> Result<(), AllocError>
    ensures { OnOk result (string_bytes text.new ≡ string_bytes text.old ++ nowhere_words facts.now pc address) }
{
    match address {
        Some(register) => {
            let function = owner(&facts.lowering, pc);
            let words = register_words(alloc, facts, function, register)?;
            write!(text, "{words} points to no class")
        }
        None => Ok(()),
    }
}

/// Adds where an access stands, its statement and its pointer.
fn push_access(
    alloc: Global,
    text: &mut String,
    facts: &Facts<'_>,
    pc: u16,
    instr: &Instr,
) -> Result<(), AllocError>
    ensures { OnOk result (string_bytes text.new ≡ string_bytes text.old ++ access_line facts.now pc instr.now) }
{
    push_place(text, alloc, facts, pc)?;
    push_nowhere(alloc, text, facts, pc, address_of(instr))?;
    text.push_str("\n")
}

/// Adds the line of an instruction, if it is an access that no class has.
fn push_classless(
    alloc: Global,
    text: &mut String,
    known: &Known<'_>,
    pc: u16,
    instr: &Instr,
) -> Result<(), AllocError>
    ensures { OnOk result (string_bytes text.new ≡ string_bytes text.old ++ classless_line known.now.facts known.now.classes pc instr.now) }
{
    let facts = &known.facts;
    if has_no_class(&facts.map, &facts.lowering, &known.classes, pc, instr) {
        push_access(alloc, text, facts, pc, instr)?;
    }
    Ok(())
}

/// The lines of those of these instructions that are accesses which no class has.
pub(crate) fn classless_lines(
    alloc: Global,
    known: &Known<'_>,
    code: &[Instr],
) -> Result<String, AllocError>
    requires { length code.now ≤ 65535 }
    ensures { IfOk result (λ text. string_bytes text ≡ numbered (classless_line known.now.facts known.now.classes) 0 code.now) }
{
    let mut text = String::new(alloc);
    for (pc, instr) in code.iter().enumerate() {
        push_classless(alloc, &mut text, known, pc as u16, instr)?;
    }
    Ok(text)
}
