//! What a compiler may have forgotten, as data: functions that `main` does not reach, and accesses that no class has.
ghost use Rattle.std.specs.Prelude.{◌≡◌, ◌++◌, ◌≤◌, length, map, IfOk, OnOk};
ghost use Rattle.serde_json.specs.View.{view};
ghost use Rattle.asl_lists.specs.Numbered.{numbered};
ghost use Rattle.asl_lists.specs.Document.{unreached_data, classless_at, classless_data, warning_data, warnings_data};

use crate::facts::Facts;
use crate::place_values::{area_at, function_words, line_of, name_words};
use crate::values::add;
use asl_code::Instr;
use asl_map::{Area, Named};
use asl_warnings::{has_no_class, is_reached};
use serde_json::{Value, json};
use std::alloc::{AllocError, Global};

/// A warning of what stands from the first of these bytes to the other.
fn warning_value(
    alloc: Global,
    facts: &Facts,
    warning: &str,
    function: &str,
    from: usize,
    to: usize,
) -> Result<Value, AllocError>
    ensures { IfOk result (λ v. view v ≡ warning_data facts.now warning.now function.now from to) }
{
    json!(in alloc; {
        "warning": warning,
        "function": function,
        "line": line_of(facts, from),
        "from": from,
        "to": to,
    })
}

/// Adds a function, if `main` does not reach it.
fn push_unreached(
    alloc: Global,
    facts: &Facts,
    values: &mut Vec<Value>,
    number: usize,
    function: &Named,
) -> Result<(), AllocError>
    ensures { OnOk result (map view values.new.items ≡ map view values.old.items ++ unreached_data facts.now number function.now) }
{
    if !is_reached(&facts.map, number) {
        let name = name_words(alloc, Some(&function.name))?;
        let name = name.as_str();
        let warning = warning_value(alloc, facts, "unreached", name, function.from, function.to)?;
        add(values, warning)?;
    }
    Ok(())
}

/// The warning of an access here that no class has.
fn classless_value(alloc: Global, facts: &Facts, area: &Area) -> Result<Value, AllocError>
    ensures { IfOk result (λ v. view v ≡ classless_at facts.now area.now) }
{
    let function = function_words(alloc, &facts.map, area.function)?;
    let function = function.as_str();
    warning_value(alloc, facts, "no class", function, area.from, area.to)
}

/// Adds where an instruction stands, if it is an access that no class has.
fn push_classless(
    alloc: Global,
    facts: &Facts,
    values: &mut Vec<Value>,
    pc: u16,
    instr: &Instr,
) -> Result<(), AllocError>
    ensures { OnOk result (map view values.new.items ≡ map view values.old.items ++ classless_data facts.now pc instr.now) }
{
    if has_no_class(&facts.map, &facts.lowering, &facts.classes, pc, instr) {
        let warning = classless_value(alloc, facts, &area_at(facts, pc))?;
        add(values, warning)?;
    }
    Ok(())
}

/// All warnings.
pub fn warning_values(alloc: Global, facts: &Facts) -> Result<Vec<Value>, AllocError>
    ensures { IfOk result (λ values. map view values.items ≡ warnings_data facts.now) }
{
    let mut values = Vec::new(alloc);
    push_all_unreached(alloc, facts, &mut values, &facts.map.functions)?;
    push_all_classless(alloc, facts, &mut values, facts.lowering.code())?;
    Ok(values)
}

/// Adds the functions that `main` does not reach.
fn push_all_unreached(
    alloc: Global,
    facts: &Facts,
    values: &mut Vec<Value>,
    functions: &[Named],
) -> Result<(), AllocError>
    ensures { OnOk result (map view values.new.items ≡ map view values.old.items ++ numbered (unreached_data facts.now) 0 functions.now) }
{
    for (number, function) in functions.iter().enumerate() {
        push_unreached(alloc, facts, values, number, function)?;
    }
    Ok(())
}

/// Adds the accesses that no class has.
fn push_all_classless(
    alloc: Global,
    facts: &Facts,
    values: &mut Vec<Value>,
    code: &[Instr],
) -> Result<(), AllocError>
    requires { length code.now ≤ 65535 }
    ensures { OnOk result (map view values.new.items ≡ map view values.old.items ++ numbered (classless_data facts.now) 0 code.now) }
{
    for (pc, instr) in code.iter().enumerate() {
        push_classless(alloc, facts, values, pc as u16, instr)?;
    }
    Ok(())
}
