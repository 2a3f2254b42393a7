//! The functions, as data.
ghost use Rattle.std.specs.Prelude.{◌≡◌, ◌++◌, map, IfOk, OnOk};
ghost use Rattle.serde_json.specs.View.{view};
ghost use Rattle.asl_lists.specs.Numbered.{numbered};
ghost use Rattle.asl_lists.specs.Document.{function_entry, function_data};

use crate::facts::Facts;
use crate::place_values::{line_of, name_words};
use crate::values::add;
use asl_map::Named;
use asl_warnings::is_reached;
use serde_json::{Value, json};
use std::alloc::{AllocError, Global};

/// A function.
fn function_value(
    alloc: Global,
    facts: &Facts,
    number: usize,
    function: &Named,
) -> Result<Value, AllocError>
    ensures { IfOk result (λ v. view v ≡ function_entry facts.now number function.now) }
{
    let name = name_words(alloc, Some(&function.name))?;
    json!(in alloc; {
        "name": name,
        "line": line_of(facts, function.from),
        "from": function.from,
        "to": function.to,
        "reached": is_reached(&facts.map, number),
    })
}

/// Adds a function.
fn push_function(
    alloc: Global,
    facts: &Facts,
    values: &mut Vec<Value>,
    number: usize,
    function: &Named,
) -> Result<(), AllocError>
    ensures { OnOk result (map view values.new.items ≡ map view values.old.items ++ function_data facts.now number function.now) }
{
    let value = function_value(alloc, facts, number, function)?;
    add(values, value)
}

/// These functions, from the first on.
pub fn function_values(
    alloc: Global,
    facts: &Facts,
    functions: &[Named],
) -> Result<Vec<Value>, AllocError>
    ensures { IfOk result (λ values. map view values.items ≡ numbered (function_data facts.now) 0 functions.now) }
{
    let mut values = Vec::new(alloc);
    for (number, function) in functions.iter().enumerate() {
        push_function(alloc, facts, &mut values, number, function)?;
    }
    Ok(values)
}
