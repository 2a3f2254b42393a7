//! Where something stands in the text, as data.
ghost use Rattle.std.specs.Prelude.{◌≡◌, IfOk, string_bytes};
ghost use Rattle.std.specs.Option.{option_copied};
ghost use Rattle.serde_json.specs.View.{view};
ghost use Rattle.asl_lists.specs.Places.{line_of, name_words, function_words, area_data, area_at};

use crate::facts::Facts;
use asl_map::{Area, Map};
use asl_syntax::Name;
use asl_warnings::owner;
use serde_json::{Value, json};
use std::alloc::{AllocError, Global};

/// The line of a place of the text.
pub fn line_of(facts: &Facts, place: usize) -> usize
    ensures { result ≡ line_of facts.now.lines.items place }
{
    facts.lines.get(place).copied().unwrap_or(0)
}

/// A name as a text, which is empty where there is none.
pub fn name_words(alloc: Global, name: Option<&Name>) -> Result<String, AllocError>
    ensures { IfOk result (λ text. string_bytes text ≡ name_words (option_copied name.entry)) }
{
    match name {
        Some(name) => format!(in alloc; "{name}"),
        None => Ok(String::new(alloc)),
    }
}

/// The name of a function.
pub fn function_words(alloc: Global, map: &Map, function: u16) -> Result<String, AllocError>
    ensures { IfOk result (λ text. string_bytes text ≡ function_words map.now function) }
{
    name_words(alloc, map.function_name(function))
}

/// Where something stands.
pub fn area_value(alloc: Global, facts: &Facts, area: &Area) -> Result<Value, AllocError>
    ensures { IfOk result (λ v. view v ≡ area_data facts.now area.now) }
{
    let function = function_words(alloc, &facts.map, area.function)?;
    json!(in alloc; {
        "function": function,
        "line": line_of(facts, area.from),
        "from": area.from,
        "to": area.to,
    })
}

/// Where the statement of an instruction stands.
pub fn area_at(facts: &Facts, pc: u16) -> Area
    ensures { result ≡ area_at facts.now pc }
{
    let function = owner(&facts.lowering, pc);
    match facts.map.place(pc) {
        Some(piece) => Area {
            function,
            from: piece.from,
            to: piece.to,
        },
        None => Area {
            function,
            from: 0,
            to: 0,
        },
    }
}
