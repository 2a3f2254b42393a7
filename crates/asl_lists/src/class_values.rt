//! The classes with their members, as data.
ghost use Rattle.std.specs.Prelude.{◌≡◌, ◌++◌, ◌∷◌, [], map, slice_get, IfOk, OnOk};
ghost use Rattle.std.specs.Option.{option_copied};
ghost use Rattle.serde_json.specs.View.{view};
ghost use Rattle.asl_lists.specs.Numbered.{numbered};
ghost use Rattle.asl_lists.specs.Document.{global_data, site_data, class_data, classes_from};

use crate::facts::Facts;
use crate::place_values::{area_value, name_words};
use crate::values::add;
use asl_map::Area;
use asl_syntax::Name;
use serde_json::{Value, json};
use std::alloc::{AllocError, Global};

/// The name of a global.
fn global_name(facts: &Facts, global: usize) -> Option<&Name>
    ensures { option_copied result ≡ slice_get facts.now.map.globals.items global }
{
    facts.map.globals.get(global)
}

/// Where a site stands.
fn site_area(facts: &Facts, site: usize) -> Option<Area>
    ensures { result ≡ slice_get facts.now.map.sites.items site }
{
    facts.map.sites.get(site).copied()
}

/// Adds the name of a global, if it is of the class.
fn push_global(
    alloc: Global,
    facts: &Facts,
    class: u16,
    values: &mut Vec<Value>,
    global: usize,
    of: u16,
) -> Result<(), AllocError>
    ensures { OnOk result (map view values.new.items ≡ map view values.old.items ++ global_data facts.now class global of) }
{
    if of == class {
        let name = name_words(alloc, global_name(facts, global))?;
        add(values, Value::String(name))?;
    }
    Ok(())
}

/// The globals of a class, by the class of each.
fn global_values(
    alloc: Global,
    facts: &Facts,
    class: u16,
    classes: &[u16],
) -> Result<Vec<Value>, AllocError>
    ensures { IfOk result (λ values. map view values.items ≡ numbered (global_data facts.now class) 0 classes.now) }
{
    let mut values = Vec::new(alloc);
    for (number, of) in classes.iter().enumerate() {
        push_global(alloc, facts, class, &mut values, number, *of)?;
    }
    Ok(values)
}

/// Adds where a site stands, if it is of the class.
fn push_site(
    alloc: Global,
    facts: &Facts,
    class: u16,
    values: &mut Vec<Value>,
    site: usize,
    of: u16,
) -> Result<(), AllocError>
    ensures { OnOk result (map view values.new.items ≡ map view values.old.items ++ site_data facts.now class site of) }
{
    if of == class {
        if let Some(area) = site_area(facts, site) {
            add(values, area_value(alloc, facts, &area)?)?;
        }
    }
    Ok(())
}

/// The sites of a class, by the class of each.
fn site_values(
    alloc: Global,
    facts: &Facts,
    class: u16,
    classes: &[u16],
) -> Result<Vec<Value>, AllocError>
    ensures { IfOk result (λ values. map view values.items ≡ numbered (site_data facts.now class) 0 classes.now) }
{
    let mut values = Vec::new(alloc);
    for (number, of) in classes.iter().enumerate() {
        push_site(alloc, facts, class, &mut values, number, *of)?;
    }
    Ok(values)
}

/// A class with its members.
fn class_value(alloc: Global, facts: &Facts, class: u16) -> Result<Value, AllocError>
    ensures { IfOk result (λ v. view v ≡ class_data facts.now class) }
{
    let globals = global_values(alloc, facts, class, &facts.map.global_classes)?;
    let sites = site_values(alloc, facts, class, &facts.map.site_classes)?;
    json!(in alloc; {"class": class, "globals": globals, "sites": sites})
}

/// Adds a class with its members.
fn push_class(
    alloc: Global,
    facts: &Facts,
    values: &mut Vec<Value>,
    class: u16,
) -> Result<(), AllocError>
    ensures { OnOk result (map view values.new.items ≡ map view values.old.items ++ class_data facts.now class ∷ []) }
{
    let value = class_value(alloc, facts, class)?;
    add(values, value)
}

/// The first classes, so many of them.
pub fn class_values(alloc: Global, facts: &Facts, count: u16) -> Result<Vec<Value>, AllocError>
    ensures { IfOk result (λ values. map view values.items ≡ classes_from facts.now 0 count) }
{
    let mut values = Vec::new(alloc);
    for class in 0..count {
        push_class(alloc, facts, &mut values, class)?;
    }
    Ok(values)
}
