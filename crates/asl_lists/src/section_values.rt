//! The sections with their lists, as data.
ghost use Rattle.std.specs.Prelude.{◌≡◌, IfOk};
ghost use Rattle.std.specs.List.{list_any};
ghost use Rattle.asl_code.specs.Locks.{effect_of};
ghost use Rattle.serde_json.specs.View.{view};
ghost use Rattle.asl_lists.specs.Document.{is_star, reads_cell, is_write, section_area, section_at};

use crate::facts::Facts;
use crate::lock_values::list_values;
use crate::place_values::{function_words, line_of};
use asl_code::{Effect, Lock, Op};
use asl_explain::Listed;
use asl_map::Area;
use serde_json::{Value, json};
use std::alloc::{AllocError, Global};

/// Whether the operation reads a cell.
fn is_star(op: Op) -> bool
    ensures { result ≡ is_star op }
{
    match op {
        Op::Deref => true,
        Op::Off(_) => false,
    }
}

/// Whether some operation reads a cell.
fn has_star(path: &[Op]) -> bool
    ensures { result ≡ list_any is_star path.now }
{
    path.iter().any(|op| is_star(*op))
}

/// Whether evaluating a lock reads a cell.
fn reads_cell(lock: &Lock) -> bool
    ensures { result ≡ reads_cell lock.now }
{
    match lock {
        Lock::Expr(expr, _) => has_star(expr.path.as_slice()),
        Lock::Class(_, _) => false,
        Lock::Root(_) => false,
    }
}

/// Whether a lock is for writing.
fn is_for_writing(lock: &Lock) -> bool
    ensures { result ≡ is_write (effect_of lock.now) }
{
    match lock.effect() {
        Effect::Write => true,
        Effect::Read => false,
    }
}

/// Whether evaluating some lock of a list reads a cell.
fn reads_cells(list: &[Listed]) -> bool
    ensures { result ≡ list_any (λ (d : Listed). reads_cell d.lock) list.now }
{
    list.iter().any(|listed| reads_cell(&listed.lock))
}

/// Whether some lock of a list is for writing.
fn writes(list: &[Listed]) -> bool
    ensures { result ≡ list_any (λ (d : Listed). is_write (effect_of d.lock)) list.now }
{
    list.iter().any(|listed| is_for_writing(&listed.lock))
}

/// Where a section stands.
pub fn section_area(facts: &Facts, section: usize) -> Area
    ensures { result ≡ section_area facts.now section }
{
    facts.map.sections.get(section).copied().unwrap_or(Area {
        function: 0,
        from: 0,
        to: 0,
    })
}

/// A section at this place, with its list.
pub fn section_value(
    alloc: Global,
    facts: &Facts,
    area: &Area,
    list: &[Listed],
) -> Result<Value, AllocError>
    ensures { IfOk result (λ v. view v ≡ section_at facts.now area.now list.now) }
{
    let function = function_words(alloc, &facts.map, area.function)?;
    let locks = list_values(alloc, facts, area.function, list)?;
    json!(in alloc; {
        "function": function,
        "line": line_of(facts, area.from),
        "from": area.from,
        "to": area.to,
        "locks": locks,
        "reads_cells": reads_cells(list),
        "writes": writes(list),
    })
}
