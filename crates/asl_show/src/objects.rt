//! The objects and their cells as text.
ghost use Rattle.std.specs.Prelude.{◌≡◌, ◌≤◌, ◌++◌, length, OnOk, string_bytes};
ghost use Rattle.asl_show.specs.Lines.{lines_from};
ghost use Rattle.asl_show.specs.Objects.{cell_count, cell_line, object_line, object_text, objects_text};

use crate::replies::{push_address, push_value};
use asl_code::Cell;
use asl_machine::Machine;
use std::alloc::AllocError;

/// Adds a line for each object: its number, its class and how many cells it has.
pub fn push_objects(text: &mut String, machine: &Machine<'_>) -> Result<(), AllocError>
    ensures { OnOk result (string_bytes text.new ≡ string_bytes text.old ++ objects_text machine.now.state) }
{
    for object in 0..machine.objects() {
        push_object_line(text, machine, object)?;
    }
    Ok(())
}

/// Adds the object's own line, if it is there.
fn push_object_line(text: &mut String, machine: &Machine<'_>, object: u32) -> Result<(), AllocError>
    ensures { OnOk result (string_bytes text.new ≡ string_bytes text.old ++ object_line machine.now.state object) }
{
    match machine.class(object) {
        Some(class) => {
            let size = machine.size(object).unwrap_or(0);
            write!(text, "object {object} {class} {size}\n")
        }
        None => Ok(()),
    }
}

/// Adds the cells of all objects.
pub fn push_cells(text: &mut String, machine: &Machine<'_>) -> Result<(), AllocError>
    ensures { OnOk result (string_bytes text.new ≡ string_bytes text.old
        ++ lines_from (object_text machine.now.state) 0 (length machine.now.state.objects)) }
{
    for object in 0..machine.objects() {
        push_object(text, machine, object as u16)?;
    }
    Ok(())
}

/// Adds a line for each cell of an object.
fn push_object(text: &mut String, machine: &Machine<'_>, object: u16) -> Result<(), AllocError>
    ensures { OnOk result (string_bytes text.new ≡ string_bytes text.old ++ object_text machine.now.state object) }
{
    for offset in 0..cells(machine, object) {
        push_cell(text, machine, object, offset as u8)?;
    }
    Ok(())
}

/// How many cells the object has.
pub fn cells(machine: &Machine<'_>, object: u16) -> u32
    ensures count { result ≡ cell_count machine.now.state object }
    ensures few { result ≤ 255 }
{
    machine.size(u32::from(object)).unwrap_or(0)
}

/// Adds the cell, if it is there.
fn push_cell(
    text: &mut String,
    machine: &Machine<'_>,
    object: u16,
    offset: u8,
) -> Result<(), AllocError>
    ensures { OnOk result (string_bytes text.new ≡ string_bytes text.old ++ cell_line machine.now.state object offset) }
{
    match machine.cell(Cell { object, offset }) {
        Some(value) => {
            text.push_str("cell ")?;
            push_address(text, object, offset)?;
            text.push_str(" ")?;
            push_value(text, value)?;
            text.push_str("\n")
        }
        None => Ok(()),
    }
}
