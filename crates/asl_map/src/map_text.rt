//! The text of a map.

ghost use Rattle.std.specs.Prelude.{◌≡◌, ◌++◌, OnOk, IfOk, string_bytes};
ghost use Rattle.asl_map.specs.Text.{numbered, texts_from, function_line, unreached_line, register_line, registers_text, global_line, global_member, site_member, members_text, section_line, site_line, place_line, map_text};

use crate::map::Map;
use crate::map_lines::{
    push_function, push_global, push_global_member, push_place, push_register, push_section,
    push_site, push_site_member, push_unreached,
};
use crate::text_piece::{Area, Named, Piece};
use asl_syntax::Name;
use std::alloc::{AllocError, Global};

/// Adds a line a function.
fn push_functions(text: &mut String, functions: &[Named]) -> Result<(), AllocError>
    ensures { OnOk result (string_bytes text.new ≡ string_bytes text.old ++ numbered function_line 0 functions.now) }
{
    for (number, function) in functions.iter().enumerate() {
        push_function(text, number, function)?;
    }
    Ok(())
}

/// Adds a line for each function that `main` does not reach.
fn push_all_unreached(
    text: &mut String,
    reached: &[bool],
    functions: &[Named],
) -> Result<(), AllocError>
    ensures { OnOk result (string_bytes text.new ≡ string_bytes text.old ++ numbered (unreached_line reached.now) 0 functions.now) }
{
    for (number, function) in functions.iter().enumerate() {
        push_unreached(text, reached, number, function)?;
    }
    Ok(())
}

/// Adds a line for each register of a function.
fn push_registers_of(text: &mut String, function: usize, names: &[Name]) -> Result<(), AllocError>
    ensures { OnOk result (string_bytes text.new ≡ string_bytes text.old ++ numbered (register_line function) 0 names.now) }
{
    for (number, name) in names.iter().enumerate() {
        push_register(text, function, number, name)?;
    }
    Ok(())
}

/// Adds the registers of all functions.
fn push_registers(text: &mut String, registers: &[Vec<Name>]) -> Result<(), AllocError>
    ensures { OnOk result (string_bytes text.new ≡ string_bytes text.old ++ numbered registers_text 0 registers.now) }
{
    for (number, names) in registers.iter().enumerate() {
        push_registers_of(text, number, names)?;
    }
    Ok(())
}

/// Adds a line a global.
fn push_globals(text: &mut String, globals: &[Name]) -> Result<(), AllocError>
    ensures { OnOk result (string_bytes text.new ≡ string_bytes text.old ++ numbered global_line 0 globals.now) }
{
    for (number, name) in globals.iter().enumerate() {
        push_global(text, number, name)?;
    }
    Ok(())
}

/// Adds a line for each global of a class.
fn push_global_members(text: &mut String, class: u16, members: &[u16]) -> Result<(), AllocError>
    ensures { OnOk result (string_bytes text.new ≡ string_bytes text.old ++ numbered (global_member class) 0 members.now) }
{
    for (number, of) in members.iter().enumerate() {
        push_global_member(text, class, number, *of)?;
    }
    Ok(())
}

/// Adds a line for each `new` of a class.
fn push_site_members(text: &mut String, class: u16, members: &[u16]) -> Result<(), AllocError>
    ensures { OnOk result (string_bytes text.new ≡ string_bytes text.old ++ numbered (site_member class) 0 members.now) }
{
    for (number, of) in members.iter().enumerate() {
        push_site_member(text, class, number, *of)?;
    }
    Ok(())
}

/// Adds the members of a class: its globals, then what each `new` of it makes.
fn push_members(text: &mut String, map: &Map, class: u16) -> Result<(), AllocError>
    ensures { OnOk result (string_bytes text.new ≡ string_bytes text.old ++ members_text map.now class) }
{
    push_global_members(text, class, &map.global_classes)?;
    push_site_members(text, class, &map.site_classes)
}

/// Adds the members of each class.
fn push_classes(text: &mut String, map: &Map) -> Result<(), AllocError>
    ensures { OnOk result (string_bytes text.new ≡ string_bytes text.old ++ texts_from (members_text map.now) 0 map.now.classes) }
{
    for class in 0..map.classes {
        push_members(text, map, class)?;
    }
    Ok(())
}

/// Adds a line a section, with its lines of the source.
fn push_sections(text: &mut String, sections: &[Area]) -> Result<(), AllocError>
    ensures { OnOk result (string_bytes text.new ≡ string_bytes text.old ++ numbered section_line 0 sections.now) }
{
    for (number, area) in sections.iter().enumerate() {
        push_section(text, number, area)?;
    }
    Ok(())
}

/// Adds a line for each `new`, with its lines of the source.
fn push_sites(text: &mut String, sites: &[Area]) -> Result<(), AllocError>
    ensures { OnOk result (string_bytes text.new ≡ string_bytes text.old ++ numbered site_line 0 sites.now) }
{
    for (number, area) in sites.iter().enumerate() {
        push_site(text, number, area)?;
    }
    Ok(())
}

/// Adds a line an instruction, with the statement that it is of.
fn push_places(text: &mut String, pieces: &[Piece]) -> Result<(), AllocError>
    ensures { OnOk result (string_bytes text.new ≡ string_bytes text.old ++ numbered place_line 0 pieces.now) }
{
    for (number, piece) in pieces.iter().enumerate() {
        push_place(text, number, piece)?;
    }
    Ok(())
}

/// The text of a map: functions, those that are not reached, registers, globals, the members of classes, sections, sites, and
/// the place of each instruction, a line each.
pub fn spell(alloc: Global, map: &Map) -> Result<String, AllocError>
    ensures { IfOk result (λ text. string_bytes text ≡ map_text map.now) }
{
    let mut text = String::new(alloc);
    push_functions(&mut text, &map.functions)?;
    push_all_unreached(&mut text, &map.reached, &map.functions)?;
    push_registers(&mut text, &map.registers)?;
    push_globals(&mut text, &map.globals)?;
    push_classes(&mut text, map)?;
    push_sections(&mut text, &map.sections)?;
    push_sites(&mut text, &map.sites)?;
    push_places(&mut text, &map.pieces)?;
    Ok(text)
}
