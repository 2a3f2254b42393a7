//! The lines of a map, one kind each.

ghost use Rattle.std.specs.Prelude.{◌≡◌, ◌++◌, OnOk, string_bytes, unwrap_or, slice_get};
ghost use Rattle.asl_map.specs.Text.{kind_name, function_line, unreached_line, register_line, global_line, global_member, site_member, section_line, site_line, place_line, is_marked};

use crate::text_piece::{Area, Kind, Named, Piece};
use asl_syntax::Name;
use std::alloc::AllocError;

/// The word of a kind.
fn kind_name(kind: Kind) -> &'static str
    ensures { result.now ≡ kind_name kind }
{
    match kind {
        Kind::Line => "stmt",
        Kind::If => "if",
        Kind::While => "while",
        Kind::Atomic => "atomic",
        Kind::Return => "return",
    }
}

/// Adds the line of a function.
pub fn push_function(text: &mut String, number: usize, function: &Named) -> Result<(), AllocError>
    ensures { OnOk result (string_bytes text.new ≡ string_bytes text.old ++ function_line number function.now) }
{
    let name = &function.name;
    let from = function.from;
    let to = function.to;
    write!(text, "function {number} {name} {from} {to}\n")
}

/// Adds the line of a function, if `main` never calls it.
pub fn push_unreached(
    text: &mut String,
    reached: &[bool],
    number: usize,
    function: &Named,
) -> Result<(), AllocError>
    ensures { OnOk result (string_bytes text.new ≡ string_bytes text.old ++ unreached_line reached.now number function.now) }
{
    if is_marked(reached, number) {
        return Ok(());
    }
    write!(text, "unreached {number}\n")
}

/// Whether the number has a mark.
fn is_marked(marks: &[bool], number: usize) -> bool
    ensures { result ≡ is_marked marks.now number }
{
    marks.get(number).copied().unwrap_or(false)
}

/// Adds the line of a register.
pub fn push_register(
    text: &mut String,
    function: usize,
    number: usize,
    name: &Name,
) -> Result<(), AllocError>
    ensures { OnOk result (string_bytes text.new ≡ string_bytes text.old ++ register_line function number name.now) }
{
    write!(text, "register {function} {number} {name}\n")
}

/// Adds the line of a global.
pub fn push_global(text: &mut String, number: usize, name: &Name) -> Result<(), AllocError>
    ensures { OnOk result (string_bytes text.new ≡ string_bytes text.old ++ global_line number name.now) }
{
    write!(text, "global {number} {name}\n")
}

/// Adds the line of a global, if it is of the class.
pub fn push_global_member(
    text: &mut String,
    class: u16,
    number: usize,
    of: u16,
) -> Result<(), AllocError>
    ensures { OnOk result (string_bytes text.new ≡ string_bytes text.old ++ global_member class number of) }
{
    if of == class {
        write!(text, "class {class} global {number}\n")
    } else {
        Ok(())
    }
}

/// Adds the line of a site, if it is of the class.
pub fn push_site_member(
    text: &mut String,
    class: u16,
    number: usize,
    of: u16,
) -> Result<(), AllocError>
    ensures { OnOk result (string_bytes text.new ≡ string_bytes text.old ++ site_member class number of) }
{
    if of == class {
        write!(text, "class {class} site {number}\n")
    } else {
        Ok(())
    }
}

/// Adds the line of a section.
pub fn push_section(text: &mut String, number: usize, area: &Area) -> Result<(), AllocError>
    ensures { OnOk result (string_bytes text.new ≡ string_bytes text.old ++ section_line number area.now) }
{
    let function = area.function;
    let from = area.from;
    let to = area.to;
    write!(text, "section {number} {function} {from} {to}\n")
}

/// Adds the line of a site.
pub fn push_site(text: &mut String, number: usize, area: &Area) -> Result<(), AllocError>
    ensures { OnOk result (string_bytes text.new ≡ string_bytes text.old ++ site_line number area.now) }
{
    let function = area.function;
    let from = area.from;
    let to = area.to;
    write!(text, "site {number} {function} {from} {to}\n")
}

/// Adds the line of an instruction.
pub fn push_place(text: &mut String, pc: usize, piece: &Piece) -> Result<(), AllocError>
    ensures { OnOk result (string_bytes text.new ≡ string_bytes text.old ++ place_line pc piece.now) }
{
    let from = piece.from;
    let to = piece.to;
    let kind = kind_name(piece.kind);
    write!(text, "place {pc} {from} {to} {kind}\n")
}
