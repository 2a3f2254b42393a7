//! Where sections and sites stand.

ghost use Rattle.std.specs.Prelude.{◌≡◌, map, IfOk};
ghost use Rattle.asl_lower.specs.OpenSections.{is_new};
ghost use Rattle.asl_map.specs.Areas.{from_at, to_at, section_area, AreSites};

use crate::text_piece::{Area, Piece};
use asl_code::Instr;
use asl_lower::{Lowering, Section, numbers_follow_the_code};
use std::alloc::{AllocError, Global};

/// The place from which on the piece of an instruction stands.
fn from_at(pieces: &[Piece], pc: usize) -> usize
    ensures { result ≡ from_at pieces.now pc }
{
    match pieces.get(pc) {
        Some(piece) => piece.from,
        None => 0,
    }
}

/// The place after the piece of an instruction.
fn to_at(pieces: &[Piece], pc: usize) -> usize
    ensures { result ≡ to_at pieces.now pc }
{
    match pieces.get(pc) {
        Some(piece) => piece.to,
        None => 0,
    }
}

/// Where a section stands: from its `atomic` to after its last brace.
fn section_area(pieces: &[Piece], section: &Section) -> Area
    ensures { result ≡ section_area pieces.now section.now }
{
    Area {
        function: section.function,
        from: from_at(pieces, usize::from(section.acquire)),
        to: to_at(pieces, usize::from(section.release)),
    }
}

/// Where each section stands.
pub fn section_areas(
    alloc: Global,
    lowering: &Lowering,
    pieces: &[Piece],
) -> Result<Vec<Area>, AllocError>
    ensures { IfOk result (λ v. v.items ≡ map (section_area pieces.now) lowering.now.sections) }
{
    let mut areas = Vec::new(alloc);
    for section in lowering.sections() {
        areas.push(section_area(pieces, section))?;
    }
    Ok(areas)
}

/// Whether the instruction is a `new`.
fn is_new(instr: &Instr) -> bool
    ensures { result ≡ is_new instr.now }
{
    match instr {
        Instr::New { .. } => true,
        _ => false,
    }
}

/// Where each site stands: the statement of its `new`.
pub fn site_areas(
    alloc: Global,
    lowering: &Lowering,
    pieces: &[Piece],
) -> Result<Vec<Area>, AllocError>
    ensures { IfOk result (λ v. AreSites lowering.now pieces.now v.items) }
{
    numbers_follow_the_code();
    let mut areas = Vec::new(alloc);
    for (pc, instr) in lowering.code().iter().enumerate() {
        if is_new(instr) {
            areas.push(Area {
                function: lowering.owner(pc as u16),
                from: from_at(pieces, pc),
                to: to_at(pieces, pc),
            })?;
        }
    }
    Ok(areas)
}
