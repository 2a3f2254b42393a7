//! From a source to its map, and to the text of it.

ghost use Rattle.std.specs.Prelude.{◌≡◌, IfOk, IfErr, string_bytes};
ghost use Rattle.asl_syntax.specs.AstView.{tree_of};
ghost use Rattle.asl_syntax.specs.Parsed.{Parses};
ghost use Rattle.asl_lower.specs.Lowered.{IsLowering};
ghost use Rattle.asl_points_to.specs.Classes.{AreClasses};
ghost use Rattle.asl_map.specs.BuiltMap.{IsMade};
ghost use Rattle.asl_map.specs.Mapped.{IsMapped, IsMapText, IsRefusedMapping};

use crate::areas::{section_areas, site_areas};
use crate::code_walk::walk_items;
use crate::fault::MapFault;
use crate::map::Map;
use crate::map_names::{global_names, register_names};
use crate::map_text::spell;
use crate::members::{global_classes, site_classes};
use crate::run_functions::reached;
use crate::walker::Walker;
use asl_grammar::lexer::Tokens;
use asl_lower::{Lowering, lower};
use asl_points_to::{Classes, classes};
use asl_syntax::{Ast, parse};
use std::alloc::{AllocError, Global};

/// The map of a source with its lowering and its classes.
fn made(
    alloc: Global,
    source: &[u8],
    ast: &Ast<'_>,
    lowering: &Lowering,
    classes: &Classes,
) -> Result<Map, AllocError>
    requires classes { AreClasses lowering.now classes.now }
    ensures { IfOk result (IsMade source.now (tree_of ast.now) lowering.now classes.now) }
{
    let items = ast.items();
    let mut walker = Walker {
        tokens: Tokens::new(source),
        pieces: Vec::new(alloc),
    };
    let functions = walk_items(alloc, &mut walker, items)?;
    let Walker { tokens: _, pieces } = walker;
    Ok(Map {
        functions,
        reached: reached(lowering),
        registers: register_names(alloc, items)?,
        globals: global_names(alloc, items)?,
        classes: classes.count(),
        global_classes: global_classes(alloc, classes)?,
        site_classes: site_classes(alloc, lowering, classes)?,
        sections: section_areas(alloc, lowering, &pieces)?,
        sites: site_areas(alloc, lowering, &pieces)?,
        pieces,
    })
}

/// The map of a source.
///
/// # Errors
///
/// The first fault of the text, of its lowering and of its classes, in this order; `OutOfMemory` where an allocation failed.
pub fn map_of(alloc: Global, source: &[u8]) -> Result<Map, MapFault>
    ensures mapped { IfOk result (IsMapped source.now) }
    ensures refused { IfErr result (IsRefusedMapping source.now) }
{
    let ast = match parse(alloc, source) {
        Ok(ast) => ast,
        Err(fault) => return Err(MapFault::Source(fault)),
    };
    let lowering = match lower(alloc, &ast) {
        Ok(lowering) => lowering,
        Err(fault) => return Err(MapFault::Lower(fault)),
    };
    let classes = match classes(alloc, &lowering) {
        Ok(classes) => classes,
        Err(fault) => return Err(MapFault::Classes(fault)),
    };
    Ok(made(alloc, source, &ast, &lowering, &classes)?)
}

/// The map of a source as text.
///
/// # Errors
///
/// Those of `map_of`.
pub fn mapped(alloc: Global, source: &[u8]) -> Result<String, MapFault>
    ensures mapped { IfOk result (λ text. IsMapText source.now (string_bytes text)) }
    ensures refused { IfErr result (IsRefusedMapping source.now) }
{
    let map = map_of(alloc, source)?;
    Ok(spell(alloc, &map)?)
}
