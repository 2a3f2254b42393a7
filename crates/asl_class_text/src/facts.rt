//! What the text of classes is read from.
ghost use Rattle.std.specs.Prelude.{◌≡◌, ◌<◌, ◌^◌, length, IfOk, IfErr};
ghost use Rattle.asl_points_to.specs.Classes.{members, AreClasses};
ghost use Rattle.asl_map.specs.Mapped.{IsMapped, IsRefusedMapping};
ghost use Rattle.asl_class_text.specs.Classes.{AreFactsOf, IsKnown};

use asl_lower::{Lowering, lower};
use asl_map::{Map, MapFault, line_table, map_of};
use asl_points_to::{Classes, classes};
use asl_syntax::parse;
use std::alloc::{AllocError, Global};

/// What is known of a source.
#[derive(Drop)]
pub struct Facts<'s> {
    /// The text.
    pub source: &'s [u8],
    /// The line of each byte of the text, and of its end.
    pub lines: Vec<usize>,
    /// The map.
    pub map: Map,
    /// The code.
    pub lowering: Lowering,
    /// How many classes there are.
    pub count: u16,
    /// The class of each member: of the globals, and then of the sites.
    pub classes: Vec<u16>,
}

/// What is known of a source, and its classes.
#[derive(Drop)]
pub struct Known<'s> {
    /// The text with its map, its code and the class of each member.
    pub facts: Facts<'s>,
    /// The classes.
    pub classes: Classes,
}

/// The class of each member: of the globals, and then of the sites.
fn member_classes(
    alloc: Global,
    lowering: &Lowering,
    classes: &Classes,
) -> Result<Vec<u16>, AllocError>
    requires { AreClasses lowering.now classes.now }
    ensures members { IfOk result (λ v. v.items ≡ members classes.now) }
    ensures few { IfOk result (λ v. length v.items < 2 ^ 20) }
{
    let globals = lowering.globals();
    let mut of = Vec::with_capacity(alloc, usize::from(globals))?;
    of.extend_from_slice(classes.globals())?;
    for site in 0..lowering.sites() {
        of.push(classes.of_site(site))?;
    }
    Ok(of)
}

/// What is known of a source with this map, this lowering and these classes.
fn facts_of<'s>(
    alloc: Global,
    source: &'s [u8],
    map: Map,
    lowering: Lowering,
    classes: &Classes,
) -> Result<Facts<'s>, AllocError>
    requires { AreClasses lowering classes.now }
    ensures facts { IfOk result (AreFactsOf source.entry.now map lowering classes.now) }
    ensures few { IfOk result (λ f. length f.classes.items < 2 ^ 20) }
{
    let lines = line_table(alloc, source)?;
    let of = member_classes(alloc, &lowering, classes)?;
    Ok(Facts {
        source,
        lines,
        map,
        lowering,
        count: classes.count(),
        classes: of,
    })
}

/// What is known of a source with this map, and its classes.
pub(crate) fn known_with<'s>(
    alloc: Global,
    source: &'s [u8],
    map: Map,
) -> Result<Known<'s>, AllocError>
    requires { IsMapped source.now map }
    ensures known { IfOk result (IsKnown source.entry.now) }
    ensures few { IfOk result (λ k. length k.facts.classes.items < 2 ^ 20) }
{
    let Ok(ast) = parse(alloc, source) else {
        return Err(AllocError);
    };
    let Ok(lowering) = lower(alloc, &ast) else {
        return Err(AllocError);
    };
    let Ok(classes) = classes(alloc, &lowering) else {
        return Err(AllocError);
    };
    let facts = facts_of(alloc, source, map, lowering, &classes)?;
    Ok(Known { facts, classes })
}

/// What is known of a source, and its classes.
///
/// # Errors
///
/// The first fault of the text, of its lowering and of its classes, in this order; `OutOfMemory` where an allocation failed.
pub fn known_source<'s>(alloc: Global, source: &'s [u8]) -> Result<Known<'s>, MapFault>
    ensures known { IfOk result (IsKnown source.entry.now) }
    ensures refused { IfErr result (IsRefusedMapping source.entry.now) }
{
    let map = map_of(alloc, source)?;
    match known_with(alloc, source, map) {
        Ok(known) => Ok(known),
        Err(_) => Err(MapFault::OutOfMemory),
    }
}
