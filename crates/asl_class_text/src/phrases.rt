//! What a step says of the classes, in words.
ghost use Rattle.std.specs.Prelude.{◌≡◌, IfOk, string_bytes};
ghost use Rattle.asl_class_text.specs.Texts.{forward_words, back_words, way_words, owner, merge_words};

use crate::facts::Facts;
use crate::kinds::{Kind, end_of, kind_of, start_of};
use crate::told::ToldStep;
use crate::words::{member_words, place_words};
use asl_class_reasons::Place;
use std::alloc::{AllocError, Global};

/// What a step of a kind says that leads from the first place to the second.
fn forward_words(alloc: Global, kind: Kind, start: &str, end: &str) -> Result<String, AllocError>
    ensures { IfOk result (λ text. string_bytes text ≡ forward_words kind start.now end.now) }
{
    match kind {
        Kind::Address => format!(in alloc; "{end} points to {start}"),
        Kind::Made => format!(in alloc; "{end} points to the new object"),
        Kind::Copied | Kind::Passed => format!(in alloc; "so does {end}"),
        Kind::Field => format!(in alloc; "so does {end}, some cells on"),
        Kind::Loaded => format!(in alloc; "so does {end}, read from these"),
        Kind::Stored => format!(in alloc; "{end} hold it, too"),
        Kind::Returned => format!(in alloc; "so does {end}, the result"),
    }
}

/// What a step of a kind says where a chain goes from the place into which it leads, the first, to the other.
fn back_words(alloc: Global, kind: Kind, start: &str, end: &str) -> Result<String, AllocError>
    ensures { IfOk result (λ text. string_bytes text ≡ back_words kind start.now end.now) }
{
    match kind {
        Kind::Address => format!(in alloc; "{start} points to {end}"),
        Kind::Made => format!(in alloc; "{start} points to the new object"),
        Kind::Copied | Kind::Passed => format!(in alloc; "{start} is {end}, too"),
        Kind::Field => format!(in alloc; "{start} is {end}, some cells on"),
        Kind::Loaded => format!(in alloc; "{start} points to what {end} hold"),
        Kind::Stored => format!(in alloc; "these hold {end}"),
        Kind::Returned => format!(in alloc; "{start} is the result, {end}"),
    }
}

/// What a step by the instruction at a pc says.
pub(crate) fn way_words(
    alloc: Global,
    facts: &Facts<'_>,
    pc: u16,
    told: ToldStep,
) -> Result<String, AllocError>
    ensures { IfOk result (λ text. string_bytes text ≡ way_words facts.now pc told) }
{
    let start = place_words(alloc, facts, start_of(told))?;
    let end = place_words(alloc, facts, end_of(told))?;
    let kind = kind_of(facts, pc, &told.step);
    if told.back {
        back_words(alloc, kind, start.as_str(), end.as_str())
    } else {
        forward_words(alloc, kind, start.as_str(), end.as_str())
    }
}

/// The member of whose class a place is the cells; the first one for other places.
pub(crate) fn owner(place: Place) -> u32
    ensures { result ≡ owner place }
{
    match place {
        Place::Cells(member) => member,
        _ => 0,
    }
}

/// What a step says that joins what the cells of two members hold.
pub(crate) fn merge_words(
    alloc: Global,
    facts: &Facts<'_>,
    told: ToldStep,
) -> Result<String, AllocError>
    ensures { IfOk result (λ text. string_bytes text ≡ merge_words facts.now told) }
{
    let start = member_words(alloc, facts, owner(start_of(told)))?;
    let end = member_words(alloc, facts, owner(end_of(told)))?;
    format!(in alloc; "{start} and {end} are one class, and so is what their cells hold")
}
