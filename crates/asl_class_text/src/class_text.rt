//! The text of classes, and from a source to it.
ghost use Rattle.std.specs.Prelude.{◌≡◌, ◌++◌, IfOk, IfErr, OnOk, string_bytes};
ghost use Rattle.asl_map.specs.Mapped.{IsMapped, IsRefusedMapping};
ghost use Rattle.asl_class_text.specs.Numbered.{numbered};
ghost use Rattle.asl_class_text.specs.Texts.{listed_words, left_words, members_line, class_lines, classes_text};
ghost use Rattle.asl_class_text.specs.Classes.{IsClassText};

use crate::facts::Facts;
use crate::lines::{push_grounds, push_pairs};
use crate::making::{shown, told_classes};
use crate::reasoned::reasoned_with;
use crate::told::ToldClass;
use crate::words::member_words;
use asl_map::{Map, MapFault, map_of};
use std::alloc::{AllocError, Global};
use std::fmt::Write;

/// Adds the member with a number in a list.
fn push_member(
    text: &mut String,
    alloc: Global,
    facts: &Facts<'_>,
    number: usize,
    member: u32,
) -> Result<(), AllocError>
    ensures { OnOk result (string_bytes text.new ≡ string_bytes text.old ++ listed_words facts.now number member) }
{
    let between = if number > 0 { ", " } else { "" };
    let words = member_words(alloc, facts, member)?;
    write!(text, "{between}{words}")
}

/// Adds members.
fn push_members(
    text: &mut String,
    alloc: Global,
    facts: &Facts<'_>,
    members: &[u32],
) -> Result<(), AllocError>
    ensures { OnOk result (string_bytes text.new ≡ string_bytes text.old ++ numbered (listed_words facts.now) 0 members.now) }
{
    for (number, member) in members.iter().enumerate() {
        push_member(text, alloc, facts, number, *member)?;
    }
    Ok(())
}

/// Adds how many members are left, if some are.
fn push_left(text: &mut String, left: usize) -> Result<(), AllocError>
    ensures { OnOk result (string_bytes text.new ≡ string_bytes text.old ++ left_words left) }
{
    if left > 0 {
        write!(text, ", and {left} more (--all tells them)")
    } else {
        Ok(())
    }
}

/// Adds the number of a class and its members, all of them or the first.
fn push_head(
    text: &mut String,
    alloc: Global,
    facts: &Facts<'_>,
    all: bool,
    told: &ToldClass,
) -> Result<(), AllocError>
    ensures { OnOk result (string_bytes text.new ≡ string_bytes text.old ++ members_line facts.now all told.now) }
{
    let class = told.class;
    let count = shown(all, told.members.len());
    write!(text, "class {class}: ")?;
    push_members(text, alloc, facts, &told.members[..count])?;
    push_left(text, told.members.len() - count)?;
    text.push_str("\n")
}

/// Adds a class with a number in a list.
fn push_class(
    text: &mut String,
    alloc: Global,
    facts: &Facts<'_>,
    all: bool,
    number: usize,
    told: &ToldClass,
) -> Result<(), AllocError>
    ensures { OnOk result (string_bytes text.new ≡ string_bytes text.old ++ class_lines facts.now all number told.now) }
{
    let between = if number > 0 { "\n" } else { "" };
    text.push_str(between)?;
    push_head(text, alloc, facts, all, told)?;
    push_pairs(text, alloc, facts, &told.pairs)?;
    push_grounds(text, alloc, facts, "  ", &told.grounds)
}

/// The text of all classes.
fn text_of(
    alloc: Global,
    facts: &Facts<'_>,
    all: bool,
    classes: &[ToldClass],
) -> Result<String, AllocError>
    ensures { IfOk result (λ text. string_bytes text ≡ classes_text facts.now all classes.now) }
{
    let mut text = String::new(alloc);
    for (number, told) in classes.iter().enumerate() {
        push_class(&mut text, alloc, facts, all, number, told)?;
    }
    Ok(text)
}

/// The text of the classes of a source with this map.
fn told(alloc: Global, source: &[u8], map: Map, all: bool) -> Result<String, AllocError>
    requires { IsMapped source.now map }
    ensures { IfOk result (λ text. IsClassText source.now all (string_bytes text)) }
{
    let reasoned = reasoned_with(alloc, source, map)?;
    let facts = &reasoned.known.facts;
    let told = told_classes(alloc, facts, &reasoned.reasons, &reasoned.following, all)?;
    text_of(alloc, facts, all, &told)
}

/// The classes of a source, and why their members share them; with `all` all members are told.
///
/// # Errors
///
/// The first fault of the text, of its lowering and of its classes, in this order; `OutOfMemory` where an allocation failed.
pub fn classes_told(alloc: Global, source: &[u8], all: bool) -> Result<String, MapFault>
    ensures told { IfOk result (λ text. IsClassText source.now all (string_bytes text)) }
    ensures refused { IfErr result (IsRefusedMapping source.now) }
{
    let map = map_of(alloc, source)?;
    match told(alloc, source, map, all) {
        Ok(text) => Ok(text),
        Err(_) => Err(MapFault::OutOfMemory),
    }
}
