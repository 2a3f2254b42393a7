//! Members and other places in the words of the source.
ghost use Rattle.std.specs.Prelude.{◌≡◌, ◌+◌, ◌<◌, ◌≤◌, ◌^◌, length, slice_get, IfOk, string_bytes};
ghost use Rattle.std.specs.Option.{option_copied};
ghost use Rattle.std.specs.Fmt.{decimal};
ghost use Rattle.asl_class_text.specs.Texts.{name_words, global_words, site_words, member_words, function_words, register_words, unnamed_words, named_words, cells_words, place_words, locals_of, argument_number, class_of};
ghost use Rattle.asl_class_text.specs.Kinds.{parameters_of};

use crate::facts::Facts;
use crate::statements::{area_of_site, line_of, one_line, stretch};
use asl_class_reasons::Place;
use asl_syntax::Name;
use std::alloc::{AllocError, Global};

/// A name as a text, which is empty where there is none.
fn name_words(alloc: Global, name: Option<&Name>) -> Result<String, AllocError>
    ensures { IfOk result (λ text. string_bytes text ≡ name_words (option_copied name.entry)) }
{
    match name {
        Some(name) => format!(in alloc; "{name}"),
        None => Ok(String::new(alloc)),
    }
}

/// A global: `` `queue` ``.
fn global_words(alloc: Global, facts: &Facts<'_>, global: usize) -> Result<String, AllocError>
    ensures { IfOk result (λ text. string_bytes text ≡ global_words facts.now global) }
{
    let name = name_words(alloc, facts.map.globals.get(global))?;
    format!(in alloc; "`{name}`")
}

/// A site, by its line and its statement: ``line 8 `n = new 2` ``.
fn site_words(alloc: Global, facts: &Facts<'_>, site: usize) -> Result<String, AllocError>
    ensures { IfOk result (λ text. string_bytes text ≡ site_words facts.now site) }
{
    let area = area_of_site(facts, site);
    let line = line_of(facts, area.from);
    let statement = one_line(alloc, stretch(facts.source, area.from, area.to))?;
    format!(in alloc; "line {line} `{statement}`")
}

/// A member.
pub(crate) fn member_words(
    alloc: Global,
    facts: &Facts<'_>,
    member: u32,
) -> Result<String, AllocError>
    ensures { IfOk result (λ text. string_bytes text ≡ member_words facts.now member) }
{
    let member = member as usize;
    let globals = usize::from(facts.lowering.globals());
    if member < globals {
        global_words(alloc, facts, member)
    } else {
        site_words(alloc, facts, member - globals)
    }
}

/// The name of a function.
fn function_words(alloc: Global, facts: &Facts<'_>, function: u16) -> Result<String, AllocError>
    ensures { IfOk result (λ text. string_bytes text ≡ function_words facts.now function) }
{
    name_words(alloc, facts.map.function_name(function))
}

/// How many parameters a function has.
pub(crate) fn parameters_of(facts: &Facts<'_>, function: u16) -> u8
    ensures { result ≡ parameters_of facts.now function }
{
    match facts.lowering.functions().get(usize::from(function)) {
        Some(function) => function.params,
        None => 0,
    }
}

/// How many registers of a function have a name.
fn locals_of(facts: &Facts<'_>, function: u16) -> usize
    ensures { result ≡ locals_of facts.now function }
{
    match facts.map.registers.get(usize::from(function)) {
        Some(names) => names.len(),
        None => 0,
    }
}

/// A register with this name: `` parameter `x` of move ``, `` `a` of main ``.
fn named_words(
    alloc: Global,
    facts: &Facts<'_>,
    function: u16,
    register: u8,
    name: &Name,
) -> Result<String, AllocError>
    ensures { IfOk result (λ text. string_bytes text ≡ named_words facts.now function register name.now) }
{
    let of = function_words(alloc, facts, function)?;
    let kind = if register < parameters_of(facts, function) {
        "parameter "
    } else {
        ""
    };
    format!(in alloc; "{kind}`{name}` of {of}")
}

/// Of which argument a register without a name is, from 1: these registers follow those with names.
#[tactic(auto, unfolding(crate::specs::Texts::argument_number))]
fn argument_number(facts: &Facts<'_>, function: u16, register: u8) -> usize
    ensures { result ≡ argument_number facts.now function register }
{
    (usize::from(register) + 1).saturating_sub(locals_of(facts, function))
}

/// The number of this argument as a text.
fn number_words(
    alloc: Global,
    facts: &Facts<'_>,
    function: u16,
    register: u8,
) -> Result<String, AllocError>
    ensures { IfOk result (λ text. string_bytes text ≡ decimal (argument_number facts.now function register)) }
{
    let number = argument_number(facts, function, register);
    format!(in alloc; "{number}")
}

/// A register without a name, which passes an argument: `argument 1 of calls in main`.
fn unnamed_words(
    alloc: Global,
    facts: &Facts<'_>,
    function: u16,
    register: u8,
) -> Result<String, AllocError>
    ensures { IfOk result (λ text. string_bytes text ≡ unnamed_words facts.now function register) }
{
    let of = function_words(alloc, facts, function)?;
    let number = number_words(alloc, facts, function, register)?;
    format!(in alloc; "argument {number} of calls in {of}")
}

/// A register of a function.
pub fn register_words(
    alloc: Global,
    facts: &Facts<'_>,
    function: u16,
    register: u8,
) -> Result<String, AllocError>
    ensures { IfOk result (λ text. string_bytes text ≡ register_words facts.now function register) }
{
    match facts.map.register_name(function, register) {
        Some(name) => named_words(alloc, facts, function, register, name),
        None => unnamed_words(alloc, facts, function, register),
    }
}

/// The class of a member.
pub(crate) fn class_of(facts: &Facts<'_>, member: u32) -> u16
    ensures { result ≡ class_of facts.now member }
{
    facts.classes.get(member as usize).copied().unwrap_or(0)
}

/// The cells of a member's class.
fn cells_words(alloc: Global, facts: &Facts<'_>, member: u32) -> Result<String, AllocError>
    ensures { IfOk result (λ text. string_bytes text ≡ cells_words facts.now member) }
{
    let class = class_of(facts, member);
    format!(in alloc; "the cells of class {class}")
}

/// A place.
pub(crate) fn place_words(
    alloc: Global,
    facts: &Facts<'_>,
    place: Place,
) -> Result<String, AllocError>
    ensures { IfOk result (λ text. string_bytes text ≡ place_words facts.now place) }
{
    match place {
        Place::Member(member) => member_words(alloc, facts, member),
        Place::Register { function, register } => register_words(alloc, facts, function, register),
        Place::Cells(member) => cells_words(alloc, facts, member),
    }
}
