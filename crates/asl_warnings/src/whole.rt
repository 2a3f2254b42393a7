//! The text of what a program may lack.
ghost use Rattle.std.specs.Prelude.{◌≡◌, ◌++◌, IfOk, OnOk, string_bytes};
ghost use Rattle.asl_warnings.specs.Texts.{headed, joined, unreached_heading, unreached_lines, classless_heading, classless_lines, warnings_text};

use crate::lacking::{classless_lines, unreached_lines};
use asl_class_text::{Facts, Known};
use std::alloc::{AllocError, Global};

/// Adds lines below their heading; nothing where there are none.
fn push_headed(text: &mut String, heading: &str, lines: &str) -> Result<(), AllocError>
    ensures { OnOk result (string_bytes text.new ≡ string_bytes text.old ++ headed heading.now lines.now) }
{
    match lines.as_bytes().split_first() {
        Some(_) => {
            text.push_str(heading)?;
            text.push_str(lines)
        }
        None => Ok(()),
    }
}

/// The functions that `main` does not reach, below their heading.
fn unreached_part(alloc: Global, facts: &Facts<'_>) -> Result<String, AllocError>
    ensures { IfOk result (λ text. string_bytes text ≡ headed unreached_heading (unreached_lines facts.now)) }
{
    let lines = unreached_lines(alloc, facts, &facts.map.functions)?;
    let mut text = String::new(alloc);
    push_headed(
        &mut text,
        "missing in the text: calls of these functions, which main does not reach\n",
        lines.as_str(),
    )?;
    Ok(text)
}

/// The accesses that no class has, below their heading.
fn classless_part(alloc: Global, known: &Known<'_>) -> Result<String, AllocError>
    ensures { IfOk result (λ text. string_bytes text ≡ headed classless_heading (classless_lines known.now.facts known.now.classes)) }
{
    let lines = classless_lines(alloc, known, known.facts.lowering.code())?;
    let mut text = String::new(alloc);
    push_headed(
        &mut text,
        "missing in the text: what fills the pointers of these accesses, which have no lock\n",
        lines.as_str(),
    )?;
    Ok(text)
}

/// A part, and behind an empty line another; where there is only one, this alone.
fn joined(alloc: Global, first: &str, second: &str) -> Result<String, AllocError>
    ensures { IfOk result (λ text. string_bytes text ≡ joined first.now second.now) }
{
    let mut text = String::new(alloc);
    match first.as_bytes().split_first() {
        Some(_) => {
            text.push_str(first)?;
            push_headed(&mut text, "\n", second)?;
        }
        None => text.push_str(second)?,
    }
    Ok(text)
}

/// What the text of a program may lack: the functions that `main` does not reach, with their sections, and the loads and stores through a
/// pointer that points to no class. The text is empty where there are none.
///
/// # Errors
///
/// An allocation failed.
pub fn warnings_text(alloc: Global, known: &Known<'_>) -> Result<String, AllocError>
    ensures { IfOk result (λ text. string_bytes text ≡ warnings_text known.now) }
{
    let unreached = unreached_part(alloc, &known.facts)?;
    let classless = classless_part(alloc, known)?;
    joined(alloc, unreached.as_str(), classless.as_str())
}
