//! The command `diagnose`: from a source or an assembly text to why it is refused, as a person reads it, and to what the text of a source
//! may lack.
ghost use Rattle.std.specs.Prelude.{◌≡◌, ◌≤◌, ◌++◌, IfOk, IfErr, MatchBool, OnOk, codes, string_bytes};
ghost use Rattle.asl_map.specs.Mapped.{IsOutOfMemory};
ghost use Rattle.asl_warnings.specs.Texts.{headed, joined};
ghost use Rattle.asl_tool.specs.Command.{IsRefusedDiagnose};
ghost use Rattle.asl_tool.specs.Diagnose.{IsDiagnosed, IsToldWhole, AreWarnings};

use crate::command_fault::CommandFault;
use asl_class_text::known_source;
use asl_command_line::PathLimit;
use asl_diagnose::diagnosed;
use asl_lower::LowerFault;
use asl_map::MapFault;
use asl_points_to::ClassesFault;
use asl_syntax::SyntaxFault;
use asl_warnings::warnings_text;
use std::alloc::{AllocError, Global};

/// Why the input is refused, as a person reads it, or nothing where it is not; and where that is asked for, what the text of a source
/// may lack.
pub fn diagnosed_input(
    alloc: Global,
    assembly: bool,
    k_limit: &PathLimit,
    all: bool,
    input: &[u8],
) -> Result<Vec<u8>, CommandFault>
    ensures ok { IfOk result (λ text. IsDiagnosed input.now assembly k_limit.now all text.items) }
    ensures err { IfErr result IsRefusedDiagnose }
{
    match told(alloc, assembly, k_limit, all, input) {
        Ok(text) => Ok(text.into_bytes()),
        Err(_) => Err(CommandFault::OutOfMemory),
    }
}

/// The same as a text.
fn told(
    alloc: Global,
    assembly: bool,
    k_limit: &PathLimit,
    all: bool,
    input: &[u8],
) -> Result<String, AllocError>
    ensures { IfOk result (λ text. IsDiagnosed input.now assembly k_limit.now all (string_bytes text)) }
{
    if assembly || !all {
        let diagnosis = diagnosed(alloc, input, assembly, k_limit.operations())?;
        return Ok(diagnosis);
    }
    let text = told_whole(alloc, k_limit.operations(), input)?;
    Ok(text)
}

/// The diagnosis of a source, and behind it what its text may lack.
fn told_whole(alloc: Global, k: u32, input: &[u8]) -> Result<String, AllocError>
    requires { k ≤ 8 }
    ensures { IfOk result (λ text. IsToldWhole input.now k (string_bytes text)) }
{
    let diagnosis = diagnosed(alloc, input, false, k)?;
    let warnings = warnings_of(alloc, input)?;
    let text = joined(alloc, diagnosis.as_str(), warnings.as_str())?;
    Ok(text)
}

/// What the text of a source may lack; nothing where the source has no classes.
fn warnings_of(alloc: Global, source: &[u8]) -> Result<String, AllocError>
    ensures { IfOk result (λ text. AreWarnings source.now (string_bytes text)) }
{
    match known_source(alloc, source) {
        Ok(known) => warnings_text(alloc, &known),
        Err(fault) => {
            if is_out_of_memory(&fault) {
                return Err(AllocError);
            }
            Ok(String::new(alloc))
        }
    }
}

/// Whether memory was all that was wanting.
fn is_out_of_memory(fault: &MapFault) -> bool
    ensures { MatchBool result (IsOutOfMemory fault.now) (IsOutOfMemory fault.now → ⊥) }
{
    match fault {
        MapFault::Source(cause) => matches!(cause, SyntaxFault::OutOfMemory),
        MapFault::Lower(cause) => matches!(cause, LowerFault::OutOfMemory),
        MapFault::Classes(cause) => matches!(cause, ClassesFault::OutOfMemory),
        MapFault::OutOfMemory => true,
    }
}

/// Adds the warnings behind an empty line; nothing where there are none.
fn push_behind(text: &mut String, warnings: &str) -> Result<(), AllocError>
    ensures { OnOk result (string_bytes text.new ≡ string_bytes text.old ++ headed (codes "\n") warnings.now) }
{
    match warnings.as_bytes().split_first() {
        Some(_) => {
            text.push_str("\n")?;
            text.push_str(warnings)
        }
        None => Ok(()),
    }
}

/// The diagnosis, and behind an empty line the warnings; where there is only one of the two, this alone.
fn joined(alloc: Global, diagnosis: &str, warnings: &str) -> Result<String, AllocError>
    ensures { IfOk result (λ text. string_bytes text ≡ joined diagnosis.now warnings.now) }
{
    let mut text = String::new(alloc);
    match diagnosis.as_bytes().split_first() {
        Some(_) => {
            text.push_str(diagnosis)?;
            push_behind(&mut text, warnings)?;
        }
        None => text.push_str(warnings)?,
    }
    Ok(text)
}
