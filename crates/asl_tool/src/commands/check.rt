//! The command `check`: from a source and a program with lists of one's own to whether these are enough.
ghost use Rattle.std.specs.Prelude.{◌≡◌, true, false, Some, IfOk, IfErr, MatchBool, MatchOption, slice_get, string_bytes, take};
ghost use Rattle.asl_syntax.specs.AstView.{tree_of};
ghost use Rattle.asl_check.specs.Missing.{IsBeforeLists};
ghost use Rattle.asl_check.specs.Refused.{IsRefusedLists};
ghost use Rattle.asl_tool.specs.Check.{AreEnough, HasNoSides, HasSides, IsChecked, IsRefusedCheck, IsRefusedPair, IsRefusedProgram, checked_line};

use crate::command_fault::CommandFault;
use crate::input_program::read_program;
use asl_check::{CheckFault, check, missing};
use asl_code::Program;
use asl_command_line::PathLimit;
use asl_refusal_text::lines_of_checks;
use asl_syntax::{Ast, parse};
use std::alloc::{AllocError, Global};

/// The line that says how many sections were checked, where the input is a source, one byte 0, and a program that is the source's
/// but for its lists, each of which is enough. Of others the refusal names the first lock that is missing, or all where that is asked for.
pub fn checked(
    alloc: Global,
    k_limit: &PathLimit,
    all: bool,
    input: &[u8],
) -> Result<Vec<u8>, CommandFault>
    ensures ok { IfOk result (λ text. IsChecked input.now k_limit.now text.items) }
    ensures err { IfErr result (λ fault. IsRefusedCheck input.now k_limit.now all fault) }
{
    match checked_text(alloc, k_limit, all, input) {
        Ok(text) => Ok(text.into_bytes()),
        Err(fault) => Err(fault),
    }
}

/// The same as a text.
fn checked_text(
    alloc: Global,
    k_limit: &PathLimit,
    all: bool,
    input: &[u8],
) -> Result<String, CommandFault>
    ensures ok { IfOk result (λ text. IsChecked input.now k_limit.now (string_bytes text)) }
    ensures err { IfErr result (λ fault. IsRefusedCheck input.now k_limit.now all fault) }
{
    match sides_of(input) {
        Some((source, program)) => told(alloc, k_limit, all, input, source, program),
        None => Err(CommandFault::NoProgram),
    }
}

/// The line of the two sides of the input.
fn told(
    alloc: Global,
    k_limit: &PathLimit,
    all: bool,
    input: &[u8],
    source: &[u8],
    program: &[u8],
) -> Result<String, CommandFault>
    requires { HasSides input.now source.now program.now }
    ensures ok { IfOk result (λ text. IsChecked input.now k_limit.now (string_bytes text)) }
    ensures err { IfErr result (λ fault. IsRefusedCheck input.now k_limit.now all fault) }
{
    let sections = match sections_of(alloc, k_limit, all, source, program) {
        Ok(sections) => sections,
        Err(fault) => return Err(fault),
    };
    match line_of(alloc, sections) {
        Ok(text) => Ok(text),
        Err(_) => Err(CommandFault::OutOfMemory),
    }
}

/// How many sections the source has, where the program's lists are enough for them.
fn sections_of(
    alloc: Global,
    k_limit: &PathLimit,
    all: bool,
    source: &[u8],
    program: &[u8],
) -> Result<usize, CommandFault>
    ensures ok { IfOk result (λ sections. AreEnough source.now program.now k_limit.now sections) }
    ensures err { IfErr result (λ fault. IsRefusedPair source.now program.now k_limit.now all fault) }
{
    let ast = match parse(alloc, source) {
        Ok(ast) => ast,
        Err(fault) => return Err(CommandFault::Source(fault)),
    };
    let program = match read_program(alloc, program) {
        Ok(program) => program,
        Err(fault) => return Err(CommandFault::Program(fault)),
    };
    match check(alloc, &ast, &program, k_limit.operations()) {
        Ok(()) => Ok(program.lists().len()),
        Err(first) => Err(refused(alloc, &ast, &program, k_limit, all, first)),
    }
}

/// Whether a refusal is of the lists.
fn is_of_lists(fault: &CheckFault) -> bool
    ensures { MatchBool result (IsBeforeLists fault.now → ⊥) (IsBeforeLists fault.now) }
{
    match fault {
        CheckFault::Infer(_) | CheckFault::OtherCode(_) => false,
        CheckFault::Uncovered(_, _) | CheckFault::Unguarded(_, _) => true,
    }
}

/// The refusal of a program that the check refuses with this: with all that its lists lack, where that is asked for.
fn refused(
    alloc: Global,
    ast: &Ast<'_>,
    program: &Program,
    k_limit: &PathLimit,
    all: bool,
    first: CheckFault,
) -> CommandFault
    requires { IsRefusedLists (tree_of ast.now) k_limit.now program.now first }
    ensures { IsRefusedProgram (tree_of ast.now) program.now k_limit.now all result }
{
    if !all {
        return CommandFault::Check(first);
    }
    if !is_of_lists(&first) {
        return CommandFault::Check(first);
    }
    match missing(alloc, ast, program, k_limit.operations()) {
        Ok(faults) => match lines_of_checks(alloc, &faults) {
            Ok(lines) => CommandFault::Missing(first, lines),
            Err(_) => CommandFault::OutOfMemory,
        },
        Err(fault) => CommandFault::Check(fault),
    }
}

/// The line of so many sections.
fn line_of(alloc: Global, sections: usize) -> Result<String, AllocError>
    ensures { IfOk result (λ text. string_bytes text ≡ checked_line sections) }
{
    format!(in alloc; "checked {sections} sections\n")
}

/// What is before the first byte 0 of the input, and what is after it, if there is one.
fn sides_of(input: &[u8]) -> Option<(&[u8], &[u8])>
    ensures { MatchOption result (HasNoSides input.now) (λ sides. HasSides input.now sides.0.now sides.1.now) }
{
    match first_zero(input) {
        Some(at) => {
            let (source, rest) = input.split_at(at);
            Some((source, &rest[1..]))
        }
        None => None,
    }
}

/// The place of the first byte 0.
fn first_zero(input: &[u8]) -> Option<usize>
    ensures { MatchOption result (HasNoSides input.now) (λ at. (slice_get input.now at ≡ Some 0) × HasNoSides (take at input.now)) }
{
    for (place, byte) in input.iter().enumerate() {
        if *byte == 0 {
            return Some(place);
        }
    }
    None
}
