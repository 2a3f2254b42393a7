//! The command `c`: from a source to the C program of the program that is inferred for it.
ghost use Rattle.std.specs.Prelude.{◌≡◌, ◌⊎◌, ◌≤◌, map, IfOk, IfErr, IfSome, OnOk, string_bytes};
ghost use Rattle.asl_tool.specs.declared.command_fault.CommandFault.TheVariants as CommandFault;
ghost use Rattle.asl_tool.specs.C.{IsPrinted, IsPrintedEntries, IsPrintedFor, IsPrintedWhole, IsRefusedEntries, IsRefusedPrinting, IsRefusedWhole, IsUnknownOf};

use crate::command_fault::CommandFault;
use crate::commands::c_names::options_of;
use crate::commands::greatest::program_at;
use asl_code::Program;
use asl_command_line::{PathLimit, Replacement};
use asl_lists::with_entries;
use asl_map::map_of;
use asl_parallel_c::put_program;
use std::alloc::Global;

/// How many operations a path has at most, if that is limited.
fn limit_of(k_limit: &Option<PathLimit>) -> Option<u32>
    ensures value { result ≡ k_limit.now }
    ensures few { IfSome result (λ n. n ≤ 8) }
{
    match k_limit {
        Some(k_limit) => Some(k_limit.operations()),
        None => None,
    }
}

/// The C program of the program that is inferred for the source; where entries are named, for the source with what calls them.
pub fn printed(
    alloc: Global,
    k_limit: &Option<PathLimit>,
    checks: bool,
    entries: &[String],
    externs: &[Replacement],
    source: &[u8],
) -> Result<Vec<u8>, CommandFault>
    ensures ok { IfOk result (λ text. IsPrinted source.now k_limit.now checks (map string_bytes entries.now) externs.now text.items) }
    ensures err { IfErr result (λ fault. IsRefusedPrinting source.now k_limit.now (map string_bytes entries.now) externs.now fault) }
{
    let limit = limit_of(k_limit);
    printed_at(alloc, limit, checks, entries, externs, source)
}

/// The same with paths of at most so many operations.
fn printed_at(
    alloc: Global,
    k: Option<u32>,
    checks: bool,
    entries: &[String],
    externs: &[Replacement],
    source: &[u8],
) -> Result<Vec<u8>, CommandFault>
    requires { IfSome k (λ n. n ≤ 8) }
    ensures ok { IfOk result (λ text. IsPrinted source.now k checks (map string_bytes entries.now) externs.now text.items) }
    ensures err { IfErr result (λ fault. IsRefusedPrinting source.now k (map string_bytes entries.now) externs.now fault) }
{
    if entries.is_empty() {
        return printed_whole(alloc, k, checks, entries, externs, source);
    }
    printed_entries(alloc, k, checks, entries, externs, source)
}

/// The same of a source with entries.
fn printed_entries(
    alloc: Global,
    k: Option<u32>,
    checks: bool,
    entries: &[String],
    externs: &[Replacement],
    source: &[u8],
) -> Result<Vec<u8>, CommandFault>
    requires { IfSome k (λ n. n ≤ 8) }
    ensures ok { IfOk result (λ text. IsPrintedEntries source.now k checks (map string_bytes entries.now) externs.now text.items) }
    ensures err { IfErr result (λ fault. IsRefusedEntries source.now k (map string_bytes entries.now) externs.now fault) }
{
    match with_entries(alloc, source, entries) {
        Ok(whole) => printed_whole(alloc, k, checks, entries, externs, &whole.text),
        Err(_) => Err(CommandFault::OutOfMemory),
    }
}

/// The same of a source with a `main`, of which C calls these functions.
fn printed_whole(
    alloc: Global,
    k: Option<u32>,
    checks: bool,
    entries: &[String],
    externs: &[Replacement],
    source: &[u8],
) -> Result<Vec<u8>, CommandFault>
    requires { IfSome k (λ n. n ≤ 8) }
    ensures ok { IfOk result (λ text. IsPrintedWhole source.now k checks (map string_bytes entries.now) externs.now text.items) }
    ensures err { IfErr result (λ fault. IsRefusedWhole source.now k externs.now fault) }
{
    let program = program_at(alloc, k, source)?;
    text_of(alloc, source, &program, checks, entries, externs)
}

/// The text of the program of an accepted source, which may be refused only where memory runs out, or it lacks a function.
fn text_of(
    alloc: Global,
    source: &[u8],
    program: &Program,
    checks: bool,
    entries: &[String],
    externs: &[Replacement],
) -> Result<Vec<u8>, CommandFault>
    ensures ok { IfOk result (λ text. IsPrintedFor source.now checks (map string_bytes entries.now) externs.now program.now text.items) }
    ensures err { IfErr result (λ fault. (fault ≡ CommandFault.OutOfMemory) ⊎ IsUnknownOf source.now externs.now fault) }
{
    let Ok(map) = map_of(alloc, source) else {
        return Err(CommandFault::OutOfMemory);
    };
    let options = match options_of(alloc, &map, checks, entries, externs) {
        Ok(options) => options,
        Err(fault) => return Err(fault),
    };
    let mut text = Vec::new(alloc);
    match put_program(alloc, &mut text, program, &options) {
        Ok(()) => Ok(text),
        Err(_) => Err(CommandFault::OutOfMemory),
    }
}
