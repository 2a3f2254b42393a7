//! What the C text of a source's program is to be like: the names of the source, and the functions that C calls.
ghost use Rattle.std.specs.Prelude.{◌≡◌, ◌≢◌, ◌⊎◌, ◌<◌, take, IfErr, ℕ, [], Some, encode_utf8_all, map, IfOk, IfSome, IfNone, MatchBool, string_bytes};
ghost use Rattle.asl_map.specs.Names.{function_name};
ghost use Rattle.asl_syntax.specs.declared.fault.SyntaxFault.TheVariants as SyntaxFault;
ghost use Rattle.asl_tool.specs.declared.command_fault.CommandFault.TheVariants as CommandFault;
ghost use Rattle.asl_tool.specs.C.{AreLocals, AreOptions, IsUnknownIn, c_entry, c_function, function_words, replaced};

use crate::command_fault::CommandFault;
use asl_command_line::Replacement;
use asl_map::{Map, Named};
use asl_parallel_c::{Extern, Options};
use asl_syntax::{Name, SyntaxFault};
use std::alloc::{AllocError, Global};

/// What the text of the program of a map's source is to be like, where C calls these functions, and its own in place of these.
///
/// # Errors
///
/// `Unknown` of a function in whose place a C function is to be called, and which the source does not have; `OutOfMemory` where an
/// allocation failed.
pub fn options_of(
    alloc: Global,
    source_map: &Map,
    checks: bool,
    entries: &[String],
    externs: &[Replacement],
) -> Result<Options, CommandFault>
    ensures ok { IfOk result (λ options. AreOptions source_map.now checks (map string_bytes entries.now) externs.now options) }
    ensures err { IfErr result (λ fault. (fault ≡ CommandFault.OutOfMemory) ⊎ IsUnknownIn source_map.now externs.now fault) }
{
    let externs = externs_of(alloc, source_map, externs)?;
    match own_options_of(alloc, source_map, checks, entries, externs) {
        Ok(options) => Ok(options),
        Err(_) => Err(CommandFault::OutOfMemory),
    }
}

/// The same with these C functions.
fn own_options_of(
    alloc: Global,
    source_map: &Map,
    checks: bool,
    entries: &[String],
    externs: Vec<Extern>,
) -> Result<Options, AllocError>
    ensures checked { IfOk result (λ options. options.checks ≡ checks) }
    ensures in_place { IfOk result (λ options. options.externs ≡ externs) }
    ensures functions { IfOk result (λ options. map (λ (e : Extern). function_name source_map.now e.function) options.entries.items ≡ map (λ name. Some name) (map string_bytes entries.now)) }
    ensures in_c { IfOk result (λ options. map (λ (e : Extern). string_bytes e.name) options.entries.items ≡ map c_entry (map string_bytes entries.now)) }
    ensures names { IfOk result (λ options. map string_bytes options.names.items ≡ map function_words source_map.now.functions.items) }
    ensures locals { IfOk result (λ options. AreLocals source_map.now.registers.items options.locals.items) }
{
    Ok(Options {
        checks,
        externs,
        entries: entries_of(alloc, source_map, entries)?,
        names: names_of(alloc, &source_map.functions)?,
        locals: locals_of(alloc, &source_map.registers)?,
    })
}

/// The functions in whose place these C functions are called.
fn externs_of(
    alloc: Global,
    source_map: &Map,
    externs: &[Replacement],
) -> Result<Vec<Extern>, CommandFault>
    ensures functions { IfOk result (λ found. map (λ (e : Extern). function_name source_map.now e.function) found.items ≡ map (λ name. Some name) (map replaced externs.now)) }
    ensures in_c { IfOk result (λ found. map (λ (e : Extern). string_bytes e.name) found.items ≡ map c_function externs.now) }
    ensures err { IfErr result (λ fault. (fault ≡ CommandFault.OutOfMemory) ⊎ IsUnknownIn source_map.now externs.now fault) }
{
    let mut found = Vec::new(alloc);
    for one in externs {
        let Some(function) = function_of(source_map, one.function.as_bytes()) else {
            return Err(unknown(one.function.as_bytes()));
        };
        let Ok(name) = String::from_str(alloc, one.name.as_str()) else {
            return Err(CommandFault::OutOfMemory);
        };
        if found.push(Extern { function, name }).is_err() {
            return Err(CommandFault::OutOfMemory);
        }
    }
    Ok(found)
}

/// The refusal of a function that the source does not have: it tells at most 64 bytes of the name.
fn unknown(name: &[u8]) -> CommandFault
    ensures { result ≡ CommandFault.Source (SyntaxFault.Unknown (take 64 name.now)) }
{
    let told = name.len().min(64);
    CommandFault::Source(SyntaxFault::Unknown(Name::from_slice(&name[..told])))
}

/// Whether the function of this number is there, and has the name.
fn is_named(source_map: &Map, number: u16, name: &[u8]) -> bool
    ensures { MatchBool result (function_name source_map.now number ≡ Some name.now) (function_name source_map.now number ≢ Some name.now) }
{
    match source_map.function_name(number) {
        Some(found) => is_same(found.as_slice(), name),
        None => false,
    }
}

/// Whether two names are the same.
fn is_same(name: &[u8], other: &[u8]) -> bool
    ensures { MatchBool result (name.now ≡ other.now) (name.now ≢ other.now) }
{
    if name == other {
        return true;
    }
    false
}

/// The number of the function of a name, if there is one: a source has at most 256 functions.
fn function_of(source_map: &Map, name: &[u8]) -> Option<u16>
    ensures some { IfSome result (λ function. function_name source_map.now function ≡ Some name.now) }
    ensures none { IfNone result ((function : ℕ) → function < 256 → function_name source_map.now function ≢ Some name.now) }
{
    for number in 0..256 {
        if is_named(source_map, number, name) {
            return Some(number);
        }
    }
    None
}

/// The functions of these names, each with its name in C. A map of an accepted source has them.
fn entries_of(alloc: Global, source_map: &Map, names: &[String]) -> Result<Vec<Extern>, AllocError>
    ensures functions { IfOk result (λ entries. map (λ (e : Extern). function_name source_map.now e.function) entries.items ≡ map (λ name. Some name) (map string_bytes names.now)) }
    ensures in_c { IfOk result (λ entries. map (λ (e : Extern). string_bytes e.name) entries.items ≡ map c_entry (map string_bytes names.now)) }
{
    let mut entries = Vec::new(alloc);
    for name in names {
        let Some(function) = function_of(source_map, name.as_bytes()) else {
            return Err(AllocError);
        };
        let name = c_name_of(alloc, name.as_str())?;
        entries.push(Extern { function, name })?;
    }
    Ok(entries)
}

/// The name by which C calls the function of a name: `aslr_entry_` and the name.
fn c_name_of(alloc: Global, name: &str) -> Result<String, AllocError>
    ensures { IfOk result (λ text. string_bytes text ≡ c_entry name.now) }
{
    let mut text = String::from_str(alloc, "aslr_entry_")?;
    text.push_str(name)?;
    Ok(text)
}

/// A name as a text.
fn words_of(alloc: Global, name: &Name) -> Result<String, AllocError>
    ensures { IfOk result (λ text. string_bytes text ≡ encode_utf8_all name.now) }
{
    format!(in alloc; "{name}")
}

/// The names of functions.
fn names_of(alloc: Global, functions: &[Named]) -> Result<Vec<String>, AllocError>
    ensures { IfOk result (λ names. map string_bytes names.items ≡ map function_words functions.now) }
{
    let mut names = Vec::new(alloc);
    for function in functions {
        names.push(words_of(alloc, &function.name)?)?;
    }
    Ok(names)
}

/// Names as texts.
fn all_words_of(alloc: Global, names: &[Name]) -> Result<Vec<String>, AllocError>
    ensures { IfOk result (λ texts. map string_bytes texts.items ≡ map encode_utf8_all names.now) }
{
    let mut texts = Vec::new(alloc);
    for name in names {
        texts.push(words_of(alloc, name)?)?;
    }
    Ok(texts)
}

/// The names of the locals of each function.
fn locals_of(alloc: Global, registers: &[Vec<Name>]) -> Result<Vec<Vec<String>>, AllocError>
    ensures { IfOk result (λ locals. AreLocals registers.now locals.items) }
{
    let mut locals = Vec::new(alloc);
    for names in registers {
        locals.push(all_words_of(alloc, names)?)?;
    }
    Ok(locals)
}
